use std::alloc::{AllocError, AllocFailed};

/// Why a file stands for no bank. Places are in bytes from the file's start.
#[derive(Clone, Copy, Debug, PartialEq, Eq)]
pub enum ImageError {
    /// The file begins with other eight bytes than `NORBANK1` and `NORBANK2`.
    BadMagic,
    /// The field at this place has a value that it may not have.
    BadHeader { at: u32 },
    /// A field isn't whole: the file ends here.
    Truncated { at: u32 },
    /// The last record ends here, and the file goes on.
    Trailing { at: u32 },
    /// The chip of this lane may have its size, but lane 0's has another.
    SizeDiffers { lane: u8 },
    /// Memory ran out.
    NoMemory,
}

impl From<AllocError> for ImageError {
    ghost use Rattle.std.specs.Prelude.{◌≡◌};
    ghost use Rattle.nor_image.specs.declared.error.ImageError.TheVariants.{NoMemory};

    ghost from_gives = { λ _ e. e ≡ NoMemory };

    fn from(_: AllocError) -> Self {
        ImageError::NoMemory
    }
}

impl<T: Drop> From<AllocFailed<T>> for ImageError {
    ghost use Rattle.std.specs.Prelude.{◌≡◌};
    ghost use Rattle.nor_image.specs.declared.error.ImageError.TheVariants.{NoMemory};

    ghost from_gives = { λ _ e. e ≡ NoMemory };

    fn from(_: AllocFailed<T>) -> Self {
        ImageError::NoMemory
    }
}
