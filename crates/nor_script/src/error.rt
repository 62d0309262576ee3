use std::alloc::{AllocError, AllocFailed};

/// What is wrong with a line. Within a line the checks are made in this order.
#[derive(Clone, Copy, Debug, PartialEq, Eq)]
pub enum LineKind {
    /// A byte isn't one of 0x20 to 0x7E.
    Bytes,
    /// The line doesn't begin with `cut`, `reboot` or a caller and what it calls.
    Word,
    /// The line has more or fewer fields than its call takes.
    Count,
    /// A field is no number, or a mask is above 255.
    Number,
    /// The data are neither an even number of hex digits, at least two, nor a dash.
    Hex,
    /// The line can't stand in a script for callers that race, or not behind a caller's line.
    NotHere,
}

/// Why a text is no script. Lines are counted from 1.
#[derive(Clone, Copy, Debug, PartialEq, Eq)]
pub enum ScriptError {
    /// This line, the first bad one, isn't in the grammar.
    BadLine { line: u32, kind: LineKind },
    /// This line, the first bad one, has a caller that isn't 1 to 8.
    BadCaller { line: u32 },
    /// There are more than 65,536 command lines, and the first 65,536 are good.
    TooManyLines,
    /// Memory ran out.
    NoMemory,
}

impl From<AllocError> for ScriptError {
    ghost use Rattle.std.specs.Prelude.{◌≡◌};
    ghost use Rattle.nor_script.specs.declared.error.ScriptError.TheVariants.{NoMemory};

    ghost from_gives = { λ _ e. e ≡ NoMemory };

    fn from(_: AllocError) -> Self {
        ScriptError::NoMemory
    }
}

impl<T: Drop> From<AllocFailed<T>> for ScriptError {
    ghost use Rattle.std.specs.Prelude.{◌≡◌};
    ghost use Rattle.nor_script.specs.declared.error.ScriptError.TheVariants.{NoMemory};

    ghost from_gives = { λ _ e. e ≡ NoMemory };

    fn from(_: AllocFailed<T>) -> Self {
        ScriptError::NoMemory
    }
}
