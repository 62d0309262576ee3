//! Edits of a range of bytes.
ghost use Rattle.std.specs.Prelude.{◌≡◌, ◌≤◌, ◌+◌, length, replicate};
ghost use Rattle.nor_array.specs.Array.{put};
ghost use Rattle.nor_array.specs.After.{all_and, programmed};

// Puts bytes in the place of as many, from a place on.
pub(crate) fn put(bytes: &mut [u8], at: usize, new: &[u8])
    requires { at + length new.now ≤ length bytes.old }
    ensures { bytes.new ≡ put bytes.old at new.now }
{
    bytes[at..at + new.len()].copy_from_slice(new);
}

// The same with so many bytes of 0xFF.
pub(crate) fn put_ones(bytes: &mut [u8], at: usize, len: usize)
    requires { at + len ≤ length bytes.old }
    ensures { bytes.new ≡ put bytes.old at (replicate len 0xFF) }
{
    bytes[at..at + len].fill(0xFF);
}

// Each byte becomes old AND new.
fn and_each(bytes: &mut [u8], new: &[u8])
    requires { length new.now ≡ length bytes.old }
    ensures { bytes.new ≡ all_and bytes.old new.now }
{
    for i in 0..new.len() {
        bytes[i] &= new[i];
    }
}

// Programs the bytes from a place on.
pub(crate) fn program(bytes: &mut [u8], at: usize, new: &[u8])
    requires { at + length new.now ≤ length bytes.old }
    ensures { bytes.new ≡ programmed bytes.old at new.now }
{
    and_each(&mut bytes[at..at + new.len()], new);
}
