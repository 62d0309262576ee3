//! The query tables of the chips.
ghost use Rattle.std.specs.Prelude.{◌≡◌};
ghost use Rattle.nor_drill.specs.Drill.{head_of, extended_of, table_of};

use nor_cell::Set;

fn head_of(set: Set) -> [u8; 33]
    ensures { result ≡ head_of set }
{
    let code = match set {
        Set::Intel => 1,
        Set::Amd => 2,
    };
    [
        0x51, 0x52, 0x59, code, 0x00, 0x31, 0x00, 0x00, 0x00, 0x00, 0x00, 0x27, 0x36, 0x00, 0x00,
        0x04, 0x06, 0x0a, 0x00, 0x02, 0x02, 0x02, 0x00, 0x0d, 0x01, 0x00, 0x05, 0x00, 0x01, 0x07,
        0x00, 0x04, 0x00,
    ]
}

fn extended_of(set: Set) -> [u8; 16]
    ensures { result ≡ extended_of set }
{
    match set {
        Set::Intel => [
            0x50, 0x52, 0x49, 0x31, 0x31, 0x22, 0x00, 0x00, 0x00, 0x01, 0, 0, 0, 0, 0, 0,
        ],
        Set::Amd => [
            0x50, 0x52, 0x49, 0x31, 0x33, 0x00, 0x02, 0x01, 0x00, 0x08, 0, 0, 0, 0, 0, 2,
        ],
    }
}

/// The query table of a chip of 8 KiB in eight blocks, with all that a set can offer but the erase of all.
pub fn table_of(set: Set) -> [u8; 512]
    ensures { result ≡ table_of set }
{
    let mut table = [0; 512];
    table[0x10..0x31].copy_from_slice(&head_of(set));
    table[0x31..0x41].copy_from_slice(&extended_of(set));
    table
}
