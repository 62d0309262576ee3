//! Query tables.

use nor_cell::{Device, Set};

// A query table from 0x10 on: eight blocks of 1 KiB, no buffer, and an erase of all at once. A word takes at
// most 2^(4 + 2) reads.
const HEAD: [u8; 33] = [
    0x51, 0x52, 0x59, 0x01, 0x00, 0x31, 0x00, 0x00, 0x00, 0x00, 0x00, 0x27, 0x36, 0x00, 0x00, 0x04,
    0x06, 0x0a, 0x0a, 0x02, 0x02, 0x02, 0x02, 0x0d, 0x01, 0x00, 0x00, 0x00, 0x01, 0x07, 0x00, 0x04,
    0x00,
];

// The extended tables of the sets, from 0x31 on: an erase may be suspended for reads, no locks.
const INTEL: [u8; 16] = [
    0x50, 0x52, 0x49, 0x31, 0x31, 0x02, 0x00, 0x00, 0x00, 0x00, 0, 0, 0, 0, 0, 0,
];

const AMD: [u8; 16] = [
    0x50, 0x52, 0x49, 0x31, 0x33, 0x00, 0x01, 0x01, 0x00, 0x00, 0, 0, 0, 0, 0, 2,
];

/// The query table of a chip of 8 KiB in eight blocks. It offers suspend, and neither a buffer nor locks.
pub fn table(device: Device, set: Set) -> [u8; 512] {
    let mut table = [0; 512];
    table[0x10..0x31].copy_from_slice(&HEAD);
    table[0x28] = match device {
        Device::X8 => 0,
        Device::X16 => 1,
        Device::X16Byte => 2,
    };
    match set {
        Set::Intel => table[0x31..0x41].copy_from_slice(&INTEL),
        Set::Amd => {
            table[0x13] = 2;
            table[0x31..0x41].copy_from_slice(&AMD);
        }
    }
    table
}

/// The same of a chip that may also offer programs beside a suspended erase.
pub fn suspend_table(device: Device, set: Set, programs: bool) -> [u8; 512] {
    let mut table = table(device, set);
    if programs {
        match set {
            Set::Intel => table[0x3A] = 0x01,
            Set::Amd => table[0x37] = 0x02,
        }
    }
    table
}

/// The same with all that a set can offer: a buffer of 32 bytes, programs beside a suspended erase, locks.
pub fn whole_table(set: Set) -> [u8; 512] {
    let mut table = table(Device::X16, set);
    table[0x2A] = 5;
    match set {
        Set::Intel => {
            table[0x36] = 0x22;
            table[0x3A] = 0x01;
        }
        Set::Amd => {
            table[0x37] = 0x02;
            table[0x3A] = 0x08;
        }
    }
    table
}
