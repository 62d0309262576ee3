//! Where the fields of a query table stand, in device words (JESD68, "CFI Query Structure"), and
//! those of the extended table, from its beginning.

pub(crate) const QRY: usize = 0x10;

pub(crate) const SET: usize = 0x13;

pub(crate) const EXTENDED: usize = 0x15;

pub(crate) const ALTERNATE_SET: usize = 0x17;

pub(crate) const ALTERNATE_EXTENDED: usize = 0x19;

pub(crate) const VOLTS: usize = 0x1B;

pub(crate) const TIMES: usize = 0x1F;

pub(crate) const SIZE: usize = 0x27;

pub(crate) const INTERFACE: usize = 0x28;

pub(crate) const BUFFER: usize = 0x2A;

pub(crate) const REGION_COUNT: usize = 0x2C;

pub(crate) const REGIONS: usize = 0x2D;

pub(crate) const REGION_LEN: usize = 4;

pub(crate) const TABLE_LEN: usize = 512;

pub(crate) const MAJOR: usize = 3;

pub(crate) const MINOR: usize = 4;

// Of the Intel set: four bytes of features, and what may be done while an erase is suspended.
pub(crate) const FEATURES: usize = 5;

pub(crate) const IN_SUSPEND: usize = 9;

pub(crate) const INTEL_LEN: usize = 10;

// Of the Amd set.
pub(crate) const SUSPEND: usize = 6;

pub(crate) const PROTECT: usize = 9;

pub(crate) const BOOT: usize = 15;

pub(crate) const AMD_LEN: usize = 16;
