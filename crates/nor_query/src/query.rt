use arrayvec::ArrayVec;
use nor_cell::Set;
use nor_region::Region;

/// What the primary extended table says. Of the Intel set: the features (bit 1 erase suspend, bit
/// 5 instant block locking), and in bit 0 of `in_suspend` whether words may be programmed while an
/// erase is suspended. Of the Amd set: erase suspend (1 to read, 2 to read and program), sector
/// protection (8 is advanced sector protection), and the boot location (2 bottom, 3 top).
#[derive(Clone, Copy, Debug, PartialEq, Eq)]
pub enum Extended {
    Intel { features: u32, in_suspend: u8 },
    Amd { suspend: u8, protect: u8, boot: u8 },
}

/// A decoded query table (JESD68).
#[derive(Clone, Debug, PartialEq, Eq, Drop)]
pub struct Query {
    /// The primary command set.
    pub set: Set,
    /// Where the primary extended table begins, in device words.
    pub ext: u16,
    /// The alternate command set, and where its extended table begins; 0 for none.
    pub alt_set: u16,
    pub alt_ext: u16,
    /// The supply voltages, as the table has them: least and greatest Vcc, least and greatest Vpp.
    pub volts: [u8; 4],
    /// Exponents of 2: the typical times to program a word and a buffer (µs) and to erase a block
    /// and the chip (ms), and the greatest times in the same order, as factors on the typical ones.
    pub times: [u8; 8],
    /// The chip has 2 to this power bytes.
    pub size_log: u8,
    /// 0 for x8, 1 for x16, 2 for x8 and x16.
    pub interface: u16,
    /// The write buffer has 2 to this power bytes; 0 is no buffer.
    pub buffer_log: u16,
    /// The erase regions in the table's order.
    pub regions: ArrayVec<Region, 8>,
    /// The minor version of the extended table, whose major version is 1.
    pub minor: u8,
    pub extended: Extended,
    /// The bytes that no field names, at their places, and 0 in the other places.
    pub rest: [u8; 512],
}
