/// What is out of range in a query table.
#[derive(Clone, Copy, Debug, PartialEq, Eq)]
pub enum QueryKind {
    /// The words `Q`, `R`, `Y` aren't there.
    NoQry,
    /// The primary command set is neither 0x0001 nor 0x0002.
    UnknownSet(u16),
    /// The size isn't from 2^12 to 2^27 bytes; the number is the exponent.
    BadSize(u8),
    /// The interface is none of x8, x16 and both.
    BadInterface(u16),
    NoRegions,
    /// More than eight erase regions.
    TooManyRegions(u8),
    /// The extended table doesn't lie behind the regions and in the table, or lacks `P`, `R`, `I`.
    BadExtended,
    /// The version of the extended table isn't one of 1.0 to 1.5.
    UnknownVersion,
    /// The regions have `sum` bytes, and the chip has `size`.
    SizeMismatch { sum: u64, size: u64 },
}

/// The first check of a query table that doesn't hold, and the device word that it looks at.
#[derive(Clone, Copy, Debug, PartialEq, Eq)]
pub struct QueryError {
    pub at: u16,
    pub kind: QueryKind,
}
