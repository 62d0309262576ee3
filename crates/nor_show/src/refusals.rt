ghost use Rattle.std.specs.Prelude.{◌≡◌, Some, IfOk, string_bytes};
ghost use Rattle.nor_show.specs.Refusals.{kind_text, query_text, difference_text};

use crate::{HexByte, HexWord};
use nor_query::{QueryError, QueryKind};
use std::alloc::{AllocError, Global};
use std::fmt::{self, Write};

/// What is out of range in a query table, as text.
#[derive(Clone, Copy, Debug, PartialEq, Eq)]
pub struct KindText(pub QueryKind);

impl fmt::Display for KindText {
    ghost output = { λ kind. Some (kind_text kind.0) };

    fn fmt<W: fmt::Write>(&self, f: &mut fmt::Formatter<W>) -> fmt::Result {
        match self.0 {
            QueryKind::NoQry => write!(f, "no qry"),
            QueryKind::UnknownSet(set) => {
                let set = HexWord(set);
                write!(f, "set {set}")
            }
            QueryKind::BadSize(size) => write!(f, "size {size}"),
            QueryKind::BadInterface(interface) => write!(f, "interface {interface}"),
            QueryKind::NoRegions => write!(f, "no regions"),
            QueryKind::TooManyRegions(regions) => write!(f, "{regions} regions"),
            QueryKind::BadExtended => write!(f, "extended"),
            QueryKind::UnknownVersion => write!(f, "version"),
            QueryKind::SizeMismatch { sum, size } => write!(f, "sum {sum} size {size}"),
        }
    }
}

/// The first byte of a query table that is out of range, as text. Its place is a device word.
#[derive(Clone, Copy, Debug, PartialEq, Eq)]
pub struct QueryText(pub QueryError);

impl fmt::Display for QueryText {
    ghost output = { λ error. Some (query_text error.0) };

    fn fmt<W: fmt::Write>(&self, f: &mut fmt::Formatter<W>) -> fmt::Result {
        let at = self.0.at;
        let kind = KindText(self.0.kind);
        write!(f, "query at 0x{at:x}: {kind}")
    }
}

/// Where the query table of a lane isn't that of lane 0, as text: the first device word that differs,
/// and what lane 0 and the lane have there.
pub fn difference_text(
    alloc: Global,
    lane: u8,
    offset: u16,
    left: u8,
    right: u8,
) -> Result<String, AllocError>
    ensures { IfOk result (λ text. string_bytes text ≡ difference_text lane offset left right) }
{
    let left = HexByte(left);
    let right = HexByte(right);
    let mut text = String::new(alloc);
    write!(text, "lane {lane} differs at 0x{offset:x}")?;
    write!(text, ": {left} {right}")?;
    Ok(text)
}
