//! Where a program would change bytes, and what it may leave.
ghost use Rattle.std.specs.Prelude.{◌≡◌, ◌<◌, ◌+◌, ◌-◌, ◌↔◌, slice_index, IsTrue};
ghost use Rattle.nor_array.specs.Array.{range};
ghost use Rattle.nor_array.specs.Admits.{AllBetween, would_change, span_changes, program_breaks};
ghost use Rattle.nor_array.specs.Admits.{breaks_here, breaks_before, FailsWithin, ProgramEnds};

use crate::refuse::meets;
use crate::{PlainArray, Reply};
use nor_cell::{Span, is_between};

// The byte at a place, and 0 behind the end.
pub(crate) fn byte_at(bytes: &[u8], at: usize) -> u8
    ensures { result ≡ slice_index bytes.now at }
{
    if at < bytes.len() { bytes[at] } else { 0 }
}

// The bytes of a range, as far as there are any.
pub(crate) fn range(bytes: &[u8], at: usize, len: usize) -> &[u8]
    ensures { result.now ≡ range bytes.now at len }
{
    let start = at.min(bytes.len());
    let count = len.min(bytes.len() - start);
    &bytes[start..start + count]
}

// Whether each byte is one that programming the data may leave of the old one.
pub(crate) fn all_between(old: &[u8], new: &[u8], bytes: &[u8]) -> bool
    ensures { IsTrue result ↔ AllBetween old.now new.now bytes.now }
{
    if bytes.len() != old.len() {
        return false;
    }
    for k in 0..old.len() {
        if !is_between(bytes[k], old[k], byte_at(new, k)) {
            return false;
        }
    }
    true
}

// Whether a place lies in the range and programming it would clear a bit.
fn would_change(old: &[u8], at: u32, new: &[u8], place: u64) -> bool
    ensures { result ≡ would_change old.now at new.now place }
{
    let at = u64::from(at);
    if place < at || (place - at) as usize >= new.len() {
        return false;
    }
    let byte = byte_at(old, place as usize);
    byte & byte_at(new, (place - at) as usize) != byte
}

// Whether a byte of the span lies in the range and would change.
fn span_changes(old: &[u8], at: u32, new: &[u8], span: Span) -> bool
    ensures { result ≡ span_changes old.now at new.now span }
{
    let from = u64::from(span.from);
    for place in from..from + u64::from(span.len) {
        if would_change(old, at, new, place) {
            return true;
        }
    }
    false
}

// Whether a weak span would change.
fn program_breaks(array: &PlainArray, at: u32, new: &[u8]) -> bool
    ensures { result ≡ program_breaks array.now at new.now }
{
    let old = &array.bytes;
    let weak = &array.consts.weak;
    weak.iter().any(|span| span_changes(old, at, new, *span))
}

// Whether one would that meets a part of the range.
fn breaks_here(array: &PlainArray, at: u32, new: &[u8], from: u32, len: usize) -> bool
    ensures { result ≡ breaks_here array.now at new.now from len }
{
    let old = &array.bytes;
    let weak = &array.consts.weak;
    weak.iter().any(|span| meets(from, len, *span) && span_changes(old, at, new, *span))
}

// Whether one would that ends before a place.
fn breaks_before(array: &PlainArray, at: u32, new: &[u8], from: u32) -> bool
    ensures { result ≡ breaks_before array.now at new.now from }
{
    let old = &array.bytes;
    let weak = &array.consts.weak;
    weak.iter().any(|span| {
        u64::from(span.from) + u64::from(span.len) <= u64::from(from)
            && span_changes(old, at, new, *span)
    })
}

// Whether a program may fail from a place up to another one, and leave these bytes there.
fn fails_within(array: &PlainArray, at: u32, new: &[u8], from: u32, to: u32, bytes: &[u8]) -> bool
    ensures { IsTrue result ↔ FailsWithin array.now at new.now from to bytes.now }
{
    if from < at || to <= from || (to - at) as usize > new.len() {
        return false;
    }
    let len = (to - from) as usize;
    breaks_here(array, at, new, from, len)
        && !breaks_before(array, at, new, from)
        && all_between(
            range(&array.bytes, from as usize, len),
            range(new, (from - at) as usize, len),
            bytes,
        )
}

// Whether a program that nothing refuses or halts may end so.
pub(crate) fn program_ends(
    array: &PlainArray,
    at: u32,
    new: &[u8],
    reply: Reply,
    bytes: &[u8],
) -> bool
    ensures { IsTrue result ↔ ProgramEnds array.now at new.now reply bytes.now }
{
    match reply {
        Reply::Done => !program_breaks(array, at, new) && bytes.is_empty(),
        Reply::Failed { from, to, .. } => {
            program_breaks(array, at, new) && fails_within(array, at, new, from, to, bytes)
        }
        _ => false,
    }
}
