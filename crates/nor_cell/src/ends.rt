//! What the simulated chips do to their cells at the end of a job, and when power is lost in it.
ghost use Rattle.std.specs.Prelude.{◌≡◌, ◌+◌, ◌-◌, ◌<◌, ◌≤◌, ◌^◌, ℕ, true, false, length, slice_index, bit_and, bit_or, is_some, unwrap_or, IfSome};
ghost use Rattle.nor_cell.specs.Bits.{IsBetween, ChangesWithin, AreBytes};
ghost use Rattle.nor_cell.specs.Chip.{span_end, is_within};
ghost use Rattle.nor_cell.specs.Look.{breaks, would_change, break_of, Programmed, is_weak, Erased};
ghost use Rattle.nor_cell.specs.Simulated.{TornProgram, TornErase};

use crate::Span;
use crate::bits::byte_at;

// The bits that stay in the weak unit at which a program breaks off.
const TORN_PROGRAM: u8 = 0x0F;
// The bits that are set in a block whose erase breaks off.
const TORN_ERASE: u8 = 0xF0;

// Stores old AND datum from a place on.
fn store(cells: &mut [u8], at: usize, bytes: &[u8])
    requires { at + length bytes.now ≤ length cells.old }
    ensures { ChangesWithin at (at + length bytes.now)
        (λ p x. x ≡ bit_and (slice_index cells.old p) (slice_index bytes.now (p - at)))
        cells.old cells.new }
{
    for i in 0..bytes.len() {
        cells[at + i] &= bytes[i];
    }
}

/// Stores half-way: old AND (datum OR mask).
pub(crate) fn store_partly(cells: &mut [u8], at: usize, bytes: &[u8], mask: u8)
    requires { at + length bytes.now ≤ length cells.old }
    ensures left { ChangesWithin at (at + length bytes.now)
        (λ p x. x ≡ bit_and (slice_index cells.old p) (bit_or (slice_index bytes.now (p - at)) mask))
        cells.old cells.new }
    ensures between { ChangesWithin at (at + length bytes.now)
        (λ p x. IsBetween (slice_index cells.old p) (slice_index bytes.now (p - at)) x)
        cells.old cells.new }
{
    for i in 0..bytes.len() {
        cells[at + i] &= bytes[i] | mask;
    }
}

/// Sets the bits of the mask in each byte of a span.
pub(crate) fn set_bits(cells: &mut [u8], span: Span, mask: u8)
    requires { span_end span ≤ length cells.old }
    ensures range { ChangesWithin span.from (span_end span)
        (λ p x. x ≡ bit_or (slice_index cells.old p) mask) cells.old cells.new }
    ensures bytes { AreBytes cells.new }
    ensures inside { (p : ℕ) → is_within span p ≡ true
        → slice_index cells.new p ≡ bit_or (slice_index cells.old p) mask }
    ensures outside { (p : ℕ) → is_within span p ≡ false
        → slice_index cells.new p ≡ slice_index cells.old p }
{
    for p in span.from as usize..span.from as usize + span.len as usize {
        cells[p] |= mask;
    }
}

// Whether programming the datum clears a bit.
fn would_change(old: u8, datum: u8) -> bool
    ensures { result ≡ would_change old datum }
{
    old & datum != old
}

// Whether the weak unit at a place lies in what is programmed, and would change.
fn breaks(cells: &[u8], unit: usize, at: usize, bytes: &[u8], weak: usize) -> bool
    requires unit { 0 < unit }
    requires small { unit < 3 }
    requires places { weak < 2 ^ 32 }
    requires fits { at + length bytes.now < 2 ^ 32 }
    ensures { result ≡ breaks unit at bytes.now cells.now weak }
{
    weak >= at
        && weak < at + bytes.len()
        && (would_change(byte_at(cells, weak), byte_at(bytes, weak - at))
            || would_change(
                byte_at(cells, weak + (unit - 1)),
                byte_at(bytes, weak + (unit - 1) - at),
            ))
}

// The first weak place at which programming breaks off.
fn find_break(cells: &[u8], weak: &[u32], unit: usize, at: usize, bytes: &[u8]) -> Option<u32>
    requires unit { 0 < unit }
    requires small { unit < 3 }
    requires fits { at + length bytes.now < 2 ^ 32 }
    ensures { result ≡ break_of unit weak.now at bytes.now cells.now }
{
    weak.iter()
        .copied()
        .find(|w| breaks(cells, unit, at, bytes, *w as usize))
}

// The same, with the fact that it lies in what is programmed.
fn break_place(cells: &[u8], weak: &[u32], unit: usize, at: usize, bytes: &[u8]) -> Option<u32>
    requires unit { 0 < unit }
    requires small { unit < 3 }
    requires fits { at + length bytes.now < 2 ^ 32 }
    ensures first { result ≡ break_of unit weak.now at bytes.now cells.now }
    ensures inside { IfSome result (λ w. (at ≤ w) × (w < at + length bytes.now)) }
{
    find_break(cells, weak, unit, at, bytes)
}

/// The end of a program. It answers whether it broke off.
pub(crate) fn program(cells: &mut [u8], weak: &[u32], unit: usize, at: usize, bytes: &[u8]) -> bool
    requires unit { 0 < unit }
    requires small { unit < 3 }
    requires fits { at + length bytes.now < 2 ^ 32 }
    requires inside { at + length bytes.now ≤ length cells.old }
    ensures cells { Programmed unit weak.now at bytes.now cells.old cells.new }
    ensures torn { TornProgram unit weak.now at bytes.now cells.old cells.new }
    ensures broke { result ≡ is_some (break_of unit weak.now at bytes.now cells.old) }
{
    match break_place(cells, weak, unit, at, bytes) {
        None => {
            store(cells, at, bytes);
            false
        }
        Some(place) => {
            let done = place as usize - at;
            let end = (done + unit).min(bytes.len());
            store(cells, at, &bytes[..done]);
            store_partly(cells, at + done, &bytes[done..end], TORN_PROGRAM);
            true
        }
    }
}

// Whether a weak place lies in the span.
fn is_weak(weak: &[u32], span: Span) -> bool
    requires { span_end span < 2 ^ 32 }
    ensures { result ≡ is_weak weak.now span }
{
    weak.iter()
        .any(|w| span.from <= *w && *w < span.from + span.len)
}

/// The end of an erase. It answers whether it broke off.
pub(crate) fn erase(cells: &mut [u8], weak: &[u32], span: Span) -> bool
    requires fits { span_end span < 2 ^ 32 }
    requires inside { span_end span ≤ length cells.old }
    ensures cells { Erased weak.now span cells.old cells.new }
    ensures torn { TornErase weak.now span cells.old cells.new }
    ensures broke { result ≡ is_weak weak.now span }
{
    let broke = is_weak(weak, span);
    set_bits(cells, span, if broke { TORN_ERASE } else { 0xFF });
    broke
}
