//! What an entry makes of an array.
ghost use Rattle.std.specs.Prelude.{◌≡◌, ◌<◌, ◌≤◌, ◌+◌, length, replicate, false};
ghost use Rattle.nor_array.specs.Array.{put as put_bytes, open_span};
ghost use Rattle.nor_array.specs.After.{programmed, with_lock, after_done, after_opened, closed, after_erased};
ghost use Rattle.nor_array.specs.After.{after_failed, power_of, names_locked, left_by, after_halted, after};
ghost use Rattle.nor_array.specs.Needs.{needs_of};
ghost use Rattle.nor_array.specs.Refusals.{is_outside};
ghost use Rattle.nor_array.specs.Admits.{Admits};
ghost use Rattle.nor_array.specs.Fits.{FailFits, LeftFits, HaltFits};

use crate::admit::open_span;
use crate::program::byte_at;
use crate::{
    ArmedCut, Entry, Halted, Op, OpenErase, PlainArray, Power, Reply, Target, bytes_edits,
};

// Puts bytes in the place of as many.
fn put(array: &mut PlainArray, at: u32, new: &[u8])
    requires { at + length new.now ≤ length (array.old).bytes }
    ensures { array.new ≡ record array.old { bytes = put_bytes (array.old).bytes at new.now } }
{
    bytes_edits::put(&mut array.bytes, at as usize, new);
}

// The same with so many bytes of 0xFF.
fn put_ones(array: &mut PlainArray, at: u32, len: u32)
    requires { at + len ≤ length (array.old).bytes }
    ensures { array.new
        ≡ record array.old { bytes = put_bytes (array.old).bytes at (replicate len 0xFF) } }
{
    bytes_edits::put_ones(&mut array.bytes, at as usize, len as usize);
}

// Programs the bytes from a place on.
fn program(array: &mut PlainArray, at: u32, new: &[u8])
    requires { at + length new.now ≤ length (array.old).bytes }
    ensures { array.new ≡ record array.old { bytes = programmed (array.old).bytes at new.now } }
{
    bytes_edits::program(&mut array.bytes, at as usize, new);
}

fn set_lock(array: &mut PlainArray, block: u32, locked: bool)
    requires { block < length (array.old).consts.blocks }
    ensures { array.new ≡ with_lock block locked array.old }
{
    array.locks[block as usize] = locked;
}

fn power_on(array: &mut PlainArray)
    ensures { array.new ≡ after_done Op.PowerOn array.old }
{
    array.power = Power::On;
    array.under = None;
    array.armed = None;
    if !array.consts.keeps {
        array.locks.fill(array.consts.has_locks);
    }
}

fn apply_done(array: &mut PlainArray, op: &Op)
    requires { is_outside array.old (needs_of op.now).reach ≡ false }
    ensures { array.new ≡ after_done op.now array.old }
{
    match op {
        Op::Program { at, new } => program(array, *at, new.as_slice()),
        Op::Lock { block } => set_lock(array, *block, true),
        Op::Unlock { block } => set_lock(array, *block, false),
        Op::Arm { after, mask } => {
            array.armed = Some(ArmedCut {
                after: *after,
                mask: *mask,
            });
        }
        Op::PowerOn => power_on(array),
        _ => {}
    }
}

fn apply_opened(array: &mut PlainArray, op: &Op, caller: u8)
    requires { is_outside array.old (needs_of op.now).reach ≡ false }
    ensures { array.new ≡ after_opened op.now caller array.old }
{
    match op {
        Op::EraseOpen { block } => {
            let target = Target::OneBlock { block: *block };
            array.under = Some(OpenErase { target, caller });
        }
        Op::EraseAll => {
            let target = Target::AllBlocks;
            array.under = Some(OpenErase { target, caller });
        }
        _ => {}
    }
}

// What is under erase gets these bytes, and nothing is under erase any more.
fn close(array: &mut PlainArray, bytes: &[u8])
    requires { length bytes.now ≡ (open_span array.old).len }
    ensures { array.new ≡ closed bytes.now array.old }
{
    let open = open_span(array);
    put(array, open.from, bytes);
    array.under = None;
}

fn apply_erased(array: &mut PlainArray, op: &Op)
    ensures { array.new ≡ after_erased op.now array.old }
{
    if let Op::Poll = op {
        let open = open_span(array);
        put_ones(array, open.from, open.len);
        array.under = None;
    }
}

fn apply_failed(array: &mut PlainArray, op: &Op, from: u32, bytes: &[u8])
    requires { FailFits op.now array.old from bytes.now }
    ensures { array.new ≡ after_failed op.now from bytes.now array.old }
{
    match op {
        Op::Program { at, new } => {
            let stored = (from - *at) as usize;
            program(array, *at, &new.as_slice()[..stored]);
            put(array, from, bytes);
        }
        Op::Poll => close(array, bytes),
        _ => {}
    }
}

fn power_of(cause: Halted) -> Power
    ensures { result ≡ power_of cause }
{
    match cause {
        Halted::Off { .. } => Power::Off,
        Halted::Stuck { lane } => Power::Stuck { lane },
    }
}

// Whether the byte says that the block stands locked.
fn names_locked(left: &[u8]) -> bool
    ensures { result ≡ names_locked left.now }
{
    byte_at(left, 0) == 1
}

// What a halt leaves of the call's own work.
fn leave(array: &mut PlainArray, op: &Op, left: &[u8])
    requires { LeftFits op.now array.old left.now }
    ensures { array.new ≡ left_by op.now left.now array.old }
{
    match op {
        Op::Program { at, .. } => put(array, *at, left),
        Op::Lock { block } => set_lock(array, *block, names_locked(left)),
        Op::Unlock { block } => set_lock(array, *block, names_locked(left)),
        _ => {}
    }
}

fn apply_halted(array: &mut PlainArray, cause: Halted, op: &Op, bytes: &[u8])
    requires { HaltFits (array.old).power op.now array.old bytes.now }
    ensures { array.new ≡ after_halted (array.old).power cause op.now bytes.now array.old }
{
    if array.power == Power::On {
        let erasing = open_span(array).len as usize;
        close(array, &bytes[..erasing]);
        leave(array, op, &bytes[erasing..]);
        array.power = power_of(cause);
    }
}

/// The array after an entry that it admits. All that the entry doesn't name stays.
pub fn apply(array: &mut PlainArray, entry: &Entry)
    requires { Admits array.old entry.now }
    ensures { array.new ≡ after array.old entry.now }
{
    let op = &entry.op;
    let bytes = entry.bytes.as_slice();
    match entry.reply {
        Reply::Done => apply_done(array, op),
        Reply::Opened => apply_opened(array, op, entry.caller),
        Reply::Erased => apply_erased(array, op),
        Reply::Failed { from, .. } => apply_failed(array, op, from, bytes),
        Reply::Halted(cause) => apply_halted(array, cause, op, bytes),
        Reply::Bit(_) | Reply::Locked { .. } | Reply::NotYet => {}
        Reply::OutOfRange | Reply::TooLong | Reply::Nothing => {}
        Reply::NoLocks | Reply::NoChipErase => {}
        Reply::Busy { .. } | Reply::Occupied { .. } => {}
    }
}
