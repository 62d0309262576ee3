//! Whether an array admits an entry, decided in the plainest way.
ghost use Rattle.std.specs.Prelude.{[], ◌∷◌, ◌≡◌, ◌<◌, ◌≤◌, ◌+◌, ◌-◌, ◌↔◌, ◌&&◌, length, IsTrue};
ghost use Rattle.nor_cell.specs.Chip.{covered, span_end};
ghost use Rattle.nor_array.specs.Array.{chip_target, open_span, is_locked, meets};
ghost use Rattle.nor_array.specs.Refusals.{touches};
ghost use Rattle.nor_array.specs.Admits.{HasItsCaller, may_come, IsArmed, lowest_locked, first_locked};
ghost use Rattle.nor_array.specs.Admits.{AreUncertain, ProgramLeaves, lock_byte, LockLeaves, WorkLeaves, HaltLeaves};
ghost use Rattle.nor_array.specs.Admits.{erase_breaks, FailsWhole, PollEnds, Ends, EndsUnlocked, AsksChips, Admits};

use crate::needs::{Chance, Reach, needs_of};
use crate::program::{all_between, program_ends, range};
use crate::refuse::{all_blocks, blocks, meets, refusal, span_of, touches};
use crate::{ArmedCut, Entry, Halted, Op, OpenErase, PlainArray, Reply, Target};
use nor_cell::Span;

// Arm and PowerOn are the bank's own.
fn has_its_caller(op: &Op, caller: u8) -> bool
    ensures { IsTrue result ↔ HasItsCaller op.now caller }
{
    match op {
        Op::Arm { .. } => caller == 0,
        Op::PowerOn => caller == 0,
        _ => true,
    }
}

// Whether what may be answered at some times may be answered now.
fn may_come(chance: Chance, under: Option<OpenErase>) -> bool
    ensures { result ≡ may_come chance under }
{
    match chance {
        Chance::Never => false,
        Chance::BesideErase => under.is_some(),
        Chance::Always => true,
    }
}

fn is_armed(armed: Option<ArmedCut>, after: u32) -> bool
    ensures { IsTrue result ↔ IsArmed armed after }
{
    match armed {
        Some(cut) => cut.after == after,
        None => false,
    }
}

fn is_locked(array: &PlainArray, block: u32) -> bool
    ensures { result ≡ is_locked array.now block }
{
    (block as usize) < array.locks.len() && array.locks[block as usize]
}

// Whether the block is touched, and it is locked.
fn touches_locked(array: &PlainArray, reach: Reach, block: u32) -> bool
    ensures { result ≡ (touches array.now reach block && is_locked array.now block) }
{
    touches(&array.consts.map, reach, block) && is_locked(array, block)
}

// The lowest locked block that is touched.
fn lowest_locked(array: &PlainArray, reach: Reach) -> Option<u32>
    ensures { result ≡ lowest_locked array.now reach }
{
    for block in 0..blocks(array) {
        if touches_locked(array, reach, block) {
            return Some(block);
        }
    }
    None
}

// The same where the call needs its blocks unlocked.
fn first_locked(array: &PlainArray, op: &Op) -> Option<u32>
    ensures { result ≡ first_locked array.now op.now }
{
    let needs = needs_of(op);
    if needs.unlocked {
        lowest_locked(array, needs.reach)
    } else {
        None
    }
}

// The bytes of a target.
fn target_span(array: &PlainArray, target: Target) -> Span
    ensures { result ≡ covered (chip_target target) (array.now).consts.blocks }
{
    match target {
        Target::OneBlock { block } => span_of(&array.consts.map, block),
        Target::AllBlocks => all_blocks(array),
    }
}

// The bytes under erase.
pub(crate) fn open_span(array: &PlainArray) -> Span
    ensures span { result ≡ open_span array.now }
    ensures inside { span_end result ≤ length (array.now).bytes }
{
    match array.under {
        Some(open) => target_span(array, open.target),
        None => Span { from: 0, len: 0 },
    }
}

// Whether they are so many.
fn are_uncertain(len: usize, bytes: &[u8]) -> bool
    ensures { IsTrue result ↔ AreUncertain len bytes.now }
{
    bytes.len() == len
}

// Whether a halt may leave these bytes in the range of a program.
fn program_leaves(locked: Option<u32>, old: &[u8], new: &[u8], bytes: &[u8]) -> bool
    ensures { IsTrue result ↔ ProgramLeaves locked old.now new.now bytes.now }
{
    match locked {
        Some(_) => bytes == old,
        None => all_between(old, new, bytes),
    }
}

// Whether these bytes are one that tells how a block stands.
fn is_lock_byte(locked: bool, left: &[u8]) -> bool
    ensures { IsTrue result ↔ (left.now ≡ lock_byte locked ∷ []) }
{
    left == [u8::from(locked)].as_slice()
}

// Whether a halt may leave a lock so.
fn lock_leaves(cause: Halted, old: bool, asked: bool, left: &[u8]) -> bool
    ensures { IsTrue result ↔ LockLeaves cause old asked left.now }
{
    match cause {
        Halted::Off { .. } => is_lock_byte(old, left) || is_lock_byte(asked, left),
        Halted::Stuck { .. } => is_lock_byte(old, left),
    }
}

// Whether it may leave the call's own work so.
fn work_leaves(array: &PlainArray, op: &Op, cause: Halted, left: &[u8]) -> bool
    ensures { IsTrue result ↔ WorkLeaves op.now cause array.now left.now }
{
    match op {
        Op::Program { at, new } => {
            let new = new.as_slice();
            let old = range(&array.bytes, *at as usize, new.len());
            program_leaves(first_locked(array, op), old, new, left)
        }
        Op::Lock { block } => lock_leaves(cause, is_locked(array, *block), true, left),
        Op::Unlock { block } => lock_leaves(cause, is_locked(array, *block), false, left),
        _ => left.is_empty(),
    }
}

// Whether these may be the bytes of a halt.
fn halt_leaves(array: &PlainArray, op: &Op, cause: Halted, bytes: &[u8]) -> bool
    ensures { IsTrue result ↔ HaltLeaves cause op.now array.now bytes.now }
{
    let erasing = open_span(array).len as usize;
    bytes.len() >= erasing && work_leaves(array, op, cause, &bytes[erasing..])
}

// Whether a weak span meets what is under erase.
fn erase_breaks(array: &PlainArray) -> bool
    ensures { result ≡ erase_breaks array.now }
{
    let open = open_span(array);
    let weak = &array.consts.weak;
    weak.iter()
        .any(|span| meets(open.from, open.len as usize, *span))
}

// Whether a failed erase may name these places, and leave these bytes.
fn fails_whole(array: &PlainArray, from: u32, to: u32, bytes: &[u8]) -> bool
    ensures { IsTrue result ↔ FailsWhole array.now from to bytes.now }
{
    let open = open_span(array);
    from == open.from
        && u64::from(to) == u64::from(open.from) + u64::from(open.len)
        && are_uncertain(open.len as usize, bytes)
}

fn poll_ends(array: &PlainArray, reply: Reply, bytes: &[u8]) -> bool
    ensures { IsTrue result ↔ PollEnds array.now reply bytes.now }
{
    match reply {
        Reply::Erased => !erase_breaks(array) && bytes.is_empty(),
        Reply::Failed { from, to, .. } => {
            erase_breaks(array) && fails_whole(array, from, to, bytes)
        }
        _ => false,
    }
}

// Whether a call that nothing refuses or halts may end so.
fn ends(array: &PlainArray, op: &Op, reply: Reply, bytes: &[u8]) -> bool
    ensures { IsTrue result ↔ Ends op.now array.now reply bytes.now }
{
    match op {
        Op::Read { at, len } => {
            reply == Reply::Done && bytes == range(&array.bytes, *at as usize, *len as usize)
        }
        Op::Program { at, new } => program_ends(array, *at, new.as_slice(), reply, bytes),
        Op::EraseOpen { .. } | Op::EraseAll => reply == Reply::Opened && bytes.is_empty(),
        Op::Poll => poll_ends(array, reply, bytes),
        Op::Lock { .. } | Op::Unlock { .. } => reply == Reply::Done && bytes.is_empty(),
        Op::IsLocked { block } => {
            reply == Reply::Bit(is_locked(array, *block)) && bytes.is_empty()
        }
        Op::Arm { .. } | Op::PowerOn => false,
    }
}

fn ends_unlocked(array: &PlainArray, op: &Op, reply: Reply, bytes: &[u8]) -> bool
    ensures { IsTrue result
        ↔ EndsUnlocked (first_locked array.now op.now) op.now array.now reply bytes.now }
{
    match first_locked(array, op) {
        Some(block) => reply == Reply::Locked { block } && bytes.is_empty(),
        None => ends(array, op, reply, bytes),
    }
}

fn asks_chips(array: &PlainArray, op: &Op, reply: Reply, bytes: &[u8]) -> bool
    ensures { IsTrue result ↔ AsksChips reply op.now array.now bytes.now }
{
    match reply {
        Reply::NotYet => may_come(needs_of(op).waits, array.under) && bytes.is_empty(),
        Reply::Halted(Halted::Off { after }) => {
            is_armed(array.armed, after) && halt_leaves(array, op, Halted::Off { after }, bytes)
        }
        Reply::Halted(Halted::Stuck { lane }) => {
            may_come(needs_of(op).sticks, array.under)
                && halt_leaves(array, op, Halted::Stuck { lane }, bytes)
        }
        _ => ends_unlocked(array, op, reply, bytes),
    }
}

/// Whether the array admits the entry: whether a bank that stands for it may answer this call so.
pub fn admits(array: &PlainArray, entry: &Entry) -> bool
    ensures { IsTrue result ↔ Admits array.now entry.now }
{
    if !has_its_caller(&entry.op, entry.caller) {
        return false;
    }
    let bytes = entry.bytes.as_slice();
    if let Some(reply) = refusal(array, entry.caller, &entry.op) {
        return entry.reply == reply && bytes.is_empty();
    }
    if needs_of(&entry.op).idle {
        return entry.reply == Reply::Done && bytes.is_empty();
    }
    asks_chips(array, &entry.op, entry.reply, bytes)
}
