//! The refusals that the array and the call alone decide.
ghost use Rattle.std.specs.Prelude.{◌≡◌, [], ◌∷◌, ◌&&◌, length, not, None};
ghost use Rattle.nor_cell.specs.Chip.{block as nth, covered, AllBlocks};
ghost use Rattle.nor_region.specs.Map.{spans_of};
ghost use Rattle.nor_array.specs.Array.{OfBlocks, is_on, lowest, meets};
ghost use Rattle.nor_array.specs.Refusals.{is_outside, is_too_long, is_power_on, kept_halt, owns, has_nothing};
ghost use Rattle.nor_array.specs.Refusals.{touches, touched_open, first_busy, first_open, while_open};
ghost use Rattle.nor_array.specs.Refusals.{when, first_some, refusal};
ghost use Rattle.nor_array.specs.declared.entry.Reply.TheVariants.{NoLocks, NoChipErase};

use crate::needs::{CallNeeds, Reach, needs_of};
use crate::{Halted, Op, OpenErase, PlainArray, Power, Reply, Target};
use nor_cell::Span;
use nor_region::BlockMap;

/// The most bytes of a read or a program.
pub const MAX_LEN: usize = 4096;

// Whether so many bytes from a place on touch the span.
pub(crate) fn meets(at: u32, len: usize, span: Span) -> bool
    ensures { result ≡ meets at len span }
{
    let at = u64::from(at);
    let from = u64::from(span.from);
    len > 0 && at < from + u64::from(span.len) && (from < at || from - at < len as u64)
}

// The bytes of a block, and none of one that isn't there.
pub(crate) fn span_of(map: &BlockMap, block: u32) -> Span
    ensures { result ≡ nth (spans_of map.now) block }
{
    if block < map.blocks() {
        map.span(block)
    } else {
        Span { from: 0, len: 0 }
    }
}

pub(crate) fn blocks(array: &PlainArray) -> u32
    ensures { result ≡ length (array.now).consts.blocks }
{
    array.consts.map.blocks()
}

// The bytes of all blocks.
pub(crate) fn all_blocks(array: &PlainArray) -> Span
    ensures { result ≡ covered AllBlocks (array.now).consts.blocks }
{
    Span {
        from: 0,
        len: array.consts.map.size(),
    }
}

fn is_outside(array: &PlainArray, reach: Reach) -> bool
    ensures { result ≡ is_outside array.now reach }
{
    let size = array.bytes.len() as u64;
    match reach {
        Reach::Nowhere | Reach::Everywhere => false,
        Reach::Range { at, len } => size < u64::from(at) || size - u64::from(at) < len as u64,
        Reach::Block { block } => blocks(array) <= block,
    }
}

fn is_too_long(reach: Reach) -> bool
    ensures { result ≡ is_too_long reach }
{
    match reach {
        Reach::Range { len, .. } => len > MAX_LEN,
        _ => false,
    }
}

fn is_power_on(op: &Op) -> bool
    ensures { result ≡ is_power_on op.now }
{
    matches!(op, Op::PowerOn)
}

// A halt that is kept, where the call doesn't lead back from it.
fn kept_halt(array: &PlainArray, op: &Op) -> Option<Reply>
    ensures { result ≡ kept_halt (array.now).power (array.now).armed op.now }
{
    match array.power {
        Power::On => None,
        Power::Off if is_power_on(op) => None,
        Power::Off => Some(Reply::Halted(Halted::Off {
            after: match array.armed {
                Some(cut) => cut.after,
                None => 0,
            },
        })),
        Power::Stuck { lane } => Some(Reply::Halted(Halted::Stuck { lane })),
    }
}

fn owns(array: &PlainArray, caller: u8) -> bool
    ensures { result ≡ owns (array.now).under caller }
{
    match array.under {
        Some(open) => open.caller == caller,
        None => false,
    }
}

fn is_on(power: Power) -> bool
    ensures { result ≡ is_on power }
{
    match power {
        Power::On => true,
        Power::Off => false,
        Power::Stuck { .. } => false,
    }
}

fn has_nothing(array: &PlainArray, caller: u8, op: &Op) -> bool
    ensures { result ≡ has_nothing array.now caller op.now }
{
    match op {
        Op::Poll => !owns(array, caller),
        Op::PowerOn => is_on(array.power),
        _ => false,
    }
}

// Whether the block is touched.
pub(crate) fn touches(map: &BlockMap, reach: Reach, block: u32) -> bool
    ensures { OfBlocks (spans_of map.now) (λ a. result ≡ touches a reach block) }
{
    match reach {
        Reach::Nowhere => false,
        Reach::Range { at, len } => meets(at, len, span_of(map, block)),
        Reach::Block { block: other } => other == block,
        Reach::Everywhere => true,
    }
}

// The lowest block that is touched.
fn lowest_touched(map: &BlockMap, reach: Reach) -> Option<u32>
    ensures { OfBlocks (spans_of map.now)
        (λ a. result ≡ lowest (touches a reach) 0 (length a.consts.blocks)) }
{
    for block in 0..map.blocks() {
        if touches(map, reach, block) {
            return Some(block);
        }
    }
    None
}

// The lowest block under erase that is touched.
fn touched_open(map: &BlockMap, target: Target, reach: Reach) -> Option<u32>
    ensures { OfBlocks (spans_of map.now) (λ a. result ≡ touched_open target a reach) }
{
    match target {
        Target::OneBlock { block } if touches(map, reach, block) => Some(block),
        Target::OneBlock { .. } => None,
        Target::AllBlocks => lowest_touched(map, reach),
    }
}

// The same, but for a call that would erase all blocks.
fn first_busy(map: &BlockMap, erase: OpenErase, needs: CallNeeds) -> Option<u32>
    ensures { OfBlocks (spans_of map.now) (λ a. result ≡ first_busy erase a needs) }
{
    if needs.chip_erase {
        None
    } else {
        touched_open(map, erase.target, needs.reach)
    }
}

// The lowest block under erase.
fn first_open(target: Target) -> u32
    ensures { result ≡ first_open target }
{
    match target {
        Target::OneBlock { block } => block,
        Target::AllBlocks => 0,
    }
}

/// What a call is refused with by what is under erase of these blocks: `Busy` where it touches a block
/// of that, else `Occupied` where it would begin another erase.
pub fn while_open(map: &BlockMap, under: Option<OpenErase>, needs: CallNeeds) -> Option<Reply>
    ensures { OfBlocks (spans_of map.now) (λ a. result ≡ while_open under a needs) }
{
    let open = under?;
    match first_busy(map, open, needs) {
        Some(block) => Some(Reply::Busy { block }),
        None if needs.opens => Some(Reply::Occupied {
            block: first_open(open.target),
        }),
        None => None,
    }
}

// What the bank doesn't offer.
fn not_offered(array: &PlainArray, needs: CallNeeds) -> Option<Reply>
    ensures { result ≡ first_some
        (when (needs.locks && not (array.now).consts.has_locks) NoLocks
        ∷ when (needs.chip_erase && not (array.now).consts.has_chip_erase) NoChipErase
        ∷ []) }
{
    if needs.locks && !array.consts.has_locks {
        Some(Reply::NoLocks)
    } else if needs.chip_erase && !array.consts.has_chip_erase {
        Some(Reply::NoChipErase)
    } else {
        None
    }
}

// The first refusal of a call that holds.
pub(crate) fn refusal(array: &PlainArray, caller: u8, op: &Op) -> Option<Reply>
    ensures { result ≡ refusal array.now caller op.now }
{
    let needs = needs_of(op);
    if is_outside(array, needs.reach) {
        return Some(Reply::OutOfRange);
    }
    if is_too_long(needs.reach) {
        return Some(Reply::TooLong);
    }
    if let Some(reply) = kept_halt(array, op) {
        return Some(reply);
    }
    if has_nothing(array, caller, op) {
        return Some(Reply::Nothing);
    }
    if let Some(reply) = while_open(&array.consts.map, array.under, needs) {
        return Some(reply);
    }
    not_offered(array, needs)
}
