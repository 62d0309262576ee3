//! Programs, piece by piece.
ghost use Rattle.std.specs.Prelude.{◌≡◌, ◌≢◌, ◌<◌, ◌≤◌, ◌+◌, ◌-◌, ◌*◌, ◌/◌, ◌==◌, ◌&&◌, ◌^◌, [], ℕ, List, length, map, slice_set, Option, None, IfOk, IfErr, IfSome, OnOk, OnErr, IsTrue, true};
ghost use Rattle.std.specs.Option.{option_map};
ghost use Rattle.nor_cell.specs.Wiring.{is_wiring};
ghost use Rattle.nor_bus.specs.Cycles.{BusFails};
ghost use Rattle.nor_bus.specs.Driven.{Went, Lost, Counted};
ghost use Rattle.nor_array.specs.Array.{ArrayState};
ghost use Rattle.nor_array.specs.declared.entry.Halted.{Halted as HaltCause};
ghost use Rattle.nor_array.specs.declared.entry.Op.TheVariants.{Read, Program};
ghost use Rattle.nor_array.specs.declared.entry.Reply.TheVariants.{Done as DoneReply, Failed as FailedReply, Halted as HaltedReply};
ghost use Rattle.nor_poll.specs.Word.{word_most};
ghost use Rattle.nor_probe.specs.declared.probing.Found.{Found as FoundValue};
ghost use Rattle.nor_bank.specs.Counts.{program_limit, IsPaused};
ghost use Rattle.nor_bank.specs.Pieces.{CanProgramAll, CostsWords, EndsPiece, HaltsPiece, ProgramsBank, ReadsWord, TakesPiece, Wait, due_in, piece_before, word_cost_in};
ghost use Rattle.nor_bank.specs.Programs.{ForBroken, MeetsPiece, NamesLanes, PieceBecomes, RangeBecomes, Takes, changes_of, goes_on};
ghost use Rattle.nor_bank.specs.declared.programming.Outcome.TheVariants.{Skipped as Skip};
ghost use Rattle.nor_bank.specs.Ranges.{MeetsWord, words_met};
ghost use Rattle.nor_bank.specs.Runs.{FailsInRun, IsRun, joins_in, least_limit, units_in};
ghost use Rattle.nor_bank.specs.Stands.{Stands};
ghost use Rattle.nor_bank.specs.State.{size_of, word_bytes};
ghost use Rattle.nor_bank.specs.Way.{change_most};
ghost use Rattle.nor_bank.specs.Reads.{ReadsBank};
ghost use Rattle.nor_bank.specs.Whole.{IsCallOf};
ghost use Rattle.nor_bank.specs.Work.{words_in, words_changed};

use crate::Bank;
use crate::halts::keep_halt;
use crate::programming::{Outcome, Piece, failed, pad_word};
use crate::reading::{read_range, word_of};
use crate::way::cause_of;
use nor_array::{Halted, Reply, program_call, read_call};
use nor_bus::{Bus, Off, read_word};
use nor_cell::Work;
use nor_poll::{Halt, LaneSet, program_buffer, program_word};
use nor_probe::Found;
use nor_word::BusWord;

// The most bus words of a piece.
const MOST: usize = 256;

// What bus word `u` is to become, where a range changes it.
fn changed_word<W: BusWord, B: Bus<W>>(
    bus: &mut B,
    u: u32,
    at: u32,
    new: &[u8],
) -> Result<Option<W>, Off>
    ensures tells { IfOk result (λ word. (f : FoundValue)
        → CanProgramAll W.WIDTH f at (length new.now) (B.state bus.old)
        → MeetsWord W.WIDTH u at (length new.now) → ReadsWord W.WIDTH f.geometry at new.now u
        (option_map W.bytes word) (B.state bus.old) (B.state bus.new)) }
    ensures went { OnOk result (Went 1 1 (B.state bus.old) (B.state bus.new)) }
    ensures lost { OnErr result (Lost 1 (B.state bus.old) (B.state bus.new)) }
    ensures fails { OnErr result (BusFails (B.state bus.old) (B.state bus.new)) }
{
    let old: W = read_word::<W, B>(bus, u)?;
    let word = old.and(pad_word::<W>(u, at, new));
    if word.equals(old) {
        return Ok(None);
    }
    Ok(Some(word))
}

// Whether bus word `u`, the next behind a piece, goes with it: into the same buffer page and block.
fn joins<W: BusWord>(found: &Found, first: u32, u: u32) -> bool
    requires order { first ≤ u }
    requires few { u * W.WIDTH < 2 ^ 32 }
    requires there { u * W.WIDTH < size_of found.now }
    ensures joins { result ≡ joins_in W.WIDTH found.now first u }
    ensures near { result ≡ true → u - first < MOST }
{
    let units = u32::from(found.query.buffer_units(found.geometry.device));
    if units == 0 {
        return false;
    }
    let width = u32::from(W::WIDTH);
    u / units == first / units && found.map.block_of(u * width) == found.map.block_of(first * width)
}

// How many of the n words that wait before word `u` can't wait for it: none where it goes with
// them.
fn due_words<W: BusWord>(found: &Found, n: u32, u: u32, changes: bool) -> u32
    requires before { n ≤ u }
    requires few { u * W.WIDTH < 2 ^ 32 }
    requires there { u * W.WIDTH < size_of found.now }
    ensures due { result ≡ due_in W.WIDTH found.now n u changes }
    ensures within { result ≤ n }
    ensures room { n - result < MOST }
{
    if changes && n > 0 && joins::<W>(found, u - n, u) {
        0
    } else {
        n
    }
}

// Puts a word that changes behind the n that wait: how many wait then.
fn keep_word<W: BusWord>(n: u32, word: Option<W>, words: &mut [W; MOST]) -> u32
    requires room { n < MOST }
    ensures none { word ≡ None → (result ≡ n) × (words.new ≡ words.old) }
    ensures some { IfSome word (λ it. (result ≡ n + 1) × (words.new ≡ slice_set words.old n it)) }
{
    match word {
        Some(word) => {
            words[n as usize] = word;
            n + 1
        }
        None => n,
    }
}

// Programs a piece that changes: a word of its own, or several by the buffer.
fn program_piece<W: BusWord, B: Bus<W>>(
    bus: &mut B,
    found: &Found,
    piece: Piece,
    words: &[W; MOST],
) -> Result<LaneSet, Halt>
    requires wiring { IsTrue (is_wiring W.WIDTH found.now.geometry.lanes
        found.now.geometry.device) }
    requires some { 0 < piece.words }
    requires few { piece.words ≤ MOST }
    requires buffered { 1 < piece.words → 0 < units_in found.now }
    ensures ends { IfOk result (λ lanes. EndsPiece W.WIDTH found.now piece.first piece.words
        (map W.bytes words.now) lanes.bits (B.state bus.old) (B.state bus.new)) }
    ensures counted { OnOk result (Counted piece.words (piece.words * word_cost_in found.now)
        (B.state bus.old) (B.state bus.new)) }
    ensures few { IfOk result (λ lanes. lanes.bits < 2 ^ found.now.geometry.lanes) }
    ensures halts { IfErr result (λ halt. HaltsPiece W.WIDTH found.now piece.first piece.words
        (map W.bytes words.now) halt (B.state bus.old) (B.state bus.new)) }
{
    let (set, g) = (found.query.set, found.geometry);
    if piece.words == 1 {
        let limit = found.query.limit(Work::Word);
        return program_word::<W, B>(set, bus, g, piece.first, words[0], limit);
    }
    let limit = found.query.limit(Work::Buffer);
    let words = &words[..piece.words as usize];
    program_buffer::<W, B>(set, bus, g, piece.first, words, limit)
}

// What becomes of the n words that wait before word `u`.
fn program_waiting<W: BusWord, B: Bus<W>>(
    bus: &mut B,
    found: &Found,
    u: u32,
    n: u32,
    words: &[W; MOST],
) -> Outcome
    requires wiring { IsTrue (is_wiring W.WIDTH found.now.geometry.lanes
        found.now.geometry.device) }
    requires before { n ≤ u }
    requires few { n ≤ MOST }
    requires buffered { 1 < n → 0 < units_in found.now }
    ensures becomes { (at : ℕ) (new : List ℕ)
        → CanProgramAll W.WIDTH found.now at (length new) (B.state bus.old)
        → Wait W.WIDTH found.now at new (u - n) n (map W.bytes words.now) (B.state bus.old)
        → PieceBecomes W.WIDTH found.now.geometry at new (piece_before n u) result
        (B.state bus.old) (B.state bus.new) }
    ensures takes { TakesPiece found.now n result (B.state bus.old) (B.state bus.new) }
    ensures none { n ≡ 0 → (result ≡ Skip) × (B.state bus.new ≡ B.state bus.old) }
    ensures this { ForBroken result (λ piece. (piece ≡ piece_before n u) × (0 < n)) }
    ensures named { NamesLanes found.now.geometry.lanes result }
{
    if n == 0 {
        return Outcome::Skipped;
    }
    let piece = Piece {
        first: u - n,
        words: n,
    };
    match program_piece::<W, B>(bus, found, piece, words) {
        Ok(lanes) => {
            if lanes.bits == 0 {
                Outcome::Stored
            } else {
                Outcome::BrokeOff { piece, lanes }
            }
        }
        Err(halt) => Outcome::GivenUp(halt),
    }
}

/// Programs a range that isn't empty, piece by piece in ascending order, up to the first in which a
/// lane breaks off. Each bus word is read; those that change wait, up to one that doesn't go with them.
fn program_range<W: BusWord, B: Bus<W>>(bus: &mut B, found: &Found, at: u32, new: &[u8]) -> Outcome
    requires wiring { IsTrue (is_wiring W.WIDTH found.now.geometry.lanes
        found.now.geometry.device) }
    requires some { 0 < length new.now }
    requires few { at + length new.now < 2 ^ 32 }
    requires within { at + length new.now ≤ size_of found.now }
    ensures becomes { CanProgramAll W.WIDTH found.now at (length new.now) (B.state bus.old)
        → RangeBecomes W.WIDTH found.now.geometry at new.now result
        (B.state bus.old) (B.state bus.new) }
    ensures takes { Takes found.now.geometry.lanes (least_limit found.now)
        (words_met at (length new.now) W.WIDTH * (word_cost_in found.now + 1)) result
        (B.state bus.old) (B.state bus.new) }
    ensures costs { goes_on result ≡ true
        → CanProgramAll W.WIDTH found.now at (length new.now) (B.state bus.old)
        → CostsWords W.WIDTH found.now at new.now (B.state bus.old) (B.state bus.new) }
    ensures there { ForBroken result (λ piece. MeetsPiece W.WIDTH piece at (length new.now)) }
    ensures named { NamesLanes found.now.geometry.lanes result }
    ensures run { CanProgramAll W.WIDTH found.now at (length new.now) (B.state bus.old)
        → ForBroken result (λ piece. IsRun W.WIDTH found.now
        (changes_of found.now.geometry (B.state bus.old) at new.now) at (length new.now)
        piece.first piece.words) }
{
    let mut words = [W::splat(0xFF); MOST];
    let mut waiting = 0;
    let first = word_of::<W>(at);
    let last = word_of::<W>(at + (new.len() - 1) as u32);
    for u in first..last + 1 {
        let word = match changed_word::<W, B>(bus, u, at, new) {
            Ok(word) => word,
            Err(_) => return Outcome::GivenUp(Halt::Off),
        };
        let due = due_words::<W>(found, waiting, u, word.is_some());
        match program_waiting::<W, B>(bus, found, u, due, &words) {
            Outcome::Skipped | Outcome::Stored => {}
            outcome => return outcome,
        }
        waiting = keep_word::<W>(waiting - due, word, &mut words);
    }
    program_waiting::<W, B>(bus, found, last + 1, waiting, &words)
}

impl<W: BusWord, B: Bus<W>> Bank<W, B> {
    // Reads a range behind the way to the chips.
    fn read_ready(&mut self, at: u32, into: &mut [u8]) -> Reply
        requires running { (self.old).halted ≡ None }
        requires some { 0 < length into.old }
        requires within { at + length into.old ≤ size_of (self.old).found }
        ensures reads { ReadsBank W.WIDTH at self.old self.new into.new result }
        ensures length { length into.new ≡ length into.old }
        ensures wide { word_bytes (self.old).found ≡ W.WIDTH }
    {
        let size = u64::from(self.found.map.size());
        prove!(u64::from(at) + into.len() as u64 <= size);
        match read_range::<W, B>(&mut self.bus, at, into) {
            Ok(_) => Reply::Done,
            Err(_) => {
                let cause = Halted::Off { after: self.after };
                keep_halt(&mut self.halted, &mut self.erase, cause)
            }
        }
    }

    /// Reads the bytes of the bank from `at` on, 4,096 at most.
    ///
    /// - `Done`: `into` has them. There was one bus cycle for each bus word that the range meets, and up to
    ///   60 more where an erase had to be suspended or looked at.
    /// - `OutOfRange`: the bank lacks some of them. `TooLong`: they are more than 4,096.
    /// - `Busy`: the range touches a block under erase; this is the lowest.
    /// - `NotYet`: the chips work on an erase that can't be suspended.
    /// - `Halted`: an earlier call halted; or a cycle failed, or a lane that never ends its work was read
    ///   working by each poll of a suspend.
    ///
    /// After `Halted` nothing is said of the bytes in `into`; after any other reply but `Done` they are as
    /// they were.
    pub fn read(&mut self, caller: u8, at: u32, into: &mut [u8]) -> Reply
        ensures call { IsCallOf caller (Read at (length into.old)) self.old self.new result into.new }
        ensures done { result ≡ DoneReply
            → Went (words_in self.old at (length into.old)) (60 + words_in self.old at (length into.old))
            (self.old).bus (self.new).bus }
        ensures exact { (self.old).erase ≡ None → result ≡ DoneReply
            → Went (words_in self.old at (length into.old)) (words_in self.old at (length into.old))
            (self.old).bus (self.new).bus }
        ensures paused { IsPaused self.old → result ≡ DoneReply
            → Went (words_in self.old at (length into.old)) (words_in self.old at (length into.old))
            (self.old).bus (self.new).bus }
        ensures unchanged { result ≢ DoneReply → ((cause : HaltCause) → result ≢ HaltedReply cause)
            → into.new ≡ into.old }
        ensures length { length into.new ≡ length into.old }
    {
        if let Some(reply) = self.before_work(read_call(at, into.len()), false) {
            return reply;
        }
        self.read_ready(at, into)
    }

    // Programs a range, where the call can work.
    fn program_ready(&mut self, at: u32, from: &[u8]) -> Reply
        requires running { (self.old).halted ≡ None }
        requires some { 0 < length from.now }
        requires within { at + length from.now ≤ size_of (self.old).found }
        ensures { ProgramsBank at from.now self.old self.new result }
    {
        // The range ends where a u32 can say it, as the bank does.
        let size = self.size();
        prove!(u64::from(at) + from.len() as u64 <= u64::from(size));
        match program_range::<W, B>(&mut self.bus, &self.found, at, from) {
            Outcome::Skipped | Outcome::Stored => Reply::Done,
            Outcome::BrokeOff { piece, lanes } => failed::<W>(at, from.len(), piece, lanes),
            Outcome::GivenUp(halt) => {
                let cause = cause_of(halt, self.after);
                keep_halt(&mut self.halted, &mut self.erase, cause)
            }
        }
    }

    /// Programs the bytes of the bank from `at` on, 4,096 at most: each is to become old AND new.
    ///
    /// Each bus word is read first, and only what would lose a bit is programmed: with a buffer as many
    /// words at once as follow each other in one page of it and one block, else word by word.
    ///
    /// - `Done`: each byte is old AND new.
    /// - `Failed`: lanes broke off in one run of words that change. `from` up to `to` is the range's part
    ///   in it, and `lanes` are those with a weak place there that would change. In it the bytes of the other
    ///   lanes are old AND new; before it all are, and behind it none has changed.
    /// - `OutOfRange`, `TooLong`, `Busy`: as of a read.
    /// - `Locked`: the range touches a locked block; this is the lowest. Nothing was programmed.
    /// - `NotYet`: the chips work on an erase beside which they can't program.
    /// - `Halted`: an earlier call halted; or a cycle failed, or a lane that never ends its work was read
    ///   working as often as its table allows, or by each poll of a suspend. A first halt leaves bits
    ///   between old and new in the range, and any bytes in what was under erase.
    pub fn program(&mut self, caller: u8, at: u32, from: &[u8]) -> Reply
        ensures call { IsCallOf caller (Program at from.now) self.old self.new result [] }
        ensures costs { result ≡ DoneReply → (a : ArrayState) → Stands self.old a
            → Counted (words_in self.old at (length from.now))
            (change_most self.old (Program at from.now) + words_in self.old at (length from.now)
            + words_changed self.old a at from.now
            * word_most (self.old).found.query.set (program_limit self.old))
            (self.old).bus (self.new).bus }
        ensures run { (from_place to lanes : ℕ) → result ≡ FailedReply from_place to lanes
            → (a : ArrayState) → Stands self.old a → FailsInRun self.old a at from.now from_place to }
    {
        if let Some(reply) = self.before_change(program_call(at, from.len())) {
            return reply;
        }
        self.program_ready(at, from)
    }
}
