//! Running the lines of a script.
ghost use Rattle.std.specs.Prelude.{◌≡◌, ◌<◌, ◌+◌, ◌^◌, ◌||◌, [], true, false, length, IfOk, IfErr};
ghost use Rattle.nor_array.specs.Admits.{HasItsCaller};
ghost use Rattle.nor_array.specs.Entries.{is_halt};
ghost use Rattle.nor_array.specs.Needs.{needs_of};
ghost use Rattle.nor_script.specs.Answering.{AnswersWord};
ghost use Rattle.nor_script.specs.Script.{HasCaller, IsScript};
ghost use Rattle.nor_history.specs.Histories.{Makes};
ghost use Rattle.nor_bank.specs.Work.{KeepsBank};
ghost use Rattle.nor_run.specs.Running.{HandsOn, RunsCall, RunsTo, AnswersErase, IsPolled, PollsOn, RunsWhole, RunsPart, is_read};
ghost use Rattle.nor_run.specs.Steps.{waits_for};

use crate::taker::Taker;
use nor_array::{Op, Reply};
use nor_bank::{Bank, MAX_LEN};
use nor_bus::Bus;
use nor_script::{Line, Word};
use nor_word::BusWord;

/// What was run: how many entries the history has, and whether the bank halted in it.
#[derive(Clone, Copy, Debug, PartialEq, Eq)]
pub struct Ran {
    pub entries: u64,
    pub halted: bool,
}

fn is_halt(reply: Reply) -> bool
    ensures { result ≡ is_halt reply }
{
    match reply {
        Reply::Halted(_) => true,
        _ => false,
    }
}

/// One entry more, with this reply.
pub fn ran_on(ran: Ran, reply: Reply) -> Ran
    requires { ran.entries + 1 < 2 ^ 64 }
    ensures { result ≡ record { entries = ran.entries + 1; halted = ran.halted || is_halt reply } }
{
    Ran {
        entries: ran.entries + 1,
        halted: ran.halted || is_halt(reply),
    }
}

// Hands an entry over, and counts it.
fn hand_on<T: Taker>(
    taker: &mut T,
    ran: Ran,
    caller: u8,
    op: &Op,
    reply: Reply,
    bytes: &[u8],
) -> Result<Ran, T::Stop>
    requires { ran.entries + 1 < 2 ^ 64 }
    ensures { HandsOn T.takes ran
        (record { caller = caller; op = op.now; reply = reply; bytes = bytes.now })
        taker.old taker.new result }
{
    match taker.take(ran.entries, caller, op, reply, bytes) {
        Ok(()) => Ok(ran_on(ran, reply)),
        Err(stop) => Err(stop),
    }
}

// ---- one call

// Reads bytes, and hands the entry over.
fn read_into<W: BusWord, B: Bus<W>, T: Taker>(
    bank: &mut Bank<W, B>,
    caller: u8,
    at: u32,
    len: u32,
    into: &mut [u8],
    ran: Ran,
    taker: &mut T,
) -> Result<Ran, T::Stop>
    requires length { length into.old ≡ len }
    requires few { ran.entries + 1 < 2 ^ 64 }
    ensures runs { RunsCall T.takes caller (Op.Read at len) ran bank.old bank.new
        taker.old taker.new result }
    ensures keeps { KeepsBank bank.old bank.new }
{
    let op = Op::Read { at, len };
    let reply = bank.read(caller, at, into);
    hand_on(taker, ran, caller, &op, reply, into)
}

// Reads as a line says. What the bank refuses isn't read.
fn run_read<W: BusWord, B: Bus<W>, T: Taker>(
    bank: &mut Bank<W, B>,
    caller: u8,
    at: u32,
    len: u32,
    ran: Ran,
    taker: &mut T,
) -> Result<Ran, T::Stop>
    requires { ran.entries + 1 < 2 ^ 64 }
    ensures runs { RunsCall T.takes caller (Op.Read at len) ran bank.old bank.new
        taker.old taker.new result }
    ensures keeps { KeepsBank bank.old bank.new }
{
    if let Some(reply) = bank.range_refusal(at, u64::from(len)) {
        let op = Op::Read { at, len };
        return hand_on(taker, ran, caller, &op, reply, &[]);
    }
    let mut data = [0u8; MAX_LEN];
    let into = &mut data[..len as usize];
    read_into(bank, caller, at, len, into, ran, taker)
}

// Makes a call that gives no bytes.
fn make<W: BusWord, B: Bus<W>>(bank: &mut Bank<W, B>, caller: u8, op: &Op) -> Reply
    requires own { HasItsCaller op.now caller }
    requires given { is_read op.now ≡ false }
    ensures { Makes caller op.now bank.old bank.new result [] }
{
    match op {
        Op::Read { .. } => unreachable!(),
        Op::Program { at, new } => bank.program(caller, *at, new.as_slice()),
        Op::EraseOpen { block } => bank.erase_open(caller, *block),
        Op::EraseAll => bank.erase_all(caller),
        Op::Poll => bank.poll(caller),
        Op::Lock { block } => bank.lock(caller, *block),
        Op::Unlock { block } => bank.unlock(caller, *block),
        Op::IsLocked { block } => bank.is_locked(caller, *block),
        Op::Arm { after, mask } => bank.arm(*after, *mask),
        Op::PowerOn => bank.power_on(),
    }
}

// Makes a call, and hands its entry over.
fn run_call<W: BusWord, B: Bus<W>, T: Taker>(
    bank: &mut Bank<W, B>,
    caller: u8,
    op: &Op,
    ran: Ran,
    taker: &mut T,
) -> Result<Ran, T::Stop>
    requires own { HasItsCaller op.now caller }
    requires few { ran.entries + 1 < 2 ^ 64 }
    ensures runs { RunsCall T.takes caller op.now ran bank.old bank.new
        taker.old taker.new result }
    ensures keeps { KeepsBank bank.old bank.new }
{
    if let Op::Read { at, len } = op {
        return run_read(bank, caller, *at, *len, ran, taker);
    }
    let reply = make(bank, caller, op);
    hand_on(taker, ran, caller, op, reply, &[])
}

// ---- an erase that is waited for

// Polls the caller's erase until it ends, or the bank halts.
fn poll_on<W: BusWord, B: Bus<W>>(bank: &mut Bank<W, B>, caller: u8) -> Reply
    requires { IsPolled caller bank.old }
    ensures polls { PollsOn caller bank.old bank.new result }
    ensures keeps { KeepsBank bank.old bank.new }
{
    'polls: loop {
        match bank.poll(caller) {
            Reply::NotYet => {}
            reply => return reply,
        }
    }
}

// Begins an erase and polls it to its end, and then hands over the entries of both: an erase of a line is never
// left under way, also where the taker stops.
fn run_erase<W: BusWord, B: Bus<W>, T: Taker>(
    bank: &mut Bank<W, B>,
    caller: u8,
    op: &Op,
    ran: Ran,
    taker: &mut T,
) -> Result<Ran, T::Stop>
    requires opens { (needs_of op.now).opens ≡ true }
    requires few { ran.entries + 2 < 2 ^ 64 }
    ensures runs { RunsTo T.takes true (AnswersErase caller op.now) ran bank.old bank.new
        taker.old taker.new result }
    ensures keeps { KeepsBank bank.old bank.new }
{
    match make(bank, caller, op) {
        Reply::Opened => {
            let closed = poll_on(bank, caller);
            let ran = hand_on(taker, ran, caller, op, Reply::Opened, &[])?;
            hand_on(taker, ran, caller, &Op::Poll, closed, &[])
        }
        reply => hand_on(taker, ran, caller, op, reply, &[]),
    }
}

// ---- lines

// Runs one line.
fn run_line<W: BusWord, B: Bus<W>, T: Taker>(
    bank: &mut Bank<W, B>,
    line: &Line,
    ran: Ran,
    taker: &mut T,
) -> Result<Ran, T::Stop>
    requires caller { HasCaller line.now.word line.now.caller }
    requires few { ran.entries + 2 < 2 ^ 64 }
    ensures runs { RunsTo T.takes (waits_for line.now.word)
        (AnswersWord line.now.word line.now.caller) ran
        bank.old bank.new taker.old taker.new result }
    ensures keeps { KeepsBank bank.old bank.new }
{
    match &line.word {
        Word::Call(op) => run_call(bank, line.caller, op, ran, taker),
        Word::Erase { block } => {
            let op = Op::EraseOpen { block: *block };
            run_erase(bank, line.caller, &op, ran, taker)
        }
        Word::EraseAll => run_erase(bank, line.caller, &Op::EraseAll, ran, taker),
    }
}

/// Runs the lines of a script on a bank, one after the other, and hands the entries of each to the taker as
/// soon as they are made: one of a call, and one or two of an erase, which is polled to its end first. The lines
/// must be those of a script.
///
/// The entries answer the lines. Where the bank stands for an array, they are a legal history from it, and
/// the bank stands for the array after it. An error comes only from the taker: the line of which it
/// didn't take an entry is the last that was run. No memory is taken.
pub fn run_lines<W: BusWord, B: Bus<W>, T: Taker>(
    bank: &mut Bank<W, B>,
    lines: &[Line],
    taker: &mut T,
) -> Result<Ran, T::Stop>
    requires { IsScript lines.now }
    ensures ran { IfOk result (RunsWhole T.takes false lines.now bank.old bank.new
        taker.old taker.new) }
    ensures stopped { IfErr result (RunsPart T.takes false lines.now bank.old bank.new
        taker.old taker.new) }
    ensures keeps { KeepsBank bank.old bank.new }
{
    let mut ran = Ran {
        entries: 0,
        halted: false,
    };
    for line in lines {
        ran = run_line(bank, line, ran, taker)?;
    }
    Ok(ran)
}
