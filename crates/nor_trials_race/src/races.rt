//! Races on a simulated bank of one chip.
ghost use Rattle.std.specs.Prelude.{◌≡◌, None, IfOk};

use nor_array::{Op, Reply};
use nor_bank::Bank;
use nor_bus::SimBank;
use nor_driver::{Answer, Driver};
use nor_image::{Loaded, read_image};
use nor_intel::Intel;
use nor_race::{Gate, Notes, OpenGate, Raced, Stage, can_race, race_lines};
use nor_script::{Script, Word, parse_script};
use std::alloc::{AllocError, Global};
use std::process::Abort;
use std::sync::Wait;
use std::sync::atomic::{AtomicU64, Ordering};
use std::test::Fail;
use std::thread;
use std::thread::Threads;

// The query table of a chip of set 0001 with 8 KiB and no locks, from its word 0x10 on.
const TABLE: [u8; 43] = [
    0x51, 0x52, 0x59, 0x01, 0x00, 0x31, 0x00, 0x00, 0x00, 0x00, 0x00, 0x27, 0x36, 0x00, 0x00, 0x04,
    0x06, 0x0a, 0x00, 0x02, 0x02, 0x02, 0x00, 0x0d, 0x01, 0x00, 0x05, 0x00, 0x01, 0x07, 0x00, 0x04,
    0x00, 0x50, 0x52, 0x49, 0x31, 0x31, 0x00, 0x00, 0x00, 0x00, 0x01,
];

fn push_zeros(file: &mut Vec<u8>, count: u32) -> Result<(), AllocError> {
    for _ in 0..count {
        file.push(0)?;
    }
    Ok(())
}

// The file of a bank of one such chip, on 16 bits, whose cells rise from 0 to 255 over and over.
fn file_of_chip(alloc: Global) -> Result<Vec<u8>, AllocError> {
    let mut file = Vec::new(alloc);
    file.extend_from_slice(b"NORBANK1\x02\x01\x01\x00")?;
    file.extend_from_slice(&[2, 0, 0, 0, 4, 0, 0, 0, 2, 0, 0, 0, 0, 0, 0, 0, 0, 0, 0, 0])?;
    push_zeros(&mut file, 0x10)?;
    file.extend_from_slice(&TABLE)?;
    push_zeros(&mut file, 512 - 0x10 - 43)?;
    file.extend_from_slice(&8192u32.to_le_bytes())?;
    for place in 0..8192u32 {
        file.push((place % 256) as u8)?;
    }
    Ok(file)
}

fn bank_of_chip(
    rt: &impl Abort,
    alloc: Global,
) -> Result<Bank<u16, SimBank<u16, Intel>>, AllocError>
    ensures { IfOk result (λ bank. (bank.halted ≡ None) × (bank.erase ≡ None)) }
{
    let file = file_of_chip(alloc)?;
    let Ok(Loaded::Intel16(bus)) = read_image(alloc, &file) else {
        panic!(rt; "no bank")
    };
    match Bank::start(bus) {
        Ok(bank) => Ok(bank),
        Err(_) => panic!(rt; "refused"),
    }
}

#[test]
fn callers_share_a_bank(rt: HostRuntime) -> Result<(), Fail> {
    let bank = bank_of_chip(&rt, rt.alloc())?;
    let (driver, mut first) = match Driver::new(rt.alloc(), bank) {
        Ok(made) => made,
        Err((bank, _)) => {
            let _bus = bank.stop();
            panic!(rt; "no memory")
        }
    };
    let mut second = driver.split(&mut first, 2);
    let done = driver.program(&rt, &mut first, 1, &[0]);
    assert!(rt;
        done == Answer {
            reply: Reply::Done,
            position: 0
        }
    );
    driver.meet(&mut first, &mut second);
    let mut bytes = [0xFF];
    let read = driver.read(&rt, &mut second, 1, &mut bytes);
    assert!(rt;
        read == Answer {
            reply: Reply::Done,
            position: 1
        }
    );
    assert!(rt; bytes == [0]);
    driver.fold(&mut first, second);
    let told = driver.unlock(&rt, &mut first, 0);
    assert!(rt;
        told == Answer {
            reply: Reply::NoLocks,
            position: 2
        }
    );
    let erased = driver.erase(&rt, &mut first, 0);
    assert!(rt;
        erased
            == Answer {
                reply: Reply::Erased,
                position: 4
            }
    );
    let (bank, count) = driver.shut(first);
    let _bus = bank.stop();
    assert!(rt; count == 5);
    Ok(())
}

// The script of a text, and the notes of a race of it.
fn race_of<R: Abort + Threads + Wait + Sync, G: Gate + Sync>(
    rt: &R,
    alloc: Global,
    text: &[u8],
    gate: &G,
) -> Result<(Script, Notes), AllocError> {
    assert!(rt; text.len() <= 1 << 30);
    let Ok(script) = parse_script(alloc, text, true) else {
        panic!(rt; "no script")
    };
    assert!(rt; can_race(&script));
    let bank = bank_of_chip(rt, alloc)?;
    let raced = match race_lines(rt, alloc, bank, &script, gate) {
        Ok(raced) => raced,
        Err((bank, _)) => {
            let _bus = bank.stop();
            panic!(rt; "no memory")
        }
    };
    let Raced { bank, notes } = raced;
    let _bus = bank.stop();
    Ok((script, notes))
}

// Keeps the numbers of the lines at whose stages one worker was, each with 1 before it and 2 after it.
#[derive(Drop)]
struct Trail {
    digits: AtomicU64,
}

impl Gate for Trail {
    fn at(&self, _caller: u8, line: u32, stage: Stage) {
        let digit = if stage == Stage::After { 2 } else { 1 };
        let next = self.digits.load(Ordering::SeqCst).wrapping_mul(100);
        let here = u64::from(line).wrapping_mul(10).wrapping_add(digit);
        self.digits.store(next.wrapping_add(here), Ordering::SeqCst);
    }
}

#[test]
fn a_caller_alone_runs_its_lines_in_order(rt: HostRuntime) -> Result<(), Fail> {
    let text = b"3 program 0x10 00\n3 read 0x10 2\n3 read 0x2000 1\n";
    let gate = Trail {
        digits: AtomicU64::new(0),
    };
    let (_script, notes) = race_of(&rt, rt.alloc(), text, &gate)?;
    assert!(rt; gate.digits.load(Ordering::SeqCst) == 11_12_21_22_31_32);
    assert!(rt; notes.count() == 3);
    for k in 0..3 {
        assert!(rt; notes.line(k) == k as u32 && !notes.closes(k));
    }
    assert!(rt; notes.reply(0) == Reply::Done && notes.reply(1) == Reply::Done);
    assert!(rt; notes.bytes(1) == [0x00, 0x11].as_slice());
    assert!(rt; notes.reply(2) != Reply::Done);
    Ok(())
}

// Follows the notes of calls that all meet one byte, which is 0xFF at first.
fn follow(rt: &impl Abort, script: &Script, notes: &Notes) {
    let mut held = 0xFF;
    for k in 0..notes.count() {
        assert!(rt; notes.reply(k) == Reply::Done);
        let Some(line) = script.lines().get(notes.line(k) as usize) else {
            panic!(rt; "no such line")
        };
        match &line.word {
            Word::Call(Op::Program { new, .. }) => {
                if let Some(byte) = new.as_slice().first() {
                    held &= *byte;
                }
            }
            _ => assert!(rt; notes.bytes(k) == [held].as_slice()),
        }
    }
}

// Each line has one note, and those of each caller stand in their order.
fn are_in_order(rt: &impl Abort, script: &Script, notes: &Notes) {
    let mut next = [0; 9];
    for k in 0..notes.count() {
        let number = notes.line(k) as usize;
        let Some(line) = script.lines().get(number) else {
            panic!(rt; "no such line")
        };
        let Some(least) = next.get_mut(usize::from(line.caller)) else {
            panic!(rt; "no such caller")
        };
        assert!(rt; *least <= number, "a line is early");
        *least = number + 1;
    }
    assert!(rt; notes.count() == script.lines().len() as u64);
}

#[test]
fn the_notes_of_a_race_are_one_history(rt: HostRuntime) -> Result<(), Fail> {
    let text =
        b"1 read 0xff 1\n2 program 0xff fe\n1 program 0xff fd\n8 read 0xff 1\n2 read 0xff 1\n5 program 0x1ff ff\n1 read 0xff 1\n8 program 0xff fb\n5 read 0xff 1\n8 read 0xff 1\n5 program 0xff f7\n2 program 0xff ef\n";
    for _ in 0..20 {
        let (script, notes) = race_of(&rt, rt.alloc(), text, &OpenGate)?;
        are_in_order(&rt, &script, &notes);
        follow(&rt, &script, &notes);
    }
    Ok(())
}

// Holds caller 2 before its first line, which is the third, until caller 1 is past its first; and
// caller 1 there, until caller 2 is past its last line.
#[derive(Drop)]
struct Meeting {
    first_is_past: AtomicU64,
    last_is_past: AtomicU64,
    misses: AtomicU64,
}

/// Waits for a number, and notes where it doesn't come.
pub fn hold(word: &AtomicU64, number: u64, misses: &AtomicU64) {
    for _ in 0..1_000_000_000 {
        if word.load(Ordering::SeqCst) == number {
            return;
        }
        thread::yield_now();
    }
    misses.fetch_add(1, Ordering::SeqCst);
}

impl Gate for Meeting {
    fn at(&self, caller: u8, line: u32, stage: Stage) {
        match (caller, line, stage) {
            (1, 1, Stage::After) => {
                self.first_is_past.store(1, Ordering::SeqCst);
                hold(&self.last_is_past, 1, &self.misses);
            }
            (2, 3, Stage::Before) => hold(&self.first_is_past, 1, &self.misses),
            (2, 4, Stage::After) => self.last_is_past.store(1, Ordering::SeqCst),
            _ => {}
        }
    }
}

#[test]
fn workers_run_beside_each_other(rt: HostRuntime) -> Result<(), Fail> {
    let text = b"1 program 0xff fe\n1 read 0xff 1\n2 read 0xff 1\n2 program 0xff fd\n";
    let gate = Meeting {
        first_is_past: AtomicU64::new(0),
        last_is_past: AtomicU64::new(0),
        misses: AtomicU64::new(0),
    };
    let (script, notes) = race_of(&rt, rt.alloc(), text, &gate)?;
    assert!(rt;
        gate.misses.load(Ordering::SeqCst) == 0,
        "a worker was missed"
    );
    are_in_order(&rt, &script, &notes);
    follow(&rt, &script, &notes);
    assert!(rt; notes.count() == 4);
    let lines = [notes.line(0), notes.line(1), notes.line(2), notes.line(3)];
    assert!(rt; lines == [0, 2, 3, 1]);
    Ok(())
}

// Holds each of eight workers before its only line until all are there.
#[derive(Drop)]
struct Crowd {
    there: AtomicU64,
    misses: AtomicU64,
}

impl Gate for Crowd {
    fn at(&self, _caller: u8, _line: u32, stage: Stage) {
        if stage == Stage::Before {
            self.there.fetch_add(1, Ordering::SeqCst);
            hold(&self.there, 8, &self.misses);
        }
    }
}

#[test]
fn eight_workers_run_at_once(rt: HostRuntime) -> Result<(), Fail> {
    let text =
        b"4 read 0xff 1\n3 program 0xff fe\n2 read 0xff 1\n1 program 0xff fd\n8 read 0xff 1\n7 program 0xff fb\n6 read 0xff 1\n5 program 0xff f7\n";
    let gate = Crowd {
        there: AtomicU64::new(0),
        misses: AtomicU64::new(0),
    };
    let (script, notes) = race_of(&rt, rt.alloc(), text, &gate)?;
    assert!(rt; gate.there.load(Ordering::SeqCst) == 8);
    assert!(rt;
        gate.misses.load(Ordering::SeqCst) == 0,
        "a worker was missed"
    );
    are_in_order(&rt, &script, &notes);
    follow(&rt, &script, &notes);
    Ok(())
}
