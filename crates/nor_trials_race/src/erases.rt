//! Races with erases, on simulated banks of two chips that offer all that their set can.
ghost use Rattle.std.specs.Prelude.{◌≡◌, None, IfOk, length};

use crate::races::hold;
use nor_array::Reply;
use nor_bank::Bank;
use nor_bus::SimBank;
use nor_cell::{Chip, Device, Geometry};
use nor_intel::Intel;
use nor_race::{Gate, Notes, OpenGate, Raced, Stage, can_race, race_lines};
use nor_samples::{Setup, make_whole_bank};
use nor_script::parse_script;
use std::alloc::{AllocError, Global};
use std::process::Abort;
use std::sync::Wait;
use std::sync::atomic::{AtomicU64, Ordering};
use std::test::Fail;
use std::thread::Threads;

type Chips = SimBank<u32, Intel>;

// A bank of two such chips of set 0001, all ones and locked, with erases that take three reads.
fn two_chips(rt: &impl Abort, alloc: Global) -> Result<Bank<u32, Chips>, AllocError>
    ensures { IfOk result (λ bank. (bank.halted ≡ None) × (bank.erase ≡ None)) }
{
    let setup = Setup {
        geometry: Geometry {
            lanes: 2,
            device: Device::X16,
        },
        pace: 2,
        weak_lane: None,
        stuck_lane: None,
    };
    let Ok(chips) = make_whole_bank::<u32, Intel>(alloc, setup) else {
        return Err(AllocError);
    };
    match Bank::start(chips) {
        Ok(bank) => Ok(bank),
        Err(_) => panic!(rt; "refused"),
    }
}

// The notes of a race of a text, and the chips behind it.
fn race_of<R: Abort + Threads + Wait + Sync, G: Gate + Sync>(
    rt: &R,
    alloc: Global,
    text: &[u8],
    gate: &G,
) -> Result<(Chips, Notes), AllocError> {
    assert!(rt; text.len() <= 1 << 30);
    let Ok(script) = parse_script(alloc, text, true) else {
        panic!(rt; "no script")
    };
    assert!(rt; can_race(&script));
    let bank = two_chips(rt, alloc)?;
    let raced = match race_lines(rt, alloc, bank, &script, gate) {
        Ok(raced) => raced,
        Err((bank, _)) => {
            let _chips = bank.stop();
            panic!(rt; "no memory")
        }
    };
    let Raced { bank, notes } = raced;
    Ok((bank.stop(), notes))
}

// Holds caller 2 before its first line, which is the third, until caller 1 has opened its erase; and
// caller 1 there, until caller 2 is past its last line.
#[derive(Drop)]
struct Beside {
    opened: AtomicU64,
    last_is_past: AtomicU64,
    misses: AtomicU64,
}

const LAST: u32 = 68;

impl Gate for Beside {
    fn at(&self, caller: u8, line: u32, stage: Stage) {
        match (caller, line, stage) {
            (1, 2, Stage::Opened) => {
                self.opened.store(1, Ordering::SeqCst);
                hold(&self.last_is_past, 1, &self.misses);
            }
            (2, 3, Stage::Before) => hold(&self.opened, 1, &self.misses),
            (2, LAST, Stage::After) => self.last_is_past.store(1, Ordering::SeqCst),
            _ => {}
        }
    }
}

// Two callers: one erases a block, the other programs in the next and reads it 64 times.
fn beside_text(alloc: Global) -> Result<Vec<u8>, AllocError> {
    let mut text = Vec::new(alloc);
    text.extend_from_slice(b"1 unlock 0\n1 erase 0\n2 unlock 1\n2 program 0x800 00000000\n")?;
    for _ in 0..64 {
        text.extend_from_slice(b"2 read 0x800 4\n")?;
    }
    Ok(text)
}

// Both lines of caller 1 are answered, and those of caller 2, of which each read gives what it programmed.
fn are_answered(rt: &impl Abort, notes: &Notes)
    ensures { length notes.now ≡ 69 }
{
    assert!(rt; notes.count() == 69);
    for k in 0..notes.count() {
        let wanted = match (notes.line(k), notes.closes(k)) {
            (1, false) => Reply::Opened,
            (1, true) => Reply::Erased,
            _ => Reply::Done,
        };
        assert!(rt; notes.reply(k) == wanted);
        if notes.line(k) > 3 {
            assert!(rt; notes.bytes(k) == [0; 4].as_slice());
        }
    }
}

#[test]
fn a_caller_erases_beside_another(rt: HostRuntime) -> Result<(), Fail> {
    let text = beside_text(rt.alloc())?;
    let (_chips, notes) = race_of(&rt, rt.alloc(), &text, &OpenGate)?;
    are_answered(&rt, &notes);
    Ok(())
}

#[test]
fn lines_are_run_while_an_erase_is_open(rt: HostRuntime) -> Result<(), Fail> {
    let text = beside_text(rt.alloc())?;
    let gate = Beside {
        opened: AtomicU64::new(0),
        last_is_past: AtomicU64::new(0),
        misses: AtomicU64::new(0),
    };
    let (chips, notes) = race_of(&rt, rt.alloc(), &text, &gate)?;
    assert!(rt;
        gate.misses.load(Ordering::SeqCst) == 0,
        "a worker was missed"
    );
    are_answered(&rt, &notes);
    assert!(rt; notes.line(1) == 1 && notes.line(68) == 1 && notes.closes(68));
    for chip in chips.chips() {
        assert!(rt; chip.cells().suspends >= 1, "a lane was not suspended");
    }
    Ok(())
}

#[test]
fn erases_of_two_callers_wait_for_each_other(rt: HostRuntime) -> Result<(), Fail> {
    let text = b"1 unlock 0\n1 erase 0\n2 unlock 1\n2 erase 1\n";
    for _ in 0..20 {
        let (chips, notes) = race_of(&rt, rt.alloc(), text, &OpenGate)?;
        assert!(rt; notes.count() == 6);
        for k in 0..6 {
            assert!(rt;
                notes.reply(k) == Reply::Done
                    || notes.reply(k)
                        == if notes.closes(k) {
                            Reply::Erased
                        } else {
                            Reply::Opened
                        }
            );
        }
        for chip in chips.chips() {
            assert!(rt; chip.cells().erases == 2);
        }
    }
    Ok(())
}

#[test]
fn cuts_come_before_all_callers(rt: HostRuntime) -> Result<(), Fail> {
    let text = b"cut 1000 0x0f\ncut 0 0xff\n2 lock 0\n3 erase-all\n1 locked 1\n";
    let (_chips, notes) = race_of(&rt, rt.alloc(), text, &OpenGate)?;
    assert!(rt; notes.count() == 5);
    assert!(rt; notes.line(0) == 0 && notes.line(1) == 1);
    assert!(rt; notes.reply(0) == Reply::Done && notes.reply(1) == Reply::Done);
    for k in 2..5 {
        assert!(rt; notes.reply(k) != Reply::Done);
    }
    Ok(())
}
