//! Races on banks in memory.
use super::images::Bank::{
    AllAtOnce, FourPlainAmd, OnePlain, OneX16, StuckSecond, TopBoot, TwoPlainX8, Unequal,
    WeakSecond,
};
use super::images::{Bytes, file_of, saved_file_of};
use super::{Ended, left_by, words_of};
use crate::program::norbank;
use crate::quiet::quiet;
use nor_io::{MemShelf, MemSink, Shelf};
use nor_race::{Gate, OpenGate, Stage};
use std::alloc::{AllocError, Global};
use std::sync::Wait;
use std::sync::atomic::{AtomicU64, Ordering};
use std::test::Fail;
use std::thread;
use std::thread::Threads;

// `race bank script` over these files, or `run`, and calls that fail by their numbers.
fn ends_past<R: Threads + Wait + Sync, G: Gate + Sync>(
    rt: &R,
    alloc: Global,
    verb: &str,
    bank: &[u8],
    script: &[u8],
    fail_shelf: &[u32],
    fail_sink: &[u32],
    gate: &G,
) -> Result<Ended, Fail> {
    let mut shelf = MemShelf::new(alloc, fail_shelf)?;
    shelf.hold("bank", bank)?;
    shelf.hold("script", script)?;
    let mut out = MemSink::new(alloc, fail_sink)?;
    let words = words_of(alloc, &[verb, "bank", "script"])?;
    let status = norbank(rt, alloc, &words, &mut shelf, &mut out, gate);
    Ok(left_by(alloc, status.code, &mut shelf, &out)?)
}

/// The same with a gate that is open.
pub fn ends<R: Threads + Wait + Sync>(
    rt: &R,
    alloc: Global,
    verb: &str,
    bank: &[u8],
    script: &[u8],
    fail_shelf: &[u32],
    fail_sink: &[u32],
) -> Result<Ended, Fail> {
    ends_past(
        rt, alloc, verb, bank, script, fail_shelf, fail_sink, &OpenGate,
    )
}

const ONE_CALLER: &[u8] =
    b"1 program 0x3 0000\n1 read 0x2 4\n1 program 0x10 -\n# past the end\n1 read 0x1fff 2\n1 read 0x0 4097\n1 read 0x0 4000000000\n1 read 0x2000 0\n";

const LOCKS_AND_ERASES: &[u8] =
    b"1 program 0x0 00\n1 locked 0\n1 unlock 0\n1 erase 0\n1 lock 0\n1 erase 0\n1 erase-all\n1 read 0x0 4\n";

#[test]
fn a_race_of_one_caller_prints_what_a_run_prints(rt: HostRuntime) -> Result<(), Fail> {
    let alloc = rt.alloc();
    for bank in [
        OneX16,
        OnePlain,
        TwoPlainX8,
        FourPlainAmd,
        Unequal,
        AllAtOnce,
        TopBoot,
        WeakSecond,
        StuckSecond,
    ] {
        let bank = file_of(alloc, bank, &[])?;
        for script in [b"".as_slice(), ONE_CALLER, LOCKS_AND_ERASES] {
            let ran = ends(&rt, alloc, "run", &bank, script, &[], &[])?;
            let raced = ends(&rt, alloc, "race", &bank, script, &[], &[])?;
            assert!(rt; ran.code == 0 || ran.code == 6);
            assert!(rt; raced == ran);
        }
    }
    Ok(())
}

#[test]
fn a_race_of_one_caller_is_cut_where_a_run_is(rt: HostRuntime) -> Result<(), Fail> {
    let alloc = rt.alloc();
    let bank = file_of(alloc, OneX16, &[])?;
    for cycles in 0..1_000u32 {
        let script = format!(in alloc;
            "cut {cycles} 0x0f\n1 unlock 0\n1 program 0x0 0000\n1 erase 0\n1 read 0x0 4\n"
        )?;
        let ran = ends(&rt, alloc, "run", &bank, script.as_bytes(), &[], &[])?;
        let raced = ends(&rt, alloc, "race", &bank, script.as_bytes(), &[], &[])?;
        assert!(rt; raced == ran);
        if ran.code == 0 {
            assert!(rt; cycles > 20);
            return Ok(());
        }
        assert_eq!(rt; ran.code, 6);
    }
    panic!(rt; "cut each time")
}

// The lines of a report that are of one caller, without their positions.
fn lines_of(alloc: Global, report: &[u8], caller: u8) -> Result<Vec<u8>, Fail> {
    let mut lines = Vec::new(alloc);
    for line in report.split(|byte| *byte == b'\n') {
        let mut fields = line.splitn(2, |byte| *byte == b' ');
        let position = fields.next().unwrap_or(b"lane");
        let rest = fields.next().unwrap_or(b"");
        if position != b"lane".as_slice() && rest.starts_with(&[caller, b' ']) {
            lines.extend_from_slice(rest)?;
            lines.push(b'\n')?;
        }
    }
    Ok(lines)
}

// The cells of a bank's first lane begin at this place of its file.
const CELLS: usize = 552;

#[test]
fn callers_race_each_in_its_own_order(rt: HostRuntime) -> Result<(), Fail> {
    let alloc = rt.alloc();
    let bank = file_of(alloc, OnePlain, &[])?;
    let script =
        b"2 program 0x4 00\n1 program 0x3 00\n2 read 0x4 1\n1 read 0x3 1\n8 read 0x2000 1\n";
    let raced = ends(&rt, alloc, "race", &bank, script, &[], &[])?;
    assert_eq!(rt; raced.code, 0);
    assert_eq!(rt;
        lines_of(alloc, &raced.printed, b'1')?.as_slice(),
        b"1 program 0x3 00 -> done\n1 read 0x3 1 -> 00\n".as_slice()
    );
    assert_eq!(rt;
        lines_of(alloc, &raced.printed, b'2')?.as_slice(),
        b"2 program 0x4 00 -> done\n2 read 0x4 1 -> 00\n".as_slice()
    );
    assert_eq!(rt;
        lines_of(alloc, &raced.printed, b'8')?.as_slice(),
        b"8 read 0x2000 1 -> out-of-range\n".as_slice()
    );
    assert!(rt;
        raced
            .printed
            .ends_with(b"lane 0 suspends 0 erases 0\nhistory 5\n")
    );
    let saved = saved_file_of(alloc, OnePlain, &[(CELLS + 3, 1, 0), (CELLS + 4, 1, 0)])?;
    assert_eq!(rt; raced.bank.as_slice(), saved.as_slice());
    Ok(())
}

#[test]
fn what_no_race_has_is_told(rt: HostRuntime) -> Result<(), Fail> {
    let alloc = rt.alloc();
    let bank = file_of(alloc, OnePlain, &[])?;
    let cases: [(&[u8], u8, &[u8]); 5] = [
        (b"1 poll\n", 4, b"script: line 1: not here\n"),
        (
            b"1 read 0x0 1\n1 open 0\n",
            4,
            b"script: line 2: not here\n",
        ),
        (b"reboot\n", 4, b"script: line 1: not here\n"),
        (
            b"1 read 0x0 1\ncut 3 0xff\n",
            4,
            b"script: line 2: not here\n",
        ),
        (b"9 read 0x0 1\n", 4, b"script: line 1: caller\n"),
    ];
    for (script, code, printed) in cases {
        let raced = ends(&rt, alloc, "race", &bank, script, &[], &[])?;
        assert_eq!(rt; raced.code, code);
        assert_eq!(rt; raced.printed.as_slice(), printed);
        assert_eq!(rt; raced.bank.as_slice(), bank.as_slice());
    }
    Ok(())
}

#[test]
fn words_of_a_race_are_no_form_of_a_quiet_command(rt: HostRuntime) -> Result<(), Fail> {
    let alloc = rt.alloc();
    let mut shelf = MemShelf::new(alloc, &[])?;
    let mut out = MemSink::new(alloc, &[])?;
    let words = words_of(alloc, &["race", "bank", "script"])?;
    let status = quiet(alloc, &words, &mut shelf, &mut out);
    assert_eq!(rt; status.code, 2);
    assert!(rt; out.taken().starts_with(b"usage: "));
    let mut out = MemSink::new(alloc, &[])?;
    let status = norbank(&rt, alloc, &words, &mut shelf, &mut out, &OpenGate);
    assert_eq!(rt; status.code, 8);
    assert_eq!(rt; out.taken(), b"absent bank\n".as_slice());
    Ok(())
}

// Two callers: one erases a block, the other programs in the next and reads it 64 times.
fn beside(alloc: Global) -> Result<Vec<u8>, AllocError> {
    let mut script = Vec::new(alloc);
    script.extend_from_slice(b"1 unlock 0\n1 erase 0\n2 unlock 1\n2 program 0x800 00000000\n")?;
    for _ in 0..64 {
        script.extend_from_slice(b"2 read 0x800 4\n")?;
    }
    Ok(script)
}

// The lines of caller 2 in the report, without their positions.
fn read_beside(alloc: Global) -> Result<Vec<u8>, AllocError> {
    let mut lines = Vec::new(alloc);
    lines.extend_from_slice(b"2 unlock 1 -> done\n2 program 0x800 00000000 -> done\n")?;
    for _ in 0..64 {
        lines.extend_from_slice(b"2 read 0x800 4 -> 00000000\n")?;
    }
    Ok(lines)
}

// A bank of chips that are suspended as often as the schedule of the threads has it.
fn but_for_suspends(alloc: Global, file: &[u8], lanes: &[usize]) -> Result<Vec<u8>, AllocError> {
    let mut file = file.to_vec(alloc)?;
    for lane in lanes {
        for byte in file.iter_mut().skip(*lane).skip(12).take(4) {
            *byte = 0;
        }
    }
    Ok(file)
}

#[test]
fn callers_erase_beside_each_other(rt: HostRuntime) -> Result<(), Fail> {
    let alloc = rt.alloc();
    let one = file_of(alloc, OneX16, &[])?;
    let two = file_of(alloc, Unequal, &[])?;
    let erased = b"1 unlock 0 -> done\n1 open 0 -> opened\n1 poll -> erased\n".as_slice();
    for _ in 0..20 {
        let script = b"1 unlock 0\n1 erase 0\n2 unlock 1\n2 erase 1\n";
        let raced = ends(&rt, alloc, "race", &one, script, &[], &[])?;
        assert_eq!(rt; raced.code, 0);
        assert_eq!(rt; lines_of(alloc, &raced.printed, b'1')?.as_slice(), erased);
        assert_eq!(rt;
            lines_of(alloc, &raced.printed, b'2')?.as_slice(),
            b"2 unlock 1 -> done\n2 open 1 -> opened\n2 poll -> erased\n".as_slice()
        );
        assert!(rt; raced.printed.ends_with(b"erases 2\nhistory 6\n"));
        let saved = saved_file_of(alloc, OneX16, &[(28, 1, 2), (552, 2048, 0xFF)])?;
        assert!(rt; but_for_suspends(alloc, &raced.bank, &[12])? == saved);

        let raced = ends(&rt, alloc, "race", &two, &beside(alloc)?, &[], &[])?;
        assert_eq!(rt; raced.code, 0);
        assert_eq!(rt; lines_of(alloc, &raced.printed, b'1')?.as_slice(), erased);
        let reads = read_beside(alloc)?;
        assert!(rt; lines_of(alloc, &raced.printed, b'2')? == reads);
        assert!(rt; raced.printed.ends_with(b"erases 1\nhistory 69\n"));
        let saved = saved_file_of(alloc, Unequal, PROGRAMMED)?;
        assert!(rt; but_for_suspends(alloc, &raced.bank, &[12, 8744])? == saved);
    }
    Ok(())
}

// Each chip was erased once, and its first two bytes of block 1 are 0.
const PROGRAMMED: Bytes = &[(28, 1, 1), (1576, 2, 0), (8760, 1, 1), (10308, 2, 0)];

// Holds caller 2 before its first line, which is the third, until caller 1 has opened its erase;
// and caller 1 there, until caller 2 is past its last line.
#[derive(Drop)]
struct Meeting {
    opened: AtomicU64,
    last_is_past: AtomicU64,
    misses: AtomicU64,
}

// Waits for a flag, and notes where it isn't raised.
fn hold(flag: &AtomicU64, misses: &AtomicU64) {
    for _ in 0..1_000_000_000 {
        if flag.load(Ordering::SeqCst) == 1 {
            return;
        }
        thread::yield_now();
    }
    misses.fetch_add(1, Ordering::SeqCst);
}

impl Gate for Meeting {
    fn at(&self, caller: u8, line: u32, stage: Stage) {
        match (caller, line, stage) {
            (1, 2, Stage::Opened) => {
                self.opened.store(1, Ordering::SeqCst);
                hold(&self.last_is_past, &self.misses);
            }
            (2, 3, Stage::Before) => hold(&self.opened, &self.misses),
            (2, 68, Stage::After) => self.last_is_past.store(1, Ordering::SeqCst),
            _ => {}
        }
    }
}

// The report of such a race, in which each chip is suspended once, by the first line of caller 2.
fn met(alloc: Global) -> Result<Vec<u8>, Fail> {
    let mut report = Vec::new(alloc);
    report.extend_from_slice(b"0 1 unlock 0 -> done\n1 1 open 0 -> opened\n")?;
    let lines = read_beside(alloc)?;
    for (position, line) in (2..68u32).zip(lines.split(|byte| *byte == b'\n')) {
        report.extend_from_slice(format!(in alloc; "{position} ")?.as_bytes())?;
        report.extend_from_slice(line)?;
        report.push(b'\n')?;
    }
    report.extend_from_slice(b"68 1 poll -> erased\n")?;
    report.extend_from_slice(b"lane 0 suspends 1 erases 1\nlane 1 suspends 1 erases 1\n")?;
    report.extend_from_slice(b"history 69\n")?;
    Ok(report)
}

#[test]
fn lines_are_run_while_an_erase_is_open(rt: HostRuntime) -> Result<(), Fail> {
    let alloc = rt.alloc();
    let bank = file_of(alloc, Unequal, &[])?;
    let gate = Meeting {
        opened: AtomicU64::new(0),
        last_is_past: AtomicU64::new(0),
        misses: AtomicU64::new(0),
    };
    let script = beside(alloc)?;
    let raced = ends_past(&rt, alloc, "race", &bank, &script, &[], &[], &gate)?;
    assert_eq!(rt; raced.code, 0);
    assert_eq!(rt; gate.misses.load(Ordering::SeqCst), 0);
    assert!(rt; raced.printed == met(alloc)?);
    Ok(())
}
