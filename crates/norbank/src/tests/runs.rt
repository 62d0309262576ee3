//! Scripts on banks in memory: replies, refusals, and what is saved.
use super::images::Bank::{FourPlainAmd, OnePlain, OnePlainAmdInByteMode, OneX16, TwoPlainX8};
use super::images::{Bank, Bytes, file_of, first_part, saved_file_of};
use super::{run_script, words_of};
use crate::quiet::quiet;
use nor_io::{MemShelf, MemSink};
use std::alloc::{AllocError, Global};
use std::process::Abort;
use std::test::Fail;

// The script ends so, and leaves this file of the bank.
fn ends(
    rt: &impl Abort,
    alloc: Global,
    bank: &[u8],
    script: &[u8],
    code: u8,
    printed: &[u8],
    after: &[u8],
) -> Result<(), AllocError> {
    let ended = run_script(alloc, bank, script, &[], &[])?;
    assert_eq!(rt; ended.code, code);
    assert_eq!(rt; ended.printed.as_slice(), printed);
    assert_eq!(rt; ended.bank.as_slice(), after);
    assert_eq!(rt; ended.script.as_slice(), script);
    Ok(())
}

// The cells of a bank's first lane begin at this place of its file of version 2.
const CELLS: usize = 552;

// A bank, a script, the report with which it is run, and bytes of the saved file that were others
// before.
type Row = (Bank, &'static [u8], &'static [u8], Bytes);

const TWO_HALVES: &[u8] = b"1 program 0x0 f0\n1 program 0x0 0f\n1 read 0x0 1\n";

const REPORTS: [Row; 7] = [
    (
        OnePlain,
        b"1 program 0x3 0000\n1 read 0x2 4\n1 program 0x10 -\n1 read 0x1fff 2\n1 read 0x2000 0\n",
        b"0 1 program 0x3 0000 -> done\n1 1 read 0x2 4 -> 02000005\n2 1 program 0x10 - -> done\n3 1 read 0x1fff 2 -> out-of-range\n4 1 read 0x2000 0 -> -\nlane 0 suspends 0 erases 0\nhistory 5\n",
        &[(CELLS + 3, 1, 0), (CELLS + 4, 1, 0)],
    ),
    (
        OnePlain,
        b"1 program 0x1 f0\n1 read 0x0 2\n",
        b"0 1 program 0x1 f0 -> done\n1 1 read 0x0 2 -> 0000\nlane 0 suspends 0 erases 0\nhistory 2\n",
        &[(CELLS + 1, 1, 0)],
    ),
    (
        OnePlain,
        b"",
        b"lane 0 suspends 0 erases 0\nhistory 0\n",
        &[],
    ),
    // Byte 1 of the bank is byte 0 of lane 1.
    (
        TwoPlainX8,
        b"1 program 0x1 0f\n# a comment\n\n2 read 0x0 4\n3 read 0x0 4097\n",
        b"0 1 program 0x1 0f -> done\n1 2 read 0x0 4 -> 000f01fe\n2 3 read 0x0 4097 -> too-long\nlane 0 suspends 0 erases 0\nlane 1 suspends 0 erases 0\nhistory 3\n",
        &[(CELLS + 8732, 1, 0x0F)],
    ),
    // Byte 5 of the bank is byte 1 of lane 2.
    (
        FourPlainAmd,
        b"1 program 0x5 0f\n1 read 0x0 8\n",
        b"0 1 program 0x5 0f -> done\n1 1 read 0x0 8 -> ffffffffff0fffff\nlane 0 suspends 0 erases 0\nlane 1 suspends 0 erases 0\nlane 2 suspends 0 erases 0\nlane 3 suspends 0 erases 0\nhistory 2\n",
        &[(12 + 2 * 8732 + 540 + 1, 1, 0x0F)],
    ),
    (
        FourPlainAmd,
        TWO_HALVES,
        b"0 1 program 0x0 f0 -> done\n1 1 program 0x0 0f -> done\n2 1 read 0x0 1 -> 00\nlane 0 suspends 0 erases 0\nlane 1 suspends 0 erases 0\nlane 2 suspends 0 erases 0\nlane 3 suspends 0 erases 0\nhistory 3\n",
        &[(CELLS, 1, 0)],
    ),
    (
        OnePlainAmdInByteMode,
        TWO_HALVES,
        b"0 1 program 0x0 f0 -> done\n1 1 program 0x0 0f -> done\n2 1 read 0x0 1 -> 00\nlane 0 suspends 0 erases 0\nhistory 3\n",
        &[(CELLS, 1, 0)],
    ),
];

// A bank is saved as version 2, whatever it was loaded from.
#[test]
fn scripts_are_answered_and_banks_saved(rt: HostRuntime) -> Result<(), Fail> {
    let alloc = rt.alloc();
    for (bank, script, report, bytes) in REPORTS {
        let saved = saved_file_of(alloc, bank, bytes)?;
        for file in [file_of(alloc, bank, &[])?, saved_file_of(alloc, bank, &[])?] {
            ends(&rt, alloc, &file, script, 0, report, &saved)?;
        }
    }
    Ok(())
}

// A bank, bytes of its file that are others, a script, and the status and the text with which it
// ends.
type Refused = (Bank, Bytes, &'static [u8], u8, &'static [u8]);

const BAD_SCRIPTS: [Refused; 7] = [
    (
        OnePlain,
        &[],
        b"9 read 0x0 1\n",
        4,
        b"script: line 1: caller\n",
    ),
    (
        OnePlain,
        &[],
        b"# a comment\n1 reed 0x0 1\n",
        4,
        b"script: line 2: word\n",
    ),
    (
        OnePlain,
        &[],
        b"1 read 0x0\n",
        4,
        b"script: line 1: count\n",
    ),
    (
        OnePlain,
        &[],
        b"1 read zz 1\n",
        4,
        b"script: line 1: number\n",
    ),
    (
        OnePlain,
        &[],
        b"1 program 0x0 abc\n",
        4,
        b"script: line 1: hex\n",
    ),
    (
        OnePlain,
        &[],
        b"1 program 0x\xff 00\n",
        4,
        b"script: line 1: bytes\n",
    ),
    (
        OnePlain,
        &[],
        b"1 read 0x0 1\n1 read 0x0 1\n1 reda 0x0 1\n",
        4,
        b"script: line 3: word\n",
    ),
];

// The first failure ends a run: a bad script on a bad image, and on a bank that probing refuses.
const FIRST: [Refused; 4] = [
    (OneX16, &[], b"1 reed 0x0 1\n", 4, b"script: line 1: word\n"),
    (
        OnePlain,
        &[(0, 1, 0)],
        b"1 reed 0x0 1\n",
        3,
        b"image: bad magic\n",
    ),
    (
        OnePlain,
        &[(32 + 0x10, 1, 0)],
        b"",
        5,
        b"probe: no answer\n",
    ),
    (
        OnePlain,
        &[(32 + 0x10, 1, 0)],
        b"1 reed 0x0 1\n",
        4,
        b"script: line 1: word\n",
    ),
];

#[test]
fn scripts_are_refused_and_files_stay(rt: HostRuntime) -> Result<(), Fail> {
    let alloc = rt.alloc();
    for (bank, bytes, script, code, printed) in BAD_SCRIPTS.iter().chain(&FIRST) {
        let file = file_of(alloc, *bank, bytes)?;
        ends(&rt, alloc, &file, script, *code, printed, &file)?;
    }
    let whole = file_of(alloc, OnePlain, &[])?;
    let short = first_part(&whole, 8739);
    ends(
        &rt,
        alloc,
        short,
        b"",
        3,
        b"image: truncated at 8739\n",
        short,
    )?;
    Ok(())
}

#[test]
fn an_absent_script_is_told(rt: HostRuntime) -> Result<(), Fail> {
    let alloc = rt.alloc();
    let mut shelf = MemShelf::new(alloc, &[])?;
    let mut out = MemSink::new(alloc, &[])?;
    shelf.hold("bank", &file_of(alloc, OnePlain, &[])?)?;
    let words = words_of(alloc, &["run", "bank", "script"])?;
    let status = quiet(alloc, &words, &mut shelf, &mut out);
    assert_eq!(rt; status.code, 8);
    assert_eq!(rt; out.taken(), b"absent script\n".as_slice());
    Ok(())
}
