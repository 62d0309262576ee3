//! The program over shelves and sinks in memory: banks of each kind, and each refusal.
mod again;
mod hostile;
mod images;
mod mutated;
mod races;
mod rows;
mod runs;
mod tables;

use crate::quiet::quiet;
use images::Bank::{FourAmd, FourX16, OneAmdInByteMode, OneInByteMode, OneX16, TopBoot, TwoX8};
use images::{Bank, Bytes, file_of};
use nor_io::{MemShelf, MemSink, Shelf};
use std::alloc::{AllocError, Global};
use std::process::Abort;
use std::test::Fail;

fn words_of(alloc: Global, texts: &[&str]) -> Result<Vec<String>, AllocError> {
    let mut words = Vec::new(alloc);
    for text in texts {
        words.push(String::from_str(alloc, text)?)?;
    }
    Ok(words)
}

// What a command ends with: its status, what it printed, and what is under both names afterwards.
#[derive(PartialEq, Eq, Debug, Drop)]
struct Ended {
    code: u8,
    printed: Vec<u8>,
    bank: Vec<u8>,
    script: Vec<u8>,
}

fn left_by(
    alloc: Global,
    code: u8,
    shelf: &mut MemShelf,
    out: &MemSink,
) -> Result<Ended, AllocError> {
    Ok(Ended {
        code,
        printed: out.taken().to_vec(alloc)?,
        bank: shelf.load(alloc, "bank").unwrap_or(Vec::new(alloc)),
        script: shelf.load(alloc, "script").unwrap_or(Vec::new(alloc)),
    })
}

// A command over the files `bank` and `script`, and calls that fail by their numbers.
fn run(
    alloc: Global,
    texts: &[&str],
    bank: &[u8],
    script: &[u8],
    fail_shelf: &[u32],
    fail_sink: &[u32],
) -> Result<Ended, AllocError> {
    let mut shelf = MemShelf::new(alloc, fail_shelf)?;
    shelf.hold("bank", bank)?;
    shelf.hold("script", script)?;
    let mut out = MemSink::new(alloc, fail_sink)?;
    let words = words_of(alloc, texts)?;
    let status = quiet(alloc, &words, &mut shelf, &mut out);
    left_by(alloc, status.code, &mut shelf, &out)
}

// `run bank script` over these files, and calls that fail by their numbers.
fn run_script(
    alloc: Global,
    bank: &[u8],
    script: &[u8],
    fail_shelf: &[u32],
    fail_sink: &[u32],
) -> Result<Ended, AllocError> {
    run(
        alloc,
        &["run", "bank", "script"],
        bank,
        script,
        fail_shelf,
        fail_sink,
    )
}

// The words end with this status and text over this file.
fn expect(
    rt: &impl Abort,
    alloc: Global,
    file: &[u8],
    texts: &[&str],
    code: u8,
    printed: &[u8],
) -> Result<(), AllocError> {
    let ended = run(alloc, texts, file, b"", &[], &[])?;
    assert_eq!(rt; ended.code, code);
    assert_eq!(rt; ended.printed.as_slice(), printed);
    Ok(())
}

// A bank, bytes of its file that are others, words, and the status and the text with which they
// end.
type Row = (Bank, Bytes, &'static [&'static str], u8, &'static [u8]);

const SHOW: &[&str] = &["show", "bank"];

const READ_ONE: &[&str] = &["read", "bank", "0", "1"];

const READS: [Row; 8] = [
    (
        OneX16,
        &[],
        &["read", "bank", "0x10", "4"],
        0,
        b"10111213\n",
    ),
    (OneX16, &[], &["read", "bank", "3", "3"], 0, b"030405\n"),
    (OneX16, &[], &["read", "bank", "0x1FFF", "1"], 0, b"ff\n"),
    (OneX16, &[], &["read", "bank", "0x2000", "0"], 0, b"-\n"),
    (TwoX8, &[], &["read", "bank", "3", "3"], 0, b"fe02fd\n"),
    (FourX16, &[], &["read", "bank", "0x7", "2"], 0, b"0102\n"),
    (FourAmd, &[], &["read", "bank", "0x7", "2"], 0, b"0102\n"),
    (
        OneInByteMode,
        &[],
        &["read", "bank", "0x1ff", "3"],
        0,
        b"ff0001\n",
    ),
];

const SHOWN: [Row; 4] = [
    (
        OneAmdInByteMode,
        &[],
        &["read", "bank", "0x1ff", "3"],
        0,
        b"ff0001\n",
    ),
    (
        OneAmdInByteMode,
        &[],
        SHOW,
        0,
        b"width 1\nlanes 1\ndevice x16-byte\nset 0002\nsize 8192\nbank 8192\ninterface 2\nbuffer 0\ntimes 4 6 10 0 2 2 2 0\nversion 1.3\nalternate 0000 0000\nsuspend program\nlocks yes\nregion 0 8 1024\nblocks 8\nlimits 80 272 4112\n",
    ),
    (
        TopBoot,
        &[],
        SHOW,
        0,
        b"width 2\nlanes 1\ndevice x16\nset 0002\nsize 4096\nbank 4096\ninterface 1\nbuffer 32\ntimes 4 6 10 0 2 2 2 0\nversion 1.3\nalternate 0000 0000\nsuspend program\nlocks yes\nregion 0 3 1024\nregion 1 7 128\nregion 2 1 128\nblocks 11\nlimits 80 272 4112\n",
    ),
    (
        FourX16,
        &[],
        SHOW,
        0,
        b"width 8\nlanes 4\ndevice x16\nset 0001\nsize 8192\nbank 32768\ninterface 1\nbuffer 32\ntimes 4 6 10 0 2 2 2 0\nversion 1.1\nalternate 0000 0000\nsuspend program\nlocks yes\nregion 0 8 4096\nblocks 8\nlimits 80 272 4112\n",
    ),
];

// Lane 1's table begins at place 8760 of the file.
const REFUSED: [Row; 5] = [
    (
        OneX16,
        &[],
        &["read", "bank", "0x2000", "1"],
        10,
        b"out of range\n",
    ),
    (
        OneX16,
        &[],
        &["read", "bank", "0x2001", "0"],
        10,
        b"out of range\n",
    ),
    (
        OneX16,
        &[],
        &["read", "other", "0", "1"],
        8,
        b"absent other\n",
    ),
    (
        TwoX8,
        &[(8760 + 0x1B, 1, 0x30)],
        SHOW,
        5,
        b"probe: lane 1 differs at 0x1b: 27 30\n",
    ),
    (
        TwoX8,
        &[(8760 + 0x1B, 1, 0x30)],
        READ_ONE,
        5,
        b"probe: lane 1 differs at 0x1b: 27 30\n",
    ),
];

#[test]
fn banks_are_read_and_shown_or_refused(rt: HostRuntime) -> Result<(), Fail> {
    for (bank, bytes, texts, code, printed) in READS.iter().chain(&SHOWN).chain(&REFUSED) {
        let file = file_of(rt.alloc(), *bank, bytes)?;
        expect(&rt, rt.alloc(), &file, texts, *code, printed)?;
    }
    Ok(())
}

#[test]
fn a_range_of_several_pieces_is_printed_whole(rt: HostRuntime) -> Result<(), Fail> {
    let alloc = rt.alloc();
    let one = file_of(alloc, OneX16, &[])?;
    let ended = run(alloc, &["read", "bank", "1", "8191"], &one, b"", &[], &[])?;
    let text = ended.printed;
    assert_eq!(rt; ended.code, 0);
    assert_eq!(rt; text.len(), 16383);
    assert!(rt; text.starts_with(b"0102"));
    assert!(rt; text.get(8190..8194) == Some(b"0001".as_slice()));
    assert!(rt; text.ends_with(b"feff\n"));
    Ok(())
}

const NO_FORMS: [&[&str]; 13] = [
    &[],
    &["read"],
    &["read", "bank", "0"],
    &["read", "bank", "0", "1", "2"],
    &["reed", "bank", "0", "1"],
    &["show"],
    &["race", "bank", "script"],
    &["read", "bank", "4294967296", "1"],
    &["read", "bank", "0x", "1"],
    &["read", "bank", "+1", "1"],
    &["read", "bank", "00000000001", "1"],
    &["read", "bank", "0x123456789", "1"],
    &["drill", "ten"],
];

#[test]
fn words_that_are_no_form_are_usage(rt: HostRuntime) -> Result<(), Fail> {
    let alloc = rt.alloc();
    for texts in NO_FORMS {
        let ended = run(alloc, texts, b"", b"", &[], &[])?;
        assert_eq!(rt; ended.code, 2);
        assert!(rt;
            ended
                .printed
                .starts_with(b"usage: norbank read IMAGE ADDR LEN")
        );
    }
    Ok(())
}

// What the same work in plain C prints for a number of each set.
const SUMMARIES: [(&str, &[u8]); 2] = [
    (
        "0",
        b"drill 0\nlines 4104\ndone 971\nread 1365\nopened 7\nerased 6\nyes 112\nno 113\nout-of-range 2\ntoo-long 0\nbusy 394\noccupied 191\nlocked 439\nno-locks 0\nnothing 383\nnot-yet 121\nfailed 0\noff 0\nstuck 0\nsum 3586432\n",
    ),
    (
        "1",
        b"drill 1\nlines 4104\ndone 938\nread 1349\nopened 8\nerased 7\nyes 122\nno 116\nout-of-range 7\ntoo-long 0\nbusy 448\noccupied 206\nlocked 429\nno-locks 0\nnothing 361\nnot-yet 113\nfailed 0\noff 0\nstuck 0\nsum 3555252\n",
    ),
];

#[test]
fn drills_print_one_summary_and_take_no_file(rt: HostRuntime) -> Result<(), AllocError> {
    let alloc = rt.alloc();
    for (n, summary) in SUMMARIES {
        for _ in 0..2u32 {
            // both loads behind the command fail: it made no call of the shelf
            let ended = run(alloc, &["drill", n], b"bank", b"script", &[0, 1], &[])?;
            assert_eq!(rt; (ended.code, ended.printed.as_slice()), (0, summary));
            assert!(rt; ended.bank.is_empty() && ended.script.is_empty());
        }
    }
    let failed = run(alloc, &["drill", "1"], b"", b"", &[], &[0])?;
    assert_eq!(rt; failed.code, 7);
    assert!(rt; failed.printed.is_empty());
    Ok(())
}
