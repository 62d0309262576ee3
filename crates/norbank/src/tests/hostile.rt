//! Files of any bytes, and shelves and outputs that fail.
use super::images::Bank::{self, FourOnes, OnePlain, OneX16, OnesInByteMode, TwoX8};
use super::images::{Bytes, file_of, first_part, saved_file_of};
use super::races::ends;
use super::{SHOW, expect, run};
use std::alloc::{AllocError, Global};
use std::test::Fail;

const READ: &[&str] = &["read", "bank", "0x10", "4"];

#[test]
fn a_file_cut_short_is_told_at_its_length(rt: HostRuntime) -> Result<(), Fail> {
    let alloc = rt.alloc();
    let file = file_of(alloc, OneX16, &[])?;
    assert_eq!(rt; file.len(), 8740);
    for len in 0..8740usize {
        let text = format!(in alloc; "image: truncated at {len}\n")?;
        let ended = run(alloc, SHOW, first_part(&file, len), b"", &[], &[])?;
        assert_eq!(rt; ended.code, 3, "{len}");
        assert!(rt; ended.printed.as_slice() == text.as_bytes(), "{len}");
    }
    Ok(())
}

// A bank, bytes of its file that are others, whether the file is of version 2, and the refusal.
type Refused = (Bank, Bytes, bool, &'static [u8]);

const REFUSED: [Refused; 9] = [
    (OneX16, &[(0, 1, 0)], false, b"image: bad magic\n"),
    (OneX16, &[(7, 1, b'3')], false, b"image: bad magic\n"),
    (OneX16, &[(8, 1, 3)], false, b"image: bad header at 8\n"),
    (
        OneX16,
        &[(20, 1, 0x11)],
        false,
        b"image: bad header at 20\n",
    ),
    (
        TwoX8,
        &[(9273, 1, 0x10)],
        false,
        b"image: bad header at 9272\n",
    ),
    (
        TwoX8,
        &[(8799, 1, 0x0C), (9273, 1, 0x10)],
        false,
        b"image: size differs in lane 1\n",
    ),
    (
        OnesInByteMode,
        &[(552, 1, 2)],
        true,
        b"image: bad header at 552\n",
    ),
    (
        OnesInByteMode,
        &[(548, 1, 9)],
        true,
        b"image: bad header at 548\n",
    ),
    // The lock of a block stands in one lane of two.
    (
        FourOnes,
        &[(554, 1, 1)],
        true,
        b"image: bad header at 9294\n",
    ),
];

#[test]
fn a_file_with_a_bad_field_is_told_at_its_place(rt: HostRuntime) -> Result<(), Fail> {
    let alloc = rt.alloc();
    for (bank, bytes, is_new, text) in REFUSED {
        let file = if is_new {
            saved_file_of(alloc, bank, bytes)?
        } else {
            file_of(alloc, bank, bytes)?
        };
        expect(&rt, alloc, &file, SHOW, 3, text)?;
    }
    assert_eq!(rt; saved_file_of(alloc, OnesInByteMode, &[])?.len(), 8752);
    let mut longer = file_of(alloc, OneX16, &[])?;
    longer.push(0)?;
    expect(&rt, alloc, &longer, SHOW, 3, b"image: trailing at 8740\n")?;
    expect(&rt, alloc, b"NORBANK1", SHOW, 3, b"image: truncated at 8\n")?;
    expect(
        &rt,
        alloc,
        b"hello, world\n",
        SHOW,
        3,
        b"image: bad magic\n",
    )?;
    Ok(())
}

// A byte of the table of the chip of set 0001, another there, and why probing refuses the bank
// then.
type BadTable = (usize, u8, &'static [u8]);

const BAD_TABLES: [BadTable; 30] = [
    (0x10, 0x00, b"probe: no answer\n"),
    (0x10, 0xFF, b"probe: no answer\n"),
    (0x11, 0x00, b"probe: no answer\n"),
    (0x11, 0xFF, b"probe: no answer\n"),
    (0x12, 0x00, b"probe: no answer\n"),
    (0x12, 0xFF, b"probe: no answer\n"),
    (0x13, 0x00, b"probe: query at 0x13: set 0000\n"),
    (0x13, 0x03, b"probe: query at 0x13: set 0003\n"),
    (0x13, 0xFF, b"probe: query at 0x13: set 00ff\n"),
    (0x14, 0xFF, b"probe: query at 0x13: set ff01\n"),
    (0x27, 0x00, b"probe: query at 0x27: size 0\n"),
    (0x27, 0x0B, b"probe: query at 0x27: size 11\n"),
    (0x27, 0xFF, b"probe: query at 0x27: size 255\n"),
    (0x28, 0x03, b"probe: query at 0x28: interface 3\n"),
    (0x28, 0xFF, b"probe: query at 0x28: interface 255\n"),
    (0x29, 0xFF, b"probe: query at 0x28: interface 65281\n"),
    (0x2C, 0x00, b"probe: query at 0x2c: no regions\n"),
    (0x2C, 0x09, b"probe: query at 0x2c: 9 regions\n"),
    (0x2C, 0xFF, b"probe: query at 0x2c: 255 regions\n"),
    (0x2D, 0x00, b"probe: query at 0x2d: sum 1024 size 8192\n"),
    (0x2D, 0x06, b"probe: query at 0x2d: sum 7168 size 8192\n"),
    (0x2D, 0xFF, b"probe: query at 0x2d: sum 262144 size 8192\n"),
    (
        0x2E,
        0xFF,
        b"probe: query at 0x2d: sum 66854912 size 8192\n",
    ),
    (0x2F, 0x00, b"probe: query at 0x2d: sum 1024 size 8192\n"),
    (0x2F, 0xFF, b"probe: query at 0x2d: sum 522240 size 8192\n"),
    (
        0x30,
        0xFF,
        b"probe: query at 0x2d: sum 133701632 size 8192\n",
    ),
    (0x15, 0x30, b"probe: query at 0x15: extended\n"),
    (0x31, 0x51, b"probe: query at 0x31: extended\n"),
    (0x34, 0x32, b"probe: query at 0x34: version\n"),
    (0x35, 0xFF, b"probe: query at 0x35: version\n"),
];

// A byte of the same table, another there, and the interface and the bytes of the buffer that are
// shown then.
const OTHER_TABLES: [(usize, u8, u16, u16); 8] = [
    (0x14, 0x00, 1, 32),
    (0x28, 0x00, 0, 32),
    (0x29, 0x00, 1, 32),
    (0x2A, 0x00, 1, 0),
    (0x2A, 0xFF, 1, 512),
    (0x2B, 0xFF, 1, 512),
    (0x2E, 0x00, 1, 32),
    (0x30, 0x00, 1, 32),
];

// The file of the chip of set 0001 with another byte in its table.
fn with_table(alloc: Global, word: usize, byte: u8) -> Result<Vec<u8>, AllocError> {
    let mut file = file_of(alloc, OneX16, &[])?;
    for there in file.iter_mut().skip(32).skip(word).take(1) {
        *there = byte;
    }
    Ok(file)
}

#[test]
fn a_table_of_any_bytes_is_shown_or_refused(rt: HostRuntime) -> Result<(), Fail> {
    let alloc = rt.alloc();
    for (word, byte, text) in BAD_TABLES {
        let file = with_table(alloc, word, byte)?;
        expect(&rt, alloc, &file, SHOW, 5, text)?;
        expect(&rt, alloc, &file, READ, 5, text)?;
    }
    for (word, byte, interface, buffer) in OTHER_TABLES {
        let file = with_table(alloc, word, byte)?;
        let text = format!(in alloc;
            "width 2\nlanes 1\ndevice x16\nset 0001\nsize 8192\nbank 8192\ninterface {interface}\nbuffer {buffer}\ntimes 4 6 10 0 2 2 2 0\nversion 1.1\nalternate 0000 0000\nsuspend program\nlocks yes\nregion 0 8 1024\nblocks 8\nlimits 80 272 4112\n"
        )?;
        expect(&rt, alloc, &file, SHOW, 0, text.as_bytes())?;
        expect(&rt, alloc, &file, READ, 0, b"10111213\n")?;
    }
    Ok(())
}

// What `run` and `race` print of one program, and then of each call of the shelf that fails.
const TOLD: [&[u8]; 3] = [
    b"read fault bank\n",
    b"read fault script\n",
    b"0 1 program 0x3 0000 -> done\nlane 0 suspends 0 erases 0\nhistory 1\nwrite fault bank\n",
];

#[test]
fn a_call_of_the_shelf_that_fails_is_told(rt: HostRuntime) -> Result<(), Fail> {
    let alloc = rt.alloc();
    let bank = file_of(alloc, OnePlain, &[])?;
    let script = b"1 program 0x3 0000\n";
    for verb in ["run", "race"] {
        for (call, text) in (0..).zip(TOLD) {
            let ended = ends(&rt, alloc, verb, &bank, script, &[call], &[])?;
            assert_eq!(rt; ended.code, 7);
            assert_eq!(rt; ended.printed.as_slice(), text);
            assert_eq!(rt; ended.bank.as_slice(), bank.as_slice());
        }
        // there is no call behind the third
        let ended = ends(&rt, alloc, verb, &bank, script, &[3], &[])?;
        assert_eq!(rt; ended.code, 0);
    }
    let ended = run(alloc, READ, &bank, b"", &[0], &[])?;
    assert_eq!(rt; ended.code, 7);
    assert_eq!(rt; ended.printed.as_slice(), b"read fault bank\n".as_slice());
    Ok(())
}

const REPORT: &[u8] =
    b"0 1 program 0x5 0f -> done\n1 1 read 0x0 8 -> ffffffffff0fffff\nlane 0 suspends 0 erases 0\nlane 1 suspends 0 erases 0\nlane 2 suspends 0 erases 0\nlane 3 suspends 0 erases 0\nhistory 2\n";

// Whatever call of the output fails, a first part of the report was taken, and nothing is saved.
#[test]
fn a_call_of_the_output_that_fails_ends_a_command(rt: HostRuntime) -> Result<(), Fail> {
    let alloc = rt.alloc();
    let bank = file_of(alloc, FourOnes, &[])?;
    let saved = saved_file_of(alloc, FourOnes, &[(18041, 1, 0x0F)])?;
    let script = b"1 program 0x5 0f\n1 read 0x0 8\n";
    for verb in ["run", "race"] {
        for call in 0..1_000u32 {
            let ended = ends(&rt, alloc, verb, &bank, script, &[], &[call])?;
            let taken = ended.printed.as_slice();
            if ended.code == 0 {
                assert!(rt; taken == REPORT && ended.bank == saved);
                assert!(rt; call > 0);
                break;
            }
            assert_eq!(rt; ended.code, 7);
            assert!(rt; taken.len() < REPORT.len() && REPORT.starts_with(taken));
            assert_eq!(rt; ended.bank.as_slice(), bank.as_slice());
        }
    }
    let unsaid = run(alloc, READ, &bank, b"", &[], &[0])?;
    assert_eq!(rt; unsaid.code, 7);
    assert_eq!(rt; unsaid.printed.len(), 0);
    Ok(())
}
