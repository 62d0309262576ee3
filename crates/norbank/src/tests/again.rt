//! Banks that are saved and loaded again.
use super::images::Bank::{self, FourOnes, Large, OneX16, StuckSecond, TopBoot};
use super::images::{file_of, saved_file_of};
use super::{expect, run, run_script};
use std::alloc::{AllocError, Global};
use std::process::Abort;
use std::test::Fail;

// A bank, a script that is run on it, words and a second script on the bank that was saved, and
// the status and the text with which they end.
type Row = (
    Bank,
    &'static [u8],
    &'static [&'static str],
    &'static [u8],
    u8,
    &'static [u8],
);

const RUN: &[&str] = &["run", "bank", "script"];

const AGAIN: [Row; 4] = [
    (
        StuckSecond,
        b"1 unlock 0\n1 program 0x0 00000000\n1 read 0x0 4\nreboot\n",
        &["read", "bank", "0", "4"],
        b"",
        0,
        b"0000ffff\n",
    ),
    // Set 0002 keeps its locks without power, and set 0001 sets all of them.
    (
        FourOnes,
        b"1 lock 2\ncut 0 0x00\n1 read 0x0 1\nreboot\n1 locked 2\n",
        RUN,
        b"1 locked 2\n1 locked 1\n",
        0,
        b"0 1 locked 2 -> yes\n1 1 locked 1 -> no\nlane 0 suspends 0 erases 0\nlane 1 suspends 0 erases 0\nlane 2 suspends 0 erases 0\nlane 3 suspends 0 erases 0\nhistory 2\n",
    ),
    (
        TopBoot,
        b"1 lock 10\n",
        RUN,
        b"1 unlock 10\n1 open 10\n1 locked 9\n",
        0,
        b"0 1 unlock 10 -> done\n1 1 open 10 -> opened\n2 1 locked 9 -> no\nlane 0 suspends 1 erases 1\nhistory 3\n",
    ),
    (
        OneX16,
        b"1 unlock 0\n1 erase 0\n",
        RUN,
        b"1 locked 0\n1 read 0x3fe 3\n",
        0,
        b"0 1 locked 0 -> yes\n1 1 read 0x3fe 3 -> ffff00\nlane 0 suspends 0 erases 1\nhistory 2\n",
    ),
];

#[test]
fn a_saved_bank_is_loaded_again(rt: HostRuntime) -> Result<(), Fail> {
    let alloc = rt.alloc();
    for (bank, first, texts, second, code, printed) in AGAIN {
        let file = file_of(alloc, bank, &[])?;
        let saved = run_script(alloc, &file, first, &[], &[])?.bank;
        let ended = run(alloc, texts, &saved, second, &[], &[])?;
        assert_eq!(rt; ended.code, code);
        assert_eq!(rt; ended.printed.as_slice(), printed);
    }
    // a bank of version 1 that nothing is done with has four bytes more as version 2
    let file = file_of(alloc, OneX16, &[])?;
    let ended = run_script(alloc, &file, b"", &[], &[])?;
    assert_eq!(rt; (file.len(), ended.bank.len()), (8740, 8744));
    assert_eq!(rt; ended.bank.get(..8), Some(b"NORBANK2".as_slice()));
    assert_eq!(rt; ended.bank.get(8..548), file.get(8..548));
    assert_eq!(rt; ended.bank.get(548..552), Some([0; 4].as_slice()));
    assert_eq!(rt; ended.bank.get(552..), file.get(548..));
    Ok(())
}

// The reply of the entry in a line of a report.
fn reply_of(report: &[u8], line: usize) -> &[u8] {
    let text = report.split(|byte| *byte == b'\n').nth(line).unwrap_or(b"");
    text.rsplit(|byte| *byte == b'>').next().unwrap_or(b"")
}

// Power is lost after so many cycles of a lock of block 2 and a read of 21 bus words. What the
// lock was told holds.
fn lock_and_cut(rt: &impl Abort, alloc: Global, cycles: u32) -> Result<(), AllocError> {
    let bank = file_of(alloc, FourOnes, &[])?;
    let script = format!(in alloc;
        "cut {cycles} 0x00\n1 lock 2\n1 read 0x0 168\nreboot\n1 locked 2\n"
    )?;
    let off = format!(in alloc; " off {cycles}")?;
    let ended = run_script(alloc, &bank, script.as_bytes(), &[], &[])?;
    assert_eq!(rt; ended.code, 6);
    let report = ended.printed.as_slice();
    let locked = reply_of(report, 1);
    assert!(rt;
        locked == b" done".as_slice() || locked == off.as_bytes(),
        "after {cycles}"
    );
    assert!(rt; reply_of(report, 2) == off.as_bytes(), "after {cycles}");
    assert!(rt;
        reply_of(report, 3) == b" done".as_slice(),
        "after {cycles}"
    );
    let stands = reply_of(report, 4);
    let is_done = locked == b" done".as_slice();
    assert!(rt;
        stands == b" yes".as_slice() || (!is_done && stands == b" no".as_slice()),
        "after {cycles}"
    );
    let again = run_script(alloc, &ended.bank, b"1 locked 2\n", &[], &[])?;
    assert!(rt; reply_of(&again.printed, 0) == stands, "after {cycles}");
    Ok(())
}

#[test]
fn a_lock_that_is_done_outlives_power(rt: HostRuntime) -> Result<(), Fail> {
    for cycles in 0..21 {
        lock_and_cut(&rt, rt.alloc(), cycles)?;
    }
    Ok(())
}

#[test]
fn a_bank_of_8_mib_is_shown_and_run(rt: HostRuntime) -> Result<(), Fail> {
    let alloc = rt.alloc();
    let file = file_of(alloc, Large, &[])?;
    expect(
        &rt,
        alloc,
        &file,
        &["show", "bank"],
        0,
        b"width 2\nlanes 1\ndevice x16\nset 0001\nsize 8388608\nbank 8388608\ninterface 1\nbuffer 32\ntimes 8 9 10 0 1 1 2 0\nversion 1.3\nalternate 0000 0000\nsuspend program\nlocks yes\nregion 0 4 32768\nregion 1 63 131072\nblocks 67\nlimits 528 1040 4112\n",
    )?;
    let script =
        b"1 read 0x800000 0\n1 read 0x7ff000 4096\n1 read 0x7ff000 4097\n1 read 0x0 4097\n";
    let mut report = Vec::new(alloc);
    report.extend_from_slice(b"0 1 read 0x800000 0 -> -\n1 1 read 0x7ff000 4096 -> ")?;
    report.extend_from_slice(&[b'f'; 8192])?;
    report.extend_from_slice(
        b"\n2 1 read 0x7ff000 4097 -> out-of-range\n3 1 read 0x0 4097 -> too-long\nlane 0 suspends 0 erases 0\nhistory 4\n",
    )?;
    let ended = run_script(alloc, &file, script, &[], &[])?;
    assert_eq!(rt; ended.code, 0);
    assert!(rt; ended.printed == report);
    assert!(rt; ended.bank == saved_file_of(alloc, Large, &[])?);
    Ok(())
}
