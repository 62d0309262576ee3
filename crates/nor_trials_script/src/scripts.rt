//! What scripts say, which lines are bad and why, and what is reported.
use nor_array::{Halted, Op, Reply, make_bytes};
use nor_io::{MemSink, SinkError};
use nor_script::{Line, LineKind, ScriptError, Word, parse_script, put_entry, put_totals};
use std::alloc::Global;
use std::process::Abort;
use std::test::Fail;

// A script of one line, which says this.
fn says(rt: &impl Abort, alloc: Global, text: &str, caller: u8, word: Word) -> Result<(), Fail> {
    assert!(rt; text.len() < 1000);
    let script = parse_script(alloc, text.as_bytes(), false)?;
    let wanted = Line {
        caller,
        number: 1,
        word,
    };
    assert!(rt; script.lines().len() == 1 && script.lines()[0] == wanted);
    Ok(())
}

fn program(alloc: Global, at: u32, new: &[u8]) -> Result<Op, Fail> {
    let new = make_bytes(alloc, new)?;
    Ok(Op::Program { at, new })
}

#[test]
fn each_form_says_its_call(rt: HostRuntime) -> Result<(), Fail> {
    let alloc = rt.alloc();
    let two = program(alloc, 5, &[0x0F, 0xAB])?;
    let none = program(alloc, 5, &[])?;
    let cut = Op::Arm {
        after: 9,
        mask: 255,
    };
    let ends = Op::Read {
        at: u32::MAX,
        len: u32::MAX,
    };
    for (text, caller, op) in [
        ("1 read 0x10 4", 1, Op::Read { at: 16, len: 4 }),
        ("8 program 5 0FaB\n", 8, two),
        ("0x8 program 0x5 -", 8, none),
        ("2 open 7", 2, Op::EraseOpen { block: 7 }),
        ("3 poll", 3, Op::Poll),
        ("2 open-all", 2, Op::EraseAll),
        ("4 lock 0", 4, Op::Lock { block: 0 }),
        ("4 unlock 0x1", 4, Op::Unlock { block: 1 }),
        ("4 locked 2", 4, Op::IsLocked { block: 2 }),
        ("cut 9 0xfF", 0, cut),
        ("reboot", 0, Op::PowerOn),
        ("1 read 4294967295 0xFFFFffff", 1, ends),
    ] {
        says(&rt, alloc, text, caller, Word::Call(op))?;
    }
    says(&rt, alloc, "2 erase 7", 2, Word::Erase { block: 7 })?;
    says(&rt, alloc, "2 erase-all", 2, Word::EraseAll)
}

// The text is refused with this error.
fn refuses(rt: &impl Abort, alloc: Global, race: bool, text: &str, error: ScriptError) {
    assert!(rt; text.len() < 1000);
    assert!(rt; parse_script(alloc, text.as_bytes(), race).err() == Some(error));
}

fn error_of(line: u32, kind: Option<LineKind>) -> ScriptError {
    match kind {
        None => ScriptError::BadCaller { line },
        Some(kind) => ScriptError::BadLine { line, kind },
    }
}

// Whether it is for a race, the line that is bad first and what is wrong with it, no kind where its caller is; and
// texts of which that is so.
const BAD: [(bool, u32, Option<LineKind>, &[&str]); 12] = [
    (
        false,
        1,
        Some(LineKind::Bytes),
        &["\tfoo", "9 read\u{7f}", "1 read é", "1 read 0 1\r"],
    ),
    (
        false,
        1,
        Some(LineKind::Word),
        &[
            "zz",
            "Cut",
            "1",
            "1 reed",
            "1 cut 0 0",
            "1 erase-al",
            "1 open-all-",
            "1  read 0 1",
            " 1 poll",
            "-1 poll",
        ],
    ),
    (
        false,
        1,
        Some(LineKind::Count),
        &[
            "1 read 0x0",
            "1 read zz",
            "1 read  0 1",
            "1 poll ",
            "cut 0",
            "reboot 1",
            "1 read 0 1 2",
            "1 erase-all 0",
            "1 open-all ",
        ],
    ),
    (
        false,
        1,
        Some(LineKind::Number),
        &[
            "1 read zz 1",
            "1 read 4294967296 1",
            "1 read 00000000001 1",
            "1 read 0x 1",
            "1 read 0x100000000 1",
            "1 read 0X1 1",
            "1 program zz abc",
            "1 open ",
            "cut 0 256",
            "1 read 0x0 ",
        ],
    ),
    (
        false,
        1,
        Some(LineKind::Hex),
        &[
            "1 program 0x0 abc",
            "1 program 0x0 ",
            "1 program 0x0 0g",
            "1 program 0x0 --",
        ],
    ),
    (
        true,
        1,
        Some(LineKind::NotHere),
        &["1 open 0", "1 open-all", "1 poll", "reboot"],
    ),
    (true, 1, Some(LineKind::Number), &["1 open zz"]),
    (true, 1, Some(LineKind::Count), &["reboot 1", "1 poll 1"]),
    (
        false,
        1,
        None,
        &["9 read 0x0 1", "0 reed", "9", "4294967295 poll"],
    ),
    (
        false,
        2,
        Some(LineKind::Word),
        &["# a comment\n1 reed 0x0 1"],
    ),
    (
        true,
        5,
        Some(LineKind::NotHere),
        &["cut 0 0\n\n#\n1 read 0 1\ncut 0 0\n9 poll"],
    ),
    (false, 3, None, &["1 poll\n\n9 poll\nzz"]),
];

#[test]
fn the_first_bad_line_is_told_by_the_first_check_that_fails(rt: HostRuntime) {
    for (race, line, kind, texts) in BAD {
        for text in texts {
            refuses(&rt, rt.alloc(), race, text, error_of(line, kind));
        }
    }
}

// The numbers of the command lines.
fn numbers(
    rt: &impl Abort,
    alloc: Global,
    race: bool,
    text: &str,
    wanted: &[u32],
) -> Result<(), Fail> {
    assert!(rt; text.len() < 1000);
    let script = parse_script(alloc, text.as_bytes(), race)?;
    assert!(rt; script.lines().len() == wanted.len());
    for (line, number) in script.lines().iter().zip(wanted) {
        assert!(rt; line.number == *number);
    }
    Ok(())
}

#[test]
fn empty_lines_and_comments_are_counted_and_skipped(rt: HostRuntime) -> Result<(), Fail> {
    let alloc = rt.alloc();
    numbers(&rt, alloc, true, "", &[])?;
    numbers(&rt, alloc, false, "\n\n# é\n", &[])?;
    numbers(&rt, alloc, false, "1 poll\n\n#\n\n2 poll", &[1, 5])?;
    numbers(
        &rt,
        alloc,
        true,
        "cut 1 2\ncut 0 0\n3 read 0 0\n3 erase 1\n4 erase-all\n",
        &[1, 2, 3, 4, 5],
    )
}

#[test]
fn one_line_more_than_a_script_has_is_too_many(rt: HostRuntime) -> Result<(), Fail> {
    let alloc = rt.alloc();
    let mut text = Vec::new(alloc);
    for _ in 0..65_536 {
        text.extend_from_slice(b"1 poll\n")?;
    }
    assert!(rt; text.len() < 1 << 20);
    assert!(rt; parse_script(alloc, &text, false)?.lines().len() == 65_536);
    text.extend_from_slice(b"# more\n\n\t")?;
    assert!(rt; text.len() < 1 << 20);
    assert!(rt; parse_script(alloc, &text, false).err() == Some(ScriptError::TooManyLines));
    Ok(())
}

// The line of entry 7, of caller 1.
fn reports(
    rt: &impl Abort,
    alloc: Global,
    op: &Op,
    reply: Reply,
    bytes: &[u8],
    line: &str,
) -> Result<(), Fail> {
    let mut sink = MemSink::new(alloc, &[])?;
    put_entry(&mut sink, 7, 1, op, reply, bytes)?;
    assert!(rt; sink.taken() == line.as_bytes());
    Ok(())
}

#[test]
fn entries_are_reported(rt: HostRuntime) -> Result<(), Fail> {
    let alloc = rt.alloc();
    let read = Op::Read { at: 0, len: 3 };
    let new = program(alloc, 0xABCDEF, &[0x0F])?;
    let none = program(alloc, u32::MAX, &[])?;
    let open = Op::EraseOpen { block: 3 };
    let lock = Op::Lock { block: 9 };
    let unlock = Op::Unlock { block: 9 };
    let locked = Op::IsLocked { block: 0 };
    let cut = Op::Arm { after: 0, mask: 15 };
    let occupied = Reply::Occupied { block: 12 };
    let off = Reply::Halted(Halted::Off { after: 20 });
    let stuck = Reply::Halted(Halted::Stuck { lane: 1 });
    let failed = Reply::Failed {
        from: 8,
        to: 0xC,
        lanes: 2,
    };
    let none_read: &[u8] = &[];
    for (op, reply, bytes, line) in [
        (
            &read,
            Reply::Done,
            [0xFE, 2, 0xFD].as_slice(),
            "7 1 read 0x0 3 -> fe02fd\n",
        ),
        (&read, Reply::Done, none_read, "7 1 read 0x0 3 -> -\n"),
        (
            &read,
            Reply::TooLong,
            none_read,
            "7 1 read 0x0 3 -> too-long\n",
        ),
        (
            &new,
            Reply::Done,
            none_read,
            "7 1 program 0xabcdef 0f -> done\n",
        ),
        (
            &new,
            failed,
            [1, 2, 3, 4].as_slice(),
            "7 1 program 0xabcdef 0f -> failed 0x8 0xc lanes 2\n",
        ),
        (
            &none,
            Reply::OutOfRange,
            none_read,
            "7 1 program 0xffffffff - -> out-of-range\n",
        ),
        (&open, Reply::Opened, none_read, "7 1 open 3 -> opened\n"),
        (&open, occupied, none_read, "7 1 open 3 -> occupied 12\n"),
        (
            &open,
            Reply::Busy { block: 3 },
            none_read,
            "7 1 open 3 -> busy 3\n",
        ),
        (
            &open,
            Reply::Locked { block: 3 },
            none_read,
            "7 1 open 3 -> locked 3\n",
        ),
        (
            &Op::EraseAll,
            Reply::Opened,
            none_read,
            "7 1 open-all -> opened\n",
        ),
        (
            &Op::EraseAll,
            Reply::NoChipErase,
            none_read,
            "7 1 open-all -> no-chip-erase\n",
        ),
        (&Op::Poll, Reply::Erased, none_read, "7 1 poll -> erased\n"),
        (&Op::Poll, Reply::NotYet, none_read, "7 1 poll -> not-yet\n"),
        (
            &Op::Poll,
            Reply::Nothing,
            none_read,
            "7 1 poll -> nothing\n",
        ),
        (
            &locked,
            Reply::Bit(true),
            none_read,
            "7 1 locked 0 -> yes\n",
        ),
        (
            &locked,
            Reply::Bit(false),
            none_read,
            "7 1 locked 0 -> no\n",
        ),
        (&lock, Reply::NoLocks, none_read, "7 1 lock 9 -> no-locks\n"),
        (&unlock, off, none_read, "7 1 unlock 9 -> off 20\n"),
        (&Op::PowerOn, stuck, none_read, "7 1 reboot -> stuck 1\n"),
        (&cut, Reply::Done, none_read, "7 1 cut 0 0x0f -> done\n"),
    ] {
        reports(&rt, alloc, op, reply, bytes, line)?;
    }
    Ok(())
}

#[test]
fn totals_end_a_report_and_faults_leave_a_first_part(rt: HostRuntime) -> Result<(), Fail> {
    let alloc = rt.alloc();
    let mut sink = MemSink::new(alloc, &[3])?;
    put_totals(&mut sink, &[(0, 1), (u32::MAX, 0)], 11)?;
    assert!(rt;
        sink.taken()
            == "lane 0 suspends 0 erases 1\nlane 1 suspends 4294967295 erases 0\nhistory 11\n".as_bytes()
    );
    assert!(rt; put_totals(&mut sink, &[], 0) == Err(SinkError::Fault));
    let mut second = MemSink::new(alloc, &[1])?;
    assert!(rt;
        put_entry(&mut second, 0, 2, &Op::Poll, Reply::Nothing, &[]) == Err(SinkError::Fault)
    );
    assert!(rt; second.taken() == "0 2 poll".as_bytes());
    Ok(())
}
