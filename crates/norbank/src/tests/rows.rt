//! Scripts of erases in turns, locks, weak and stuck chips, and losses of power: the report of
//! each, and what is saved.
use super::images::Bank::{
    AllAtOnce, FourOnes, FourPlainAmd, OnePlain, OneWithLocks, OneX16, OnesInByteMode, StuckSecond,
    TopBoot, Unequal, WeakSecond, WeakZeros,
};
use super::images::{Bank, Bytes, file_of, saved_file_of};
use super::run_script;
use std::alloc::{AllocError, Global};
use std::process::Abort;
use std::test::Fail;

// A bank, a script, the status and the report with which it ends, and bytes of the saved file
// that were others before.
type Row = (Bank, &'static [u8], u8, &'static [u8], Bytes);

const TURNS: [Row; 8] = [
    // Chips of other paces: the second alone is still at work when it is suspended.
    (
        Unequal,
        b"1 unlock 0\n1 open 0\n1 poll\n1 poll\n1 poll\n1 poll\n2 read 0x800 4\n1 poll\n1 poll\n1 poll\n1 poll\n",
        0,
        b"0 1 unlock 0 -> done\n1 1 open 0 -> opened\n2 1 poll -> not-yet\n3 1 poll -> not-yet\n4 1 poll -> not-yet\n5 1 poll -> not-yet\n6 2 read 0x800 4 -> ffffffff\n7 1 poll -> not-yet\n8 1 poll -> not-yet\n9 1 poll -> not-yet\n10 1 poll -> erased\nlane 0 suspends 0 erases 1\nlane 1 suspends 1 erases 1\nhistory 11\n",
        &[(28, 1, 1), (8756, 1, 1), (8760, 1, 1)],
    ),
    // It stays suspended until its owner polls.
    (
        Unequal,
        b"1 unlock 0\n1 open 0\n2 read 0x800 4\n2 read 0x800 4\n1 poll\n1 poll\n1 poll\n1 poll\n1 poll\n1 poll\n1 poll\n1 poll\n",
        0,
        b"0 1 unlock 0 -> done\n1 1 open 0 -> opened\n2 2 read 0x800 4 -> ffffffff\n3 2 read 0x800 4 -> ffffffff\n4 1 poll -> not-yet\n5 1 poll -> not-yet\n6 1 poll -> not-yet\n7 1 poll -> not-yet\n8 1 poll -> not-yet\n9 1 poll -> not-yet\n10 1 poll -> not-yet\n11 1 poll -> erased\nlane 0 suspends 1 erases 1\nlane 1 suspends 1 erases 1\nhistory 12\n",
        &[(24, 1, 1), (28, 1, 1), (8756, 1, 1), (8760, 1, 1)],
    ),
    // A chip that ends within its pace isn't suspended.
    (
        OneX16,
        b"1 unlock 0\n1 open 0\n1 poll\n1 poll\n2 read 0x400 2\n2 read 0x0 1\n1 poll\n1 read 0x0 2\n",
        0,
        b"0 1 unlock 0 -> done\n1 1 open 0 -> opened\n2 1 poll -> not-yet\n3 1 poll -> not-yet\n4 2 read 0x400 2 -> 0001\n5 2 read 0x0 1 -> busy 0\n6 1 poll -> erased\n7 1 read 0x0 2 -> ffff\nlane 0 suspends 0 erases 1\nhistory 8\n",
        &[(28, 1, 1), (552, 1024, 0xFF)],
    ),
    (
        OneX16,
        b"1 unlock 0\n1 unlock 1\n1 open 0\n2 open 1\n2 open 0\n2 poll\n1 poll\n1 poll\n1 poll\n1 poll\n1 poll\n",
        0,
        b"0 1 unlock 0 -> done\n1 1 unlock 1 -> done\n2 1 open 0 -> opened\n3 2 open 1 -> occupied 0\n4 2 open 0 -> busy 0\n5 2 poll -> nothing\n6 1 poll -> not-yet\n7 1 poll -> not-yet\n8 1 poll -> not-yet\n9 1 poll -> not-yet\n10 1 poll -> erased\nlane 0 suspends 0 erases 1\nhistory 11\n",
        &[(28, 1, 1), (552, 1024, 0xFF)],
    ),
    // A chip that can't be suspended.
    (
        OnePlain,
        b"1 open 0\n2 read 0x400 2\n2 read 0x0 1\n2 poll\n2 open 1\n1 poll\n1 poll\n1 poll\n1 poll\n1 read 0x0 2\n",
        0,
        b"0 1 open 0 -> opened\n1 2 read 0x400 2 -> not-yet\n2 2 read 0x0 1 -> busy 0\n3 2 poll -> nothing\n4 2 open 1 -> occupied 0\n5 1 poll -> not-yet\n6 1 poll -> not-yet\n7 1 poll -> not-yet\n8 1 poll -> erased\n9 1 read 0x0 2 -> ffff\nlane 0 suspends 0 erases 1\nhistory 10\n",
        &[(28, 1, 1), (552, 1024, 0xFF)],
    ),
    // Lines that print two entries each: the polls that had to wait print none.
    (
        OnePlain,
        b"1 erase 0\n2 erase 9\n",
        0,
        b"0 1 open 0 -> opened\n1 1 poll -> erased\n2 2 open 9 -> out-of-range\nlane 0 suspends 0 erases 1\nhistory 3\n",
        &[(28, 1, 1), (552, 1024, 0xFF)],
    ),
    (
        FourPlainAmd,
        b"1 program 0x0 00\n1 erase 0\n1 read 0x0 1\n",
        0,
        b"0 1 program 0x0 00 -> done\n1 1 open 0 -> opened\n2 1 poll -> erased\n3 1 read 0x0 1 -> ff\nlane 0 suspends 0 erases 1\nlane 1 suspends 0 erases 1\nlane 2 suspends 0 erases 1\nlane 3 suspends 0 erases 1\nhistory 4\n",
        &[(28, 1, 1), (8760, 1, 1), (17492, 1, 1), (26224, 1, 1)],
    ),
    // An erase of all blocks at once.
    (
        AllAtOnce,
        b"1 program 0x10 00\n1 open-all\n2 read 0x3000 1\n2 open 1\n2 open-all\n1 poll\n1 read 0x10 1\n1 lock 3\n1 open-all\n",
        0,
        b"0 1 program 0x10 00 -> done\n1 1 open-all -> opened\n2 2 read 0x3000 1 -> busy 6\n3 2 open 1 -> busy 1\n4 2 open-all -> occupied 0\n5 1 poll -> erased\n6 1 read 0x10 1 -> ff\n7 1 lock 3 -> done\n8 1 open-all -> locked 3\nlane 0 suspends 0 erases 1\nlane 1 suspends 0 erases 1\nhistory 9\n",
        &[(28, 1, 1), (555, 1, 1), (8768, 1, 1), (9295, 1, 1)],
    ),
];

const TWO_HALVES: &[u8] = b"1 program 0x0 f0\n1 program 0x0 0f\n1 read 0x0 1\n";

const LOCKS: [Row; 9] = [
    (
        OnePlain,
        b"1 lock 0\n",
        0,
        b"0 1 lock 0 -> no-locks\nlane 0 suspends 0 erases 0\nhistory 1\n",
        &[],
    ),
    (
        OneX16,
        b"1 program 0x1 f0\n1 locked 0\n1 unlock 0\n1 program 0x1 f0\n1 read 0x0 2\n",
        0,
        b"0 1 program 0x1 f0 -> locked 0\n1 1 locked 0 -> yes\n2 1 unlock 0 -> done\n3 1 program 0x1 f0 -> done\n4 1 read 0x0 2 -> 0000\nlane 0 suspends 0 erases 0\nhistory 5\n",
        &[(553, 1, 0)],
    ),
    (
        OneX16,
        b"1 open-all\n",
        0,
        b"0 1 open-all -> no-chip-erase\nlane 0 suspends 0 erases 0\nhistory 1\n",
        &[],
    ),
    (
        FourOnes,
        b"1 locked 0\n1 open-all\n",
        0,
        b"0 1 locked 0 -> no\n1 1 open-all -> no-chip-erase\nlane 0 suspends 0 erases 0\nlane 1 suspends 0 erases 0\nlane 2 suspends 0 erases 0\nlane 3 suspends 0 erases 0\nhistory 2\n",
        &[],
    ),
    // Byte 5 of the bank is byte 1 of lane 2.
    (
        FourOnes,
        b"1 program 0x5 0f\n1 read 0x0 8\n",
        0,
        b"0 1 program 0x5 0f -> done\n1 1 read 0x0 8 -> ffffffffff0fffff\nlane 0 suspends 0 erases 0\nlane 1 suspends 0 erases 0\nlane 2 suspends 0 erases 0\nlane 3 suspends 0 erases 0\nhistory 2\n",
        &[(18041, 1, 0x0F)],
    ),
    (
        FourOnes,
        TWO_HALVES,
        0,
        b"0 1 program 0x0 f0 -> done\n1 1 program 0x0 0f -> done\n2 1 read 0x0 1 -> 00\nlane 0 suspends 0 erases 0\nlane 1 suspends 0 erases 0\nlane 2 suspends 0 erases 0\nlane 3 suspends 0 erases 0\nhistory 3\n",
        &[(560, 1, 0)],
    ),
    (
        OnesInByteMode,
        TWO_HALVES,
        0,
        b"0 1 program 0x0 f0 -> done\n1 1 program 0x0 0f -> done\n2 1 read 0x0 1 -> 00\nlane 0 suspends 0 erases 0\nhistory 3\n",
        &[(560, 1, 0)],
    ),
    // Two blocks meet in the range; the lock of the last is saved.
    (
        TopBoot,
        b"1 program 0xf7f 0000\n1 lock 10\n1 program 0xf7f 0000\n1 open 10\n1 read 0xf7f 2\n",
        0,
        b"0 1 program 0xf7f 0000 -> done\n1 1 lock 10 -> done\n2 1 program 0xf7f 0000 -> locked 10\n3 1 open 10 -> locked 10\n4 1 read 0xf7f 2 -> 0000\nlane 0 suspends 0 erases 0\nhistory 5\n",
        &[(562, 1, 1), (4530, 2, 0)],
    ),
    (
        FourOnes,
        b"1 lock 2\ncut 0 0x00\n1 read 0x0 1\nreboot\n1 locked 2\n",
        6,
        b"0 1 lock 2 -> done\n1 0 cut 0 0x00 -> done\n2 1 read 0x0 1 -> off 0\n3 0 reboot -> done\n4 1 locked 2 -> yes\nlane 0 suspends 0 erases 0\nlane 1 suspends 0 erases 0\nlane 2 suspends 0 erases 0\nlane 3 suspends 0 erases 0\nhistory 5\n",
        &[(554, 1, 1), (9294, 1, 1), (18034, 1, 1), (26774, 1, 1)],
    ),
];

const FAULTS: [Row; 5] = [
    // Lane 1 breaks off at its third word, which lane 0 has programmed.
    (
        WeakSecond,
        b"1 unlock 0\n1 program 0x0 00000000000000000000000000000000\n1 read 0x0 16\n",
        0,
        b"0 1 unlock 0 -> done\n1 1 program 0x0 00000000000000000000000000000000 -> failed 0x8 0xc lanes 2\n2 1 read 0x0 16 -> 000000000000000000000f0fffffffff\nlane 0 suspends 0 erases 0\nlane 1 suspends 0 erases 0\nhistory 3\n",
        &[(552, 6, 0), (9288, 4, 0), (9292, 2, 0x0F)],
    ),
    // A weak word that stays does no harm.
    (
        WeakZeros,
        b"1 unlock 0\n1 program 0x0 ffffffffffffffffffffffffffffffff\n1 read 0x0 16\n",
        0,
        b"0 1 unlock 0 -> done\n1 1 program 0x0 ffffffffffffffffffffffffffffffff -> done\n2 1 read 0x0 16 -> 00000000000000000000000000000000\nlane 0 suspends 0 erases 0\nlane 1 suspends 0 erases 0\nhistory 3\n",
        &[],
    ),
    (
        StuckSecond,
        b"1 unlock 0\n1 program 0x0 00000000\n1 read 0x0 4\nreboot\n",
        6,
        b"0 1 unlock 0 -> done\n1 1 program 0x0 00000000 -> stuck 1\n2 1 read 0x0 4 -> stuck 1\n3 0 reboot -> stuck 1\nlane 0 suspends 0 erases 0\nlane 1 suspends 0 erases 0\nhistory 4\n",
        &[(552, 2, 0)],
    ),
    (
        OneX16,
        b"cut 0 0xff\n1 read 0x0 2\n1 read 0x2000 1\nreboot\n1 read 0x0 2\nreboot\n",
        6,
        b"0 0 cut 0 0xff -> done\n1 1 read 0x0 2 -> off 0\n2 1 read 0x2000 1 -> out-of-range\n3 0 reboot -> done\n4 1 read 0x0 2 -> 0001\n5 0 reboot -> nothing\nlane 0 suspends 0 erases 0\nhistory 6\n",
        &[],
    ),
    // Erases, suspends, is cut and goes on: lane 0 has ended its erase when power is lost, and
    // lane 1 hasn't.
    (
        Unequal,
        b"# Caller 1 programs a block and erases it again.\n1 unlock 0\n2 unlock 1\n1 program 0x0 00112233\n1 open 0\n1 poll\n\n# Caller 2 goes on in the next block: the chips that are still at work are suspended, until the owner polls.\n2 program 0x800 0123456789abcdef\n2 read 0x7fe 4\n2 read 0x800 8\n2 open 1\n1 poll\n1 poll\n\n# Power is lost two bus cycles later, and the block under erase holds what a mask of 0x0f leaves of it.\ncut 2 0x0f\n1 poll\n2 read 0x800 8\nreboot\n\n# All blocks are locked again, and nothing is under erase. What was done outside the block stands.\n1 poll\n1 locked 0\n2 read 0x800 8\n2 read 0x0 4\n\n# The block is erased once more, to the end.\n1 unlock 0\n1 erase 0\n1 read 0x0 4\n",
        6,
        b"0 1 unlock 0 -> done\n1 2 unlock 1 -> done\n2 1 program 0x0 00112233 -> done\n3 1 open 0 -> opened\n4 1 poll -> not-yet\n5 2 program 0x800 0123456789abcdef -> done\n6 2 read 0x7fe 4 -> busy 0\n7 2 read 0x800 8 -> 0123456789abcdef\n8 2 open 1 -> occupied 0\n9 1 poll -> not-yet\n10 1 poll -> not-yet\n11 0 cut 2 0x0f -> done\n12 1 poll -> not-yet\n13 2 read 0x800 8 -> off 2\n14 0 reboot -> done\n15 1 poll -> nothing\n16 1 locked 0 -> yes\n17 2 read 0x800 8 -> 0123456789abcdef\n18 2 read 0x0 4 -> ffff2f3f\n19 1 unlock 0 -> done\n20 1 open 0 -> opened\n21 1 poll -> erased\n22 1 read 0x0 4 -> ffffffff\nlane 0 suspends 0 erases 2\nlane 1 suspends 1 erases 2\nhistory 23\n",
        &[
            (28, 1, 2),
            (1576, 1, 0x01),
            (1577, 1, 0x23),
            (1578, 1, 0x89),
            (1579, 1, 0xAB),
            (8756, 1, 1),
            (8760, 1, 2),
            (10308, 1, 0x45),
            (10309, 1, 0x67),
            (10310, 1, 0xCD),
            (10311, 1, 0xEF),
        ],
    ),
];

// The same of a block that is left under erase, or that lost power under erase: of its bytes
// nothing is said.
type Left = (Bank, &'static [u8], u8, &'static [u8]);

const LEFT: [Left; 3] = [
    (
        OneX16,
        b"1 unlock 1\n1 open 1\n2 read 0x3fe 3\n2 read 0x3fe 2\n",
        0,
        b"0 1 unlock 1 -> done\n1 1 open 1 -> opened\n2 2 read 0x3fe 3 -> busy 1\n3 2 read 0x3fe 2 -> feff\nlane 0 suspends 1 erases 1\nhistory 4\n",
    ),
    (
        OneWithLocks,
        b"1 unlock 0\n1 open 0\n2 lock 1\n2 lock 0\n",
        0,
        b"0 1 unlock 0 -> done\n1 1 open 0 -> opened\n2 2 lock 1 -> not-yet\n3 2 lock 0 -> busy 0\nlane 0 suspends 0 erases 1\nhistory 4\n",
    ),
    (
        OneX16,
        b"1 unlock 0\n1 open 0\ncut 0 0x0f\n2 read 0x400 2\nreboot\n1 poll\n1 locked 0\n2 read 0x400 2\n2 read 0x0 2\n",
        6,
        b"0 1 unlock 0 -> done\n1 1 open 0 -> opened\n2 0 cut 0 0x0f -> done\n3 2 read 0x400 2 -> off 0\n4 0 reboot -> done\n5 1 poll -> nothing\n6 1 locked 0 -> yes\n7 2 read 0x400 2 -> 0001\n8 2 read 0x0 2 -> 0f0f\nlane 0 suspends 0 erases 1\nhistory 9\n",
    ),
];

// A script ends so, from either version of the bank's file, and leaves the last file.
fn ends(
    rt: &impl Abort,
    alloc: Global,
    bank: Bank,
    script: &[u8],
    code: u8,
    report: &[u8],
) -> Result<Vec<u8>, AllocError> {
    let first = run_script(alloc, &file_of(alloc, bank, &[])?, script, &[], &[])?;
    assert_eq!(rt; first.code, code);
    assert_eq!(rt; first.printed.as_slice(), report);
    assert_eq!(rt; first.script.as_slice(), script);
    let second = run_script(alloc, &saved_file_of(alloc, bank, &[])?, script, &[], &[])?;
    assert!(rt; second == first);
    Ok(first.bank)
}

#[test]
fn lines_of_each_form_are_answered_and_banks_saved(rt: HostRuntime) -> Result<(), Fail> {
    let alloc = rt.alloc();
    for (bank, script, code, report, bytes) in TURNS.iter().chain(&LOCKS).chain(&FAULTS) {
        let left = ends(&rt, alloc, *bank, script, *code, report)?;
        let saved = saved_file_of(alloc, *bank, bytes)?;
        assert_eq!(rt; left.as_slice(), saved.as_slice());
    }
    for (bank, script, code, report) in LEFT {
        ends(&rt, alloc, bank, script, code, report)?;
    }
    Ok(())
}
