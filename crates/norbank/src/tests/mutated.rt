//! Images and scripts of which some bytes are drawn.
ghost use Rattle.nor_script.specs.Script.{IsScript};

use super::images::Bank::{
    self, AllAtOnce, FourOnes, OneX16, OnesInByteMode, StuckSecond, TopBoot, Unequal, WeakSecond,
};
use super::images::{file_of, saved_file_of};
use super::races::ends;
use super::{SHOW, run};
use crate::jobs::{Job, job_of};
use nor_array::Op;
use nor_bank::Bank as StartedBank;
use nor_bus::{Bus, SimBank};
use nor_cell::Chip;
use nor_image::with_bank;
use nor_io::{MemShelf, MemSink};
use nor_probe::Found;
use nor_query::Work;
use nor_run::run_lines;
use nor_script::{Script, Word};
use nor_word::BusWord;
use std::alloc::{AllocError, Global};
use std::process::Abort;
use std::sync::Wait;
use std::test::Fail;
use std::thread::Threads;

// Numbers that look as if they were drawn, the same each time.
#[derive(Drop)]
struct Draws {
    last: u64,
}

impl Draws {
    // A number below this one.
    fn below(&mut self, count: u32) -> u32 {
        let next = self.last.wrapping_mul(6_364_136_223_846_793_005);
        self.last = next.wrapping_add(1_442_695_040_888_963_407);
        let drawn = (self.last >> 33) as u32;
        drawn.checked_rem(count).unwrap_or(0)
    }

    fn byte(&mut self) -> u8 {
        (self.below(256) % 256) as u8
    }
}

// Up to three bytes of the file become others, most of them before the cells of lane 0; one file
// of eight is cut short, or goes on behind its end.
fn mutate_image(file: Vec<u8>, draws: &mut Draws) -> Result<Vec<u8>, AllocError> {
    let mut file = file;
    let len = u32::try_from(file.len()).unwrap_or(0);
    for _ in 0..draws.below(4) {
        let span = if draws.below(4) > 0 { 600 } else { len };
        let at = draws.below(span) as usize;
        let kind = draws.below(4);
        let drawn = draws.byte();
        for there in file.iter_mut().skip(at).take(1) {
            *there = match kind {
                0 => 0,
                1 => 0xFF,
                2 => *there ^ (1 << (drawn % 8)),
                _ => drawn,
            };
        }
    }
    match draws.below(16) {
        0 => file.truncate(draws.below(len) as usize),
        1 => file.push(draws.byte())?,
        _ => {}
    }
    Ok(file)
}

// A line of a form that is drawn, with numbers that are drawn. The first 14 forms may stand in a
// race.
fn push_line(
    alloc: Global,
    script: &mut Vec<u8>,
    draws: &mut Draws,
    forms: u32,
) -> Result<(), AllocError> {
    let caller = draws.below(8).wrapping_add(1);
    let at = draws.below(20_000);
    let block = draws.below(9);
    let few = draws.below(70);
    let line = match draws.below(forms) {
        0 | 1 | 2 => format!(in alloc; "{caller} read {at} {few}\n")?,
        3 => format!(in alloc; "{caller} read 0x{at:x} 4097\n")?,
        4 | 5 | 6 => format!(in alloc; "{caller} program {at} {at:08x}{few:02x}\n")?,
        7 => format!(in alloc; "{caller} lock {block}\n")?,
        8 | 9 | 10 => format!(in alloc; "{caller} unlock {block}\n")?,
        11 => format!(in alloc; "{caller} locked {block}\n")?,
        12 => format!(in alloc; "{caller} erase {block}\n")?,
        13 => format!(in alloc; "{caller} erase-all\n")?,
        14 | 15 => format!(in alloc; "1 open {block}\n")?,
        16 | 17 => format!(in alloc; "1 poll\n")?,
        18 => format!(in alloc; "1 open-all\n{caller} poll\n")?,
        _ => format!(in alloc; "cut {few} 0x{block:02x}\n{caller} read {at} 40\nreboot\n")?,
    };
    script.extend_from_slice(line.as_bytes())
}

// Twenty lines of these forms, of which one script of two has a byte that is another.
fn drawn_script(alloc: Global, draws: &mut Draws, forms: u32) -> Result<Vec<u8>, AllocError> {
    let mut script = Vec::new(alloc);
    for _ in 0..20 {
        push_line(alloc, &mut script, draws, forms)?;
    }
    let len = u32::try_from(script.len()).unwrap_or(0);
    let at = draws.below(len.saturating_mul(2)) as usize;
    let drawn = draws.byte() % 128;
    for there in script.iter_mut().skip(at).take(1) {
        *there = drawn;
    }
    Ok(script)
}

// How many cycles a call may ask for, or an erase with its polls.
fn most_of_call(found: &Found, width: u8, word: &Word) -> u64 {
    let words = |len: usize| {
        let whole = (len as u64).checked_div(u64::from(width)).unwrap_or(0);
        whole.saturating_add(2)
    };
    let limit = |work: Work| u64::from(found.query.limit(work));
    let polls = |work: Work| limit(work).saturating_mul(12);
    let all = u64::from(found.map.blocks())
        .saturating_mul(8)
        .saturating_add(80);
    match word {
        Word::Call(Op::Read { len, .. }) if *len <= 4096 => {
            words(*len as usize).saturating_add(60)
        }
        Word::Call(Op::Program { new, .. }) => {
            let reads = limit(Work::Word).max(limit(Work::Buffer)).saturating_mul(2);
            let each = reads.saturating_add(10);
            words(new.as_slice().len())
                .saturating_mul(each)
                .saturating_add(80)
        }
        Word::Call(Op::EraseAll) => all,
        Word::Erase { .. } => polls(Work::Block).saturating_add(80),
        Word::EraseAll => polls(Work::Chip).saturating_add(all),
        Word::Call(_) => 80,
    }
}

// Runs the script on the bank: a bank that is found takes no more cycles than its lines may ask
// for.
fn stays_within<W: BusWord, C: Chip + Drop>(
    rt: &impl Abort,
    alloc: Global,
    bus: SimBank<W, C>,
    script: &Script,
) -> Result<(), AllocError>
    requires { IsScript script.now }
{
    let Ok(bank) = StartedBank::start(bus) else {
        return Ok(());
    };
    let mut bank = bank;
    let before = bank.bus().cycles();
    assert!(rt; before <= 600);
    let mut most = before;
    for line in script.lines() {
        most = most.saturating_add(most_of_call(bank.found(), W::WIDTH, &line.word));
    }
    let mut out = MemSink::new(alloc, &[])?;
    let _ran = run_lines(&mut bank, script.lines(), &mut out);
    assert!(rt; bank.bus().cycles() <= most);
    let _bus = bank.stop();
    Ok(())
}

// A command ends with what was done, or with what is wrong with a file, and saves a bank only
// where it was run.
fn ends_well<R: Abort + Threads + Wait + Sync>(
    rt: &R,
    alloc: Global,
    verb: &str,
    image: &[u8],
    script: &[u8],
) -> Result<bool, Fail> {
    let ended = ends(rt, alloc, verb, image, script, &[], &[])?;
    assert!(rt; ended.printed.ends_with(b"\n"));
    match ended.code {
        0 | 6 => {
            let shown = run(alloc, SHOW, image, b"", &[], &[])?;
            let again = run(alloc, SHOW, &ended.bank, b"", &[], &[])?;
            assert!(rt; again.code == 0 && again.printed == shown.printed);
            Ok(true)
        }
        code => {
            assert!(rt; code == 3 || code == 4 || code == 5);
            assert!(rt; ended.bank.as_slice() == image);
            Ok(false)
        }
    }
}

const BANKS: [Bank; 8] = [
    OneX16,
    OnesInByteMode,
    TopBoot,
    AllAtOnce,
    Unequal,
    FourOnes,
    WeakSecond,
    StuckSecond,
];

// A bank of a kind that is drawn, with bytes that are drawn.
fn drawn_image(rt: &impl Abort, alloc: Global, draws: &mut Draws) -> Result<Vec<u8>, AllocError> {
    let Some(bank) = BANKS.get(draws.below(8) as usize) else {
        panic!(rt; "no bank")
    };
    let file = if draws.below(2) == 0 {
        file_of(alloc, *bank, &[])?
    } else {
        saved_file_of(alloc, *bank, &[])?
    };
    mutate_image(file, draws)
}

// How many of the three commands did their work.
fn tries<R: Abort + Threads + Wait + Sync>(
    rt: &R,
    alloc: Global,
    seed: u64,
) -> Result<[u32; 2], Fail> {
    let mut draws = Draws { last: seed };
    let image = drawn_image(rt, alloc, &mut draws)?;
    let script = drawn_script(alloc, &mut draws, 20)?;
    let race = drawn_script(alloc, &mut draws, 14)?;
    let ran = ends_well(rt, alloc, "run", &image, &script)?;
    let raced = ends_well(rt, alloc, "race", &image, &race)?;
    let mut shelf = MemShelf::new(alloc, &[])?;
    shelf.hold("bank", &image)?;
    shelf.hold("script", &script)?;
    if let Ok(job) = job_of(alloc, "bank", "script", false, &mut shelf) {
        let Job {
            file: _,
            loaded,
            script,
        } = job;
        with_bank!(loaded, bus => stays_within(rt, alloc, bus, &script)?);
    }
    Ok([u32::from(ran), u32::from(raced)])
}

#[test]
fn files_of_drawn_bytes_end_a_command(rt: HostRuntime) -> Result<(), Fail> {
    let mut done = [0u32; 2];
    for seed in 0..320 {
        let [ran, raced] = tries(&rt, rt.alloc(), seed)?;
        done = [done[0].saturating_add(ran), done[1].saturating_add(raced)];
    }
    assert!(rt; done[0] >= 80 && done[1] >= 80, "{done:?}");
    Ok(())
}
