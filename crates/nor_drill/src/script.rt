//! The script of a drill.
ghost use Rattle.std.specs.Prelude.{◌≡◌, ◌<◌, ◌^◌, ◌++◌, IfOk};
ghost use Rattle.nor_script.specs.Script.{IsScript};
ghost use Rattle.nor_drill.specs.Drill.{next, drawn, data_of, call_of, line_of, drawn_lines, unlock_lines, drill_lines};

use nor_array::{Bytes, Op};
use nor_cell::NoMemory;
use nor_script::{Line, Word};
use std::alloc::Global;

const FACTOR: u64 = 6364136223846793005;

const ADDEND: u64 = 1442695040888963407;

// How many blocks are unlocked.
const BLOCKS: u32 = 8;

// How many lines are drawn.
const DRAWN: u32 = 4096;

#[tactic(auto, using(crate::proofs::Scripts::wraps))]
fn next(x: u64) -> u64
    ensures { result ≡ next x }
{
    x.wrapping_mul(FACTOR).wrapping_add(ADDEND)
}

fn draw(x: u64) -> u32
    ensures { result ≡ drawn x }
{
    (next(x) >> 33) as u32
}

fn data_of(alloc: Global, b: u32) -> Result<Bytes, NoMemory>
    ensures { IfOk result (λ bytes. bytes ≡ data_of b) }
{
    let mut data = Vec::new(alloc);
    for j in 0..b % 33 {
        data.push(((u64::from(b) + 37 * u64::from(j)) % 256) as u8)?;
    }
    Ok(Bytes::from_vec(data))
}

fn call_of(alloc: Global, k: u32, a: u32, b: u32) -> Result<Op, NoMemory>
    ensures { IfOk result (λ op. op ≡ call_of k a b) }
{
    let at = a % 16384;
    let block = a % 8;
    match k {
        0..=5 => Ok(Op::Read { at, len: b % 65 }),
        6..=9 => {
            let new = data_of(alloc, b)?;
            Ok(Op::Program { at, new })
        }
        10 => Ok(Op::EraseOpen { block }),
        11 | 12 => Ok(Op::Poll),
        13 => Ok(Op::Unlock { block }),
        14 => Ok(Op::Lock { block }),
        _ => Ok(Op::IsLocked { block }),
    }
}

// The line of four draws.
fn line_of(alloc: Global, number: u32, x: u64) -> Result<Line, NoMemory>
    ensures { IfOk result (λ line. line ≡ line_of number x) }
{
    let second = next(x);
    let third = next(second);
    let last = next(third);
    let op = call_of(alloc, draw(second) % 16, draw(third), draw(last))?;
    Ok(Line {
        caller: (draw(x) % 4) as u8 + 1,
        number,
        word: Word::Call(op),
    })
}

#[tactic(auto, using(crate::proofs::Scripts::no_unlock, crate::proofs::Scripts::one_unlock))]
fn unlock_lines(alloc: Global, blocks: u32) -> Result<Vec<Line>, NoMemory>
    requires { blocks < 2 ^ 31 }
    ensures { IfOk result (λ lines. lines.items ≡ unlock_lines blocks) }
{
    let mut lines = Vec::new(alloc);
    for block in 0..blocks {
        lines.push(Line {
            caller: 1,
            number: block + 1,
            word: Word::Call(Op::Unlock { block }),
        })?;
    }
    Ok(lines)
}

// Lines, and behind them so many that are drawn.
fn with_drawn(alloc: Global, lines: Vec<Line>, x: u64, count: u32) -> Result<Vec<Line>, NoMemory>
    requires { count < 2 ^ 31 }
    ensures { IfOk result (λ all. all.items ≡ lines.items ++ drawn_lines x count) }
{
    let mut all = lines;
    let mut from = x;
    for k in 0..count {
        all.push(line_of(alloc, k + 9, from)?)?;
        from = next(next(next(next(from))));
    }
    Ok(all)
}

/// The script of a drill: caller 1 unlocks all eight blocks, and 4,096 lines are drawn from the number.
pub fn drill_lines(alloc: Global, n: u32) -> Result<Vec<Line>, NoMemory>
    ensures lines { IfOk result (λ lines. lines.items ≡ drill_lines n) }
    ensures script { IfOk result (λ lines. IsScript lines.items) }
{
    let lines = unlock_lines(alloc, BLOCKS)?;
    let all = with_drawn(alloc, lines, u64::from(n), DRAWN)?;
    Ok(all)
}
