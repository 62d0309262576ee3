//! The options of `make`.
ghost use Rattle.std.specs.Prelude.{◌≡◌, IfOk};
ghost use Rattle.norimage.specs.Options.{step_of, number_step, byte_step, ready_step, at_end, changes_of as changes_in, items_of};

use crate::words::byte_of;
use nor_cell::NoMemory;
use nor_dump::{Change, Paces};
use nor_script::parse_number;
use std::alloc::Global;

/// What the next word has to be: an option, or one of the numbers behind it.
#[derive(Clone, Copy, Debug, PartialEq, Eq)]
pub enum Due {
    Option,
    Program,
    Erase { program: u32 },
    Suspend { program: u32, erase: u32 },
    Lane,
    Place { lane: u8 },
    StuckLane,
}

/// What a word makes of it.
#[derive(Clone, Copy, Debug, PartialEq, Eq)]
pub enum Step {
    Bad,
    Next(Due),
    Whole(Change),
}

fn option_step(word: &str) -> Step
    ensures { result ≡ ready_step word.now }
{
    if word == "--paces" {
        Step::Next(Due::Program)
    } else if word == "--weak" {
        Step::Next(Due::Lane)
    } else if word == "--stuck" {
        Step::Next(Due::StuckLane)
    } else {
        Step::Bad
    }
}

fn number_step(due: Due, number: Option<u32>) -> Step
    ensures { result ≡ number_step due number }
{
    let Some(number) = number else {
        return Step::Bad;
    };
    match due {
        Due::Program => Step::Next(Due::Erase { program: number }),
        Due::Erase { program } => Step::Next(Due::Suspend {
            program,
            erase: number,
        }),
        Due::Place { lane } => Step::Whole(Change::Weak {
            lane,
            place: number,
        }),
        _ => Step::Bad,
    }
}

fn byte_step(due: Due, number: Option<u8>) -> Step
    ensures { result ≡ byte_step due number }
{
    let Some(number) = number else {
        return Step::Bad;
    };
    match due {
        Due::Suspend { program, erase } => Step::Whole(Change::Pace(Paces {
            program,
            erase,
            suspend: number,
        })),
        Due::Lane => Step::Next(Due::Place { lane: number }),
        Due::StuckLane => Step::Whole(Change::Stuck { lane: number }),
        _ => Step::Bad,
    }
}

fn step_of(due: Due, word: &str) -> Step
    ensures { result ≡ step_of due word.now }
{
    match due {
        Due::Option => option_step(word),
        Due::Program => number_step(due, parse_number(word.as_bytes())),
        Due::Erase { .. } => number_step(due, parse_number(word.as_bytes())),
        Due::Suspend { .. } => byte_step(due, byte_of(word)),
        Due::Lane => byte_step(due, byte_of(word)),
        Due::Place { .. } => number_step(due, parse_number(word.as_bytes())),
        Due::StuckLane => byte_step(due, byte_of(word)),
    }
}

// The changes that were read, where nothing more is due.
fn at_end(due: Due, changes: Vec<Change>) -> Option<Vec<Change>>
    ensures { items_of result ≡ at_end due changes.items }
{
    match due {
        Due::Option => Some(changes),
        _ => None,
    }
}

/// The changes that options ask for; `None` where the words are no options.
#[tactic(auto, unfolding(crate::specs::Options::changes_of))]
pub fn changes_of(alloc: Global, words: &[String]) -> Result<Option<Vec<Change>>, NoMemory>
    ensures { IfOk result (λ changes. items_of changes ≡ changes_in words.now) }
{
    let mut changes = Vec::new(alloc);
    let mut due = Due::Option;
    for word in words {
        match step_of(due, word.as_str()) {
            Step::Bad => return Ok(None),
            Step::Next(next) => due = next,
            Step::Whole(change) => {
                changes.push(change)?;
                due = Due::Option;
            }
        }
    }
    Ok(at_end(due, changes))
}
