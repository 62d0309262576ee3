//! Reading a script.
ghost use Rattle.std.specs.Prelude.{◌≡◌, ◌≤◌, ◌^◌, ◌||◌, nat_lt, length};
ghost use Rattle.nor_script.specs.Script.{script_of, is_skipped, Reads};

use crate::command::read_line;
use crate::field::{behind, end_of};
use crate::{Line, ScriptError};
use std::alloc::Global;
use std::marker::Model;

/// The most command lines of a script.
pub const MAX_LINES: usize = 65_536;

/// A script, seen as the list of its command lines.
#[derive(Clone, Debug, Drop)]
pub struct Script {
    lines: Vec<Line>,
}

impl Model for Script {
    ghost use Rattle.std.specs.Prelude.{List};
    ghost use Rattle.nor_script.specs.declared.line.Line.{Line};

    ghost Value = { List Line };

    ghost view = { λ script. script.lines.items };
}

impl Script {
    /// The command lines, in their order.
    pub fn lines(&self) -> &[Line]
        ensures { result.now ≡ self.now }
    {
        &self.lines
    }
}

// Whether a line is empty or a comment.
fn is_skipped(line: &[u8]) -> bool
    ensures { result ≡ is_skipped line.now }
{
    match line {
        [] => true,
        [first, ..] => *first == b'#',
    }
}

// Whether one of the lines has a caller, this one among them.
fn with_caller(has_callers: bool, line: &Line) -> bool
    ensures { result ≡ (has_callers || nat_lt 0 line.now.caller) }
{
    has_callers || line.caller > 0
}

/// The script that a text of at most 2^30 bytes says, to be run by one thread, or to be raced.
///
/// The first bad line is the answer, with the first check that it fails: those of [`LineKind`] in
/// their order, and behind the first field the caller. The 65,537th command line is `TooManyLines`,
/// whatever it says. The work is linear in the text.
pub fn parse_script(alloc: Global, text: &[u8], race: bool) -> Result<Script, ScriptError>
    requires { length text.now ≤ 2 ^ 30 }
    ensures { Reads (script_of race text.now) result }
{
    let mut lines: Vec<Line> = Vec::new(alloc);
    let mut has_callers = false;
    let mut number = 0;
    let mut rest = text;
    'lines: while !rest.is_empty() {
        let end = end_of(rest, b'\n');
        let line = &rest[..end];
        rest = behind(rest, end);
        number += 1;
        if is_skipped(line) {
            continue;
        }
        if lines.len() >= MAX_LINES {
            return Err(ScriptError::TooManyLines);
        }
        let line = read_line(alloc, race, has_callers, number, line)?;
        has_callers = with_caller(has_callers, &line);
        lines.push(line)?;
    }
    Ok(Script { lines })
}
