//! Reading one line.
ghost use Rattle.std.specs.Prelude.{◌≡◌, ◌<◌, ◌≤◌, ◌^◌, length, IfOk};
ghost use Rattle.std.specs.List.{list_all};
ghost use Rattle.hex.specs.Hex.{decode_of};
ghost use Rattle.nor_script.specs.Grammar.{is_printable, found, checked, caller_of, caller_head, head_of, number_at, byte_of, byte_at, decoded, data_of, data_at, word_of, line_of};
ghost use Rattle.nor_script.specs.Script.{Reads};

use crate::field::{count_fields, field};
use crate::number::parse_number;
use crate::verb::{Head, Verb, verb_of};
use crate::{Line, LineKind, ScriptError, Word};
use hex::FromHexError;
use nor_array::{Bytes, Op, make_bytes};
use nor_cell::NoMemory;
use std::alloc::{AllocError, Global};

// The value that line n has in a place, or what is wrong with it.
fn found<T: Drop>(value: Option<T>, kind: LineKind, n: u32) -> Result<T, ScriptError>
    ensures { result ≡ found value kind n }
{
    match value {
        Some(value) => Ok(value),
        None => Err(ScriptError::BadLine { line: n, kind }),
    }
}

fn checked(passes: bool, kind: LineKind, n: u32) -> Result<(), ScriptError>
    ensures { result ≡ checked passes kind n }
{
    if passes {
        Ok(())
    } else {
        Err(ScriptError::BadLine { line: n, kind })
    }
}

fn caller_of(n: u32, caller: u32) -> Result<u8, ScriptError>
    ensures { result ≡ caller_of n caller }
{
    match caller {
        1..=8 => Ok(caller as u8),
        _ => Err(ScriptError::BadCaller { line: n }),
    }
}

fn caller_head(n: u32, line: &[u8]) -> Result<Head, ScriptError>
    ensures { result ≡ caller_head n line.now }
{
    let number = found(parse_number(field(line, 0)), LineKind::Word, n)?;
    let caller = caller_of(n, number)?;
    let verb = found(verb_of(field(line, 1)), LineKind::Word, n)?;
    Ok(Head { caller, verb })
}

// Who calls, and what for.
fn head_of(n: u32, line: &[u8]) -> Result<Head, ScriptError>
    ensures { result ≡ head_of n line.now }
{
    let first = field(line, 0);
    if first == b"cut".as_slice() {
        Ok(Head {
            caller: 0,
            verb: Verb::Cut,
        })
    } else if first == b"reboot".as_slice() {
        Ok(Head {
            caller: 0,
            verb: Verb::Reboot,
        })
    } else {
        caller_head(n, line)
    }
}

fn number_at(n: u32, line: &[u8], k: usize) -> Result<u32, ScriptError>
    ensures { result ≡ number_at n line.now k }
{
    found(parse_number(field(line, k)), LineKind::Number, n)
}

fn byte_of(number: u32) -> Option<u8>
    ensures { result ≡ byte_of number }
{
    match number {
        0..=255 => Some(number as u8),
        _ => None,
    }
}

fn byte_at(n: u32, line: &[u8], k: usize) -> Result<u8, ScriptError>
    ensures { result ≡ byte_at n line.now k }
{
    let number = number_at(n, line, k)?;
    found(byte_of(number), LineKind::Number, n)
}

// The bytes of hex text.
fn decoded(alloc: Global, text: &[u8]) -> Result<Option<Bytes>, NoMemory>
    ensures { IfOk result (λ bytes. bytes ≡ decoded (decode_of text.now)) }
{
    match hex::decode(alloc, text) {
        Ok(bytes) => Ok(Some(Bytes::from_vec(bytes))),
        Err(FromHexError::OutOfMemory) => Err(AllocError),
        Err(_) => Ok(None),
    }
}

// The bytes of hex text, or of a dash.
fn data_of(alloc: Global, text: &[u8]) -> Result<Option<Bytes>, NoMemory>
    ensures { IfOk result (λ bytes. bytes ≡ data_of text.now) }
{
    match text {
        b"-" => Ok(Some(make_bytes(alloc, &[])?)),
        b"" => Ok(None),
        _ => decoded(alloc, text),
    }
}

fn data_at(alloc: Global, n: u32, line: &[u8], k: usize) -> Result<Bytes, ScriptError>
    ensures { Reads (data_at n line.now k) result }
{
    let bytes = data_of(alloc, field(line, k))?;
    found(bytes, LineKind::Hex, n)
}

fn program_of(alloc: Global, n: u32, line: &[u8]) -> Result<Word, ScriptError>
    ensures { Reads (word_of Verb.Program n line.now) result }
{
    let at = number_at(n, line, 2)?;
    let new = data_at(alloc, n, line, 3)?;
    Ok(Word::Call(Op::Program { at, new }))
}

fn read_of(n: u32, line: &[u8]) -> Result<Word, ScriptError>
    ensures { result ≡ word_of Verb.Read n line.now }
{
    let at = number_at(n, line, 2)?;
    let len = number_at(n, line, 3)?;
    Ok(Word::Call(Op::Read { at, len }))
}

fn cut_of(n: u32, line: &[u8]) -> Result<Word, ScriptError>
    ensures { result ≡ word_of Verb.Cut n line.now }
{
    let after = number_at(n, line, 1)?;
    let mask = byte_at(n, line, 2)?;
    Ok(Word::Call(Op::Arm { after, mask }))
}

// What the line asks for.
fn word_of(alloc: Global, verb: Verb, n: u32, line: &[u8]) -> Result<Word, ScriptError>
    ensures { Reads (word_of verb n line.now) result }
{
    match verb {
        Verb::Read => read_of(n, line),
        Verb::Program => program_of(alloc, n, line),
        Verb::Cut => cut_of(n, line),
        Verb::EraseAll => Ok(Word::EraseAll),
        Verb::OpenAll => Ok(Word::Call(Op::EraseAll)),
        Verb::Poll => Ok(Word::Call(Op::Poll)),
        Verb::Reboot => Ok(Word::Call(Op::PowerOn)),
        Verb::Erase => {
            let block = number_at(n, line, 2)?;
            Ok(Word::Erase { block })
        }
        Verb::Open => {
            let block = number_at(n, line, 2)?;
            Ok(Word::Call(Op::EraseOpen { block }))
        }
        Verb::Lock => {
            let block = number_at(n, line, 2)?;
            Ok(Word::Call(Op::Lock { block }))
        }
        Verb::Unlock => {
            let block = number_at(n, line, 2)?;
            Ok(Word::Call(Op::Unlock { block }))
        }
        Verb::Locked => {
            let block = number_at(n, line, 2)?;
            Ok(Word::Call(Op::IsLocked { block }))
        }
    }
}

fn is_printable(line: &[u8]) -> bool
    ensures { result ≡ list_all is_printable line.now }
{
    line.iter().all(|b| (0x20..=0x7E).contains(b))
}

/// What line n says, in a script for callers that race or not, and behind a caller's line or not.
pub fn read_line(
    alloc: Global,
    race: bool,
    has_callers: bool,
    n: u32,
    line: &[u8],
) -> Result<Line, ScriptError>
    requires { length line.now ≤ 2 ^ 30 }
    ensures { Reads (line_of race has_callers n line.now) result }
{
    checked(is_printable(line), LineKind::Bytes, n)?;
    let head = head_of(n, line)?;
    checked(
        count_fields(line) == head.verb.field_count(),
        LineKind::Count,
        n,
    )?;
    let word = word_of(alloc, head.verb, n, line)?;
    checked(head.verb.may_stand(race, has_callers), LineKind::NotHere, n)?;
    Ok(Line {
        caller: head.caller,
        number: n,
        word,
    })
}
