//! The last text of a command, which tells what stopped it.
ghost use Rattle.std.specs.Prelude.{◌≡◌, ◌≢◌, ◌≤◌, ◌++◌, ◌⊎◌, MatchResult, IsOk, Err, codes, string_bytes};
ghost use Rattle.nor_io.specs.Puts.{PutsText};
ghost use Rattle.norbank.specs.Endings.{Says, Tells, fault_told, lacks_memory};
ghost use Rattle.norbank.specs.Status.{AfterPut};
ghost use Rattle.norbank.specs.Text.{kind_text as text_of_kind, too_large as text_of_large, bad_line, line_of, no_memory, image_text, script_text, probe_text};
ghost use Rattle.norbank.specs.Words.{asked_by};

use crate::emptying::said;
use crate::stop::{Done, File, Stop};
use crate::words::Command;
use itoa::Buffer;
use nor_buffer::Output;
use nor_image::ImageError;
use nor_io::{Sink, SinkError};
use nor_probe::ProbeError;
use nor_script::{LineKind, ScriptError};
use nor_show::{QueryText, difference_text};
use std::alloc::{AllocError, Global};

/// How a command ended, as the program's exit status.
#[derive(Clone, Copy, Debug, PartialEq, Eq)]
pub struct Status {
    pub code: u8,
}

const USAGE: &[u8] =
    b"usage: norbank read IMAGE ADDR LEN, show IMAGE, run IMAGE SCRIPT, race IMAGE SCRIPT, drill N\n";

// Puts one text and then another.
fn put_both<K: Sink>(first: &[u8], second: &[u8], out: &mut K) -> Result<(), SinkError>
    ensures puts { PutsText (first.now ++ second.now) (K.state out.old) (K.state out.new) result }
    ensures later { (K.state out.old).faults ≤ (K.state out.new).faults }
{
    match out.put(first) {
        Ok(()) => out.put(second),
        Err(error) => Err(error),
    }
}

// Puts a text, something behind it, and a newline.
fn put_line<K: Sink>(head: &[u8], tail: &[u8], out: &mut K) -> Result<(), SinkError>
    ensures puts { PutsText (line_of head.now tail.now) (K.state out.old) (K.state out.new) result }
    ensures later { (K.state out.old).faults ≤ (K.state out.new).faults }
{
    match put_both(head, tail, out) {
        Ok(()) => out.put(b"\n"),
        Err(error) => Err(error),
    }
}

// The status after the last text.
fn after_put(code: u8, put: Result<(), SinkError>) -> Status
    ensures { AfterPut code put result.code }
{
    match put {
        Ok(()) => Status { code },
        Err(error) => Status {
            code: Stop::Output(error).status(),
        },
    }
}

// Puts a text, and ends with a status.
fn say<K: Sink>(code: u8, text: &[u8], out: &mut K) -> Status
    ensures says { Says code text.now (K.state out.old) (K.state out.new) result.code }
    ensures later { (K.state out.old).faults ≤ (K.state out.new).faults }
{
    let put = out.put(text);
    after_put(code, put)
}

// Puts a line, and ends with a status.
fn say_line<K: Sink>(code: u8, head: &[u8], tail: &[u8], out: &mut K) -> Status
    ensures says { Says code (line_of head.now tail.now)
        (K.state out.old) (K.state out.new) result.code }
    ensures later { (K.state out.old).faults ≤ (K.state out.new).faults }
{
    let put = put_line(head, tail, out);
    after_put(code, put)
}

/// Says that memory ran out.
pub fn say_no_memory<K: Sink>(out: &mut K) -> Status
    ensures says { Says lacks_memory no_memory (K.state out.old) (K.state out.new) result.code }
    ensures later { (K.state out.old).faults ≤ (K.state out.new).faults }
{
    say(Stop::NoMemory.status(), b"no memory\n", out)
}

// Says why no bank is made of a file.
fn say_image<K: Sink>(code: u8, error: ImageError, out: &mut K) -> Status
    ensures says { Says code (image_text error) (K.state out.old) (K.state out.new) result.code }
    ensures later { (K.state out.old).faults ≤ (K.state out.new).faults }
{
    let mut number = Buffer::new();
    match error {
        ImageError::BadMagic => say(code, b"image: bad magic\n", out),
        ImageError::BadHeader { at } => {
            let at = number.format(at).as_bytes();
            say_line(code, b"image: bad header at ", at, out)
        }
        ImageError::Truncated { at } => {
            let at = number.format(at).as_bytes();
            say_line(code, b"image: truncated at ", at, out)
        }
        ImageError::Trailing { at } => {
            let at = number.format(at).as_bytes();
            say_line(code, b"image: trailing at ", at, out)
        }
        ImageError::SizeDiffers { lane } => {
            let lane = number.format(lane).as_bytes();
            say_line(code, b"image: size differs in lane ", lane, out)
        }
        ImageError::NoMemory => say(code, b"no memory\n", out),
    }
}

fn kind_text(kind: LineKind) -> &'static [u8]
    ensures { result.now ≡ text_of_kind kind }
{
    match kind {
        LineKind::Bytes => b"bytes",
        LineKind::Word => b"word",
        LineKind::Count => b"count",
        LineKind::Number => b"number",
        LineKind::Hex => b"hex",
        LineKind::NotHere => b"not here",
    }
}

fn put_bad_line<K: Sink>(number: &[u8], kind: &[u8], out: &mut K) -> Result<(), SinkError>
    ensures puts { PutsText (codes "script: line " ++ number.now ++ line_of (codes ": ") kind.now)
        (K.state out.old) (K.state out.new) result }
    ensures later { (K.state out.old).faults ≤ (K.state out.new).faults }
{
    match put_both(b"script: line ", number, out) {
        Ok(()) => put_line(b": ", kind, out),
        Err(error) => Err(error),
    }
}

// Says what is wrong with a line.
fn say_bad_line<K: Sink>(code: u8, line: u32, kind: &[u8], out: &mut K) -> Status
    ensures says { Says code (bad_line line kind.now)
        (K.state out.old) (K.state out.new) result.code }
    ensures later { (K.state out.old).faults ≤ (K.state out.new).faults }
{
    let mut number = Buffer::new();
    let put = put_bad_line(number.format(line).as_bytes(), kind, out);
    after_put(code, put)
}

// Says why a text is no script.
fn say_script<K: Sink>(code: u8, error: ScriptError, out: &mut K) -> Status
    ensures says { Says code (script_text error) (K.state out.old) (K.state out.new) result.code }
    ensures later { (K.state out.old).faults ≤ (K.state out.new).faults }
{
    match error {
        ScriptError::BadLine { line, kind } => say_bad_line(code, line, kind_text(kind), out),
        ScriptError::BadCaller { line } => say_bad_line(code, line, b"caller", out),
        ScriptError::TooManyLines => say(code, b"script: too many lines\n", out),
        ScriptError::NoMemory => say(code, b"no memory\n", out),
    }
}

// Says why probing refuses a bank, where memory suffices for the text.
fn say_made<K: Sink>(code: u8, reason: Result<String, AllocError>, out: &mut K) -> Status
    ensures says { MatchResult reason
        (λ text. Says code (line_of (codes "probe: ") (string_bytes text))
        (K.state out.old) (K.state out.new) result.code)
        (λ _. Says lacks_memory no_memory (K.state out.old) (K.state out.new) result.code) }
    ensures later { (K.state out.old).faults ≤ (K.state out.new).faults }
{
    match reason {
        Ok(text) => say_line(code, b"probe: ", text.as_bytes(), out),
        Err(_) => say_no_memory(out),
    }
}

// Says why probing refuses a bank.
fn say_unfound<K: Sink>(alloc: Global, code: u8, error: ProbeError, out: &mut K) -> Status
    ensures says { Says code (probe_text error) (K.state out.old) (K.state out.new) result.code
        ⊎ Says lacks_memory no_memory (K.state out.old) (K.state out.new) result.code }
    ensures later { (K.state out.old).faults ≤ (K.state out.new).faults }
{
    match error {
        ProbeError::NoAnswer => say(code, b"probe: no answer\n", out),
        ProbeError::LaneDiffers {
            lane,
            offset,
            left,
            right,
        } => {
            let reason = difference_text(alloc, lane, offset, left, right);
            say_made(code, reason, out)
        }
        ProbeError::Query(error) => {
            let error = QueryText(error);
            say_made(code, format!(in alloc; "{error}"), out)
        }
        ProbeError::Off => say_line(code, b"probe: ", b"", out),
    }
}

fn too_large(file: File) -> &'static [u8]
    ensures { result.now ≡ text_of_large file }
{
    match file {
        File::Bank => b"image: too large\n",
        File::Script => b"script: too large\n",
    }
}

// Tells what stopped a command.
fn tell_stop<K: Sink>(alloc: Global, command: Command, stop: Stop, out: &mut K) -> Status
    ensures tells { Tells (asked_by command.entry) (Err stop)
        (K.state out.old) (K.state out.new) result.code }
    ensures later { (K.state out.old).faults ≤ (K.state out.new).faults }
{
    let code = stop.status();
    match stop {
        Stop::Usage => say(code, USAGE, out),
        Stop::BadImage(error) => say_image(code, error, out),
        Stop::BadScript(error) => say_script(code, error, out),
        Stop::Unfound(error) => say_unfound(alloc, code, error, out),
        Stop::Absent(file) => say_line(code, b"absent ", command.name(file).as_bytes(), out),
        Stop::TooLarge(file) => say(code, too_large(file), out),
        Stop::ReadFault(file) => {
            say_line(code, b"read fault ", command.name(file).as_bytes(), out)
        }
        Stop::WriteFault => {
            say_line(
                code,
                b"write fault ",
                command.name(File::Bank).as_bytes(),
                out,
            )
        }
        Stop::OutOfRange => say(code, b"out of range\n", out),
        Stop::NoMemory => say_no_memory(out),
        Stop::Output(_) => Status { code },
    }
}

/// Tells what stopped a command, and gives the status with which it ends.
pub fn tell<K: Output>(
    alloc: Global,
    command: Command,
    ended: Result<Done, Stop>,
    out: &mut K,
) -> Status
    ensures tells { Tells (asked_by command.entry) ended
        (K.state out.old) (K.state out.new) result.code }
    ensures emptied { (IsOk ended → K.out out.old ≡ (K.state out.old).taken)
        → result.code ≢ fault_told → result.code ≢ lacks_memory
        → K.out out.new ≡ (K.state out.new).taken }
    ensures later { (K.state out.old).faults ≤ (K.state out.new).faults }
{
    match ended {
        Ok(done) => Status {
            code: done.status(),
        },
        Err(stop) => {
            let status = tell_stop(alloc, command, stop, out);
            said(status, out)
        }
    }
}
