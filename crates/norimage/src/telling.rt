//! The text of what stopped a command.
ghost use Rattle.std.specs.Prelude.{◌≡◌, ◌≤◌, IfOk, string_bytes};
ghost use Rattle.norimage.specs.Endings.{Says, Tells, lacks_memory, AfterPut};
ghost use Rattle.norimage.specs.Text.{text_of, image_text, table_text, length_text, change_text, too_large as large_text, no_memory};
ghost use Rattle.norimage.specs.Words.{asked_by};

use crate::stop::{File, Stop};
use crate::words::Command;
use nor_cell::NoMemory;
use nor_dump::{ChangeError, TableError};
use nor_image::ImageError;
use nor_io::{Sink, SinkError};
use nor_show::QueryText;
use std::alloc::Global;

/// How a command ended, as the program's exit status.
#[derive(Clone, Copy, Debug, PartialEq, Eq)]
pub struct Status {
    pub code: u8,
}

const USAGE: &str =
    "usage: norimage make OUT WIDTH DEVICE LANES TABLE RAW [--paces P E S] [--weak LANE PLACE] [--stuck LANE], raw IMAGE OUT, table IMAGE LANE OUT, draw IMAGE OUT\n";

// Why no bank is made of a file.
fn image_text(alloc: Global, error: ImageError) -> Result<String, NoMemory>
    ensures { IfOk result (λ text. string_bytes text ≡ image_text error) }
{
    match error {
        ImageError::BadMagic => String::from_str(alloc, "image: bad magic\n"),
        ImageError::BadHeader { at } => format!(in alloc; "image: bad header at {at}\n"),
        ImageError::Truncated { at } => format!(in alloc; "image: truncated at {at}\n"),
        ImageError::Trailing { at } => format!(in alloc; "image: trailing at {at}\n"),
        ImageError::SizeDiffers { lane } => {
            format!(in alloc; "image: size differs in lane {lane}\n")
        }
        ImageError::NoMemory => String::from_str(alloc, "no memory\n"),
    }
}

// Why a file has no query table.
fn table_text(alloc: Global, error: TableError) -> Result<String, NoMemory>
    ensures { IfOk result (λ text. string_bytes text ≡ table_text error) }
{
    match error {
        TableError::Length(len) => format!(in alloc; "table: {len} bytes\n"),
        TableError::HighByte => String::from_str(alloc, "table: high byte\n"),
        TableError::Query(error) => {
            let error = QueryText(error);
            format!(in alloc; "table: {error}\n")
        }
    }
}

// That a dump and a bank have so many bytes.
fn length_text(alloc: Global, raw: usize, bank: u32) -> Result<String, NoMemory>
    ensures { IfOk result (λ text. string_bytes text ≡ length_text raw bank) }
{
    format!(in alloc; "raw: {raw} bytes, bank: {bank} bytes\n")
}

fn change_text(error: ChangeError) -> &'static str
    ensures { result.now ≡ change_text error }
{
    match error {
        ChangeError::BadPace => "suspend pace: above 16\n",
        ChangeError::BadLane => "lane: not in the bank\n",
        ChangeError::BadWeak => "weak places: not ascending units of the chip\n",
    }
}

fn too_large(file: File) -> &'static str
    ensures { result.now ≡ large_text file }
{
    match file {
        File::Image => "image: too large\n",
        File::Table => "table: too large\n",
        File::Raw => "raw: too large\n",
    }
}

// The text of what stopped a command.
fn text_of(alloc: Global, command: Command, stop: Stop) -> Result<String, NoMemory>
    ensures { IfOk result (λ text. string_bytes text ≡ text_of (asked_by command.entry) stop) }
{
    match stop {
        Stop::Usage => String::from_str(alloc, USAGE),
        Stop::BadWiring => String::from_str(alloc, "wiring: none of the nine\n"),
        Stop::BadImage(error) => image_text(alloc, error),
        Stop::BadTable(error) => table_text(alloc, error),
        Stop::BadChange(error) => String::from_str(alloc, change_text(error)),
        Stop::RawLength { raw, bank } => length_text(alloc, raw, bank),
        Stop::NoLane => String::from_str(alloc, "lane: not in the bank\n"),
        Stop::Absent(file) => {
            let name = command.name(file);
            format!(in alloc; "absent {name}\n")
        }
        Stop::TooLarge(file) => String::from_str(alloc, too_large(file)),
        Stop::ReadFault(file) => {
            let name = command.name(file);
            format!(in alloc; "read fault {name}\n")
        }
        Stop::WriteFault => {
            let name = command.out();
            format!(in alloc; "write fault {name}\n")
        }
        Stop::NoMemory => String::from_str(alloc, "no memory\n"),
    }
}

// The status after the last text.
fn after_put(code: u8, put: Result<(), SinkError>) -> Status
    ensures { AfterPut code put result.code }
{
    match put {
        Ok(()) => Status { code },
        Err(SinkError::Fault) => Status { code: 7 },
        Err(SinkError::NoMemory) => Status { code: 9 },
    }
}

// Puts a text, and ends with a status.
fn say<K: Sink>(code: u8, text: &[u8], out: &mut K) -> Status
    ensures { Says code text.now (K.state out.old) (K.state out.new) result.code }
{
    let put = out.put(text);
    after_put(code, put)
}

/// Says that memory ran out.
pub fn say_no_memory<K: Sink>(out: &mut K) -> Status
    ensures { Says lacks_memory no_memory (K.state out.old) (K.state out.new) result.code }
{
    say(9, b"no memory\n", out)
}

/// Tells what stopped a command, and gives the status with which it ends.
pub fn tell<K: Sink>(alloc: Global, command: Command, stop: Stop, out: &mut K) -> Status
    ensures { Tells (asked_by command.entry) stop (K.state out.old) (K.state out.new) result.code }
{
    match text_of(alloc, command, stop) {
        Ok(text) => say(stop.status(), text.as_bytes(), out),
        Err(_) => say_no_memory(out),
    }
}
