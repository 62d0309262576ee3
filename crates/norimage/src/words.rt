//! What the words ask for.
ghost use Rattle.std.specs.Prelude.{◌≡◌, ◌<◌, length};
ghost use Rattle.norimage.specs.Words.{asked, asked_by, make_of as asked_make, table_of as asked_table, device_of, byte_of, is_form, word_at, name_of, out_of};

use crate::stop::File;
use nor_cell::Device;
use nor_script::parse_number;

/// What the words ask for: the names that they say, and the numbers.
#[derive(Clone, Copy, Debug)]
pub enum Command<'a> {
    /// The image of a bank, made of a table and a dump.
    Make {
        out: &'a str,
        width: u8,
        device: Device,
        lanes: u8,
        table: &'a str,
        raw: &'a str,
        options: &'a [String],
    },
    /// The bytes of a bank.
    Raw {
        image: &'a str,
        out: &'a str,
    },
    /// The query table of one of its lanes.
    Table {
        image: &'a str,
        lane: u8,
        out: &'a str,
    },
    /// A drawing of a bank.
    Draw {
        image: &'a str,
        out: &'a str,
    },
    Unknown,
}

impl<'a> Command<'a> {
    /// The name of one of the files that it reads; empty where it has none.
    pub fn name(self, file: File) -> &'a str
        ensures { result.now ≡ name_of (asked_by self.entry) file }
    {
        match self {
            Command::Make { table, raw, .. } => match file {
                File::Table => table,
                File::Raw => raw,
                File::Image => "",
            },
            Command::Raw { image, .. } => match file {
                File::Image => image,
                _ => "",
            },
            Command::Table { image, .. } => match file {
                File::Image => image,
                _ => "",
            },
            Command::Draw { image, .. } => match file {
                File::Image => image,
                _ => "",
            },
            Command::Unknown => "",
        }
    }

    /// The name of the file that it writes; empty where it has none.
    pub fn out(self) -> &'a str
        ensures { result.now ≡ out_of (asked_by self.entry) }
    {
        match self {
            Command::Make { out, .. } => out,
            Command::Raw { out, .. } => out,
            Command::Table { out, .. } => out,
            Command::Draw { out, .. } => out,
            Command::Unknown => "",
        }
    }
}

// The text of one of the words.
fn word(words: &[String], k: usize) -> &str
    requires { k < length words.now }
    ensures { result.now ≡ word_at words.now k }
{
    words[k].as_str()
}

/// A number of one byte.
pub fn byte_of(text: &str) -> Option<u8>
    ensures { result ≡ byte_of text.now }
{
    match parse_number(text.as_bytes()) {
        Some(number) if number < 256 => Some(number as u8),
        _ => None,
    }
}

fn device_of(text: &str) -> Option<Device>
    ensures { result ≡ device_of text.now }
{
    if text == "x8" {
        Some(Device::X8)
    } else if text == "x16" {
        Some(Device::X16)
    } else if text == "x16-byte" {
        Some(Device::X16Byte)
    } else {
        None
    }
}

// Whether there are so many words, and the first is this one.
fn is_form(words: &[String], count: usize, verb: &str) -> bool
    requires { 0 < count }
    ensures { result ≡ is_form words.now count verb.now }
{
    words.len() == count && word(words, 0) == verb
}

fn make_of(words: &[String]) -> Command<'_>
    requires { 6 < length words.now }
    ensures { asked_by result ≡ asked_make words.now }
{
    let width = byte_of(word(words, 2));
    let device = device_of(word(words, 3));
    let lanes = byte_of(word(words, 4));
    match (width, device, lanes) {
        (Some(width), Some(device), Some(lanes)) => Command::Make {
            out: word(words, 1),
            width,
            device,
            lanes,
            table: word(words, 5),
            raw: word(words, 6),
            options: &words[7..],
        },
        _ => Command::Unknown,
    }
}

fn table_of<'a>(image: &'a str, lane: Option<u8>, out: &'a str) -> Command<'a>
    ensures { asked_by result ≡ asked_table image.now lane out.now }
{
    match lane {
        Some(lane) => Command::Table { image, lane, out },
        None => Command::Unknown,
    }
}

/// What the words ask for.
pub fn command_of<'a>(words: &'a [String]) -> Command<'a>
    ensures { asked_by result ≡ asked words.now }
{
    if words.len() > 6 && word(words, 0) == "make" {
        return make_of(words);
    }
    if is_form(words, 3, "raw") {
        return Command::Raw {
            image: word(words, 1),
            out: word(words, 2),
        };
    }
    if is_form(words, 4, "table") {
        return table_of(word(words, 1), byte_of(word(words, 2)), word(words, 3));
    }
    if is_form(words, 3, "draw") {
        return Command::Draw {
            image: word(words, 1),
            out: word(words, 2),
        };
    }
    Command::Unknown
}
