//! The program over a shelf and a sink in memory.
use crate::program::norimage;
use nor_io::{MemShelf, MemSink, Shelf};
use std::alloc::{AllocError, Global};
use std::process::Abort;
use std::test::Fail;

// A query table from word 0x10 on: a chip of set 0001 of 8 KiB in eight blocks, without locks.
const TABLE: [u8; 48] = [
    0x51, 0x52, 0x59, 0x01, 0x00, 0x31, 0x00, 0x00, 0x00, 0x00, 0x00, 0x27, 0x36, 0x00, 0x00, 0x04,
    0x06, 0x0a, 0x00, 0x02, 0x02, 0x02, 0x00, 0x0d, 0x00, 0x00, 0x00, 0x00, 0x01, 0x07, 0x00, 0x04,
    0x00, 0x50, 0x52, 0x49, 0x31, 0x30, 0, 0, 0, 0, 0, 0, 0, 0, 0, 0,
];

// The table of 512 bytes, or of 512 words whose high bytes are this one.
fn table(alloc: Global, high: Option<u8>) -> Result<Vec<u8>, AllocError> {
    let mut file = Vec::new(alloc);
    for at in 0..512usize {
        let byte = match TABLE.get(at.wrapping_sub(0x10)) {
            Some(byte) => *byte,
            None => 0,
        };
        file.push(byte)?;
        if let Some(high) = high {
            file.push(high)?;
        }
    }
    Ok(file)
}

// So many bytes, none of which is that of a neighbour.
fn raw(alloc: Global, len: u32) -> Result<Vec<u8>, AllocError> {
    let mut file = Vec::new(alloc);
    for at in 0..len {
        file.push((at % 251) as u8)?;
    }
    Ok(file)
}

fn words_of(alloc: Global, texts: &[&str]) -> Result<Vec<String>, AllocError> {
    let mut words = Vec::new(alloc);
    for text in texts {
        words.push(String::from_str(alloc, text)?)?;
    }
    Ok(words)
}

// The words end with this status and text.
fn expect(
    rt: &impl Abort,
    alloc: Global,
    shelf: &mut MemShelf,
    texts: &[&str],
    code: u8,
    printed: &[u8],
) -> Result<(), AllocError> {
    let mut out = MemSink::new(alloc, &[])?;
    let words = words_of(alloc, texts)?;
    let status = norimage(alloc, &words, shelf, &mut out);
    assert_eq!(rt; out.taken(), printed);
    assert_eq!(rt; status.code, code);
    Ok(())
}

// The shelf has the same bytes under two names.
fn expect_same(
    rt: &impl Abort,
    alloc: Global,
    shelf: &mut MemShelf,
    name: &str,
    other: &str,
) -> Result<(), AllocError> {
    let left = shelf.load(alloc, name).unwrap_or(Vec::new(alloc));
    let right = shelf.load(alloc, other).unwrap_or(Vec::new(alloc));
    assert!(rt; left == right);
    Ok(())
}

// Tables of both forms, one whose high bytes aren't 0, and a dump for two lanes.
fn shelf(alloc: Global, fail: &[u32]) -> Result<MemShelf, AllocError> {
    let mut shelf = MemShelf::new(alloc, fail)?;
    shelf.hold("table", &table(alloc, None)?)?;
    shelf.hold("wide", &table(alloc, Some(0))?)?;
    shelf.hold("high", &table(alloc, Some(1))?)?;
    shelf.hold("raw", &raw(alloc, 16384)?)?;
    shelf.hold("odd", &raw(alloc, 16385)?)?;
    Ok(shelf)
}

// Words, and the status and the text with which they end.
type Row = (&'static [&'static str], u8, &'static [u8]);

const MAKE: &[&str] = &["make", "bank", "2", "x8", "2", "wide", "raw"];

const STOPS: [Row; 10] = [
    (
        &["make", "bank", "2", "x8", "3", "table", "raw"],
        10,
        b"wiring: none of the nine\n",
    ),
    (
        &["make", "bank", "2", "x8", "2", "high", "raw"],
        4,
        b"table: high byte\n",
    ),
    (
        &["make", "bank", "2", "x8", "2", "odd", "raw"],
        4,
        b"table: 16385 bytes\n",
    ),
    (
        &["make", "bank", "2", "x8", "2", "none", "raw"],
        8,
        b"absent none\n",
    ),
    (
        &["make", "bank", "2", "x8", "2", "table", "odd"],
        10,
        b"raw: 16385 bytes, bank: 16384 bytes\n",
    ),
    (
        &[
            "make", "bank", "2", "x8", "2", "table", "raw", "--paces", "1", "1", "17",
        ],
        10,
        b"suspend pace: above 16\n",
    ),
    (
        &[
            "make", "bank", "2", "x8", "2", "table", "raw", "--stuck", "2",
        ],
        10,
        b"lane: not in the bank\n",
    ),
    (&["raw", "table", "out"], 3, b"image: bad magic\n"),
    (&["table", "none", "0", "out"], 8, b"absent none\n"),
    (&["draw", "raw", "out"], 3, b"image: bad magic\n"),
];

#[test]
fn refusals(rt: HostRuntime) -> Result<(), Fail> {
    let alloc = rt.alloc();
    let mut shelf = shelf(alloc, &[])?;
    for (texts, code, printed) in STOPS {
        expect(&rt, alloc, &mut shelf, texts, code, printed)?;
    }
    Ok(())
}

#[test]
fn there_and_back(rt: HostRuntime) -> Result<(), Fail> {
    let alloc = rt.alloc();
    let mut shelf = shelf(alloc, &[])?;
    expect(&rt, alloc, &mut shelf, MAKE, 0, b"")?;
    expect(&rt, alloc, &mut shelf, &["raw", "bank", "back"], 0, b"")?;
    expect_same(&rt, alloc, &mut shelf, "back", "raw")?;
    expect(
        &rt,
        alloc,
        &mut shelf,
        &["table", "bank", "1", "back"],
        0,
        b"",
    )?;
    expect_same(&rt, alloc, &mut shelf, "back", "table")?;
    expect(
        &rt,
        alloc,
        &mut shelf,
        &["table", "bank", "2", "back"],
        10,
        b"lane: not in the bank\n",
    )?;
    Ok(())
}

// How the drawing of an erased bank of two lanes begins: its first blocks.
const DRAWN: &[u8] = b"<svg xmlns=\"http://www.w3.org/2000/svg\" width=\"1030\" height=\"252\">\
<rect width=\"100%\" height=\"100%\" fill=\"#fff\"/>\n<desc>\n\
from block 0, 1 in all: 2048 units erased\nfrom block 1, 1 in all: 2048 units erased, weak\n";

#[test]
fn drawn(rt: HostRuntime) -> Result<(), Fail> {
    let alloc = rt.alloc();
    let mut shelf = shelf(alloc, &[])?;
    let make: &[&str] = &[
        "make", "bank", "2", "x8", "2", "table", "-", "--weak", "1", "1024",
    ];
    expect(&rt, alloc, &mut shelf, make, 0, b"")?;
    expect(&rt, alloc, &mut shelf, &["draw", "bank", "out"], 0, b"")?;
    let svg = shelf.load(alloc, "out").unwrap_or(Vec::new(alloc));
    assert!(rt; svg.starts_with(DRAWN));
    Ok(())
}
