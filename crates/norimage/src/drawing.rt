//! The drawing of a bank: a legend, and a box for each bar of blocks, in rows to scale.
ghost use Rattle.std.specs.Prelude.{◌≡◌, ◌≤◌, ◌<◌, ◌+◌, ◌*◌, ◌++◌, length, OnOk, IfOk};
ghost use Rattle.arrayvec.specs.ArrayVec.{array_vec_len};
ghost use Rattle.nor_io.specs.Files.{IsPrefix};
ghost use Rattle.norimage.specs.Drawn.{lines_of, IsDrawn};

use crate::shapes::{
    Area, Piece, push, push_address, push_area, push_dot, push_line, push_number, push_size,
    push_text,
};
use nor_cell::{Device, NoMemory, Set, unit_len};
use nor_dump::{Bar, Survey};
use std::alloc::Global;
use std::cmp::{max, min};

// Where boxes stand, in pixels: the first row, the pitch of rows, the height of a box, the left margin and
// the width of a whole row.
const TOP: u64 = 190;

const PITCH: u64 = 62;

const TALL: u64 = 30;

const LEFT: u64 = 110;

const WIDE: u64 = 900;

// A row, and how many bytes of a chip its boxes have so far.
#[derive(Clone, Copy, Debug)]
struct Cursor {
    row: u64,
    at: u64,
}

// Where a bar of so many bytes stands: in a new row where it doesn't fit.
fn placed(cursor: Cursor, len: u64, row_len: u64) -> Cursor {
    if cursor.at > 0 && cursor.at.saturating_add(len) > row_len {
        Cursor {
            row: cursor.row.saturating_add(1),
            at: 0,
        }
    } else {
        cursor
    }
}

fn past(cursor: Cursor, len: u64) -> Cursor {
    Cursor {
        row: cursor.row,
        at: cursor.at.saturating_add(len),
    }
}

// How many rows all bars take.
fn rows(bars: &[Bar], row_len: u64) -> u64 {
    let mut cursor = Cursor { row: 0, at: 0 };
    for bar in bars {
        cursor = past(placed(cursor, bar.len, row_len), bar.len);
    }
    cursor.row.saturating_add(1)
}

// The most bytes of a chip that a box stands for.
fn largest(bars: &[Bar]) -> u64
    ensures { 0 < result }
{
    let mut largest = 1;
    for bar in bars {
        largest = max(largest, bar.len);
    }
    largest
}

// How many bytes of a chip a row has: at least the largest bar, eight of these where the chip has as many,
// and a sixteenth of the chip.
fn row_len(survey: &Survey) -> u64
    ensures { 0 < result }
{
    let largest = largest(&survey.bars);
    let eight = min(survey.size, largest.saturating_mul(8));
    max(largest, max(eight, survey.size / 16))
}

// The pixels of so many bytes of a row.
fn pixels(bytes: u64, row_len: u64) -> u64
    requires { 0 < row_len }
{
    bytes.saturating_mul(WIDE) / row_len
}

// The box of a bar in its row.
fn area_of(cursor: Cursor, bar: &Bar, row_len: u64) -> Area
    requires { 0 < row_len }
{
    let left = pixels(cursor.at, row_len);
    let right = pixels(cursor.at.saturating_add(bar.len), row_len);
    Area {
        x: left.saturating_add(LEFT),
        y: cursor.row.saturating_mul(PITCH).saturating_add(TOP),
        width: max(1, right.saturating_sub(left).saturating_sub(1)),
        height: TALL,
    }
}

// How many units a bar has in all lanes.
fn units_of(survey: &Survey, bar: &Bar) -> u64 {
    (bar.len / unit_len(survey.device) as u64).saturating_mul(u64::from(survey.lanes))
}

// The part of a box, from its foot, that says how many units are programmed.
fn level(area: Area, units: u64, erased: u64) -> Area {
    let all = max(1, units);
    let programmed = units.saturating_sub(erased);
    let height = programmed.saturating_mul(TALL).saturating_add(all - 1) / all;
    let height = min(TALL, height);
    Area {
        y: area.y.saturating_add(TALL).saturating_sub(height),
        height,
        ..area
    }
}

// What of a box is filled.
fn push_level(piece: &mut Piece, area: Area, units: u64, erased: u64)
    requires { array_vec_len piece.old + 260 ≤ 848 }
    ensures { array_vec_len piece.new ≤ array_vec_len piece.old + 260 }
{
    if erased >= units {
        push_area(piece, b"w", area);
        return;
    }
    push_area(piece, b"e", area);
    push_area(piece, b"p", level(area, units, erased));
}

// The marks of a lock that is set and of a weak place.
fn push_marks(piece: &mut Piece, area: Area, bar: &Bar)
    requires { array_vec_len piece.old + 210 ≤ 848 }
    ensures { array_vec_len piece.new ≤ array_vec_len piece.old + 210 }
{
    if bar.locked {
        push_area(piece, b"l", Area { height: 4, ..area });
    }
    if bar.weak {
        push_dot(
            piece,
            area.x.saturating_add(min(6, area.width / 2)),
            area.y.saturating_add(TALL - 6),
        );
    }
}

// The number of a bar's first block above its box, where there is room for it.
fn push_block(piece: &mut Piece, area: Area, bar: &Bar)
    requires { array_vec_len piece.old + 100 ≤ 848 }
    ensures { array_vec_len piece.new ≤ array_vec_len piece.old + 100 }
{
    let digits = if bar.first < 10 {
        1
    } else if bar.first < 100 {
        2
    } else if bar.first < 1000 {
        3
    } else {
        6
    };
    if area.width >= 6 * digits {
        push_text(piece, b"n", area.x, area.y.saturating_sub(3));
        push_number(piece, bar.first as u64);
        push(piece, b"</text>\n");
    }
}

// An address of the bank.
fn push_place(piece: &mut Piece, class: &[u8], x: u64, y: u64, address: u64)
    requires class { length class.now ≤ 1 }
    requires room { array_vec_len piece.old + 90 ≤ 848 }
    ensures { array_vec_len piece.new ≤ array_vec_len piece.old + 90 }
{
    push_text(piece, class, x, y);
    push_address(piece, address);
    push(piece, b"</text>\n");
}

// The address of a row's first byte beside it, and of a box's first byte below it, where there is room.
fn push_places(piece: &mut Piece, area: Area, cursor: Cursor, address: u64)
    requires { array_vec_len piece.old + 90 ≤ 848 }
    ensures { array_vec_len piece.new ≤ array_vec_len piece.old + 90 }
{
    if cursor.at == 0 {
        push_place(piece, b"r", 10, area.y.saturating_add(20), address);
    } else if area.width >= 60 {
        push_place(
            piece,
            b"a",
            area.x,
            area.y.saturating_add(TALL + 11),
            address,
        );
    }
}

// The box of a bar, with all that is on it.
fn box_of(survey: &Survey, bar: &Bar, cursor: Cursor, row_len: u64) -> Piece
    requires { 0 < row_len }
    ensures { array_vec_len result ≤ 848 }
{
    let area = area_of(cursor, bar, row_len);
    let mut piece = Piece::new();
    push(&mut piece, b"<g><title>");
    push_line(&mut piece, bar);
    push(&mut piece, b"</title>\n");
    push_level(&mut piece, area, units_of(survey, bar), bar.erased);
    push_marks(&mut piece, area, bar);
    push_block(&mut piece, area, bar);
    let address = bar.from.saturating_mul(u64::from(survey.lanes));
    push_places(&mut piece, area, cursor, address);
    push(&mut piece, b"</g>\n");
    piece
}

// Puts the line of each bar.
fn put_lines(svg: &mut Vec<u8>, bars: &[Bar]) -> Result<(), NoMemory>
    ensures items { OnOk result (svg.new.items ≡ svg.old.items ++ lines_of bars.now) }
    ensures len { OnOk result (length svg.new.items ≤ length svg.old.items + 115 * length bars.now) }
{
    for bar in bars {
        let mut piece = Piece::new();
        push_line(&mut piece, bar);
        svg.extend_from_slice(&piece)?;
    }
    Ok(())
}

// Puts the box of each bar.
fn put_boxes(svg: &mut Vec<u8>, survey: &Survey, row_len: u64) -> Result<(), NoMemory>
    requires { 0 < row_len }
    ensures items { OnOk result (IsPrefix svg.old.items svg.new.items) }
    ensures len { OnOk result
        (length svg.new.items ≤ length svg.old.items + 848 * length survey.now.bars.items) }
{
    let mut cursor = Cursor { row: 0, at: 0 };
    for bar in &survey.bars {
        cursor = placed(cursor, bar.len, row_len);
        let piece = box_of(survey, bar, cursor, row_len);
        svg.extend_from_slice(&piece)?;
        cursor = past(cursor, bar.len);
    }
    Ok(())
}

const STYLE: &[u8] = b"<style>text{font-family:sans-serif;font-size:13px;fill:#222}\
.n{font-size:10px;fill:#555}.a{font-size:10px;fill:#999}.r{font-size:12px;font-family:monospace}\
.t{font-size:18px;font-weight:bold}.s{fill:#c00;font-weight:bold}\
.e{fill:#eef1f5;stroke:#8a97a8}.p{fill:#46658f}.w{fill:#c8ecc4;stroke:#3d8b37}\
.l{fill:#d22}.k{fill:#f80;stroke:#fff}</style>\n";

// The beginning, up to the lines of the bars.
fn front(height: u64) -> Piece
    ensures { array_vec_len result ≤ 848 }
{
    let mut piece = Piece::new();
    push(
        &mut piece,
        b"<svg xmlns=\"http://www.w3.org/2000/svg\" width=\"1030\" height=\"",
    );
    push_number(&mut piece, height);
    push(
        &mut piece,
        b"\"><rect width=\"100%\" height=\"100%\" fill=\"#fff\"/>\n<desc>\n",
    );
    piece
}

fn device_name(device: Device) -> &'static [u8]
    ensures { length result.now ≤ 8 }
{
    match device {
        Device::X8 => b"x8",
        Device::X16 => b"x16",
        Device::X16Byte => b"x16-byte",
    }
}

fn set_name(set: Set) -> &'static [u8]
    ensures { length result.now ≤ 4 }
{
    match set {
        Set::Intel => b"0001",
        Set::Amd => b"0002",
    }
}

// How many wires a bus of so many bytes has.
fn wires(width: u8) -> u64 {
    u64::from(width) * 8
}

// What the bank is.
fn heading(survey: &Survey) -> Piece
    ensures { array_vec_len result ≤ 848 }
{
    let mut piece = Piece::new();
    push_text(&mut piece, b"t", 10, 30);
    push(&mut piece, b"Bank of ");
    let lanes = u64::from(survey.lanes);
    push_size(&mut piece, survey.size.saturating_mul(lanes));
    push(&mut piece, b" on a bus of ");
    push_number(&mut piece, wires(survey.width));
    push(&mut piece, b" wires</text>\n");
    push_text(&mut piece, b"h", 10, 54);
    push(&mut piece, b"lanes: ");
    push_number(&mut piece, lanes);
    push(&mut piece, b" \xC2\xB7 device: ");
    push(&mut piece, device_name(survey.device));
    push(&mut piece, b" \xC2\xB7 set: ");
    push(&mut piece, set_name(survey.set));
    push(&mut piece, b" \xC2\xB7 chip: ");
    push_size(&mut piece, survey.size);
    push(&mut piece, b" in ");
    push_number(&mut piece, survey.blocks as u64);
    push(&mut piece, b" blocks</text>\n");
    piece
}

// The fewest bytes of a chip that a box stands for.
fn smallest(bars: &[Bar]) -> u64 {
    let mut smallest = u64::MAX;
    for bar in bars {
        smallest = min(smallest, bar.len);
    }
    smallest
}

// What a box stands for.
fn boxes(survey: &Survey) -> Piece
    ensures { array_vec_len result ≤ 848 }
{
    let mut piece = Piece::new();
    push_text(&mut piece, b"h", 10, 76);
    if survey.per == 1 {
        push(&mut piece, b"each box is a block: ");
    } else {
        push(&mut piece, b"blocks are grouped, each box is ");
        push_number(&mut piece, survey.per as u64);
        push(&mut piece, b" blocks, the last box the rest: ");
    }
    let (smallest, largest) = (smallest(&survey.bars), largest(&survey.bars));
    if smallest < largest {
        push_size(&mut piece, smallest);
        push(&mut piece, b" to ");
    }
    push_size(&mut piece, largest);
    push(&mut piece, b" of each chip, to scale</text>\n");
    piece
}

fn push_lane(piece: &mut Piece, lane: &[u8], stuck: bool)
    requires lane { length lane.now ≤ 2 }
    requires room { array_vec_len piece.old + 2 ≤ 848 }
    ensures { array_vec_len piece.new ≤ array_vec_len piece.old + 2 }
{
    if stuck {
        push(piece, lane);
    }
}

// The lanes that are stuck, if any are.
fn stuck_lanes(survey: &Survey) -> Piece
    ensures { array_vec_len result ≤ 848 }
{
    let mut piece = Piece::new();
    let [first, second, third, fourth] = survey.stuck;
    if first || second || third || fourth {
        push_text(&mut piece, b"s", 10, 98);
        push(&mut piece, b"stuck, never ends its work: lane");
        push_lane(&mut piece, b" 0", first);
        push_lane(&mut piece, b" 1", second);
        push_lane(&mut piece, b" 2", third);
        push_lane(&mut piece, b" 3", fourth);
        push(&mut piece, b"</text>\n");
    }
    piece
}

fn push_key(piece: &mut Piece, class: &[u8], x: u64, text: &[u8])
    requires class { length class.now ≤ 1 }
    requires text { length text.now ≤ 30 }
    requires room { array_vec_len piece.old + 240 ≤ 848 }
    ensures { array_vec_len piece.new ≤ array_vec_len piece.old + 240 }
{
    push_area(
        piece,
        class,
        Area {
            x,
            y: 114,
            width: 22,
            height: 16,
        },
    );
    push_text(piece, b"h", x.saturating_add(30), 127);
    push(piece, text);
    push(piece, b"</text>\n");
}

// What the colours of boxes mean.
fn fills() -> Piece
    ensures { array_vec_len result ≤ 848 }
{
    let mut piece = Piece::new();
    push_key(&mut piece, b"p", 10, b"programmed, from the foot up");
    push_key(&mut piece, b"e", 280, b"erased: all bits set");
    push_key(&mut piece, b"w", 470, b"wholly erased");
    piece
}

// What the marks on boxes mean.
fn marks() -> Piece
    ensures { array_vec_len result ≤ 848 }
{
    let mut piece = Piece::new();
    push_area(
        &mut piece,
        b"l",
        Area {
            x: 630,
            y: 120,
            width: 22,
            height: 4,
        },
    );
    push(
        &mut piece,
        b"<text class=\"h\" x=\"660\" y=\"127\">locked</text>\n",
    );
    push_dot(&mut piece, 744, 122);
    push(
        &mut piece,
        b"<text class=\"h\" x=\"756\" y=\"127\">weak place</text>\n",
    );
    push(
        &mut piece,
        b"<text class=\"a\" x=\"10\" y=\"154\">above a box its first block, \
beside a row and below a box the first address in the bank</text>\n",
    );
    piece
}

// Puts the legend.
fn put_legend(svg: &mut Vec<u8>, survey: &Survey) -> Result<(), NoMemory>
    ensures items { OnOk result (IsPrefix svg.old.items svg.new.items) }
    ensures len { OnOk result (length svg.new.items ≤ length svg.old.items + 848 * 6) }
{
    svg.extend_from_slice(b"</desc>\n")?;
    svg.extend_from_slice(STYLE)?;
    svg.extend_from_slice(&heading(survey))?;
    svg.extend_from_slice(&boxes(survey))?;
    svg.extend_from_slice(&stuck_lanes(survey))?;
    svg.extend_from_slice(&fills())?;
    svg.extend_from_slice(&marks())?;
    Ok(())
}

/// The drawing of a bank, as SVG of at most 512 KiB.
pub fn draw(alloc: Global, survey: &Survey) -> Result<Vec<u8>, NoMemory>
    requires { length survey.now.bars.items ≤ 512 }
    ensures { IfOk result (λ svg. IsDrawn survey.now svg.items) }
{
    let row_len = row_len(survey);
    let height = rows(&survey.bars, row_len)
        .saturating_mul(PITCH)
        .saturating_add(TOP);
    let mut svg = Vec::new(alloc);
    svg.extend_from_slice(&front(height))?;
    put_lines(&mut svg, &survey.bars)?;
    put_legend(&mut svg, survey)?;
    put_boxes(&mut svg, survey, row_len)?;
    svg.extend_from_slice(b"</svg>\n")?;
    Ok(svg)
}
