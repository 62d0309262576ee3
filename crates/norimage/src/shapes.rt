//! Pieces of a drawing: short texts, and shapes in them.
ghost use Rattle.std.specs.Prelude.{◌≡◌, ◌≤◌, ◌<◌, ◌+◌, ◌++◌, length, codes, decimal};
ghost use Rattle.arrayvec.specs.ArrayVec.{array_vec_len};
ghost use Rattle.norimage.specs.Drawn.{line_of, flag};

use arrayvec::ArrayVec;
use itoa::Buffer;
use nor_dump::Bar;

/// A piece of a drawing.
pub type Piece = ArrayVec<u8, 848>;

/// A box, in pixels.
#[derive(Clone, Copy, Debug)]
pub struct Area {
    pub x: u64,
    pub y: u64,
    pub width: u64,
    pub height: u64,
}

pub fn push(piece: &mut Piece, bytes: &[u8])
    requires { array_vec_len piece.old + length bytes.now ≤ 848 }
    ensures items { piece.new.items ≡ piece.old.items ++ bytes.now }
    ensures len { array_vec_len piece.new ≡ array_vec_len piece.old + length bytes.now }
{
    piece.try_extend_from_slice(bytes).unwrap();
}

pub fn push_number(piece: &mut Piece, n: u64)
    requires { array_vec_len piece.old + 20 ≤ 848 }
    ensures items { piece.new.items ≡ piece.old.items ++ decimal n }
    ensures len { array_vec_len piece.new ≤ array_vec_len piece.old + 20 }
{
    push(piece, Buffer::new().format(n).as_bytes());
}

/// So many bytes, in the largest unit that divides them.
pub fn push_size(piece: &mut Piece, bytes: u64)
    requires { array_vec_len piece.old + 26 ≤ 848 }
    ensures { array_vec_len piece.new ≤ array_vec_len piece.old + 26 }
{
    if bytes % 0x10_0000 == 0 {
        push_number(piece, bytes / 0x10_0000);
        push(piece, b" MiB");
    } else if bytes % 0x400 == 0 {
        push_number(piece, bytes / 0x400);
        push(piece, b" KiB");
    } else {
        push_number(piece, bytes);
        push(piece, b" bytes");
    }
}

fn push_flag(piece: &mut Piece, holds: bool, text: &[u8])
    requires { array_vec_len piece.old + length text.now ≤ 848 }
    ensures items { piece.new.items ≡ piece.old.items ++ flag holds text.now }
    ensures len { array_vec_len piece.new ≤ array_vec_len piece.old + length text.now }
{
    if holds {
        push(piece, text);
    }
}

fn push_counts(piece: &mut Piece, bar: &Bar)
    requires { array_vec_len piece.old + 100 ≤ 848 }
    ensures items { piece.new.items ≡ piece.old.items ++ (codes "from block " ++ decimal bar.now.first
        ++ codes ", " ++ decimal bar.now.blocks ++ codes " in all: " ++ decimal bar.now.erased
        ++ codes " units erased") }
    ensures len { array_vec_len piece.new ≤ array_vec_len piece.old + 100 }
{
    push(piece, b"from block ");
    push_number(piece, bar.first as u64);
    push(piece, b", ");
    push_number(piece, bar.blocks as u64);
    push(piece, b" in all: ");
    push_number(piece, bar.erased);
    push(piece, b" units erased");
}

/// The line of a bar.
pub fn push_line(piece: &mut Piece, bar: &Bar)
    requires { array_vec_len piece.old + 115 ≤ 848 }
    ensures items { piece.new.items ≡ piece.old.items ++ line_of bar.now }
    ensures len { array_vec_len piece.new ≤ array_vec_len piece.old + 115 }
{
    push_counts(piece, bar);
    push_flag(piece, bar.locked, b", locked");
    push_flag(piece, bar.weak, b", weak");
    push(piece, b"\n");
}

// The digit of a number that has the value of so many, in base 16.
fn digit(n: u64, place: u64) -> u8
    requires { 0 < place }
{
    let nibble = (n / place % 16) as u8;
    if nibble < 10 {
        b'0' + nibble
    } else {
        b'a' + (nibble - 10)
    }
}

/// `0x` and the eight low digits of a number in base 16.
pub fn push_address(piece: &mut Piece, n: u64)
    requires { array_vec_len piece.old + 10 ≤ 848 }
    ensures { array_vec_len piece.new ≤ array_vec_len piece.old + 10 }
{
    push(piece, b"0x");
    let digits = [
        digit(n, 0x1000_0000),
        digit(n, 0x100_0000),
        digit(n, 0x10_0000),
        digit(n, 0x1_0000),
        digit(n, 0x1000),
        digit(n, 0x100),
        digit(n, 0x10),
        digit(n, 1),
    ];
    push(piece, &digits);
}

/// A rectangle of a class, whose name has one letter.
pub fn push_area(piece: &mut Piece, class: &[u8], area: Area)
    requires class { length class.now ≤ 1 }
    requires room { array_vec_len piece.old + 130 ≤ 848 }
    ensures { array_vec_len piece.new ≤ array_vec_len piece.old + 130 }
{
    push(piece, b"<rect class=\"");
    push(piece, class);
    push(piece, b"\" x=\"");
    push_number(piece, area.x);
    push(piece, b"\" y=\"");
    push_number(piece, area.y);
    push(piece, b"\" width=\"");
    push_number(piece, area.width);
    push(piece, b"\" height=\"");
    push_number(piece, area.height);
    push(piece, b"\"/>\n");
}

/// The beginning of a text of a class, whose name has one letter.
pub fn push_text(piece: &mut Piece, class: &[u8], x: u64, y: u64)
    requires class { length class.now ≤ 1 }
    requires room { array_vec_len piece.old + 70 ≤ 848 }
    ensures { array_vec_len piece.new ≤ array_vec_len piece.old + 70 }
{
    push(piece, b"<text class=\"");
    push(piece, class);
    push(piece, b"\" x=\"");
    push_number(piece, x);
    push(piece, b"\" y=\"");
    push_number(piece, y);
    push(piece, b"\">");
}

/// A dot.
pub fn push_dot(piece: &mut Piece, x: u64, y: u64)
    requires { array_vec_len piece.old + 80 ≤ 848 }
    ensures { array_vec_len piece.new ≤ array_vec_len piece.old + 80 }
{
    push(piece, b"<circle class=\"k\" cx=\"");
    push_number(piece, x);
    push(piece, b"\" cy=\"");
    push_number(piece, y);
    push(piece, b"\" r=\"4\"/>\n");
}
