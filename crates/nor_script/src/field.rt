//! The parts of a text between bytes that end them: a text's lines, a line's fields.
ghost use Rattle.std.specs.Prelude.{◌≡◌, ◌+◌, ◌==◌, ◌<◌, ◌^◌, length, drop};
ghost use Rattle.std.specs.List.{before_first, position_or_len};
ghost use Rattle.nor_script.specs.Grammar.{fields, field_of};

// The place of the first such byte; where there is none, the length.
pub fn end_of(text: &[u8], end: u8) -> usize
    ensures { result ≡ position_or_len (λ b. b == end) text.now }
{
    for (k, byte) in text.iter().enumerate() {
        if *byte == end {
            return k;
        }
    }
    text.len()
}

// What stands behind a place, nothing behind the length.
pub fn behind(text: &[u8], place: usize) -> &[u8]
    ensures { result.now ≡ drop (place + 1) text.now }
{
    if place < text.len() {
        &text[place + 1..]
    } else {
        &[]
    }
}

// How many fields a line has.
pub fn count_fields(line: &[u8]) -> usize
    requires { length line.now < 2 ^ 32 }
    ensures { result ≡ length (fields line.now) }
{
    let mut spaces = 0;
    for byte in line {
        if *byte == b' ' {
            spaces += 1;
        }
    }
    spaces + 1
}

// The field in a place, from 0; an empty one where the line has fewer.
pub fn field(line: &[u8], k: usize) -> &[u8]
    ensures { result.now ≡ field_of line.now k }
{
    let mut rest = line;
    for _ in 0..k {
        rest = behind(rest, end_of(rest, b' '));
    }
    &rest[..end_of(rest, b' ')]
}
