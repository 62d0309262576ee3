//! The text of a line, all but its data.
ghost use Rattle.std.specs.Prelude.{◌≡◌, ◌+◌, ◌<◌, ◌≤◌, ◌++◌, ◌∷◌, [], length, drop, decimal, false};
ghost use Rattle.std.specs.Fmt.{digits, digit_glyph};
ghost use Rattle.arrayvec.specs.ArrayVec.{array_vec_len};
ghost use Rattle.hex.specs.Hex.{encode_lower};
ghost use Rattle.nor_script.specs.Report.{address, op_front, yes_or_no, halt_text, plain_reply};

use arrayvec::ArrayVec;
use itoa::Buffer;
use nor_array::{Halted, Op, Reply};

/// The text of a line, without a program's or a read's data.
pub type Text = ArrayVec<u8, 256>;

// The most digits of a number in any base.
const DIGITS: usize = 64;

pub fn push(text: &mut Text, bytes: &[u8])
    requires { array_vec_len text.old + length bytes.now ≤ 256 }
    ensures items { text.new.items ≡ text.old.items ++ bytes.now }
    ensures len { array_vec_len text.new ≡ array_vec_len text.old + length bytes.now }
{
    text.try_extend_from_slice(bytes).unwrap();
}

pub fn push_number(text: &mut Text, n: u64)
    requires { array_vec_len text.old + 20 ≤ 256 }
    ensures items { text.new.items ≡ text.old.items ++ decimal n }
    ensures len { array_vec_len text.new ≤ array_vec_len text.old + 20 }
{
    push(text, Buffer::new().format(n).as_bytes());
}

// A word, and a number behind it.
fn push_named(text: &mut Text, word: &[u8], n: u32)
    requires { array_vec_len text.old + length word.now + 20 ≤ 256 }
    ensures items { text.new.items ≡ text.old.items ++ word.now ++ decimal n }
    ensures len { array_vec_len text.new ≤ array_vec_len text.old + length word.now + 20 }
{
    push(text, word);
    push_number(text, u64::from(n));
}

fn hex_digit(value: u32) -> u8
    requires { value < 16 }
    ensures { result ≡ digit_glyph false value }
{
    if value < 10 {
        b'0' + value as u8
    } else {
        b'a' + (value as u8 - 10)
    }
}

// Writes the hex digits of a number at the end of the buffer, and returns where they start.
fn write_hex(n: u32, buffer: &mut [u8; DIGITS]) -> usize
    ensures bound { result ≤ 64 }
    ensures value { drop result buffer.new ≡ digits 16 false n }
{
    let mut start = DIGITS;
    let mut rest = n;
    while start > 0 {
        start -= 1;
        buffer[start] = hex_digit(rest % 16);
        rest /= 16;
        if rest == 0 {
            break;
        }
    }
    start
}

fn push_address(text: &mut Text, n: u32)
    requires { array_vec_len text.old + 66 ≤ 256 }
    ensures items { text.new.items ≡ text.old.items ++ address n }
    ensures len { array_vec_len text.new ≤ array_vec_len text.old + 66 }
{
    let mut buffer = [0; DIGITS];
    let start = write_hex(n, &mut buffer);
    push(text, b"0x");
    push(text, &buffer[start..]);
}

fn push_mask(text: &mut Text, mask: u8)
    requires { array_vec_len text.old + 2 ≤ 256 }
    ensures { text.new.items ≡ text.old.items ++ encode_lower (mask ∷ []) }
{
    let mut digits = [0; 2];
    hex::encode_to_slice([mask], &mut digits).unwrap();
    push(text, &digits);
}

fn push_read(text: &mut Text, at: u32, len: u32)
    requires { array_vec_len text.old ≤ 64 }
    ensures { text.new.items ≡ text.old.items ++ op_front (Op.Read at len) }
{
    push(text, b"read ");
    push_address(text, at);
    push_named(text, b" ", len);
}

fn push_program(text: &mut Text, at: u32)
    requires { array_vec_len text.old ≤ 64 }
    ensures { text.new.items ≡ text.old.items ++ op_front (Op.Program at []) }
{
    push(text, b"program ");
    push_address(text, at);
    push(text, b" ");
}

fn push_cut(text: &mut Text, after: u32, mask: u8)
    requires { array_vec_len text.old ≤ 64 }
    ensures { text.new.items ≡ text.old.items ++ op_front (Op.Arm after mask) }
{
    push_named(text, b"cut ", after);
    push(text, b" 0x");
    push_mask(text, mask);
}

/// A call without its data.
pub fn push_op(text: &mut Text, op: &Op)
    requires { array_vec_len text.old ≤ 64 }
    ensures { text.new.items ≡ text.old.items ++ op_front op.now }
{
    match op {
        Op::Read { at, len } => push_read(text, *at, *len),
        Op::Program { at, .. } => push_program(text, *at),
        Op::EraseOpen { block } => push_named(text, b"open ", *block),
        Op::EraseAll => push(text, b"open-all"),
        Op::Poll => push(text, b"poll"),
        Op::Lock { block } => push_named(text, b"lock ", *block),
        Op::Unlock { block } => push_named(text, b"unlock ", *block),
        Op::IsLocked { block } => push_named(text, b"locked ", *block),
        Op::Arm { after, mask } => push_cut(text, *after, *mask),
        Op::PowerOn => push(text, b"reboot"),
    }
}

fn push_failed(text: &mut Text, from: u32, to: u32, lanes: u8)
    requires { array_vec_len text.old ≤ 64 }
    ensures items { text.new.items ≡ text.old.items ++ plain_reply (Reply.Failed from to lanes) }
    ensures len { array_vec_len text.new < 256 }
{
    push(text, b"failed ");
    push_address(text, from);
    push(text, b" ");
    push_address(text, to);
    push_named(text, b" lanes ", u32::from(lanes));
}

fn push_halt(text: &mut Text, halted: Halted)
    requires { array_vec_len text.old ≤ 64 }
    ensures items { text.new.items ≡ text.old.items ++ halt_text halted }
    ensures len { array_vec_len text.new < 256 }
{
    match halted {
        Halted::Off { after } => push_named(text, b"off ", after),
        Halted::Stuck { lane } => push_named(text, b"stuck ", u32::from(lane)),
    }
}

/// A reply, but for a read that is done.
pub fn push_reply(text: &mut Text, reply: Reply)
    requires { array_vec_len text.old ≤ 64 }
    ensures items { text.new.items ≡ text.old.items ++ plain_reply reply }
    ensures len { array_vec_len text.new < 256 }
{
    match reply {
        Reply::Done => push(text, b"done"),
        Reply::Opened => push(text, b"opened"),
        Reply::Erased => push(text, b"erased"),
        Reply::Bit(true) => push(text, b"yes"),
        Reply::Bit(false) => push(text, b"no"),
        Reply::OutOfRange => push(text, b"out-of-range"),
        Reply::TooLong => push(text, b"too-long"),
        Reply::Busy { block } => push_named(text, b"busy ", block),
        Reply::Occupied { block } => push_named(text, b"occupied ", block),
        Reply::Locked { block } => push_named(text, b"locked ", block),
        Reply::NoLocks => push(text, b"no-locks"),
        Reply::NoChipErase => push(text, b"no-chip-erase"),
        Reply::Nothing => push(text, b"nothing"),
        Reply::NotYet => push(text, b"not-yet"),
        Reply::Failed { from, to, lanes } => push_failed(text, from, to, lanes),
        Reply::Halted(halted) => push_halt(text, halted),
    }
}
