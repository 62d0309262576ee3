//! Putting a summary.
ghost use Rattle.std.specs.Prelude.{◌≡◌, ◌<◌, ◌≤◌, ◌+◌, ◌*◌, ◌++◌, [], length, decimal, codes, slice_index_or};
ghost use Rattle.arrayvec.specs.ArrayVec.{array_vec_len};
ghost use Rattle.nor_io.specs.Puts.{PutsText};
ghost use Rattle.nor_drill.specs.Summary.{words, count_lines, summary_text};

use crate::tally::{Tally, WORDS};
use arrayvec::ArrayVec;
use itoa::Buffer;
use nor_io::{Sink, SinkError};

type Text = ArrayVec<u8, 1024>;

fn push(text: &mut Text, bytes: &[u8])
    requires { array_vec_len text.old + length bytes.now ≤ 1024 }
    ensures items { text.new.items ≡ text.old.items ++ bytes.now }
    ensures len { array_vec_len text.new ≡ array_vec_len text.old + length bytes.now }
{
    text.try_extend_from_slice(bytes).unwrap();
}

fn push_number(text: &mut Text, n: u64)
    requires { array_vec_len text.old + 20 ≤ 1024 }
    ensures items { text.new.items ≡ text.old.items ++ decimal n }
    ensures len { array_vec_len text.new ≤ array_vec_len text.old + 20 }
{
    push(text, Buffer::new().format(n).as_bytes());
}

// The word of a summary in a place.
fn word_at(place: usize) -> &'static [u8]
    requires { place < 17 }
    ensures word { result.now ≡ slice_index_or words place [] }
    ensures short { length result.now ≤ 12 }
{
    match place {
        0 => b"done",
        1 => b"read",
        2 => b"opened",
        3 => b"erased",
        4 => b"yes",
        5 => b"no",
        6 => b"out-of-range",
        7 => b"too-long",
        8 => b"busy",
        9 => b"occupied",
        10 => b"locked",
        11 => b"no-locks",
        12 => b"nothing",
        13 => b"not-yet",
        14 => b"failed",
        15 => b"off",
        _ => b"stuck",
    }
}

fn push_count(text: &mut Text, word: &[u8], count: u64)
    requires { array_vec_len text.old + length word.now + 22 ≤ 1024 }
    ensures items { text.new.items ≡ text.old.items ++ (word.now ++ codes " " ++ decimal count ++ codes "\n") }
    ensures len { array_vec_len text.new ≤ array_vec_len text.old + length word.now + 22 }
{
    push(text, word);
    push(text, b" ");
    push_number(text, count);
    push(text, b"\n");
}

fn push_counts(text: &mut Text, tally: &Tally)
    requires { array_vec_len text.old ≤ 64 }
    ensures items { text.new.items ≡ text.old.items ++ count_lines words tally.now }
    ensures len { array_vec_len text.new ≤ array_vec_len text.old + 17 * 34 }
{
    for place in 0..WORDS {
        push_count(text, word_at(place), tally.count(place));
    }
}

/// Puts the summary of the drill of a number: how many entries count under each word, and the sum of the
/// bank's bytes.
///
/// `Fault` and `NoMemory` come only from the sink. A first part of the text was then put.
pub fn put_summary<K: Sink>(out: &mut K, n: u32, tally: &Tally, sum: u64) -> Result<(), SinkError>
    ensures puts { PutsText (summary_text n tally.now sum)
        (K.state out.old) (K.state out.new) result }
    ensures later { (K.state out.old).faults ≤ (K.state out.new).faults }
{
    let mut text = Text::new();
    push(&mut text, b"drill ");
    push_number(&mut text, u64::from(n));
    push(&mut text, b"\nlines 4104\n");
    push_counts(&mut text, tally);
    push(&mut text, b"sum ");
    push_number(&mut text, sum);
    push(&mut text, b"\n");
    out.put(&text)
}
