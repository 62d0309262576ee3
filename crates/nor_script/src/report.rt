//! Putting the lines of a report.
ghost use Rattle.std.specs.Prelude.{◌≡◌, ◌+◌, ◌*◌, ◌^◌, ◌≤◌, ◌<◌, ◌++◌, length, codes};
ghost use Rattle.nor_io.specs.Puts.{PutsText};
ghost use Rattle.nor_script.specs.Report.{data_text, op_data, call_front, call_text, reply_part, entry_line, lane_line, lane_lines, count_line, totals_text};

use crate::text::{Text, push, push_number, push_op, push_reply};
use nor_array::{Op, Reply};
use nor_io::{Sink, SinkError, put_hex};

// Bytes as hex text, a dash for none.
fn put_data<K: Sink>(bytes: &[u8], out: &mut K) -> Result<(), SinkError>
    ensures puts { PutsText (data_text bytes.now) (K.state out.old) (K.state out.new) result }
    ensures later { (K.state out.old).faults ≤ (K.state out.new).faults }
{
    match bytes {
        [] => out.put(b"-"),
        _ => put_hex(bytes, out),
    }
}

fn put_op_data<K: Sink>(op: &Op, out: &mut K) -> Result<(), SinkError>
    ensures puts { PutsText (op_data op.now) (K.state out.old) (K.state out.new) result }
    ensures later { (K.state out.old).faults ≤ (K.state out.new).faults }
{
    match op {
        Op::Program { new, .. } => put_data(new.as_slice(), out),
        _ => Ok(()),
    }
}

fn call_front(position: u64, caller: u8, op: &Op) -> Text
    ensures { result.items ≡ call_front position caller op.now }
{
    let mut text = Text::new();
    push_number(&mut text, position);
    push(&mut text, b" ");
    push_number(&mut text, u64::from(caller));
    push(&mut text, b" ");
    push_op(&mut text, op);
    text
}

// The call of an entry.
fn put_call<K: Sink>(out: &mut K, position: u64, caller: u8, op: &Op) -> Result<(), SinkError>
    ensures puts { PutsText (call_text position caller op.now)
        (K.state out.old) (K.state out.new) result }
    ensures later { (K.state out.old).faults ≤ (K.state out.new).faults }
{
    out.put(&call_front(position, caller, op))?;
    put_op_data(op, out)
}

// The data of a read that is done.
fn put_read<K: Sink>(bytes: &[u8], out: &mut K) -> Result<(), SinkError>
    ensures puts { PutsText (codes " -> " ++ (data_text bytes.now ++ codes "\n"))
        (K.state out.old) (K.state out.new) result }
    ensures later { (K.state out.old).faults ≤ (K.state out.new).faults }
{
    out.put(b" -> ")?;
    put_data(bytes, out)?;
    out.put(b"\n")
}

// The reply of an entry, which ends its line.
fn put_reply<K: Sink>(op: &Op, reply: Reply, bytes: &[u8], out: &mut K) -> Result<(), SinkError>
    ensures puts { PutsText (reply_part op.now reply bytes.now)
        (K.state out.old) (K.state out.new) result }
    ensures later { (K.state out.old).faults ≤ (K.state out.new).faults }
{
    if let (Op::Read { .. }, Reply::Done) = (op, reply) {
        return put_read(bytes, out);
    }
    let mut text = Text::new();
    push(&mut text, b" -> ");
    push_reply(&mut text, reply);
    push(&mut text, b"\n");
    out.put(&text)
}

/// Puts the line of an entry: its place in the history from 0, its caller, call and reply, and the
/// data of a read that is done.
///
/// `Fault` and `NoMemory` come only from the sink. A first part of the line was then put.
pub fn put_entry<K: Sink>(
    out: &mut K,
    position: u64,
    caller: u8,
    op: &Op,
    reply: Reply,
    bytes: &[u8],
) -> Result<(), SinkError>
    ensures puts { PutsText (entry_line position caller op.now reply bytes.now)
        (K.state out.old) (K.state out.new) result }
    ensures later { (K.state out.old).faults ≤ (K.state out.new).faults }
{
    put_call(out, position, caller, op)?;
    put_reply(op, reply, bytes, out)
}

fn put_lane<K: Sink>(lane: usize, counters: (u32, u32), out: &mut K) -> Result<(), SinkError>
    ensures puts { PutsText (lane_line lane counters) (K.state out.old) (K.state out.new) result }
    ensures later { (K.state out.old).faults ≤ (K.state out.new).faults }
{
    let (suspends, erases) = counters;
    let mut text = Text::new();
    push(&mut text, b"lane ");
    push_number(&mut text, lane as u64);
    push(&mut text, b" suspends ");
    push_number(&mut text, u64::from(suspends));
    push(&mut text, b" erases ");
    push_number(&mut text, u64::from(erases));
    push(&mut text, b"\n");
    out.put(&text)
}

fn put_lanes<K: Sink>(lanes: &[(u32, u32)], out: &mut K) -> Result<(), SinkError>
    ensures puts { PutsText (lane_lines 0 lanes.now) (K.state out.old) (K.state out.new) result }
    ensures later { (K.state out.old).faults ≤ (K.state out.new).faults }
{
    for (lane, counters) in lanes.iter().enumerate() {
        put_lane(lane, *counters, out)?;
    }
    Ok(())
}

fn put_count<K: Sink>(entries: u64, out: &mut K) -> Result<(), SinkError>
    ensures puts { PutsText (count_line entries) (K.state out.old) (K.state out.new) result }
    ensures later { (K.state out.old).faults ≤ (K.state out.new).faults }
{
    let mut text = Text::new();
    push(&mut text, b"history ");
    push_number(&mut text, entries);
    push(&mut text, b"\n");
    out.put(&text)
}

/// Puts the end of a report: for each lane, how often an erase was suspended and how many erases
/// there were, and then the number of entries.
///
/// `Fault` and `NoMemory` come only from the sink. A first part of the text was then put.
pub fn put_totals<K: Sink>(out: &mut K, lanes: &[(u32, u32)], entries: u64) -> Result<(), SinkError>
    ensures puts { PutsText (totals_text lanes.now entries)
        (K.state out.old) (K.state out.new) result }
    ensures later { (K.state out.old).faults ≤ (K.state out.new).faults }
{
    put_lanes(lanes, out)?;
    put_count(entries, out)
}
