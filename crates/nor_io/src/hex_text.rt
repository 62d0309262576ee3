ghost use Rattle.std.specs.Prelude.{◌≤◌, length};
ghost use Rattle.hex.specs.Hex.{encode_lower};
ghost use Rattle.nor_io.specs.Puts.{PutsText};

use crate::{Sink, SinkError};

// The most bytes whose hex text is put at once.
const PIECE: usize = 4096;

// The hex text of at most one piece.
fn put_piece<K: Sink>(bytes: &[u8], out: &mut K) -> Result<(), SinkError>
    requires { length bytes.now ≤ 4096 }
    ensures puts { PutsText (encode_lower bytes.now) (K.state out.old) (K.state out.new) result }
    ensures later { (K.state out.old).faults ≤ (K.state out.new).faults }
{
    let mut text = [0u8; 2 * PIECE];
    let whole = &mut text[..2 * bytes.len()];
    hex::encode_to_slice(bytes, whole).unwrap();
    out.put(whole)
}

/// Puts the lower-case hex text of bytes, at most 4,096 of them at a time.
///
/// `Fault` and `NoMemory` come only from the sink. A first part of the text was then put.
pub fn put_hex<K: Sink>(bytes: &[u8], out: &mut K) -> Result<(), SinkError>
    ensures puts { PutsText (encode_lower bytes.now) (K.state out.old) (K.state out.new) result }
    ensures later { (K.state out.old).faults ≤ (K.state out.new).faults }
{
    let mut rest = bytes;
    'pieces: while !rest.is_empty() {
        let (piece, behind) = rest.split_at(rest.len().min(PIECE));
        put_piece(piece, out)?;
        rest = behind;
    }
    Ok(())
}
