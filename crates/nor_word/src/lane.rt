ghost use Rattle.std.specs.Prelude.{◌≡◌, ◌≢◌, ◌<◌, ◌≤◌, ◌+◌, ◌*◌, ◌^◌, ◌%◌, ℕ};
ghost use Rattle.nor_word.specs.Word.{lane_of};

use crate::BusWord;

/// The value of a lane of one or two bytes. The high byte of a one byte lane reads 0.
pub fn lane_get<W: BusWord>(word: W, lane: u8, bytes: u8) -> u16
    requires one_or_two { (1 ≤ bytes) × (bytes ≤ 2) }
    requires within { lane * bytes + bytes ≤ W.WIDTH }
    ensures value { result ≡ lane_of bytes (W.bytes word) lane }
    ensures fits { result < 256 ^ bytes }
{
    if bytes == 1 {
        u16::from(word.byte(lane))
    } else {
        u16::from_le_bytes([word.byte(2 * lane), word.byte(2 * lane + 1)])
    }
}

/// The word with another value in a lane of one or two bytes. For one byte the value's high byte
/// is dropped.
pub fn lane_put<W: BusWord>(word: W, lane: u8, bytes: u8, value: u16) -> W
    requires one_or_two { (1 ≤ bytes) × (bytes ≤ 2) }
    requires within { lane * bytes + bytes ≤ W.WIDTH }
    ensures there { lane_of bytes (W.bytes result) lane ≡ value % 256 ^ bytes }
    ensures others { (c : ℕ) → c ≢ lane
        → lane_of bytes (W.bytes result) c ≡ lane_of bytes (W.bytes word) c }
{
    let [low, high] = value.to_le_bytes();
    if bytes == 1 {
        word.with_byte(lane, low)
    } else {
        word.with_byte(2 * lane, low).with_byte(2 * lane + 1, high)
    }
}
