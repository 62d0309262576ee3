ghost use Rattle.std.specs.Prelude.{◌≡◌, ◌<◌, ◌≤◌, ◌+◌, ℕ, length, slice_index};

use nor_word::BusWord;

// Programming only clears bits, so this leaves a byte as it is.
const ERASED: u8 = 0xff;

/// The word that has the bytes from its byte `first` on, and 0xFF elsewhere, so that programming it
/// changes no other byte. The bytes lie within the word.
pub fn pad<W: BusWord>(first: u8, bytes: &[u8]) -> W
    requires { first + length bytes.now ≤ W.WIDTH }
    ensures there { (k : ℕ) → k < length bytes.now
        → slice_index (W.bytes result) (first + k) ≡ slice_index bytes.now k }
    ensures before { (k : ℕ) → k < first → slice_index (W.bytes result) k ≡ ERASED }
    ensures after { (k : ℕ) → first + length bytes.now ≤ k → k < W.WIDTH
        → slice_index (W.bytes result) k ≡ ERASED }
{
    let mut word = W::splat(ERASED);
    for (k, byte) in bytes.iter().enumerate() {
        word = word.with_byte(first + k as u8, *byte);
    }
    word
}
