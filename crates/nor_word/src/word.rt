ghost use Rattle.std.proofs.Common.{lit≤, refl};
ghost use denote.Param.{layout};
ghost use prog.Memory.{size};
ghost use Rattle.std.specs.Prelude.{◌≡◌, ◌<◌, ◌≤◌, ◌↔◌, ℕ, List, IsTrue, length, slice_index, slice_set, replicate, bit_and};
ghost use Rattle.std.specs.Int.{w8, w16, w32, w64, to_le_bytes};
ghost use Rattle.nor_word.specs.LowBytes.{size_of_bytes, small_bytes};
ghost use Rattle.nor_word.specs.Word.{is_width};

/// A word of the bus, seen as its bytes, the lowest first.
///
/// [`equals`](BusWord::equals) is how the trait says that two words are the same exactly where all
/// their bytes are. [`and`](BusWord::and) is written and proved once, for every width.
pub trait BusWord: Copy + Eq + Drop {
    ghost bytes: { Self → List ℕ };

    ghost WIDTH: { ℕ };

    /// How many bytes the word has: 1, 2, 4 or 8.
    const WIDTH: u8;

    /// Byte `k`, counted from the lowest.
    fn byte(self, k: u8) -> u8
        requires { k < WIDTH }
        ensures { result ≡ slice_index (bytes self) k };

    /// The word with another byte `k`.
    fn with_byte(self, k: u8, v: u8) -> Self
        requires { k < WIDTH }
        ensures { bytes result ≡ slice_set (bytes self) k v };

    /// The word that has `v` in every byte.
    fn splat(v: u8) -> Self
        ensures { bytes result ≡ replicate WIDTH v };

    /// Whether the words are the same, which they are exactly where all their bytes are.
    fn equals(self, other: Self) -> bool
        ensures { IsTrue result ↔ (bytes self ≡ bytes other) };

    ghost wide: { (w : Self) → length (bytes w) ≡ WIDTH };

    ghost sized: { IsTrue (is_width WIDTH) };

    ghost narrow: { WIDTH ≤ 8 };

    // It takes at most 8 bytes of memory.
    ghost compact: { size (layout Self.row) ≤ 8 };

    ghost small: { (w : Self) (k : ℕ) → slice_index (bytes w) k < 256 };

    /// AND, byte by byte.
    final fn and(self, other: Self) -> Self
        ensures { (k : ℕ) → slice_index (bytes result) k
            ≡ bit_and (slice_index (bytes self) k) (slice_index (bytes other) k) }
    {
        let mut word = self;
        for k in 0..Self::WIDTH {
            word = word.with_byte(k, self.byte(k) & other.byte(k));
        }
        word
    }
}

impl BusWord for u8 {
    ghost bytes = { to_le_bytes w8 };

    ghost WIDTH = { 1 };

    const WIDTH: u8 = 1;

    fn byte(self, k: u8) -> u8 {
        self.to_le_bytes()[k as usize]
    }

    fn with_byte(self, k: u8, v: u8) -> Self {
        let mut bytes = self.to_le_bytes();
        bytes[k as usize] = v;
        u8::from_le_bytes(bytes)
    }

    fn splat(v: u8) -> Self {
        u8::from_le_bytes([v; 1])
    }

    fn equals(self, other: Self) -> bool {
        self == other
    }

    ghost wide = { size_of_bytes 0 1 };

    ghost sized = { refl };

    ghost narrow = { lit≤ tt };

    ghost compact = { lit≤ tt };

    ghost small = { small_bytes 0 1 };
}

impl BusWord for u16 {
    ghost bytes = { to_le_bytes w16 };

    ghost WIDTH = { 2 };

    const WIDTH: u8 = 2;

    fn byte(self, k: u8) -> u8 {
        self.to_le_bytes()[k as usize]
    }

    fn with_byte(self, k: u8, v: u8) -> Self {
        let mut bytes = self.to_le_bytes();
        bytes[k as usize] = v;
        u16::from_le_bytes(bytes)
    }

    fn splat(v: u8) -> Self {
        u16::from_le_bytes([v; 2])
    }

    fn equals(self, other: Self) -> bool {
        self == other
    }

    ghost wide = { size_of_bytes 0 2 };

    ghost sized = { refl };

    ghost narrow = { lit≤ tt };

    ghost compact = { lit≤ tt };

    ghost small = { small_bytes 0 2 };
}

impl BusWord for u32 {
    ghost bytes = { to_le_bytes w32 };

    ghost WIDTH = { 4 };

    const WIDTH: u8 = 4;

    fn byte(self, k: u8) -> u8 {
        self.to_le_bytes()[k as usize]
    }

    fn with_byte(self, k: u8, v: u8) -> Self {
        let mut bytes = self.to_le_bytes();
        bytes[k as usize] = v;
        u32::from_le_bytes(bytes)
    }

    fn splat(v: u8) -> Self {
        u32::from_le_bytes([v; 4])
    }

    fn equals(self, other: Self) -> bool {
        self == other
    }

    ghost wide = { size_of_bytes 0 4 };

    ghost sized = { refl };

    ghost narrow = { lit≤ tt };

    ghost compact = { lit≤ tt };

    ghost small = { small_bytes 0 4 };
}

impl BusWord for u64 {
    ghost bytes = { to_le_bytes w64 };

    ghost WIDTH = { 8 };

    const WIDTH: u8 = 8;

    fn byte(self, k: u8) -> u8 {
        self.to_le_bytes()[k as usize]
    }

    fn with_byte(self, k: u8, v: u8) -> Self {
        let mut bytes = self.to_le_bytes();
        bytes[k as usize] = v;
        u64::from_le_bytes(bytes)
    }

    fn splat(v: u8) -> Self {
        u64::from_le_bytes([v; 8])
    }

    fn equals(self, other: Self) -> bool {
        self == other
    }

    ghost wide = { size_of_bytes 0 8 };

    ghost sized = { refl };

    ghost narrow = { lit≤ tt };

    ghost compact = { lit≤ tt };

    ghost small = { small_bytes 0 8 };
}
