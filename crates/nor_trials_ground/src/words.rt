//! Bus words as bytes and lanes.
use nor_word::{BusWord, lane_get, lane_put};
use std::process::Abort;

// Reads and writes every byte, and clears the high half of each.
fn has_bytes<W: BusWord>(rt: &impl Abort, word: W, bytes: &[u8]) {
    assert_eq!(rt; bytes.len(), usize::from(W::WIDTH));
    let halves = word.and(W::splat(0x0f));
    let mut made = W::splat(0xa5);
    for (k, byte) in bytes.iter().enumerate() {
        assert_eq!(rt; word.byte(k as u8), *byte, "byte {k}");
        assert_eq!(rt; halves.byte(k as u8), *byte & 0x0f, "low half of byte {k}");
        assert!(rt; !made.equals(word), "before byte {k}");
        made = made.with_byte(k as u8, *byte);
    }
    assert!(rt; made.equals(word));
    assert!(rt; made == word);
}

// Reads and writes every lane of `bytes` bytes.
fn has_lanes<W: BusWord>(rt: &impl Abort, word: W, bytes: u8, lanes: &[u16]) {
    assert!(rt; bytes == 1 || bytes == 2);
    let mut made = W::splat(0xa5);
    for (lane, value) in lanes.iter().enumerate() {
        assert!(rt; lane < 8);
        let lane = lane as u8;
        assert!(rt; lane * bytes + bytes <= W::WIDTH);
        assert_eq!(rt; lane_get(word, lane, bytes), *value, "lane {lane}");
        made = lane_put(made, lane, bytes, *value);
    }
    assert!(rt; made == word);
}

#[test]
fn a_word_is_its_bytes_the_lowest_first(rt: HostRuntime) {
    has_bytes(&rt, 0x12u8, &[0x12]);
    has_bytes(&rt, 0x3412u16, &[0x12, 0x34]);
    has_bytes(&rt, 0x7856_3412u32, &[0x12, 0x34, 0x56, 0x78]);
    let bytes = [0x12, 0x34, 0x56, 0x78, 0x9a, 0xbc, 0xde, 0xf0];
    has_bytes(&rt, 0xf0de_bc9a_7856_3412u64, &bytes);
}

#[test]
fn a_lane_is_one_byte_or_two_the_low_one_first(rt: HostRuntime) {
    has_lanes(&rt, 0x12u8, 1, &[0x12]);
    has_lanes(&rt, 0x3412u16, 1, &[0x12, 0x34]);
    has_lanes(&rt, 0x3412u16, 2, &[0x3412]);
    has_lanes(&rt, 0x7856_3412u32, 1, &[0x12, 0x34, 0x56, 0x78]);
    has_lanes(&rt, 0x7856_3412u32, 2, &[0x3412, 0x7856]);
    let lanes = [0x3412, 0x7856, 0xbc9a, 0xf0de];
    has_lanes(&rt, 0xf0de_bc9a_7856_3412u64, 2, &lanes);
    // a lane of one byte takes no high byte
    assert_eq!(rt; lane_put(0x7856_3412u32, 2, 1, 0xabcd), 0x78cd_3412);
}
