//! Wirings, the place of a byte, and partial words.
use nor_cell::Device::{X8, X16, X16Byte};
use nor_cell::{Geometry, make_geometry};
use nor_lane::{candidates, join, pad, split};
use nor_word::BusWord;
use std::process::Abort;
use std::test::Fail;

// The candidates of a word are these lanes of these devices.
fn tries<W: BusWord>(rt: &impl Abort, wirings: &[(u8, nor_cell::Device)]) {
    let tried = candidates(W::WIDTH);
    assert_eq!(rt; tried.len(), wirings.len());
    for (geometry, (lanes, device)) in tried.iter().zip(wirings) {
        assert_eq!(rt; geometry.lanes, *lanes);
        assert_eq!(rt; geometry.device, *device);
    }
}

#[test]
fn nine_wirings_are_tried_in_their_order(rt: HostRuntime) {
    tries::<u8>(&rt, &[(1, X8), (1, X16Byte)]);
    tries::<u16>(&rt, &[(2, X8), (2, X16Byte), (1, X16)]);
    tries::<u32>(&rt, &[(4, X8), (4, X16Byte), (2, X16)]);
    tries::<u64>(&rt, &[(4, X16)]);
}

#[test]
fn bytes_lie_in_the_lanes_in_turn(rt: HostRuntime) -> Result<(), Fail> {
    // width, lanes, device, byte of the bank; its lane, and its place in that chip
    for (width, lanes, device, at, lane, place) in [
        // two chips of eight bits: an odd address, and an odd length
        (2, 2, X8, 3, 1, 1),
        (2, 2, X8, 4, 0, 2),
        (2, 2, X8, 5, 1, 2),
        // four chips of sixteen bits, across the end of a bus word
        (8, 4, X16, 7, 3, 1),
        (8, 4, X16, 8, 0, 2),
        // one chip in byte mode
        (1, 1, X16Byte, 0x1ff, 0, 0x1ff),
        (1, 1, X16Byte, 0x200, 0, 0x200),
        // the last byte of the largest bank
        (8, 4, X16, 0x1fff_ffff, 3, 0x07ff_ffff),
    ] {
        let geometry = make_geometry(width, lanes, device)?;
        assert!(rt; lane < lanes && place < 1 << 27);
        assert_eq!(rt; join(geometry, lane, place), at);
        assert_eq!(rt; split(geometry, at), (lane, place));
    }
    Ok(())
}

#[test]
fn a_partial_word_is_padded_with_ones(rt: HostRuntime) {
    assert_eq!(rt; pad::<u8>(0, &[0x5a]), 0x5a);
    assert_eq!(rt; pad::<u16>(1, &[0x5a]), 0x5aff);
    assert_eq!(rt; pad::<u32>(1, &[0x01, 0x02]), 0xff02_01ff);
    assert_eq!(rt; pad::<u64>(5, &[0x01, 0x02, 0x03]), 0x0302_01ff_ffff_ffff);
    assert_eq!(rt; pad::<u64>(8, &[]), 0xffff_ffff_ffff_ffff);
}
