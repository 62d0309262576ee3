//! A poll of either set tells each lane by itself.

use crate::words::{TWO_CHIPS, reads, settle, two_chips};
use nor_amd::Amd;
use nor_bus::{Bus, SimBank, write_code, write_word};
use nor_cell::Set;
use nor_intel::Intel;
use nor_poll::{Broke, LaneState, Lanes, Seen, Watch, data_poll, status_poll, toggle_poll};
use nor_samples::{Made, WEAK_PLACE};
use std::process::Abort;
use std::test::Fail;

// Begins to program a word of zeros by a set's own cycles.
fn begins<C: Made>(rt: &impl Abort, bank: &mut SimBank<u32, C>, at: u32) {
    let codes: &[(u32, u8)] = match C::SET {
        Set::Intel => &[(0, 0x40)],
        Set::Amd => &[(0x555, 0xAA), (0x2AA, 0x55), (0x555, 0xA0)],
    };
    for (address, code) in codes {
        assert!(rt; write_code::<u32, SimBank<u32, C>>(bank, *address, *code).is_ok());
    }
    assert!(rt; write_word::<u32, SimBank<u32, C>>(bank, at, 0).is_ok());
}

#[test]
fn a_status_poll_tells_each_lane_by_itself(rt: HostRuntime) -> Result<(), Fail> {
    let mut bank = two_chips::<Intel>(rt.alloc(), None, Some(1))?;
    begins(&rt, &mut bank, 0);
    for (first, cycles) in [(Seen::Working, 3), (Seen::Working, 4), (Seen::Ready, 5)] {
        let lanes = [first, Seen::Working, Seen::Ready, Seen::Ready];
        let watch = status_poll(&mut bank, TWO_CHIPS, 0);
        assert_eq!(rt; watch, Ok(Watch { lanes }));
        assert_eq!(rt; bank.cycles(), cycles);
    }
    Ok(())
}

#[test]
fn a_toggle_poll_tells_each_lane_by_itself(rt: HostRuntime) -> Result<(), Fail> {
    let mut bank = two_chips::<Amd>(rt.alloc(), Some(0), Some(1))?;
    let at = WEAK_PLACE / 2;
    begins(&rt, &mut bank, at);
    let time = Seen::Broken(Broke::Time);
    for (first, cycles) in [(Seen::Working, 6), (time, 8), (time, 10)] {
        let lanes = [first, Seen::Working, Seen::Ready, Seen::Ready];
        let watch = toggle_poll(&mut bank, TWO_CHIPS, at);
        assert_eq!(rt; watch, Ok(Watch { lanes }));
        assert_eq!(rt; bank.cycles(), cycles);
    }
    Ok(())
}

#[test]
fn a_data_poll_tells_each_lane_by_itself(rt: HostRuntime) -> Result<(), Fail> {
    let mut bank = two_chips::<Amd>(rt.alloc(), Some(1), None)?;
    let at = WEAK_PLACE / 2;
    begins(&rt, &mut bank, at);
    let time = Seen::Broken(Broke::Time);
    for (lanes, cycles) in [
        ([Seen::Working, Seen::Working], 6),
        ([Seen::Ready, time], 8),
    ] {
        let lanes = [lanes[0], lanes[1], Seen::Ready, Seen::Ready];
        let watch = data_poll(&mut bank, TWO_CHIPS, at, 0);
        assert_eq!(rt; watch, Ok(Watch { lanes }));
        assert_eq!(rt; bank.cycles(), cycles);
    }
    // a broken lane takes the reset alone
    let lanes = Lanes {
        lanes: [LaneState::Finished; 4],
    };
    assert_eq!(rt; settle(Set::Amd, &mut bank, TWO_CHIPS, lanes), Ok(()));
    assert_eq!(rt; bank.cycles(), 9);
    reads(&rt, &mut bank, at, 0x0F0F_0000);
    Ok(())
}
