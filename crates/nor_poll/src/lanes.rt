//! What the calls of both command sets say of a bank's lanes.
ghost use Rattle.std.specs.Prelude.{◌≡◌};
ghost use Rattle.nor_poll.specs.declared.lanes.Halt.TheVariants.{Off as LostPower};

use nor_bus::Off;

/// Why a call was given up.
#[derive(Clone, Copy, Debug, PartialEq, Eq)]
pub enum Halt {
    /// A cycle failed.
    Off,
    /// The lane's chip was read working as often as the call allows.
    Stuck { lane: u8 },
}

impl From<Off> for Halt {
    ghost from_gives = { λ _ halt. halt ≡ LostPower };

    fn from(_off: Off) -> Halt {
        Halt::Off
    }
}

/// A set of lanes: bit `c` is set where it has lane `c`.
#[derive(Clone, Copy, Debug, PartialEq, Eq)]
pub struct LaneSet {
    pub bits: u8,
}

/// Where a lane is in an erase.
#[derive(Clone, Copy, Debug, PartialEq, Eq)]
pub enum LaneState {
    Running,
    Suspended,
    Finished,
    Broken,
}

/// Where each lane is in an erase.
#[derive(Clone, Copy, Debug, PartialEq, Eq)]
pub struct Lanes {
    pub lanes: [LaneState; 4],
}
