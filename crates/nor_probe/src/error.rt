ghost use Rattle.std.specs.Prelude.{◌≡◌};
ghost use Rattle.nor_probe.specs.declared.error.ProbeError.TheVariants.{Query, Off as LostPower};

use nor_bus::Off;
use nor_query::QueryError;

/// Why a bank isn't found.
#[derive(Clone, Copy, Debug, PartialEq, Eq)]
pub enum ProbeError {
    /// No wiring shows `QRY` in every lane.
    NoAnswer,
    /// The lanes' query tables differ. `offset` is the first device word, 0 to 511, at which one
    /// isn't lane 0's, and `lane` the lowest such lane there; `left` is lane 0's byte, `right` its.
    LaneDiffers {
        lane: u8,
        offset: u16,
        left: u8,
        right: u8,
    },
    /// The table that all lanes show is refused.
    Query(QueryError),
    /// A cycle failed: the bus has no power.
    Off,
}

impl From<Off> for ProbeError {
    ghost from_gives = { λ _ e. e ≡ LostPower };

    fn from(_off: Off) -> ProbeError {
        ProbeError::Off
    }
}

impl From<QueryError> for ProbeError {
    ghost from_gives = { λ error e. e ≡ Query error };

    fn from(error: QueryError) -> ProbeError {
        ProbeError::Query(error)
    }
}
