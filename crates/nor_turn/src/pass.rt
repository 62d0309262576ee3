//! The right to take turns.
ghost use Rattle.std.specs.Prelude.{◌≡◌};

use crate::stands::Stands;
use crate::view::View;
use atomic_table::Seat;
use std::marker::Model;

/// The right to take turns at one lock, for one thread at a time.
///
/// Contracts see it as a `PassView` of `specs/Passes.antt`: its name, the front that it has seen,
/// its share and room, its ticket, whether it has the turn and at which front, and how often it
/// looked at SERVING and what it found there last.
///
/// A pass that is dropped keeps its share, so the lock can't be closed then.
#[derive(Drop)]
pub struct Pass<V: Stands> {
    pub(crate) seat: Seat<Option<V>, View<V, V::Entry>>,
    pub(crate) share: u32,
    pub(crate) room: u64,
    // The word that it drew, while it has a ticket.
    pub(crate) ticket: u64,
}

impl<V: Stands> Model for Pass<V> {
    ghost use Rattle.nor_turn.specs.Passes.{PassView};

    ghost Value = { PassView V V.Entry };

    ghost use Rattle.nor_turn.specs.Inside.{pass_view, Agrees};

    ghost view = { λ p. pass_view p.seat.table_id p.seat.me.0 };

    ghost invariant = { λ p. Agrees p.seat.me p.share p.room p.ticket };
}

impl<V: Stands> Pass<V> {
    /// Its share of the right to pass on turns, of which all passes of a lock have 2^20 together.
    /// A pass is split off only where this is at least 2.
    pub fn share(&self) -> u32
        ensures { result ≡ self.now.share }
    {
        self.share
    }

    /// How many entries it may still make. All passes of a lock may make 2^62 together.
    pub fn room(&self) -> u64
        ensures { result ≡ self.now.room }
    {
        self.room
    }
}
