//! The polls of both sets behind one call.
ghost use Rattle.std.specs.Prelude.{◌≡◌, ◌<◌, ◌≤◌, ℕ, IsTrue, IfOk, OnOk, OnErr};
ghost use Rattle.nor_cell.specs.Wiring.{is_wiring};
ghost use Rattle.nor_bus.specs.Bus.{units_of, lane, lanes_of};
ghost use Rattle.nor_bus.specs.Driven.{IsOwn};
ghost use Rattle.nor_poll.specs.Reads.{ReadBy, DarkensReading};
ghost use Rattle.nor_poll.specs.Told.{seen_at, ToldAt};
ghost use Rattle.nor_poll.specs.Polled.{Answers, working_reads, most_reads, InTime, viewed, set_polling as polling_of};

use crate::data::data_poll;
use crate::status::{erase_poll, status_poll};
use crate::toggle::toggle_poll;
use crate::{Seen, Watch};
use nor_bus::{Bus, Off};
use nor_cell::{Geometry, Set};
use nor_word::BusWord;

/// How a bank is polled.
#[derive(Clone, Copy, Debug, PartialEq, Eq)]
pub enum Polling<W> {
    /// By its status, as set 0001 is.
    Status,
    /// By its status in an erase, in which the error of a program tells nothing.
    EraseStatus,
    /// By what toggles, as set 0002 is.
    Toggle,
    /// By the word that it programs, as set 0002 may be.
    Data(W),
}

/// How a set is polled.
pub fn set_polling<W: BusWord>(set: Set) -> Polling<W>
    ensures { result ≡ polling_of set }
{
    match set {
        Set::Intel => Polling::Status,
        Set::Amd => Polling::Toggle,
    }
}

/// One poll, of a kind that the lanes answer: `Answers` in `specs/Polled.antt` says which do.
pub fn poll<W: BusWord, B: Bus<W>>(
    bus: &mut B,
    g: Geometry,
    at: u32,
    how: Polling<W>,
) -> Result<Watch, Off>
    requires wiring { IsTrue (is_wiring W.WIDTH g.lanes g.device) }
    ensures told { IfOk result (λ watch. IsOwn W.WIDTH g (B.state bus.old)
        → at < units_of (B.state bus.old) → (c : ℕ) → c < lanes_of (B.state bus.old)
        → Answers W.bytes how at c (lane (B.state bus.old) c)
        → ToldAt at (lane (B.state bus.old) c) (seen_at watch.lanes c)
        (viewed how (lane (B.state bus.new) c))) }
    ensures past { IfOk result (λ watch. (c : ℕ) → g.lanes ≤ c
        → seen_at watch.lanes c ≡ Seen.Ready) }
    ensures went { OnOk result (ReadBy 1 (most_reads how) (B.state bus.old) (B.state bus.new)) }
    ensures short { IfOk result (λ watch. (c : ℕ) → seen_at watch.lanes c ≡ Seen.Working
        → ReadBy (working_reads how) (working_reads how) (B.state bus.old) (B.state bus.new)) }
    ensures late { OnOk result (IsOwn W.WIDTH g (B.state bus.old) → at < units_of (B.state bus.old)
        → ((c : ℕ) → c < lanes_of (B.state bus.old) → Answers W.bytes how at c (lane (B.state bus.old) c))
        → InTime how (B.state bus.old) (B.state bus.new)) }
    ensures dark { OnErr result (DarkensReading (most_reads how) (B.state bus.old) (B.state bus.new)) }
    ensures units { units_of (B.state bus.new) ≡ units_of (B.state bus.old) }
{
    match how {
        Polling::Status => status_poll::<W, B>(bus, g, at),
        Polling::EraseStatus => erase_poll::<W, B>(bus, g, at),
        Polling::Toggle => toggle_poll::<W, B>(bus, g, at),
        Polling::Data(datum) => data_poll::<W, B>(bus, g, at, datum),
    }
}
