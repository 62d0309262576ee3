ghost use Rattle.std.specs.Prelude.{◌≡◌, ◌≢◌, ◌<◌, ◌≤◌, ℕ, IsTrue, IfOk, IfErr, OnOk, IfSome, IsNone};
ghost use Rattle.nor_cell.specs.Wiring.{is_wiring};
ghost use Rattle.nor_bus.specs.Bus.{units_of, lane, lanes_of};
ghost use Rattle.nor_bus.specs.Driven.{IsOwn, AllLanes};
ghost use Rattle.nor_poll.specs.Reads.{ReadBy};
ghost use Rattle.nor_poll.specs.Told.{seen_at};
ghost use Rattle.nor_poll.specs.Polled.{Answers};
ghost use Rattle.nor_poll.specs.Wait.{AllAnswer, IsReady, WorksFor, WaitHalts, wait_most, wait_prompt};
ghost use Rattle.nor_poll.specs.declared.watch.Seen.TheVariants.{Ready, Working};

use crate::polling::poll;
use crate::{Halt, Polling, Seen, Watch};
use nor_bus::Bus;
use nor_cell::Geometry;
use nor_word::BusWord;

// The lowest lane that is told to work.
fn first_working(watch: &Watch) -> Option<u8>
    ensures none { IsNone result → (c : ℕ) → c < 4 → seen_at watch.now.lanes c ≢ Working }
    ensures some { IfSome result (λ k. (k < 4) × (seen_at watch.now.lanes k ≡ Working)
        × ((c : ℕ) → c < k → seen_at watch.now.lanes c ≢ Working)) }
{
    for lane in 0..4 {
        if let Seen::Working = watch.lanes[lane] {
            return Some(lane as u8);
        }
    }
    None
}

/// Polls until no lane is told to work, at most `limit` times, whatever the lanes do.
///
/// It gives what the last poll told. `Stuck` names the lowest lane that still worked at the last of
/// `limit` polls, `Off` comes only where a cycle failed.
pub fn wait_ready<W: BusWord, B: Bus<W>>(
    bus: &mut B,
    g: Geometry,
    at: u32,
    how: Polling<W>,
    limit: u32,
) -> Result<Watch, Halt>
    requires wiring { IsTrue (is_wiring W.WIDTH g.lanes g.device) }
    ensures ready { IfOk result (λ watch. IsOwn W.WIDTH g (B.state bus.old)
        → at < units_of (B.state bus.old) → (c : ℕ) → c < lanes_of (B.state bus.old)
        → Answers W.bytes how at c (lane (B.state bus.old) c)
        → IsReady how at (lane (B.state bus.old) c) (seen_at watch.lanes c) (lane (B.state bus.new) c)) }
    ensures past { IfOk result (λ watch. (c : ℕ) → g.lanes ≤ c → seen_at watch.lanes c ≡ Ready) }
    ensures went { OnOk result (ReadBy 1 (wait_most how limit) (B.state bus.old) (B.state bus.new)) }
    ensures prompt { OnOk result (IsOwn W.WIDTH g (B.state bus.old)
        → at < units_of (B.state bus.old) → AllAnswer W.bytes how at (B.state bus.old) → (most : ℕ)
        → AllLanes (WorksFor most) (B.state bus.old)
        → ReadBy 1 (wait_prompt how most) (B.state bus.old) (B.state bus.new)) }
    ensures halts { IfErr result (WaitHalts W.WIDTH W.bytes g how at limit (B.state bus.old) (B.state bus.new)) }
    ensures units { units_of (B.state bus.new) ≡ units_of (B.state bus.old) }
{
    let mut working = 0;
    for _ in 0..limit {
        let watch = poll::<W, B>(bus, g, at, how)?;
        match first_working(&watch) {
            Some(lane) => working = lane,
            None => return Ok(watch),
        }
    }
    Err(Halt::Stuck { lane: working })
}
