//! The driver, and its callers.
ghost use Rattle.std.specs.Prelude.{◌≡◌, ◌^◌, ◌≤◌, length, None, IfOk, IfErr, All, false};
ghost use Rattle.nor_driver.specs.Callers.{IsCallerOf, Begins, IsOwn, SeesOn, first_caller, folded, halved, split_off};
ghost use Rattle.nor_driver.specs.Fronts.{StandsFor};

use crate::caller::Caller;
use crate::held::Held;
use nor_bank::Bank;
use nor_bus::Bus;
pub use nor_turn::NoMemory;
use nor_turn::TurnLock;
use nor_word::BusWord;
use std::alloc::Global;
use std::marker::Model;

/// A bank that callers in several threads share. Every caller that a call is given must be one of this
/// driver's, which `IsCallerOf` says; each that it gives is one.
///
/// Every other call makes one call of the bank in a turn of its own, and enters it in the history. Where the bank
/// answers `NotYet` or `Occupied`, the turn is given back without an entry and the call is made again in a
/// later turn. [`erase`](Driver::erase) and [`erase_all`](Driver::erase_all) are two such calls: one opens the erase,
/// and the other, with a turn for each look, closes it. So others read and program in between. These calls alone
/// wait, and [`new`](Driver::new) alone takes memory.
///
/// Contracts see the lock, and as its `opening` the bank that the driver was made with.
pub struct Driver<W: BusWord, B: Bus<W>> {
    pub(crate) lock: TurnLock<Held<W, B>>,
}

impl<W: BusWord, B: Bus<W>> Model for Driver<W, B> {
    ghost use Rattle.nor_driver.specs.Callers.{DriverView};

    ghost Value = { DriverView };

    ghost view = { λ d. d.lock };
}

impl<W: BusWord, B: Bus<W>> Driver<W, B> {
    /// Makes a driver of the bank, which has nothing under erase, and its first caller, which has
    /// number 1, all shares and all rooms.
    ///
    /// # Errors
    /// `NoMemory`, with the bank.
    pub fn new(
        alloc: Global,
        bank: Bank<W, B>,
    ) -> Result<(Driver<W, B>, Caller<W, B>), (Bank<W, B>, NoMemory)>
        requires { bank.erase ≡ None }
        ensures driver { IfOk result (λ made. made.0.opening ≡ bank) }
        ensures caller { IfOk result (λ made. made.1 ≡ first_caller made.0) }
        ensures err { IfErr result (λ back. back.0 ≡ bank) }
    {
        match TurnLock::new(alloc, Held { bank }) {
            Ok((lock, pass)) => {
                let caller = Caller {
                    number: 1,
                    pass,
                    erasing: false,
                };
                Ok((Driver { lock }, caller))
            }
            Err((held, error)) => {
                let Held { bank } = held;
                Err((bank, error))
            }
        }
    }

    /// Splits a caller off, with a number from 1 to 8, for another thread. It has half of the share and
    /// of the room, and has seen the same.
    pub fn split(&self, caller: &mut Caller<W, B>, number: u8) -> Caller<W, B>
        requires own { IsCallerOf self.now caller.old }
        requires number { (1 ≤ number) × (number ≤ 8) }
        requires share { 4 ≤ caller.old.pass.share }
        requires room { 4 ≤ caller.old.pass.room }
        ensures kept { caller.new ≡ halved caller.old }
        ensures split { result ≡ split_off number caller.old }
    {
        let pass = self.lock.split(&mut caller.pass);
        Caller {
            number,
            pass,
            erasing: false,
        }
    }

    /// Tells `to` what `from` has seen: `to` has then seen what both had. It also takes half of the
    /// share and of the room of `from`, of which each must have 2 at least.
    pub fn meet(&self, from: &mut Caller<W, B>, to: &mut Caller<W, B>)
        requires from { IsCallerOf self.now from.old }
        requires halves { (2 ≤ from.old.pass.share) × (2 ≤ from.old.pass.room) }
        requires to { IsCallerOf self.now to.old }
        ensures from { from.new ≡ halved from.old }
        ensures to { to.new ≡ folded to.old (split_off from.old.number from.old) }
        ensures seen { Begins from.old.pass.seen to.new.pass.seen × SeesOn to.old to.new.pass.seen }
    {
        let pass = self.lock.split(&mut from.pass);
        self.lock.join(&mut to.pass, pass);
    }

    /// Takes in another caller, with its share and room and all that it has seen. `into` keeps its
    /// number. The other may have no erase that it opened and hasn't closed.
    pub fn fold(&self, into: &mut Caller<W, B>, other: Caller<W, B>)
        requires into { IsCallerOf self.now into.old }
        requires other { IsCallerOf self.now other }
        requires closed { other.erasing ≡ false }
        ensures folded { into.new ≡ folded into.old other }
        ensures into { SeesOn into.old into.new.pass.seen }
        ensures other { SeesOn other into.new.pass.seen }
    {
        let Caller { pass, .. } = other;
        self.lock.join(&mut into.pass, pass);
    }

    /// Ends the driver: gives the bank and the length of the history. The caller must have every share,
    /// so that no other is left. It has seen the whole history, for which the bank stands.
    pub fn shut(self, caller: Caller<W, B>) -> (Bank<W, B>, u64)
        requires own { IsCallerOf self caller }
        requires share { caller.pass.share ≡ 2 ^ 20 }
        ensures bank { StandsFor self.opening caller.pass.seen result.0 }
        ensures count { result.1 ≡ length caller.pass.seen }
        ensures names { All (IsOwn caller) caller.pass.seen }
    {
        let Driver { lock } = self;
        let Caller { pass, .. } = caller;
        let (held, count) = lock.close(pass);
        let Held { bank } = held;
        (bank, count)
    }
}
