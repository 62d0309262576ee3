//! A loss of power, and its end.
ghost use Rattle.nor_bank.specs.Whole.{Arms, PowersBank};
ghost use Rattle.nor_bank.specs.Work.{KeepsBank};

use crate::Bank;
use nor_array::{Halted, Reply};
use nor_bus::Bus;
use nor_word::BusWord;

impl<W: BusWord, B: Bus<W>> Bank<W, B> {
    /// Lets power go after so many more bus cycles; the mask says what simulated chips leave of their work.
    ///
    /// It makes no cycle, and is `Done`, in place of any cut that was armed before; but where a halt is kept
    /// that is answered again, and nothing is armed. A call that the cut ends answers this number.
    pub fn arm(&mut self, after: u32, mask: u8) -> Reply
        ensures call { Arms after mask self.old self.new result }
        ensures keeps { KeepsBank self.old self.new }
    {
        if let Some(reply) = self.refuse(None) {
            return reply;
        }
        self.bus.arm(after, mask);
        self.after = after;
        Reply::Done
    }

    /// Brings power back after a loss of it, without a cycle: `Done`. Nothing is under erase then, and no cut
    /// is armed; locks are as power-on leaves them. `Nothing` where power is on. Where a lane never ends its
    /// work the halt is answered again: power-on doesn't mend that.
    pub fn power_on(&mut self) -> Reply
        ensures call { PowersBank self.old self.new result }
        ensures keeps { KeepsBank self.old self.new }
    {
        match self.halted {
            None => Reply::Nothing,
            Some(cause) => match cause {
                Halted::Stuck { .. } => Reply::Halted(cause),
                Halted::Off { .. } => {
                    self.bus.power_on();
                    self.halted = None;
                    Reply::Done
                }
            },
        }
    }
}
