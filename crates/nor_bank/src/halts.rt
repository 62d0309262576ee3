//! A first halt.
ghost use Rattle.std.specs.Prelude.{◌≡◌, Some, None};
ghost use Rattle.nor_array.specs.declared.entry.Reply.TheVariants.{Halted as HaltedReply};

use crate::Erasing;
use nor_array::{Halted, Reply};

// The halt is kept, and an erase is given up. It takes these two alone, since a bank whose bus has
// lost power is no bank until its halt is kept.
pub(crate) fn keep_halt(
    halted: &mut Option<Halted>,
    erase: &mut Option<Erasing>,
    cause: Halted,
) -> Reply
    ensures reply { result ≡ HaltedReply cause }
    ensures halted { halted.new ≡ Some cause }
    ensures erase { erase.new ≡ None }
{
    *halted = Some(cause);
    *erase = None;
    Reply::Halted(cause)
}
