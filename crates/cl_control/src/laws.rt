//! What holds of every controller. Each function does nothing: its contract is a law.
ghost use Rattle.cl_control.specs.Laws.{CommittedWhenSafe, DecideHasEveryVote, NothingAbortsAfterDecide, StrangersChangeNothing, NewIsSound, CallsKeepSound};
ghost use Rattle.cl_control.specs.Sound.{IsSoundControl};

use crate::Control;

/// COMMITTED is said only by `safe_up_to`, of a transaction whose Decide has a log number that is
/// safe.
pub fn committed_is_said_when_safe()
    ensures { CommittedWhenSafe }
{}

/// A transaction is decided while it is open and not decided, and then each participant has voted.
/// It stays decided until COMMITTED is said. So it is decided once.
pub fn decide_has_every_vote()
    ensures { DecideHasEveryVote }
{}

/// Once a transaction is decided, no participant is told of an abort of it, and nothing but
/// COMMITTED is said of it.
pub fn nothing_aborts_after_decide()
    ensures { NothingAbortsAfterDecide }
{}

/// An answer or a vote for a transaction that is not open gives no act and changes nothing.
pub fn strangers_change_nothing()
    ensures { StrangersChangeNothing }
{}

/// The names of open transactions differ. Their participants are virtual nodes and differ. Each
/// Decide that waits is of an open transaction, and waits once. A new controller is so, and each
/// call keeps it so.
pub fn calls_keep_sound()
    ensures new { NewIsSound }
    ensures calls { CallsKeepSound }
{}

/// Each controller is sound.
pub fn controllers_are_sound(control: &Control)
    ensures { IsSoundControl control.now }
{
    control.is_sound();
}
