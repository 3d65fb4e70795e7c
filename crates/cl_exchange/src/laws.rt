//! What holds of every run. The function does nothing: its contract is a law of the definitions.
ghost use Rattle.cl_exchange.specs.Laws.{SoundAtFirst, EventsFit, EventsKeepSound, ReorderKeepsSound, FirmRunsAreSound};

/// Each session is at one stage: outside a transaction, between two commands, or with a command that is in exactly one
/// place: on its way to the controller, in work there, or answered and on its way back.
pub fn sessions_are_at_stages()
    ensures first { SoundAtFirst }
    ensures fits { EventsFit }
    ensures keeps { EventsKeepSound }
    ensures reorder { ReorderKeepsSound }
    ensures runs { FirmRunsAreSound }
{}
