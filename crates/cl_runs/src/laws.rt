//! What holds of runs. Each function does nothing: its contract is a law of the definitions.
ghost use Rattle.cl_runs.specs.Laws.{RunsAreQueueRuns, EventsAreQueueEvents, AcceptedIsHead, PacketsAreFaithful, ActorsAreLinked, EndpointsAreShaped, QuietEmptiesQueues, RostersAreNoted, NobodyStops, RunsAreWide, RunsGoOn, WatchingLeavesWorld};

/// A run is one of cores and queues, each of whose events may happen in its turn, and so is each event more. A packet
/// that is accepted now is the head of a queue, and whoever handles it has noted as much of the roster as its giver.
///
/// It holds of every cluster of a lawful size, whatever the actors decide, also where quiet moments come at any time.
pub fn runs_are_queue_runs<S>()
    ensures runs { RunsAreQueueRuns S }
    ensures events { EventsAreQueueEvents S }
    ensures head { AcceptedIsHead S }
{}

/// Each packet that was ever emitted goes from an actor to an actor. It is bare, or carries what its link was given under
/// its number, with a set number that is at least the tag. It acknowledges at most what its sender has accepted.
pub fn packets_say_what_is_so<S>()
    ensures { PacketsAreFaithful S }
{}

/// Both ends of each link agree on what was given: it is accepted in order, and until the sender has noted the receiver's
/// stop, nothing counts as acknowledged that was not accepted. The tag of a message is at most what its giver has noted.
/// Each actor keeps its number, the size of its cluster and a link to each actor.
pub fn links_stay_pairs<S>()
    ensures linked { ActorsAreLinked S }
    ensures shaped { EndpointsAreShaped S }
{}

/// At a quiet moment every queue to a living actor is empty.
pub fn quiet_empties_queues<S>()
    ensures { QuietEmptiesQueues S }
{}

/// The roster is lawful, and what each actor has noted of it is a beginning.
pub fn rosters_are_noted<S>()
    ensures { RostersAreNoted S }
{}

/// Where no stop is ever offered, nobody stops, and nobody notes anything.
pub fn nobody_stops<S>()
    ensures { NobodyStops S }
{}

/// A run is a wide run. One event more follows a run where it may happen then, and makes of the system what it makes.
pub fn runs_go_on<S>()
    ensures wide { RunsAreWide S }
    ensures more { RunsGoOn S }
    ensures watched { WatchingLeavesWorld S }
{}
