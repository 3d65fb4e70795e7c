//! Every run of the system, as plain data, and that its lossy links are queues: definitions and laws, and no other code.
//!
//! Whatever is lost, repeated or reordered, a run is one of cores and queues. Above this crate nothing speaks of packets,
//! of their numbers or of acknowledgements.
#![tactic(auto)]

mod laws;

pub use laws::{
    links_stay_pairs, nobody_stops, packets_say_what_is_so, quiet_empties_queues,
    rosters_are_noted, runs_are_queue_runs, runs_go_on,
};
