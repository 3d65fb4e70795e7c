//! What a run said and what it must mean: the transcript, the history, the plain map, the verdict and their laws.
#![tactic(auto)]

mod exchange;
mod fitness;
mod gathering;
mod laws;
mod plain_map;
mod replaying;
mod replies;
mod session;
mod transactions;
mod transcript;
mod verdict;

pub use laws::{
    one_more_answer, one_more_entry, one_more_question, replays_join, there_is_one_verdict,
};
pub use plain_map::PlainMap;
pub use replaying::replay;
pub use transcript::{History, Said, Transcript};
pub use verdict::Verdict;
