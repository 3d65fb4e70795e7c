//! What a run is of.
use cl_types::natural_of;

/// So many sessions transfer between so many accounts, and so many packets in a hundred are lost. Each part of the run has
/// so many transfers.
#[derive(Clone, Copy)]
pub struct Load {
    pub sessions: u64,
    pub accounts: u64,
    pub lost: u64,
    pub transfers: u64,
}

// The number of a word, where it is 1 or more.
fn count_of(word: &String) -> Option<u64> {
    match natural_of(word.as_str().as_bytes()) {
        Some(0) | None => None,
        count => count,
    }
}

/// The load of these words: how many sessions, accounts, packets lost in a hundred, and transfers in a part.
pub fn load_of(words: &[String]) -> Option<Load> {
    match words {
        [sessions, accounts, lost, transfers] => Some(Load {
            sessions: count_of(sessions)?,
            accounts: count_of(accounts)?,
            lost: natural_of(lost.as_str().as_bytes())?,
            transfers: count_of(transfers)?,
        }),
        _ => None,
    }
}
