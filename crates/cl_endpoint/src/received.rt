//! What becomes of a packet that comes.
ghost use Rattle.std.specs.Prelude.{◌≡◌};
ghost use Rattle.cl_endpoint.specs.Endpoint.{owed_to, received_as};

use cl_link::Taken;

/// What became of a packet that came.
#[derive(Clone, Copy, Debug, PartialEq, Eq)]
pub enum Received {
    /// The stop of its sender was noted: it has no effect.
    Dropped,
    /// It is an acknowledgement and nothing else.
    Bare,
    /// Its message is the next one, and is accepted now.
    Now,
    /// Its message was accepted before.
    Old,
    /// A message before it has not come yet.
    Gap,
}

impl Received {
    /// To whom an acknowledgement is owed, after a packet from this actor: to its sender, where it carries a message
    /// and is not dropped.
    pub fn owed_to(self, from: u32) -> Option<u32>
        ensures { result ≡ owed_to self from }
    {
        match self {
            Received::Dropped | Received::Bare => None,
            Received::Now | Received::Old | Received::Gap => Some(from),
        }
    }

    // What a link made of the message of a packet.
    pub(crate) fn of_taken(taken: Taken) -> Received
        ensures { result ≡ received_as taken }
    {
        match taken {
            Taken::Now => Received::Now,
            Taken::Old => Received::Old,
            Taken::Gap => Received::Gap,
        }
    }
}
