//! The place of the front.
use crate::given::Given;
use crate::stepping::step;
use cl_front::Front;
use cl_post::Outs;
use cl_serial::Transcript;
use cl_types::{NoMemory, Refused};

/// The front, or what is left of it after a refusal.
#[derive(Drop)]
pub(crate) enum FrontSeat {
    Here(Front),
    /// Its transcript alone.
    Gone(Transcript),
}

impl FrontSeat {
    ghost use Rattle.std.specs.Prelude.{◌≡◌, ◌↔◌, true, is_some, IsTrue, OnOk, OnErr};
    ghost use Rattle.cl_actor.specs.Acting.{ActingState};
    ghost use Rattle.cl_post.specs.Steps.{IsSpentByMark};
    ghost use Rattle.cl_serial.specs.Transcript.{transcript_of};
    ghost use Rattle.cl_steps.specs.declared.actors.TheConstants.{FRONT};
    ghost use Rattle.cl_system.specs.System.{Core, quieted_core};
    ghost use Rattle.cl_world.specs.Actors.{IsBareFront, IsFrontIn, IsFrontOf, IsFrontStep, IsResting, is_here, with_core};
    ghost use Rattle.cl_system.specs.System.{transcript_in};
    ghost use Rattle.cl_world.specs.Inputs.{input_of, InputFits, is_input_spent};

    /// Lets the front take a step. After a refusal it is gone, and its transcript is left as it was before.
    pub(crate) fn step(&mut self, given: &Given) -> Result<Outs, Refused>
        requires here { is_here self.old ≡ true }
        requires fits { (before : ActingState Core) × IsFrontIn self.old before × InputFits FRONT before (input_of given.now) }
        ensures step { (before : ActingState Core) → IsFrontIn self.old before → IsFrontStep self.new before (input_of given.now) result }
        ensures spent { (before : ActingState Core) → IsFrontIn self.old before → IsSpentByMark (is_input_spent FRONT before (input_of given.now)) result }
    {
        match self {
            FrontSeat::Here(front) => match step(front, given) {
                Ok(outs) => Ok(outs),
                Err(refused) => {
                    let transcript = front.take_transcript();
                    *self = FrontSeat::Gone(transcript);
                    Err(refused)
                }
            },
            FrontSeat::Gone(_) => unreachable!(),
        }
    }

    /// Puts a quiet moment into the transcript. After an error all is as before.
    pub(crate) fn quiet(&mut self) -> Result<(), NoMemory>
        requires here { is_here self.old ≡ true }
        ensures ok { (before : ActingState Core) → IsFrontIn self.old before
            → OnOk result (IsFrontIn self.new (with_core before (quieted_core FRONT before.core))) }
        ensures err { OnErr result (self.new ≡ self.old) }
        ensures here { is_here self.new ≡ true }
    {
        match self {
            FrontSeat::Here(front) => front.quiet(),
            FrontSeat::Gone(_) => unreachable!(),
        }
    }

    /// The transcript.
    pub(crate) fn transcript(&self) -> &Transcript
        ensures { (state : ActingState Core) → IsFrontIn self.now state → transcript_of result.now ≡ transcript_in state.core }
    {
        match self {
            FrontSeat::Here(front) => front.transcript(),
            FrontSeat::Gone(transcript) => transcript,
        }
    }

    /// The front, where it is there.
    pub(crate) fn front(&self) -> Option<&Front>
        ensures { IsFrontOf self.now result }
    {
        match self {
            FrontSeat::Here(front) => Some(front),
            FrontSeat::Gone(_) => None,
        }
    }

    /// Whether every line is answered and every message of the front acknowledged. It is false where the front is gone.
    pub(crate) fn rests(&self) -> bool
        ensures { (state : ActingState Core) → IsFrontIn self.now state → is_here self.now ≡ true → IsTrue result ↔ IsResting state }
    {
        match self {
            FrontSeat::Here(front) => front.answered() && !front.busy(),
            FrontSeat::Gone(_) => false,
        }
    }

    /// The transcript, and the front without it, where it is there.
    pub(crate) fn split(self) -> (Transcript, Option<Front>)
        ensures transcript { (state : ActingState Core) → IsFrontIn self state → transcript_of result.0 ≡ transcript_in state.core }
        ensures front { (state : ActingState Core) → IsFrontIn self state → IsBareFront result.1 state }
        ensures here { is_some result.1 ≡ is_here self }
    {
        match self {
            FrontSeat::Here(mut front) => {
                let transcript = front.take_transcript();
                (transcript, Some(front))
            }
            FrontSeat::Gone(transcript) => (transcript, None),
        }
    }
}
