//! The transcript, and what the last step printed.
ghost use Rattle.std.specs.Prelude.{◌≡◌, ◌↔◌, [], ◌∷◌, ◌++◌, IsTrue, IfOk, OnOk, OnErr};
ghost use Rattle.cl_serial.specs.Transcript.{transcript_entry, transcript_of};

use cl_serial::{Said, Transcript};
use cl_types::NoMemory;
use std::alloc::Global;
use std::collections::VecDeque;
use std::marker::Model;
use std::mem;

/// The transcript, and the entries that are kept aside until the step is settled.
///
/// The transcript has room for each entry that is kept aside, so settling cannot fail.
#[derive(Debug, Drop)]
pub(crate) struct Recorder {
    transcript: Transcript,
    aside: VecDeque<Said>,
}

impl Model for Recorder {
    ghost use Rattle.std.specs.Prelude.{◌≤◌, length, map};
    ghost use Rattle.cl_serial.specs.Transcript.{transcript_entry, transcript_of};
    ghost use Rattle.cl_types.specs.AppendOnlyList.{room};
    ghost use Rattle.cl_front.specs.Recorder.{RecorderState};

    ghost Value = { RecorderState };

    ghost view = { λ recorder. record {
      transcript = transcript_of recorder.transcript;
      aside = map transcript_entry recorder.aside.items;
    } };

    ghost invariant = { λ recorder. length recorder.aside.items ≤ room recorder.transcript };
}

impl Recorder {
    /// An empty transcript, and nothing aside. It allocates nothing.
    pub(crate) fn new(alloc: Global) -> Recorder
        ensures { result ≡ record { transcript = []; aside = [] } }
    {
        Recorder {
            transcript: Transcript::new(alloc),
            aside: VecDeque::new(alloc),
        }
    }

    /// Keeps an entry aside.
    pub(crate) fn put_aside(&mut self, said: Said) -> Result<(), NoMemory>
        ensures ok { OnOk result (self.new ≡ record self.old { aside = self.old.aside ++ transcript_entry said ∷ [] }) }
        ensures err { OnErr result (self.new ≡ self.old) }
    {
        self.transcript.reserve(self.aside.len() + 1)?;
        self.aside.push_back(said)?;
        Ok(())
    }

    /// Puts what is kept aside into the transcript.
    pub(crate) fn settle(&mut self)
        ensures { self.new ≡ record { transcript = self.old.transcript ++ self.old.aside; aside = [] } }
    {
        while let Some(said) = self.aside.pop_front() {
            self.transcript.push_reserved(said);
        }
    }

    /// Whether nothing is kept aside.
    pub(crate) fn is_settled(&self) -> bool
        ensures { IsTrue result ↔ (self.now.aside ≡ []) }
    {
        self.aside.is_empty()
    }

    /// The transcript, without what is kept aside.
    pub(crate) fn transcript(&self) -> &Transcript
        ensures { transcript_of result.now ≡ self.now.transcript }
    {
        &self.transcript
    }

    /// Takes the transcript. An empty one is left, and what was kept aside is dropped.
    pub(crate) fn take(&mut self, alloc: Global) -> Transcript
        ensures taken { transcript_of result ≡ self.old.transcript }
        ensures left { self.new ≡ record { transcript = []; aside = [] } }
    {
        self.aside.clear();
        mem::replace(&mut self.transcript, Transcript::new(alloc))
    }
}
