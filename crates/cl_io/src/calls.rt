//! The calls of an end in memory; the listed ones fail.
ghost use Rattle.std.specs.Prelude.{◌≡◌, ◌≤◌, ◌↔◌, Contains, IsTrue, IsErr, OnOk, OnErr};
ghost use Rattle.cl_io.specs.Faults as faults;
ghost use Rattle.cl_io.specs.Memory.{FailsNext, after_call, after_fault};

use crate::Failed;
use crate::count::one_more;
use std::marker::Model;

// Counts calls and faults. Contracts see it as a `CallsState`.
#[derive(Debug, Drop)]
pub(crate) struct Calls {
    failing: Vec<u64>,
    made: u64,
    faults: u64,
}

impl Model for Calls {
    ghost use Rattle.cl_io.specs.Memory.{CallsState};

    ghost Value = { CallsState };

    ghost view = { λ s. record { failing = s.failing.items; made = s.made; faults = s.faults } };
}

impl Calls {
    // No calls so far.
    pub(crate) fn new(failing: Vec<u64>) -> Self
        ensures { result ≡ record { failing = failing.items; made = 0; faults = 0 } }
    {
        Calls {
            failing,
            made: 0,
            faults: 0,
        }
    }

    // Counts a call, which fails where it is listed.
    pub(crate) fn begin(&mut self) -> Result<(), Failed>
        ensures failing { IsErr result ↔ FailsNext self.old }
        ensures ok { OnOk result (self.new ≡ after_call self.old) }
        ensures err { OnErr result (self.new ≡ after_fault self.old) }
        ensures counted { self.old.faults ≤ self.new.faults }
    {
        self.made = one_more(self.made);
        if is_listed(&self.failing, self.made) {
            return Err(self.fail());
        }
        Ok(())
    }

    // Counts a fault of the latest call.
    pub(crate) fn fail(&mut self) -> Failed
        ensures fault { self.new ≡ record self.old { faults = faults.one_more self.old.faults } }
        ensures counted { self.old.faults ≤ self.new.faults }
    {
        self.faults = one_more(self.faults);
        Failed
    }
}

// Whether a number is listed.
fn is_listed(numbers: &[u64], number: u64) -> bool
    ensures { IsTrue result ↔ Contains numbers.now number }
{
    numbers.contains(&number)
}
