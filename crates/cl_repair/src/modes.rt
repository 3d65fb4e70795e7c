//! The mode of a replica, and what its standby has acknowledged.
ghost use Rattle.std.specs.Prelude.{◌≡◌, None};
ghost use Rattle.cl_repair.specs.Modes.{after_acked, after_alone, after_noted, is_safe, new_modes, safe_in};

use crate::Mode;
use cl_roster::{Roles, RosterEntry};
use std::marker::Model;

/// How a replica of a virtual node makes its log safe, and how much of it is.
///
/// Contracts see it as `ModesState`. No call takes memory.
#[derive(Debug, Drop)]
pub struct Modes {
    v: u32,
    mode: Mode,
    acked: u64,
}

impl Model for Modes {
    ghost use Rattle.cl_repair.specs.Modes.{ModesState};
    ghost use Rattle.cl_repair.specs.View.{view_of};

    ghost Value = { ModesState };

    ghost view = { view_of };
}

impl Modes {
    /// The mode of a replica of the virtual node `v` that has these roles: nothing is acknowledged.
    pub fn new(v: u32, roles: &Roles) -> Modes
        ensures { result ≡ new_modes v roles.now.standby }
    {
        Modes {
            v,
            mode: Mode::with(roles.standby),
            acked: 0,
        }
    }

    /// The standby has acknowledged the log up to this number. The answer is the entry that the
    /// roster is to get: none.
    pub fn acked(&mut self, number: u64) -> Option<RosterEntry>
        ensures modes { self.new ≡ after_acked self.old number }
        ensures entry { result ≡ None }
    {
        if let Mode::Pair(_) = self.mode {
            self.acked = self.acked.max(number);
        }
        None
    }

    /// Notes an entry of the roster: the stop of its standby leaves a primary alone.
    pub fn note(&mut self, entry: RosterEntry)
        ensures { self.new ≡ after_noted self.old entry }
    {
        self.mode = self.mode.noted(entry);
    }

    /// The replica makes its log safe by itself from now on: a primary whose standby has stopped, or
    /// a standby that takes over.
    pub fn go_on_alone(&mut self)
        ensures { self.new ≡ after_alone self.old }
    {
        self.mode = Mode::Lone;
    }

    /// Whether the record of this number is safe.
    pub fn safe(&self, number: u64) -> bool
        ensures { result ≡ is_safe self.now number }
    {
        self.mode.safe(self.acked, number)
    }

    /// How the replica makes its log safe.
    pub fn mode(&self) -> Mode
        ensures { result ≡ self.now.mode }
    {
        self.mode
    }

    /// Up to which number a log is safe that ends with the last one.
    pub fn safe_to(&self, last: u64) -> u64
        ensures { result ≡ safe_in self.now.mode self.now.acked last }
    {
        self.mode.safe_to(self.acked, last)
    }
}
