//! A command with its answer.
ghost use Rattle.std.specs.Prelude.{◌≡◌, ◌↔◌, IsTrue};
ghost use Rattle.cl_serial.specs.Exchanges.{unanswered, answered, outcome_of};
ghost use Rattle.cl_serial.specs.Transactions.{is_begin, is_passed_over, is_end};

use crate::replies;
use cl_types::{Command, Outcome};
use std::marker::Model;

/// A command with the position of its line, and its answer with the position of that, where there is one.
#[derive(Drop)]
pub(crate) struct Exchange {
    pub(crate) command: Command,
    pub(crate) line: u64,
    pub(crate) answer: Option<(Outcome, u64)>,
}

impl Model for Exchange {
    ghost use Rattle.cl_serial.specs.Exchanges.{Exchange as Seen};

    ghost Value = { Seen };

    ghost view = { λ exchange. record { command = exchange.command; line = exchange.line; answer = exchange.answer } };
}

impl Exchange {
    pub(crate) fn unanswered(asked: (Command, u64)) -> Exchange
        ensures { result ≡ unanswered asked }
    {
        let (command, line) = asked;
        Exchange {
            command,
            line,
            answer: None,
        }
    }

    pub(crate) fn answered(asked: (Command, u64), answer: (Outcome, u64)) -> Exchange
        ensures { result ≡ answered asked answer }
    {
        let (command, line) = asked;
        Exchange {
            command,
            line,
            answer: Some(answer),
        }
    }

    pub(crate) fn is_begin(&self) -> bool
        ensures { result ≡ is_begin self.now.command }
    {
        match &self.command {
            Command::Begin => true,
            _ => false,
        }
    }

    pub(crate) fn is_commit(&self) -> bool
        ensures { IsTrue result ↔ (self.now.command ≡ Command.Commit) }
    {
        match &self.command {
            Command::Commit => true,
            _ => false,
        }
    }

    pub(crate) fn is_passed_over(&self) -> bool
        ensures { result ≡ is_passed_over (outcome_of self.now) }
    {
        match &self.answer {
            Some((outcome, _)) => replies::is_passed_over(outcome),
            None => false,
        }
    }

    pub(crate) fn is_end(&self) -> bool
        ensures { result ≡ is_end (outcome_of self.now) }
    {
        match &self.answer {
            Some((outcome, _)) => replies::is_end(outcome),
            None => false,
        }
    }
}
