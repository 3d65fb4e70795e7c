//! What holds of every endpoint. Each function does nothing: its contract is a law.
ghost use Rattle.cl_endpoint.specs.Laws.{AcceptedIsNext, GivingIsSending, EmissionIsInTurn, EmittedIsKept, EmittedIsInRange, EmittedAreFew, DueIsEmittedOrStays, EmissionMarksSent};

/// A packet is accepted now exactly where its sender has not stopped and it carries the next message.
#[tactic(auto, using(crate::proofs::Receiving::accepted_is_next))]
pub fn accepted_is_next()
    ensures { AcceptedIsNext }
{}

/// Messages that are given reach the link to each actor in order.
#[tactic(auto, using(crate::proofs::Gives::giving_is_sending))]
pub fn giving_is_sending()
    ensures { GivingIsSending }
{}

/// Each packet that is emitted says what the endpoint had before, and has a spelling where the endpoint is in range.
#[tactic(auto, using(crate::proofs::Carried::emitted_is_kept, crate::proofs::Carried::emitted_is_in_range))]
pub fn emitted_is_kept()
    ensures kept { EmittedIsKept }
    ensures in_range { EmittedIsInRange }
{}

/// Emission goes packet by packet: each is the one to its receiver as things stand after those before it. No more go
/// out than the limit, and what was due is emitted, or stays due behind what is emitted.
#[tactic(auto, using(crate::proofs::InTurn::emission_is_in_turn, crate::proofs::InTurn::emitted_are_few, crate::proofs::InTurn::due_is_emitted_or_stays, crate::proofs::InTurn::emission_marks_sent))]
pub fn emission_is_in_turn()
    ensures turn { EmissionIsInTurn }
    ensures few { EmittedAreFew }
    ensures rest { DueIsEmittedOrStays }
    ensures marks { EmissionMarksSent }
{}
