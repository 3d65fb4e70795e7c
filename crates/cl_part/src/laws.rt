//! What holds of every participant. Each function does nothing: its contract is a law.
ghost use Rattle.cl_part.specs.Laws.{AnswersAreNoted, CallsAreSteps, CallsKeepOrder, EventsMakeOrder};
ghost use Rattle.cl_part.specs.Sound.{NewIsSound, ReplicaIsBelowNext, RecordsKeepReplica, CallsKeepReplica, CallsKeepSound, CutKeepsReplica, UndoTakesFirst, UndoKeepsMap};
ghost use Rattle.cl_part.specs.State.{EveryPartHasState};

/// Each participant has a state: a store, a log and locks as data.
pub fn participants_have_states()
    ensures { EveryPartHasState }
{}

/// A participant is a replica of a full log where its store and its locks are those of that log, of
/// which it keeps an end (`IsReplicaOf`). It is sound where that is the log that it keeps. A new one
/// whose log begins with 1 is sound. Each call keeps a replica, and keeps a sound one sound: an
/// operation where its transaction has not ended. One more record keeps a replica, where it undoes
/// no number that is still to come, and takes a lock for no transaction that has ended. So does a
/// cut below the low number, where the full log undoes in order. A replica has no stored number
/// above its last log number, as each call asks.
pub fn calls_keep_sound()
    ensures new { NewIsSound }
    ensures below { ReplicaIsBelowNext }
    ensures records { RecordsKeepReplica }
    ensures replica { CallsKeepReplica }
    ensures sound { CallsKeepSound }
    ensures cut { CutKeepsReplica }
{}

/// On a replica an undo step takes the first of what is left to undo. Where its transaction is open
/// and no locks conflict, it leaves the settled map under each history without that transaction. So
/// a rollback that was cut off continues to the same map.
pub fn rollback_continues()
    ensures first { UndoTakesFirst }
    ensures map { UndoKeepsMap }
{}

/// On the participant of a virtual node, a call that may be made is one of the steps of a
/// ledger, or none where an operation is refused or nothing is left to undo. An operation that is
/// not refused is answered with the reply that the ledger notes. So calls that may be made, and
/// transactions that may join the history between them, keep the ledger ordered from the start.
pub fn calls_are_steps()
    ensures steps { CallsAreSteps }
    ensures answers { AnswersAreNoted }
    ensures order { CallsKeepOrder }
    ensures events { EventsMakeOrder }
{}
