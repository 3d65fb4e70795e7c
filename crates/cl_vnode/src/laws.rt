//! What holds of every replica and of every step. Each function does nothing: its contract is a law.
ghost use Rattle.cl_vnode.specs.Laws.{EveryReplicaHasState, MarksAreAlike, StepsKeepReplica, StepsSendToReceivers};
ghost use Rattle.cl_vnode.specs.Laws.{StandbyStepsKeepReplica, StandbyStepsSendBack};

/// Each replica has a state: a participant, a controller, a mode and decisions as data.
pub fn every_replica_has_state()
    ensures { EveryReplicaHasState }
{}

/// A step of a primary changes neither the virtual node of its replica, nor how many nodes there are,
/// nor the mode.
pub fn steps_keep_replica()
    ensures { StepsKeepReplica }
{}

/// A step of a primary sends to the sender of its input, to the front, to the primaries of virtual
/// nodes, or to its standby. Where it gives up for want of memory, it sends to the same actors or to
/// fewer; no clause says when.
pub fn steps_send_to_receivers()
    ensures receivers { StepsSendToReceivers }
    ensures marks { MarksAreAlike }
{}

/// A step of a standby keeps as much, and sends to the sender of its input alone.
pub fn standby_steps()
    ensures replica { StandbyStepsKeepReplica }
    ensures receivers { StandbyStepsSendBack }
{}
