//! What holds of every run of the cluster. Each function does nothing: its contract is a law of the definitions.
ghost use Rattle.cl_guarantee.specs.Laws.{EachHasMembers, HistoriesGoOn, LinesAreFed, LogsGoOn, MembersHold, QuietMembersAreEqual, ReplicasAgree, RestAnswersAll, RunsAreSerializable, RunsKeepBrokenOut, RunsNameTrueCauses, RunsReplayUnbroken, StandbysFollow};

/// After every run the history explains the transcript, one transaction after another: whatever packets were lost, repeated
/// or reordered, and wherever quiet moments stand.
pub fn runs_are_serializable()
    ensures { RunsAreSerializable }
{}

/// After every run the log of each primary settles to the map after the history. Its store and its locks
/// are those of its log, and no two transactions hold conflicting ones. A member holds the lock of each of its operations
/// until its End. Nothing of it is undone, and none of it ends without commit.
pub fn replicas_agree_with_history()
    ensures { ReplicasAgree }
{}

/// The history and each primary's log of a longer run begin with those of the run: what was decided stays decided.
pub fn runs_keep_what_they_decided()
    ensures histories { HistoriesGoOn }
    ensures logs { LogsGoOn }
{}

/// Each reply ABORTED of a run names a true cause: CLIENT of ABORT, CONFLICT of an operation that met a lock of another
/// transaction, MEMORY of an operation where, before the reply, an event with its mark handled a packet that asks for the
/// transaction. With its mark a participant gives up for want of memory; no clause says when.
pub fn causes_are_true()
    ensures { RunsNameTrueCauses }
{}

/// The transcript has the lines that the run was fed, in their order, and where the front is at rest, each has its answer.
pub fn lines_are_answered()
    ensures fed { LinesAreFed }
    ensures rest { RestAnswersAll }
{}

/// After every run each virtual node has a primary and a standby, whose log is a first part of the primary's. Of a firm
/// transaction both members of its home have the decision. Of its locks, writes and votes each standby's log has what the
/// primary's has. At each quiet moment both members are equal, in a run that notes no other moment as quiet.
pub fn members_hold_what_is_firm()
    ensures each { EachHasMembers }
    ensures follow { StandbysFollow }
    ensures hold { MembersHold }
    ensures equal { QuietMembersAreEqual }
{}

/// A transaction outside the history that nothing breaks is whole: its operations, done on the map after the history, give
/// the replies in the transcript. One of which something was undone or ended never becomes a member.
pub fn transactions_are_whole()
    ensures unbroken { RunsReplayUnbroken }
    ensures broken { RunsKeepBrokenOut }
{}
