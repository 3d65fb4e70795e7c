//! What holds of the replicas of every firm run. Each function does nothing: its contract is a law of the definitions.
ghost use Rattle.cl_settled.specs.Laws.{ReplicasAgree, HistoriesGoOn, LogsGoOn, UnbrokenReplay, BrokenStayOut};

/// After every firm run the log of each replica settles to the map after the history. Its store and its locks
/// are those of its log, and no two of its locks conflict. A member holds its locks until its End, and is never undone.
pub fn replicas_agree_with_history()
    ensures { ReplicasAgree }
{}

/// The history and the logs of a longer run begin with those of the run: what was decided stays decided.
pub fn runs_keep_what_they_decided()
    ensures histories { HistoriesGoOn }
    ensures logs { LogsGoOn }
{}

/// A transaction outside the history of which nothing is undone and that has not ended gave the replies that its operations
/// give on the map after the history. Any other one outside the history never becomes a member.
pub fn transactions_are_whole()
    ensures unbroken { UnbrokenReplay }
    ensures broken { BrokenStayOut }
{}
