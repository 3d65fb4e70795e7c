//! The laws of transcripts and replays. A law is the contract of a function that does nothing.
ghost use Rattle.cl_serial.specs.Laws.{EntryAddsItsQuestion, EntryAddsItsAnswer, EntryAddsItsLine, EntryAddsItsFault, EntryAddsItsRefusal, EntryAddsItsText, OtherEntryLeavesExchanges, QuestionAddsExchange, QuestionStepsSession, AnswerFillsExchange, AnswerStepsSession, HistoriesJoin, BackReplaysAfterFront, RepliesJoin, OneVerdict, SameSaysReplay, FitIsSame, DifferenceStands};

/// A history has one verdict on a transcript.
///
/// It is `Same` where the history fits, and says no less where each operation was answered. A written outcome that
/// differs stands in the transcript at its place.
pub fn there_is_one_verdict()
    ensures one { OneVerdict }
    ensures same { SameSaysReplay }
    ensures fits { FitIsSame }
    ensures stands { DifferenceStands }
{}

/// One more entry adds what it says, at its position: to each session what it asks and answers there, and to the whole
/// its line, its fault, its refusal and its text.
pub fn one_more_entry()
    ensures question { EntryAddsItsQuestion }
    ensures answer { EntryAddsItsAnswer }
    ensures line { EntryAddsItsLine }
    ensures fault { EntryAddsItsFault }
    ensures refusal { EntryAddsItsRefusal }
    ensures text { EntryAddsItsText }
    ensures neither { OtherEntryLeavesExchanges }
{}

/// One more question adds an exchange, and takes its session one step on.
pub fn one_more_question()
    ensures exchange { QuestionAddsExchange }
    ensures session { QuestionStepsSession }
{}

/// One more answer fills the first exchange without one, and completes the step of its question.
pub fn one_more_answer()
    ensures exchange { AnswerFillsExchange }
    ensures session { AnswerStepsSession }
{}

/// The replay of a history is the replay of its back on the map after its front.
pub fn replays_join()
    ensures operations { HistoriesJoin }
    ensures values { BackReplaysAfterFront }
    ensures replies { RepliesJoin }
{}
