//! What holds of the ledger of the system. Each function does nothing: its contract is a law of the definitions.
ghost use Rattle.cl_ledger.specs.Laws.{LedgerAtFirst, EventsAreSteps, LogsSettle, FirmRunsKeepOneOrder};

/// Each event is steps of a ledger that are enabled, so the ledger stays in one serial order. An open transaction is whole
/// at each of its participants, so whoever joins the history is whole. The log of each virtual node settles to the map of
/// the history.
pub fn events_keep_one_order()
    ensures first { LedgerAtFirst }
    ensures steps { EventsAreSteps }
    ensures settle { LogsSettle }
{}

/// After every firm run commits are whole, and the system has a ledger in one serial
/// order: that of its history.
pub fn firm_runs_keep_one_order()
    ensures { FirmRunsKeepOneOrder }
{}
