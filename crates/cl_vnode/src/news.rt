//! What a safe record makes known.
ghost use Rattle.std.specs.Prelude.{◌≡◌};
ghost use Rattle.cl_log.specs.Log.{entries};
ghost use Rattle.cl_log.specs.LogEntry.{content_at};
ghost use Rattle.cl_vnode.specs.News.{news_in, news_of};

use cl_log::{Log, LogRec};
use cl_types::TxnId;

/// What a safe record makes known.
#[derive(Clone, Copy, Debug)]
pub(crate) enum News {
    /// The participant has voted for the transaction.
    Vote(TxnId),
    /// A Decide, for which the controller waits, is safe.
    Decision,
    /// Nobody waits for it.
    Nothing,
}

// What a record makes known once it is safe.
fn news_of(content: &LogRec) -> News
    ensures { result ≡ news_of content.now }
{
    match content {
        LogRec::Prepared(txn) => News::Vote(*txn),
        LogRec::Decide(_) => News::Decision,
        _ => News::Nothing,
    }
}

/// What the record of this number makes known once it is safe.
pub(crate) fn news_at(log: &Log, number: u64) -> News
    ensures { result ≡ news_in (content_at (entries log.now) number) }
{
    match log.at(number) {
        Some(content) => news_of(content),
        None => News::Nothing,
    }
}
