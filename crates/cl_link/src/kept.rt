//! The messages that a link keeps, by number, and which of them are due.
ghost use Rattle.std.specs.Prelude.{◌≡◌, ◌<◌, ◌≤◌, drop, length};
ghost use Rattle.cl_link.specs.Kept.{due_index, sent_at, all_due};

use std::collections::VecDeque;

/// A message that is kept until it is acknowledged or dropped.
#[derive(Debug, Drop)]
pub(crate) struct Kept<B> {
    pub(crate) body: B,
    /// Whether it waits to be sent, for the first time or again.
    pub(crate) due: bool,
}

// The index of the first due message, or how many messages there are where none is due. None before `from` is due.
pub(crate) fn index_of_due<B>(kept: &VecDeque<Kept<B>>, from: usize) -> usize
    requires { from ≤ due_index kept.now.items }
    ensures { result ≡ due_index kept.now.items }
{
    for index in from..kept.len() {
        if kept[index].due {
            return index;
        }
    }
    kept.len()
}

// Marks the message at an index as sent: it is no longer due.
pub(crate) fn mark_sent<B>(kept: &mut VecDeque<Kept<B>>, index: usize)
    requires { index < length kept.old.items }
    ensures { kept.new.items ≡ sent_at kept.old.items index }
{
    kept[index].due = false;
}

// Makes each message due.
pub(crate) fn mark_all_due<B>(kept: &mut VecDeque<Kept<B>>)
    ensures { kept.new.items ≡ all_due kept.old.items }
{
    mark_each_due(kept.make_contiguous());
}

fn mark_each_due<B>(messages: &mut [Kept<B>])
    ensures { messages.new ≡ all_due messages.old }
{
    for message in messages.iter_mut() {
        message.due = true;
    }
}

// Drops the first messages.
pub(crate) fn drop_front<B: Drop>(kept: &mut VecDeque<Kept<B>>, count: usize)
    requires { count ≤ length kept.old.items }
    ensures { kept.new.items ≡ drop count kept.old.items }
{
    for _ in 0..count {
        kept.pop_front();
    }
}
