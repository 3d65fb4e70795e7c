//! The Decides whose log numbers were told, and which are not yet safe.
ghost use Rattle.std.specs.Prelude.{◌≡◌, ◌<◌, ◌≤◌, length, take, drop};
ghost use Rattle.cl_control.specs.Calls.{up_to, above, with_told, without_told};
ghost use Rattle.std.specs.List.Sorted.{IsNonDecreasingBy};
ghost use Rattle.std.specs.VecDeque.{deque_len, deque_capacity};

use crate::entry::Told;
use crate::open_table::OpenTable;
use std::collections::VecDeque;

/// How many have a number at most this one. They stand first.
pub(crate) fn count_up_to(waiting: &VecDeque<Told>, number: u64) -> usize
    requires { IsNonDecreasingBy (λ told. told.number) waiting.now.items }
    ensures within { result ≤ length waiting.now.items }
    ensures first { take result waiting.now.items ≡ up_to number waiting.now.items }
    ensures rest { drop result waiting.now.items ≡ above number waiting.now.items }
{
    waiting.partition_point(|told| told.number <= number)
}

/// Inserts one behind all with a number at most its own. There is room.
pub(crate) fn insert(waiting: &mut VecDeque<Told>, told: Told)
    requires ascending { IsNonDecreasingBy (λ told. told.number) waiting.old.items }
    requires room { deque_len waiting.old < deque_capacity waiting.old }
    ensures items { waiting.new.items ≡ with_told told waiting.old.items }
    ensures capacity { deque_capacity waiting.old ≤ deque_capacity waiting.new }
{
    let index = count_up_to(waiting, told.number);
    match waiting.insert(index, told) {
        Ok(()) => {}
        Err(_) => unreachable!(),
    }
}

/// Removes the first ones, so many, with their transactions where these wait for them.
pub(crate) fn remove_first(waiting: &mut VecDeque<Told>, transactions: &mut OpenTable, count: usize)
    requires { count ≤ length waiting.old.items }
    ensures waiting { waiting.new.items ≡ drop count waiting.old.items }
    ensures transactions { transactions.new ≡ without_told (take count waiting.old.items) transactions.old }
    ensures capacity { deque_capacity waiting.new ≡ deque_capacity waiting.old }
{
    for _ in 0..count {
        if let Some(told) = waiting.pop_front() {
            transactions.remove_logged(told.txn);
        }
    }
}
