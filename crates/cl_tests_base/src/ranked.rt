//! A ranked store against what was worked out by hand.
use cl_ranked::{Ranked, SLOTS_MAX};
use cl_types::NoMemory;
use std::test::Fail;

// A call on a ranked store.
#[derive(Clone, Copy, Debug)]
enum Call {
    // A slot is added, with this item or empty.
    Add(Option<u32>),
    // The slot of this index had this item, and is emptied.
    Take(u64, Option<u32>),
}

// Whether the call answers as the row says.
fn answers(store: &mut Ranked<u32>, call: Call) -> Result<bool, NoMemory> {
    match call {
        Call::Take(index, item) => Ok(store.take(index) == item),
        Call::Add(_) if store.added() == SLOTS_MAX => Ok(false),
        Call::Add(item) => {
            store.add(item)?;
            Ok(true)
        }
    }
}

// Whether there are these items alone, each in the slot of its index and at its rank.
fn keeps(store: &Ranked<u32>, kept: &[(u64, u32)]) -> bool {
    for (rank, (index, item)) in kept.iter().enumerate() {
        if store.get(*index) != Some(item) || store.nth(rank as u64) != Some((*index, item)) {
            return false;
        }
    }
    let count = store.count();
    count == kept.len() as u64 && store.nth(count).is_none()
}

// Each call, how many slots there are afterwards, and which items.
#[test]
fn slots_by_index_and_by_rank(rt: HostRuntime) -> Result<(), Fail> {
    let rows = [
        (Call::Take(0, None), 0, [].as_slice()),
        (Call::Add(Some(10)), 1, &[(0, 10)]),
        (Call::Add(Some(11)), 2, &[(0, 10), (1, 11)]),
        (Call::Add(None), 3, &[(0, 10), (1, 11)]),
        (Call::Add(Some(13)), 4, &[(0, 10), (1, 11), (3, 13)]),
        (Call::Take(2, None), 4, &[(0, 10), (1, 11), (3, 13)]),
        (Call::Take(1, Some(11)), 4, &[(0, 10), (3, 13)]),
        (Call::Take(1, None), 4, &[(0, 10), (3, 13)]),
        (Call::Take(4, None), 4, &[(0, 10), (3, 13)]),
        (Call::Add(Some(14)), 5, &[(0, 10), (3, 13), (4, 14)]),
        (Call::Take(0, Some(10)), 5, &[(3, 13), (4, 14)]),
        (Call::Take(0, None), 5, &[(3, 13), (4, 14)]),
        (Call::Take(4, Some(14)), 5, &[(3, 13)]),
        (Call::Add(Some(15)), 6, &[(3, 13), (5, 15)]),
        (Call::Take(3, Some(13)), 6, &[(5, 15)]),
        (Call::Take(5, Some(15)), 6, &[]),
        (Call::Add(None), 7, &[]),
        (Call::Add(Some(17)), 8, &[(7, 17)]),
    ];
    let mut store = Ranked::new(rt.alloc());
    for row in rows {
        let (call, added, kept) = row;
        let answered = answers(&mut store, call)?;
        assert!(rt;
            answered && store.added() == added && keeps(&store, kept),
            "{row:?}"
        );
    }
    Ok(())
}

// Adds a hundred items, of which the last few are kept, and one of the first.
#[test]
fn a_hundred_slots_of_which_few_are_kept(rt: HostRuntime) -> Result<(), Fail> {
    let mut store = Ranked::new(rt.alloc());
    for item in 0u32..100 {
        let added = answers(&mut store, Call::Add(Some(item)))?;
        let taken = item < 3 || item == 10 || store.take(u64::from(item - 3)) == Some(item - 3);
        assert!(rt; added && taken, "{item}");
    }
    assert!(rt; keeps(&store, &[(7, 7), (97, 97), (98, 98), (99, 99)]));
    assert!(rt; store.take(7) == Some(7) && keeps(&store, &[(97, 97), (98, 98), (99, 99)]));
    Ok(())
}
