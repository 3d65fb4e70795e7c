//! The plain map: a value at each of finitely many places.
ghost use Rattle.std.specs.Prelude.{◌≡◌, IfOk, OnOk, OnErr};
ghost use Rattle.std.specs.BTreeMap.{get as found_at, IsUnchanged};
ghost use Rattle.std.specs.FinMap as map;
ghost use Rattle.cl_types.specs.Plain.{plain_reply, plain_value};
ghost use Rattle.cl_types.specs.Places.{Place};
ghost use Rattle.cl_serial.specs.PlainMap.{updated};
ghost use Rattle.cl_serial.specs.PlainMapModel.{place_cmp, place_of, value_at};

use cl_types::{Key, NoMemory, Op, Reply, TableName, Value, apply_op};
use std::alloc::Global;
use std::collections::BTreeMap;
use std::marker::Model;

// A table and a key, in the map's order. Contracts see the place that they name.
#[derive(Debug, PartialEq, Eq, PartialOrd, Ord, Drop)]
struct RecordPlace {
    table: TableName,
    key: Key,
}

impl Model for RecordPlace {
    ghost use Rattle.cl_types.specs.Places.{Place};

    ghost Value = { Place };

    ghost view = { λ place. (place.table, place.key) };

    ghost inverse = { λ place. record { table = place.0; key = place.1 } };
}

/// A map from places, each a table and a key, to values. Contracts see it as a finite map.
///
/// The checker replays histories on it, and the guarantee speaks of such maps. The server itself keeps
/// a store, a log and locks.
#[derive(Debug, Drop)]
pub struct PlainMap {
    values: BTreeMap<RecordPlace, Value>,
    alloc: Global,
}

impl Model for PlainMap {
    ghost use Rattle.std.specs.Prelude.{ℕ, List};
    ghost use Rattle.std.specs.Coded.{coded_ℕ, coded_list};
    ghost use Rattle.std.specs.FinMap as map;
    ghost use Rattle.cl_serial.specs.PlainMapModel.{place_cmp, place_code};

    ghost Value = { map.FinMap place_cmp (List ℕ) };

    ghost coded = { map.code place_code (coded_list coded_ℕ) };

    ghost view = { λ plain. map.from_entries plain.values.entries };
}

// Stores the value at the place, or removes what is there where none is given.
fn set_or_remove(
    values: &mut BTreeMap<RecordPlace, Value>,
    place: RecordPlace,
    value: Option<Value>,
) -> Result<(), NoMemory>
    ensures ok { let before = found_at place_cmp values.old in
        OnOk result ((other : Place) →
        found_at place_cmp values.new other ≡ updated before place value other) }
    ensures err { OnErr result (IsUnchanged values.old values.new) }
{
    match value {
        Some(value) => {
            values.insert(place, value)?;
        }
        None => {
            values.remove(&place);
        }
    }
    Ok(())
}

impl PlainMap {
    /// Makes an empty map. It allocates nothing.
    pub fn new(alloc: Global) -> PlainMap
        ensures { result ≡ map.empty }
    {
        PlainMap {
            values: BTreeMap::new(alloc),
            alloc,
        }
    }

    /// Does an operation on the value at its place, if there is one, and returns its reply.
    ///
    /// It may give up for want of memory, and leaves the map unchanged then.
    pub fn apply(&mut self, table: &TableName, key: &Key, op: &Op) -> Result<Reply, NoMemory>
        ensures reply { let place = place_of table.now key.now in
            IfOk result (λ reply. reply ≡ plain_reply op.now (value_at self.old place)) }
        ensures ok { let place = place_of table.now key.now in
            let value = plain_value op.now (value_at self.old place) in
            OnOk result ((other : Place) →
            value_at self.new other ≡ updated (value_at self.old) place value other) }
        ensures err { OnErr result (self.new ≡ self.old) }
    {
        let place = RecordPlace {
            table: table.copy(),
            key: key.copy(),
        };
        let (reply, value) = apply_op(self.alloc, op, self.values.get(&place))?;
        set_or_remove(&mut self.values, place, value)?;
        Ok(reply)
    }

    /// Returns how many places have a value.
    pub fn count(&self) -> usize
        ensures { result ≡ map.len self.now }
    {
        self.values.len()
    }
}
