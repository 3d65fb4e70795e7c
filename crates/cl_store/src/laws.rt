//! What holds of every store, and of records in scan order. Each function does nothing: its contract is a law.
ghost use Rattle.cl_store.specs.Items.{IsInScanOrder, IsWritten};
ghost use Rattle.cl_store.specs.Laws.{RecordsAreFound, PlacesDetermineRecords, LiveRecordsAreCounted};
ghost use Rattle.cl_store.specs.Store.{records};

use crate::Store;

/// The records of a store are in scan order, and each was written.
pub fn records_are_in_order(store: &Store)
    ensures order { IsInScanOrder (records store.now) }
    ensures written { IsWritten (records store.now) }
{}

/// Records in scan order are found by their places, what stands at each place determines them, and as many places have a
/// value as records do.
pub fn records_follow_places()
    ensures found { RecordsAreFound }
    ensures determined { PlacesDetermineRecords }
    ensures counted { LiveRecordsAreCounted }
{}
