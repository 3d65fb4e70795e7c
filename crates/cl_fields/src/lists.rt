//! Reading the lists of packets.
ghost use Rattle.cl_types.specs.GrowingList.{items};
ghost use Rattle.cl_fields.specs.Reading.{Gives, ReadsField, read_between, read_list, read_members, read_item, read_txn};

use crate::limits::LIST_MAX;
use crate::reader::Reader;
use crate::undecoded::Undecoded;
use cl_log::TxnList;
use cl_store::ItemList;
use std::alloc::Global;

impl<'a> Reader<'a> {
    // Reads how many members a list has.
    fn count(&mut self) -> Result<u32, Undecoded>
        ensures { ReadsField result self.new (read_between 0 LIST_MAX self.old) }
    {
        self.between(0, LIST_MAX)
    }

    // Reads so many records of a store.
    fn item_members(&mut self, alloc: Global, count: u32) -> Result<ItemList, Undecoded>
        ensures { Gives items result self.new (read_members read_item count self.old) }
    {
        let mut list = ItemList::new(alloc);
        list.reserve(count as usize)?;
        for _ in 0..count {
            list.push(self.item(alloc)?)?;
        }
        Ok(list)
    }

    // Reads so many names of transactions.
    fn txn_members(&mut self, alloc: Global, count: u32) -> Result<TxnList, Undecoded>
        ensures { Gives items result self.new (read_members read_txn count self.old) }
    {
        let mut list = TxnList::new(alloc);
        list.reserve(count as usize)?;
        for _ in 0..count {
            list.push(self.txn()?)?;
        }
        Ok(list)
    }

    /// Reads at most `LIST_MAX` records of a store.
    #[tactic(auto, unfolding(crate::specs::Reading::read_list))]
    pub fn items(&mut self, alloc: Global) -> Result<ItemList, Undecoded>
        ensures { Gives items result self.new (read_list read_item self.old) }
    {
        let count = self.count()?;
        self.item_members(alloc, count)
    }

    /// Reads at most `LIST_MAX` names of transactions.
    #[tactic(auto, unfolding(crate::specs::Reading::read_list))]
    pub fn txns(&mut self, alloc: Global) -> Result<TxnList, Undecoded>
        ensures { Gives items result self.new (read_list read_txn self.old) }
    {
        let count = self.count()?;
        self.txn_members(alloc, count)
    }
}
