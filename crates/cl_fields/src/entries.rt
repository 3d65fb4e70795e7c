//! Reading records of logs.
ghost use Rattle.cl_fields.specs.Reading.{ReadsField, read_touch, read_set, read_add, read_comp, read_end, read_entry};

use crate::reader::Reader;
use crate::undecoded::Undecoded;
use crate::{WireFault, tags};
use cl_log::LogRec;
use std::alloc::Global;

impl<'a> Reader<'a> {
    #[tactic(auto, unfolding(crate::specs::Reading::read_touch))]
    fn touch(&mut self) -> Result<LogRec, Undecoded>
        ensures { ReadsField result self.new (read_touch self.old) }
    {
        Ok(LogRec::Touch(self.txn()?, self.table()?, self.key()?, self.mode()?))
    }

    #[tactic(auto, unfolding(crate::specs::Reading::read_set))]
    fn set(&mut self, alloc: Global) -> Result<LogRec, Undecoded>
        ensures { ReadsField result self.new (read_set self.old) }
    {
        Ok(LogRec::Set(
            self.txn()?,
            self.table()?,
            self.key()?,
            self.u64()?,
            self.image(alloc)?,
            self.image(alloc)?,
        ))
    }

    #[tactic(auto, unfolding(crate::specs::Reading::read_add))]
    fn add(&mut self) -> Result<LogRec, Undecoded>
        ensures { ReadsField result self.new (read_add self.old) }
    {
        Ok(LogRec::Add(
            self.txn()?,
            self.table()?,
            self.key()?,
            self.u64()?,
            self.amount()?,
        ))
    }

    #[tactic(auto, unfolding(crate::specs::Reading::read_comp))]
    fn comp(&mut self, alloc: Global) -> Result<LogRec, Undecoded>
        ensures { ReadsField result self.new (read_comp self.old) }
    {
        Ok(LogRec::Comp(
            self.txn()?,
            self.table()?,
            self.key()?,
            self.u64()?,
            self.number()?,
            self.form(alloc)?,
        ))
    }

    #[tactic(auto, unfolding(crate::specs::Reading::read_end))]
    fn end(&mut self) -> Result<LogRec, Undecoded>
        ensures { ReadsField result self.new (read_end self.old) }
    {
        Ok(LogRec::End(self.txn()?, self.flag()?))
    }

    /// Reads a record of a log.
    #[tactic(auto, unfolding(crate::specs::Reading::read_entry))]
    pub fn entry(&mut self, alloc: Global) -> Result<LogRec, Undecoded>
        ensures { ReadsField result self.new (read_entry self.old) }
    {
        match self.byte()? {
            tags::ENTRY_TOUCH => self.touch(),
            tags::ENTRY_SET => self.set(alloc),
            tags::ENTRY_ADD => self.add(),
            tags::ENTRY_COMP => self.comp(alloc),
            tags::ENTRY_PREPARED => Ok(LogRec::Prepared(self.txn()?)),
            tags::ENTRY_END => self.end(),
            tags::ENTRY_DECIDE => Ok(LogRec::Decide(self.txn()?)),
            _ => Err(WireFault::Field.into()),
        }
    }
}
