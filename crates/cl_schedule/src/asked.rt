//! How often the fate of each packet on its way was asked.
use cl_types::NoMemory;
use std::alloc::Global;
use std::collections::HashMap;

/// How often fates were asked, by the number of the packet: 0 where nothing is noted.
#[derive(Drop)]
pub(crate) struct Asked {
    pub(crate) times: HashMap<u64, u32>,
}

impl Asked {
    ghost use Rattle.std.specs.Prelude.{◌≡◌, ℕ, OnOk};
    ghost use Rattle.cl_runs.specs.World.{with_at};
    ghost use Rattle.cl_schedule.specs.Asked.{one_more, times_in, times_met};

    /// Nothing was asked. It allocates nothing.
    pub(crate) fn new(alloc: Global) -> Asked
        ensures { (id : ℕ) → times_in result id ≡ 0 }
    {
        Asked {
            times: HashMap::new(alloc),
        }
    }

    /// How often the fate of a packet was asked.
    #[tactic(auto, using(crate::proofs::Unasked::none_asked))]
    pub(crate) fn times(&self, id: u64) -> u32
        ensures { result ≡ times_in self.now id }
    {
        if self.times.is_empty() {
            return 0;
        }
        self.times.get(&id).copied().unwrap_or(0)
    }

    // The fate of a packet was asked once more. It is counted up to the last number of 32 bits.
    fn count(&mut self, id: u64) -> Result<(), NoMemory>
        ensures { OnOk result ((other : ℕ) → times_in self.new other ≡ with_at (times_in self.old) id (one_more (times_in self.old id)) other) }
    {
        let times = self.times(id).saturating_add(1);
        self.times.insert(id, times)?;
        Ok(())
    }

    // The packet is no longer on its way.
    #[tactic(auto, using(crate::proofs::Unasked::none_forgotten))]
    fn forget(&mut self, id: u64)
        ensures { (other : ℕ) → times_in self.new other ≡ with_at (times_in self.old) id 0 other }
    {
        if !self.times.is_empty() {
            self.times.remove(&id);
        }
    }

    /// The fate of a packet was asked, after which it is gone or not.
    pub(crate) fn meet(&mut self, id: u64, gone: bool) -> Result<(), NoMemory>
        ensures { OnOk result ((other : ℕ) → times_in self.new other ≡ times_met gone (times_in self.old) id other) }
    {
        if gone {
            self.forget(id);
            Ok(())
        } else {
            self.count(id)
        }
    }
}
