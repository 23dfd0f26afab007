//! How often each of some keys came.

ghost use Rattle.std.specs.FinMap as map;
ghost use Rattle.std.specs.Prelude.{◌≡◌, IfOk, OnErr, OnOk};
ghost use Rattle.turn_log.specs.Tallies.{count_of, one_more, tallied};

use std::alloc::{AllocError, Global};
use std::collections::BTreeMap;
use std::marker::Model;

/// How often each of some keys came. A key is a user's name, or a port in two bytes.
#[derive(Drop)]
pub struct Tally {
    alloc: Global,
    counts: BTreeMap<Vec<u8>, u64>,
}

impl Model for Tally {
    ghost use Rattle.turn_log.specs.Tallies.{Tallied, tallied, tallied_code};

    ghost Value = { Tallied };

    ghost coded = { tallied_code };

    ghost view = { λ t. tallied t.counts.entries };
}

impl Tally {
    pub(crate) fn new(alloc: Global) -> Tally
        ensures { result ≡ map.empty }
    {
        Tally {
            alloc,
            counts: BTreeMap::new(alloc),
        }
    }

    /// Counts a key. Returns how often it came before. After an `Err` the counts are as before.
    pub(crate) fn count(&mut self, key: &[u8]) -> Result<u64, AllocError>
        ensures before { IfOk result (λ before. before ≡ count_of self.old key.now) }
        ensures counted { OnOk result (self.new ≡ one_more self.old key.now) }
        ensures err { OnErr result (self.new ≡ self.old) }
    {
        let before = self.counts.get(key).copied().unwrap_or(0);
        let key = Vec::from_slice(self.alloc, key)?;
        self.counts.insert(key, before.saturating_add(1))?;
        Ok(before)
    }

    /// Each key, with how often it came.
    pub fn counts(&self) -> &BTreeMap<Vec<u8>, u64>
        ensures { tallied result.now.entries ≡ self.now }
    {
        &self.counts
    }
}
