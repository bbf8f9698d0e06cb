ghost use Rattle.std.specs.Prelude.{◌≡◌, ◌+◌, ◌≤◌, ◌↔◌, [], IsTrue, IfOk, IfErr, OnOk};
ghost use Rattle.rep_core.specs.Numbers.{number_of, IsAt, IsGapFor, SetsOnly};

use rep_io::OutOfMemory;
use std::alloc::Global;
use std::marker::Model;

/// Numbers of entries by a key of their own, in the order of the keys.
#[derive(Drop)]
pub(crate) struct Numbers {
    pairs: Vec<(u64, u32)>,
}

impl Model for Numbers {
    ghost use Rattle.std.specs.Prelude.{◌-◌, vec_len, vec_capacity};
    ghost use Rattle.rep_core.specs.Numbers.{Keyed, IsStrictlySorted};

    ghost Value = { Keyed };

    ghost view = { λ n. record {
      pairs = n.pairs.items;
      room = vec_capacity n.pairs - vec_len n.pairs;
    } };

    ghost invariant = { λ n. IsStrictlySorted n.pairs.items };
}

impl Numbers {
    /// No numbers. It takes no memory yet.
    pub fn new(alloc: Global) -> Numbers
        ensures { result.pairs ≡ [] }
    {
        Numbers {
            pairs: Vec::new(alloc),
        }
    }

    /// The number of the key, or `None` where it has none.
    pub fn get(&self, key: u64) -> Option<u32>
        ensures { result ≡ number_of self.now.pairs key }
    {
        match self.search(key) {
            Ok(at) => Some(self.pairs[at].1),
            Err(_) => None,
        }
    }

    /// Whether there is room for one key more.
    pub fn has_room(&self) -> bool
        ensures { IsTrue result ↔ (1 ≤ self.now.room) }
    {
        self.pairs.len() < self.pairs.capacity()
    }

    /// Takes the memory for one key more.
    pub fn reserve(&mut self) -> Result<(), OutOfMemory>
        ensures pairs { self.new.pairs ≡ self.old.pairs }
        ensures made { OnOk result (1 ≤ self.new.room) }
        ensures room { self.old.room ≤ self.new.room }
    {
        self.pairs.reserve(1)?;
        Ok(())
    }

    /// Gives the key this number, in place of one that it has. It takes no memory.
    pub fn set(&mut self, key: u64, number: u32)
        requires { 1 ≤ self.old.room }
        ensures number { SetsOnly self.old.pairs self.new.pairs key number }
        ensures room { self.old.room ≤ self.new.room + 1 }
    {
        match self.search(key) {
            Ok(at) => self.pairs[at] = (key, number),
            Err(at) => {
                let Ok(()) = self.pairs.insert(at, (key, number)) else {
                    unreachable!()
                };
            }
        }
    }

    // Where the key is, or where it would go.
    fn search(&self, key: u64) -> Result<usize, usize>
        ensures found { IfOk result (IsAt self.now.pairs key) }
        ensures absent { IfErr result (IsGapFor self.now.pairs key) }
    {
        self.pairs.binary_search_by_key(&key, |&(k, _)| k)
    }
}
