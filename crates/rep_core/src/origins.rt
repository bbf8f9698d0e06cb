ghost use Rattle.std.specs.Prelude.{◌≡◌, ◌≢◌, ◌==◌, ◌≤◌, ◌↔◌, ℕ, [], Some, OnOk, IsTrue, position};
ghost use Rattle.rep_core.specs.Index.{number_in, room_in, SetsPair};

use crate::numbers::Numbers;
use crate::row::Row;
use rep_io::OutOfMemory;
use std::alloc::Global;
use std::marker::Model;

/// The numbers of the entries by the pairs that they came by: for each origin those of its sequence numbers.
#[derive(Drop)]
pub(crate) struct Origins {
    rows: Vec<Row>,
}

impl Model for Origins {
    ghost use Rattle.std.specs.Prelude.{List};
    ghost use Rattle.rep_core.specs.declared.row.Row.{Row as TheRow};

    ghost Value = { List TheRow };

    ghost view = { λ o. o.rows.items };
}

impl Origins {
    /// No origins. It takes no memory yet.
    pub fn new(alloc: Global) -> Origins
        ensures { result ≡ [] }
    {
        Origins {
            rows: Vec::new(alloc),
        }
    }

    /// The number of the pair, or `None` where it has none.
    pub fn get(&self, origin: u16, seq: u64) -> Option<u32>
        ensures { result ≡ number_in self.now origin seq }
    {
        let Some(place) = self.place(origin) else {
            return None;
        };
        self.rows[place].numbers.get(seq)
    }

    /// Whether there is room for one pair more of the origin.
    pub fn has_room(&self, origin: u16) -> bool
        ensures { IsTrue result ↔ (1 ≤ room_in self.now origin) }
    {
        let Some(place) = self.place(origin) else {
            return false;
        };
        self.rows[place].numbers.has_room()
    }

    /// Takes the memory for one pair more of the origin.
    pub fn reserve(&mut self, origin: u16) -> Result<(), OutOfMemory>
        ensures same { (other seq : ℕ) → number_in self.new other seq ≡ number_in self.old other seq }
        ensures made { OnOk result (1 ≤ room_in self.new origin) }
        ensures rooms { (other : ℕ) → room_in self.old other ≤ room_in self.new other }
    {
        let Some(place) = self.place(origin) else {
            return self.begin(origin);
        };
        let row = &mut self.rows[place];
        row.numbers.reserve()
    }

    // An origin more, with room for one pair.
    fn begin(&mut self, origin: u16) -> Result<(), OutOfMemory>
        requires { position (λ row. row.origin == origin) self.old ≡ None }
        ensures same { (other seq : ℕ) → number_in self.new other seq ≡ number_in self.old other seq }
        ensures made { OnOk result (1 ≤ room_in self.new origin) }
        ensures rooms { (other : ℕ) → room_in self.old other ≤ room_in self.new other }
    {
        let mut numbers = Numbers::new(*self.rows.allocator());
        numbers.reserve()?;
        self.rows.push(Row { origin, numbers })?;
        Ok(())
    }

    /// Gives the pair this number. It takes no memory.
    pub fn set(&mut self, origin: u16, seq: u64, number: u32)
        requires { 1 ≤ room_in self.old origin }
        ensures { SetsPair self.old self.new origin seq number }
    {
        let Some(place) = self.place(origin) else {
            unreachable!()
        };
        let row = &mut self.rows[place];
        row.numbers.set(seq, number);
    }

    // Where the origin stands.
    fn place(&self, origin: u16) -> Option<usize>
        ensures { result ≡ position (λ row. row.origin == origin) self.now }
    {
        self.rows.iter().position(|row| row.origin == origin)
    }
}
