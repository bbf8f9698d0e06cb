//! The recording days of a history.
ghost use Rattle.std.specs.Prelude.{◌≡◌, IfOk, List};
ghost use Rattle.rep_wire.specs.declared.request.Entry.{Entry};
ghost use Rattle.rep_core.specs.Core.{Stands};
ghost use Rattle.rep_core.specs.History.{days_of};

use afd_records::recorded;
use rep_core::Core;
use rep_fields::Day;
use rep_io::OutOfMemory;
use std::alloc::Global;
use std::marker::Model;

/// The recording days of entries, by number.
#[derive(Drop)]
pub struct DayList {
    days: Vec<u32>,
}

impl Model for DayList {
    ghost use Rattle.std.specs.Prelude.{◌-◌, vec_len, vec_capacity};
    ghost use Rattle.rep_store.specs.Days.{Days};

    ghost Value = { Days };

    ghost view = { λ d. record { days = d.days.items; room = vec_capacity d.days - vec_len d.days } };
}

impl DayList {
    ghost use Rattle.std.specs.Prelude.{◌≡◌, ◌≤◌, ◌++◌, [], ◌∷◌, OnOk};

    /// No days.
    pub fn new(alloc: Global) -> DayList
        ensures { result.days ≡ [] }
    {
        DayList {
            days: Vec::new(alloc),
        }
    }

    /// Makes room for one day more.
    pub fn reserve(&mut self) -> Result<(), OutOfMemory>
        ensures made { OnOk result (1 ≤ self.new.room) }
        ensures kept { self.new.days ≡ self.old.days }
    {
        self.days.reserve(1)?;
        Ok(())
    }

    /// Appends the day of the next entry.
    pub fn push(&mut self, day: Day)
        requires { 1 ≤ self.old.room }
        ensures { self.new.days ≡ self.old.days ++ day ∷ [] }
    {
        self.days.push_reserved(day.number);
    }

    /// The days.
    pub fn list(&self) -> &[u32]
        ensures { result.now ≡ self.now.days }
    {
        &self.days
    }
}

/// The recording days of the core's history.
pub fn days_of(alloc: Global, core: &Core) -> Result<DayList, OutOfMemory>
    ensures { IfOk result (λ list. (h : List Entry) → Stands core.now h → list.days ≡ days_of h) }
{
    let mut list = DayList::new(alloc);
    for place in 0..core.count() {
        list.reserve()?;
        list.push(recorded(&core.entry(place + 1).body).day());
    }
    Ok(list)
}
