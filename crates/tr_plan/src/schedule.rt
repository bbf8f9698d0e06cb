//! The tables `schedule`.
ghost use Rattle.std.specs.Prelude.{◌≡◌, ◌↔◌, List, IfOk, IfErr, IsTrue};
ghost use Rattle.rep_fields.specs.Latin.{IsText, padded};
ghost use Rattle.toml.specs.View.{view, table_view};
ghost use Rattle.toml_fields.specs.Answering.{Finds};
ghost use Rattle.tr_plan.specs.Index.{HasCodes};
ghost use Rattle.tr_plan.specs.Reading.{IsCause, schedules_part};
ghost use Rattle.tr_plan.specs.Rows.{IsRow};
ghost use Rattle.tr_plan.specs.Schedule.{HasSchedules, IsScheduleOf, SaysTimes, schedule_number, IsScheduleFault, IsTimesCount};
ghost use Rattle.tr_plan.specs.declared.schedule.Schedule.{Schedule};

use crate::fault::PlanFault;
use crate::fields::plain_text_at;
use crate::rows::Rows;
use crate::table::rows_at;
use rep_fields::{Text, put_a, read_time_of_day};
use std::alloc::{AllocError, Global};
use std::collections::BTreeSet;
use toml::{Table, Value};
use toml_fields::{array_at, has_only, number_at};

const TABLE: &str = "schedule";

const NUMBER: u8 = 2;

const KEYS: [&str; 3] = ["code", "minutes", "times"];

/// How many bytes the code of a schedule has at most.
const CODE_LEN: usize = 30;

// How many entries and exits a schedule has: 1 to 10 pairs.
const FEWEST_TIMES: usize = 2;

const MOST_TIMES: usize = 20;

/// Minutes of the day, each 0 to 1439.
pub type Hours = Rows<u32>;

/// Working hours (record 04 of Portaria MTP 671/2021, annex VI).
#[derive(Debug, Drop)]
pub struct Schedule {
    /// The code (`codHorContratual`), 1 to 30 bytes.
    pub code: Text<30>,
    /// The minutes of a journey (`durJornada`), 1 to 1440.
    pub minutes: u32,
    /// Entries and exits in turn (`hrEntrada` and `hrSaida`), 1 to 10 pairs.
    pub times: Hours,
}

/// A key of a row, in the order of their numbers.
#[derive(Clone, Copy, Debug, PartialEq, Eq)]
pub(crate) enum ScheduleKey {
    Code,
    Minutes,
    Times,
    Unknown,
}

impl ScheduleKey {
    /// The number by which a fault names the key.
    pub(crate) fn number(&self) -> u8
        ensures { result ≡ schedule_number self.now }
    {
        match self {
            ScheduleKey::Code => 1,
            ScheduleKey::Minutes => 2,
            ScheduleKey::Times => 3,
            ScheduleKey::Unknown => 0,
        }
    }
}

/// A row isn't read as a schedule.
#[derive(Clone, Copy, Debug, PartialEq, Eq)]
pub(crate) enum ScheduleFault {
    /// The first key that is off.
    Off(ScheduleKey),
    /// There was not enough memory.
    OutOfMemory,
}

/// The schedules of a plan, and their codes.
#[derive(Drop)]
pub(crate) struct ScheduleTable {
    pub schedules: Vec<Schedule>,
    pub codes: BTreeSet<[u8; CODE_LEN]>,
}

/// The schedules that the tables say, or the first fault.
pub(crate) fn schedules_of(alloc: Global, table: &Table) -> Result<ScheduleTable, PlanFault>
    ensures ok { IfOk result (λ t. HasSchedules (table_view table.now) t.schedules.items) }
    ensures codes { IfOk result (λ t. HasCodes t.codes t.schedules.items) }
    ensures off { IfErr result (IsCause (table_view table.now) schedules_part) }
{
    let Some(rows) = rows_at(table, TABLE) else {
        return Err(PlanFault::PlanField {
            table: NUMBER,
            place: 0,
            key: 0,
        });
    };
    let mut schedules = Vec::new(alloc);
    let mut codes = BTreeSet::new(alloc);
    for (i, value) in rows.iter().enumerate() {
        let Ok(place) = u32::try_from(i + 1) else {
            return Err(PlanFault::OutOfMemory);
        };
        let schedule = match schedule_of(alloc, value, &codes) {
            Ok(schedule) => schedule,
            Err(ScheduleFault::Off(key)) => {
                return Err(PlanFault::PlanField {
                    table: NUMBER,
                    place,
                    key: key.number(),
                });
            }
            Err(ScheduleFault::OutOfMemory) => return Err(PlanFault::OutOfMemory),
        };
        let Ok(_) = codes.insert(code_key(&schedule.code)) else {
            return Err(PlanFault::OutOfMemory);
        };
        let Ok(_) = schedules.push(schedule) else {
            return Err(PlanFault::OutOfMemory);
        };
    }
    Ok(ScheduleTable { schedules, codes })
}

// The schedule that a row says, behind those whose codes are used.
fn schedule_of(
    alloc: Global,
    value: &Value,
    codes: &BTreeSet<[u8; CODE_LEN]>,
) -> Result<Schedule, ScheduleFault>
    ensures ok { IfOk result (λ schedule. (earlier : List Schedule) → HasCodes codes.now earlier
        → IsRow (IsScheduleOf earlier) (view value.now) schedule) }
    ensures off { IfErr result (λ fault. (earlier : List Schedule) → HasCodes codes.now earlier
        → IsScheduleFault earlier (view value.now) fault) }
{
    let Some(row) = value.as_table() else {
        return Err(ScheduleFault::Off(ScheduleKey::Unknown));
    };
    let Some(code) = plain_text_at(row, "code", 1) else {
        return Err(ScheduleFault::Off(ScheduleKey::Code));
    };
    if codes.contains(&code_key(&code)) {
        return Err(ScheduleFault::Off(ScheduleKey::Code));
    }
    let Some(minutes) = number_at(row, "minutes", 1, 1440) else {
        return Err(ScheduleFault::Off(ScheduleKey::Minutes));
    };
    let times = match times_at(alloc, row) {
        Ok(Some(times)) => times,
        Ok(None) => return Err(ScheduleFault::Off(ScheduleKey::Times)),
        Err(_) => return Err(ScheduleFault::OutOfMemory),
    };
    if !has_only(row, &KEYS) {
        return Err(ScheduleFault::Off(ScheduleKey::Unknown));
    }
    Ok(Schedule {
        code,
        minutes,
        times,
    })
}

// The times of a row.
fn times_at(alloc: Global, row: &Table) -> Result<Option<Hours>, AllocError>
    ensures { IfOk result (Finds (SaysTimes (table_view row.now))) }
{
    let Some(array) = array_at(row, "times") else {
        return Ok(None);
    };
    if !is_times_count(array.len()) {
        return Ok(None);
    }
    let mut minutes = Vec::new(alloc);
    for value in array {
        let Some(text) = value.as_str() else {
            return Ok(None);
        };
        let Some(minute) = read_time_of_day(text.as_bytes()) else {
            return Ok(None);
        };
        minutes.push(minute)?;
    }
    Ok(Rows::make(minutes))
}

// Whether a schedule may have so many times.
fn is_times_count(count: usize) -> bool
    ensures { IsTrue result ↔ IsTimesCount count }
{
    count >= FEWEST_TIMES && count <= MOST_TIMES && count % 2 == 0
}

/// The code, filled with spaces.
pub(crate) fn code_key(code: &Text<CODE_LEN>) -> [u8; CODE_LEN]
    ensures value { result ≡ padded CODE_LEN code.now }
    ensures text { IsText CODE_LEN code.now }
{
    let mut key = [0; CODE_LEN];
    put_a(&mut key, code.bytes());
    key
}
