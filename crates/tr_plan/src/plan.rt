//! The plan, and its reader.
ghost use Rattle.std.specs.Prelude.{◌≡◌, ◌≢◌, ◌⊎◌, IfOk, IfErr};
ghost use Rattle.toml.specs.View.{table_view};
ghost use Rattle.toml_fields.specs.Table.{IsNoToml};
ghost use Rattle.tr_plan.specs.Plan.{IsPlan};
ghost use Rattle.tr_plan.specs.Reading.{IsPlanText, IsPlanOf, IsFaultOf, IsFirstCause};
ghost use Rattle.tr_plan.specs.declared.fault.PlanFault.{PlanFault};
ghost use Rattle.tr_plan.specs.declared.plan.Plan.{Plan};

use crate::absence::{Absence, absences_of};
use crate::check::{overlap, unknown_code};
use crate::disregard::disregards_of;
use crate::disregards::{Disregards, disregards_from};
use crate::fault::PlanFault;
use crate::include::{Include, includes_of};
use crate::link::links_of;
use crate::links::{Links, links_from};
use crate::program::{Program, program_of};
use crate::rows::{Rows, rows_of};
use crate::schedule::{Schedule, schedules_of};
use std::alloc::Global;
use toml::Table;
use toml_fields::{TomlFault, has_only, read_table};

const TABLES: [&str; 6] = [
    "program",
    "schedule",
    "link",
    "disregard",
    "include",
    "absence",
];

/// Working hours in the order of the file.
pub type Schedules = Rows<Schedule>;

/// Included marks in the order of the file.
pub type Includes = Rows<Include>;

/// Absences in the order of the file.
pub type Absences = Rows<Absence>;

/// What a treatment goes by.
#[derive(Debug, Drop)]
pub struct Plan {
    /// The program, and what its AEJ says of recorder and employer.
    pub program: Program,
    /// The working hours.
    pub schedules: Schedules,
    /// Who works under them. Links of one CPF have no day in common.
    pub links: Links,
    /// The clockings that don't count.
    pub disregards: Disregards,
    /// The marks that are put in by hand.
    pub includes: Includes,
    /// Days off and movements of the hour bank.
    pub absences: Absences,
}

impl Plan {
    /// The plan that a text in TOML says.
    ///
    /// # Errors
    ///
    /// `PlanText` exactly where the text is no TOML document; another fault exactly where it is one, and the fault is its
    /// first: tables by number, rows by place, keys by number, another key of a row behind them, another table behind the
    /// tables, and then the codes and the dates of links. `OutOfMemory` where memory is short.
    pub fn read(alloc: Global, text: &[u8]) -> Result<Plan, PlanFault>
        ensures ok { IfOk result (IsPlanText text.now) }
        ensures in_range { IfOk result IsPlan }
        ensures not_toml { result ≡ Err PlanFault.PlanText → IsNoToml text.now }
        ensures first_fault { IfErr result (λ fault. fault ≢ PlanFault.PlanText
            → fault ≢ PlanFault.OutOfMemory → IsFaultOf text.now fault) }

        // A text that is a plan is read as that plan, and another is refused so, but for memory.
        ensures found { (plan : Plan) → IsPlanText text.now plan
            → (result ≡ Ok plan) ⊎ (result ≡ Err PlanFault.OutOfMemory) }
        ensures no_toml { IsNoToml text.now
            → (result ≡ Err PlanFault.PlanText) ⊎ (result ≡ Err PlanFault.OutOfMemory) }
        ensures refused { (fault : PlanFault) → IsFaultOf text.now fault
            → (result ≡ Err fault) ⊎ (result ≡ Err PlanFault.OutOfMemory) }
    {
        let table = match read_table(alloc, text) {
            Ok(table) => table,
            Err(TomlFault::NotToml) => return Err(PlanFault::PlanText),
            Err(TomlFault::OutOfMemory) => return Err(PlanFault::OutOfMemory),
        };
        plan_of(alloc, &table)
    }
}

// The plan that the table says, or its first fault.
fn plan_of(alloc: Global, table: &Table) -> Result<Plan, PlanFault>
    ensures ok { IfOk result (IsPlanOf (table_view table.now)) }
    ensures off { IfErr result (IsFirstCause (table_view table.now)) }
{
    let program = match program_of(table) {
        Ok(program) => program,
        Err(key) => return Err(PlanFault::PlanField {
            table: 1,
            place: 0,
            key: key.number(),
        }),
    };
    let schedules = schedules_of(alloc, table)?;
    let links = links_of(alloc, table)?;
    let disregards = disregards_of(alloc, table)?;
    let includes = includes_of(alloc, table, &links)?;
    let absences = absences_of(alloc, table, &links)?;
    if !has_only(table, &TABLES) {
        return Err(PlanFault::PlanField {
            table: 0,
            place: 0,
            key: 0,
        });
    }
    if let Some(place) = unknown_code(&schedules.codes, &links.links) {
        return Err(PlanFault::UnknownCode { place });
    }
    let Ok(met) = overlap(alloc, &links.links) else {
        return Err(PlanFault::OutOfMemory);
    };
    if let Some(cpf) = met {
        return Err(PlanFault::Overlap { cpf });
    }
    Ok(Plan {
        program,
        schedules: rows_of(schedules.schedules)?,
        links: links_from(alloc, links.links)?,
        disregards: disregards_from(disregards)?,
        includes: rows_of(includes)?,
        absences: rows_of(absences)?,
    })
}
