//! The site, and its reader.
ghost use Rattle.std.specs.Prelude.{◌≡◌, ◌⊎◌, IfOk};
ghost use Rattle.toml_fields.specs.Table.{IsNoToml};
ghost use Rattle.rep_site.specs.Site.{IsSite};
ghost use Rattle.rep_site.specs.Reading.{IsSiteText, IsOffAt};
ghost use Rattle.rep_site.specs.declared.key.SiteKey.{SiteKey};
ghost use Rattle.rep_site.specs.declared.site.Site.{Site};

use crate::fault::SiteFault;
use crate::reading::site_of;
use rep_fields::{Cpf, EmployerId, RepNumber, Text};
use std::alloc::Global;
use toml_fields::{TomlFault, read_table};

/// The greatest number that a record may have: nine digits, as on the lines of records.
pub const GREATEST_NSR: u32 = 999_999_999;

/// Whose recorder it is, and what it may do.
#[derive(Clone, Copy, Debug)]
pub struct Site {
    /// The employer.
    pub employer: EmployerId,
    /// The CNO of the works, or the CAEPF, of at most 14 digits; 0 for none.
    pub cno: u64,
    /// The employer's name, of at least one byte.
    pub name: Text<150>,
    /// The place of work.
    pub place: Text<100>,
    /// Who is responsible for the recorder.
    pub responsible: Cpf,
    /// The recorder's registration, 17 digits.
    pub rep: RepNumber,
    /// Who made the recorder.
    pub developer: EmployerId,
    /// How many minutes the recorder's clock is ahead of UTC, -840 to 840.
    pub offset: i16,
    /// The last number that a record may have, 1 to 999,999,999.
    pub last_nsr: u32,
    /// How many times a recorder that stopped may be started again: 0.
    pub restarts: u8,
}

impl Site {
    /// The site that a text in TOML says.
    ///
    /// # Errors
    ///
    /// `SiteText` exactly where the text is no TOML document, `SiteField` exactly where it is one, with the first key
    /// that is off its grammar, and then with `Unknown` where there is another key. `OutOfMemory` where memory is short.
    pub fn read(alloc: Global, text: &[u8]) -> Result<Site, SiteFault>
        ensures ok { IfOk result (IsSiteText text.now) }
        ensures in_range { IfOk result IsSite }
        ensures not_toml { result ≡ Err SiteFault.SiteText → IsNoToml text.now }
        ensures first_bad_key { (key : SiteKey) → result ≡ Err (SiteFault.SiteField key) → IsOffAt text.now key }

        // A text that is a site is read as that site, and another is refused so, but for memory.
        ensures found { (site : Site) → IsSiteText text.now site
            → (result ≡ Ok site) ⊎ (result ≡ Err SiteFault.OutOfMemory) }
        ensures no_toml { IsNoToml text.now
            → (result ≡ Err SiteFault.SiteText) ⊎ (result ≡ Err SiteFault.OutOfMemory) }
        ensures refused { (key : SiteKey) → IsOffAt text.now key
            → (result ≡ Err (SiteFault.SiteField key)) ⊎ (result ≡ Err SiteFault.OutOfMemory) }
    {
        let table = match read_table(alloc, text) {
            Ok(table) => table,
            Err(TomlFault::NotToml) => return Err(SiteFault::SiteText),
            Err(TomlFault::OutOfMemory) => return Err(SiteFault::OutOfMemory),
        };
        match site_of(&table) {
            Ok(site) => Ok(site),
            Err(name) => Err(SiteFault::SiteField { name }),
        }
    }
}
