//! The text of a site.
ghost use Rattle.std.specs.Prelude.{◌≡◌, ◌≢◌, ◌⊎◌, ◌≤◌, ℕ, List, Ok, Err, Some};
ghost use Rattle.rep_report.specs.declared.ending.Ending.{Ending};
ghost use Rattle.rep_run.specs.declared.stopping.Stopping.{Stopping};
ghost use Rattle.rep_site.specs.declared.site.Site.{Site};
ghost use Rattle.rep_run.specs.Settings.{ReadsSite, SaysSite};
ghost use Rattle.rep_run.specs.Steps.{FailsToRead, reading_ending, site_stopping};

use crate::refusal::Refusal;
use crate::stopping::Stopping;
use rep_io::{ReadFault, Source, read_whole};
use rep_report::Ending;
use rep_site::{Site, SiteFault};
use std::alloc::Global;

/// The site whose text the source gives.
///
/// # Errors
///
/// A refusal where the text is no site's. `SourceFault` exactly where the source failed in this call, `InputLimit` where the
/// text is too long. `OutOfMemory`.
pub fn read_site<S: Source>(alloc: Global, source: &mut S) -> Result<Site, Stopping>
    ensures reads { ReadsSite S.left S.faults source.old source.new result }
    ensures later { S.faults source.old ≤ S.faults source.new }
    // No failure of the source is passed over.
    ensures no_fault { result ≢ Err (Stopping.Ended Ending.SourceFault) → S.faults source.new ≡ S.faults source.old }
    // The text of a site is read as that site, unless memory is short or the source fails.
    ensures found { (text : List ℕ) (site : Site) → S.left source.old ≡ Some text → SaysSite text site
        → (result ≡ Ok site) ⊎ FailsToRead (S.faults source.old) (S.faults source.new) result }
{
    let text = match read_whole(alloc, source) {
        Ok(text) => text,
        Err(fault) => return Err(Stopping::Ended(reading_ending(fault))),
    };
    match Site::read(alloc, &text) {
        Ok(site) => Ok(site),
        Err(fault) => Err(site_stopping(fault)),
    }
}

// How a command ends where a text can't be read.
fn reading_ending(fault: ReadFault) -> Ending
    ensures { result ≡ reading_ending fault }
{
    match fault {
        ReadFault::SourceFault => Ending::SourceFault,
        ReadFault::InputLimit => Ending::InputLimit,
        ReadFault::OutOfMemory => Ending::OutOfMemory,
    }
}

// How a command stops where a text is no site's.
fn site_stopping(fault: SiteFault) -> Stopping
    ensures { result ≡ site_stopping fault }
{
    match fault {
        SiteFault::SiteText => Stopping::Refused(Refusal::SiteText),
        SiteFault::SiteField { name } => Stopping::Refused(Refusal::SiteField(name)),
        SiteFault::OutOfMemory => Stopping::Ended(Ending::OutOfMemory),
    }
}
