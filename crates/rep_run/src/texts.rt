//! The texts of `run`: the site's, and the head of the lane.
ghost use Rattle.std.specs.Prelude.{◌≡◌, ◌≢◌, ◌≤◌, ℕ, List, IfOk, IfErr, Err, Some};
ghost use Rattle.rep_report.specs.declared.ending.Ending.{Ending};
ghost use Rattle.rep_run.specs.declared.stopping.Stopping.{Stopping};
ghost use Rattle.rep_site.specs.declared.site.Site.{Site};
ghost use Rattle.rep_run.specs.Settings.{SaysSite};
ghost use Rattle.rep_run.specs.Steps.{BeginsTexts, IsSiteRefusal, StopsAtTexts, head_stopping};

use crate::refusal::Refusal;
use crate::settings::read_site;
use crate::stopping::Stopping;
use rep_io::{Lines, Source};
use rep_lane::{NoHead, read_head};
use rep_report::Ending;
use rep_site::Site;
use rep_wire::LaneHead;
use std::alloc::Global;

/// What the texts say before the store is opened.
#[derive(Clone, Copy, Debug)]
pub struct Texts {
    pub site: Site,
    pub head: LaneHead,
}

/// The site, and then the head of the lane, of which no line was read before.
///
/// # Errors
///
/// A refusal of the site's text, or `NoHead` of the lane. `SourceFault` exactly where one of the sources failed in this call,
/// `InputLimit` where a text is too long. `OutOfMemory`.
pub fn read_texts<S: Source>(
    alloc: Global,
    site: &mut S,
    lines: &mut Lines<S>,
) -> Result<Texts, Stopping>
    ensures begins { IfOk result (BeginsTexts S.left site.old lines.old lines.new) }
    ensures stops { IfErr result (StopsAtTexts S.left S.faults site.old site.new lines.old lines.new) }
    ensures site_later { S.faults site.old ≤ S.faults site.new }
    ensures lane_later { S.faults lines.old.source ≤ S.faults lines.new.source }
    // No failure of a source is passed over.
    ensures no_site_fault { result ≢ Err (Stopping.Ended Ending.SourceFault) → S.faults site.new ≡ S.faults site.old }
    ensures no_lane_fault { result ≢ Err (Stopping.Ended Ending.SourceFault)
        → S.faults lines.new.source ≡ S.faults lines.old.source }
    // The text of a site isn't refused.
    ensures found { (text : List ℕ) (site_said : Site) → S.left site.old ≡ Some text → SaysSite text site_said
        → IfErr result (λ stopping. ¬ IsSiteRefusal stopping) }
{
    let settings = match read_site(alloc, site) {
        Ok(settings) => settings,
        Err(stopping) => return Err(stopping),
    };
    match read_head(lines) {
        Ok(head) => Ok(Texts {
            site: settings,
            head,
        }),
        Err(why) => Err(head_stopping(why)),
    }
}

// How a command stops where a lane has no head.
fn head_stopping(why: NoHead) -> Stopping
    ensures { result ≡ head_stopping why }
{
    match why {
        NoHead::OffGrammar => Stopping::Refused(Refusal::NoHead),
        NoHead::SourceFault => Stopping::Ended(Ending::SourceFault),
        NoHead::InputLimit => Stopping::Ended(Ending::InputLimit),
    }
}
