//! The request that founds the journal of a site.
ghost use Rattle.std.specs.Prelude.{◌≡◌};
ghost use Rattle.rep_wire.specs.Request.{IsFounding};
ghost use Rattle.rep_site.specs.Site.{IsSite};
ghost use Rattle.rep_store.specs.Founding.{founding_request};

use rep_site::Site;
use rep_wire::{Ask, Request};

/// The site's employer, under the origin 0 and the number 0, which no lane has.
pub fn founding_request(site: &Site) -> Request
    requires { IsSite site.now }
    ensures value { result ≡ founding_request site.now }
    ensures founding { IsFounding result }
{
    Request {
        origin: 0,
        seq: 0,
        ask: Ask::Employer {
            resp: site.responsible,
            id: site.employer,
            cno: site.cno,
            name: site.name,
            place: site.place,
        },
    }
}
