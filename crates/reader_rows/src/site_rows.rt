//! Rows of site files.

use crate::answer::Answer;
use crate::fault::Fault;
use crate::told::Told;
use rep_site::{Site, SiteFault};
use std::alloc::{AllocError, Global};

/// The site that a text is, or its first key that is off.
pub(crate) fn site_answer(alloc: Global, text: &[u8]) -> Result<Answer, Fault> {
    let mut told = Told::new(alloc);
    match Site::read(alloc, text) {
        Ok(site) => push_site(&mut told, &site)?,
        Err(SiteFault::SiteText) => told.word(b"no TOML")?,
        Err(SiteFault::SiteField { name }) => told.shown(b"off", name.name().as_bytes())?,
        Err(SiteFault::OutOfMemory) => return Err(Fault::Memory),
    }
    Ok(Answer::of(alloc, text, told)?)
}

fn push_site(told: &mut Told, site: &Site) -> Result<(), AllocError> {
    told.employer(&site.employer)?;
    told.number(b"cno", site.cno)?;
    told.text(b"name", site.name.bytes())?;
    told.text(b"place", site.place.bytes())?;
    told.cpf(b"responsible", &site.responsible)?;
    told.shown(b"rep", site.rep.bytes())?;
    told.word(b"developer")?;
    told.employer(&site.developer)?;
    told.signed(b"offset", i64::from(site.offset))?;
    told.number(b"last_nsr", u64::from(site.last_nsr))?;
    told.number(b"restarts", u64::from(site.restarts))
}
