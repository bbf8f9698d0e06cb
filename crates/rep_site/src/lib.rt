//! The site: whose recorder it is, and what it may do, as a file in TOML says it (`site.toml`). The reader answers the
//! site, or the first key that is off. The texts of the errors are for people: a fault line has `SiteKey::name`.
#![tactic(auto)]

mod fault;
mod key;
mod laws;
mod reading;
mod site;

pub use fault::SiteFault;
pub use key::SiteKey;
pub use laws::sound_keys_say_a_site;
pub use site::{GREATEST_NSR, Site};
