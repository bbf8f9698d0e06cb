//! Why a text is no site.
use crate::key::SiteKey;
use thiserror::Error;

/// A text isn't read as a site.
#[derive(Clone, Copy, Debug, PartialEq, Eq, Error)]
pub enum SiteFault {
    /// The text is no TOML document.
    #[error("not a TOML document")]
    SiteText,
    /// The first key that is missing, of another kind, off its grammar or unknown.
    #[error("key {name} is missing, unknown or not as it must be")]
    SiteField { name: SiteKey },
    /// There was not enough memory.
    #[error("not enough memory")]
    OutOfMemory,
}
