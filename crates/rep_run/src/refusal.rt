use rep_site::SiteKey;

/// Why a text or a disk's contents are refused.
#[derive(Clone, Copy, Debug, PartialEq, Eq)]
pub enum Refusal {
    /// The site's text is no TOML document.
    SiteText,
    /// The first key of the site's text that is missing, of another kind, off its grammar or unknown.
    SiteField(SiteKey),
    /// The lane has no first line, or it is no head.
    NoHead,
    /// The contents are of another kind.
    Foreign,
    /// There is no journal.
    Blank,
    /// There is a journal.
    Present,
    /// The journal is damaged: the place of the gate in front of the first frame that is broken or doesn't fit.
    Damaged { at: u64 },
}
