/// A change of the contents, as the record of a disk in memory keeps it.
#[derive(Clone, Copy)]
pub(crate) struct Change {
    /// The moment within the call.
    pub begun: u64,
    /// The moment after the first sync that made sure of it.
    pub synced: Option<u64>,
    /// What was asked.
    pub kind: Kind,
    /// Whether the call failed.
    pub failed: bool,
}

/// What a change asks of the contents.
#[derive(Clone, Copy)]
pub(crate) enum Kind {
    /// A piece of `size` bytes from `at` on.
    Write { at: usize, size: usize },
    /// A length.
    Cut { size: usize },
}
