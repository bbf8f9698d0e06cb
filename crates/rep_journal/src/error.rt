/// The disk failed. Whoever answers it has counted it.
#[derive(Clone, Copy, Debug, PartialEq, Eq)]
pub struct DeviceFault;

/// Why there is no journal on a disk.
#[derive(Clone, Copy, Debug, PartialEq, Eq)]
pub enum WhyNot {
    /// The contents aren't blank and lack the magic.
    Foreign,
    /// The contents aren't blank and have the magic.
    Present,
    /// The contents are blank.
    Blank,
    /// The gate at `at` is open, and no whole frame and gate byte follow it.
    Damaged {
        /// The place of the gate, in bytes from the start of the contents.
        at: u64,
    },
    /// The disk failed in this call.
    DeviceFault,
    /// There was not enough memory, or there are more frames than a journal can have.
    OutOfMemory,
}

/// A disk on which no journal was made or found.
#[derive(Drop)]
pub struct NotMade<D> {
    /// The disk, handed back.
    pub disk: D,
    /// Why.
    pub why: WhyNot,
}

/// A journal that ended, since the disk failed while a frame was put. Its contents have the frames from before, with
/// the new one or without it.
#[derive(Drop)]
pub struct Stopped<D> {
    /// The disk, handed back.
    pub disk: D,
    /// How often the disk has failed for this journal, the last time in this call. It is at least 1.
    pub faults: u64,
    /// How many frames the journal had before.
    pub count: u32,
}
