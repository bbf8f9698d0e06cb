/// What becomes of the pending bytes in a crash: three of the images that a disk in memory can name.
#[derive(Clone, Copy, Debug, PartialEq, Eq)]
pub enum Image {
    /// As before, with the least length since the last sync.
    Old,
    /// As they were written, with the greatest length since the last sync.
    New,
    /// Each is `0x37`, with the greatest length since the last sync.
    Odd,
}
