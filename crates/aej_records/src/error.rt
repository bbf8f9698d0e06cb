/// A line that is off the grammar of an AEJ's lines.
#[derive(Clone, Copy, Debug, PartialEq, Eq)]
pub struct BadAej {
    /// The number of the first field that is off its grammar, counted from 1, which is the line's type. A missing field
    /// counts as empty, and a field behind the last one of its type has its own number.
    pub field: u8,
}
