use crate::numbers::Numbers;

/// The numbers of the entries of one origin, by their sequence numbers.
#[derive(Drop)]
pub(crate) struct Row {
    pub origin: u16,
    pub numbers: Numbers,
}
