/// What a command works on: the texts that its words name, in their order; the files that it writes; the disk of its
/// journal, where the command has one; and the clock, where it uses one.
#[derive(Drop)]
pub struct Rig<S, K, D, C> {
    /// The texts that are read.
    pub texts: Vec<S>,
    /// The files that are written.
    pub outs: Vec<K>,
    pub disk: Option<D>,
    pub clock: Option<C>,
    /// The output: replies, counts and faults.
    pub out: K,
}

/// A rig after a command, and the status that the program ends with.
#[derive(Drop)]
pub struct Outcome<S, K, D, C> {
    pub rig: Rig<S, K, D, C>,
    pub status: u8,
}
