/// Where the frames of a piece end.
#[derive(Clone, Copy)]
pub(crate) enum Stop {
    /// At a closed gate.
    Closed,
    /// At an open gate that no whole frame and gate byte follow.
    Broken,
    /// Where the piece is cut off.
    Cut,
}
