/// Where a schedule can be steered from outside, as a test does that shows lanes at work at the same time. It
/// promises nothing, and the real one does nothing.
pub trait Gate {
    /// A lane is about to ask for the line of this number. Lanes are numbered from 1.
    fn arrive(&self, lane: u32, line: u64);

    /// The lane has written its reply to the line.
    fn answered(&self, lane: u32, line: u64);
}

/// The gate that does nothing.
#[derive(Clone, Copy, Debug)]
pub struct OpenGate;

impl Gate for OpenGate {
    fn arrive(&self, _lane: u32, _line: u64) {}

    fn answered(&self, _lane: u32, _line: u64) {}
}
