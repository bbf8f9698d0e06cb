/// An event that named a message while the recorder was up.
#[derive(Clone, Copy)]
pub struct Naming {
    /// The message's number.
    pub message: u32,
    /// The minute of the event, since 1970-01-01T00:00 UTC.
    pub minute: u32,
}
