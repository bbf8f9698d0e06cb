/// Why an AFD wasn't written wholly.
#[derive(Clone, Copy, Debug, PartialEq, Eq)]
pub enum WriteFail {
    /// The disk failed.
    DeviceFault,
    /// The sink failed.
    SinkFault,
}
