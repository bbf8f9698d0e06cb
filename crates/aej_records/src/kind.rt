/// The type of a line, its first field.
#[derive(Clone, Copy, Debug, PartialEq, Eq)]
pub enum LineType {
    /// `01`.
    Head,
    /// `02`.
    Rep,
    /// `03`.
    Link,
    /// `04`.
    Schedule,
    /// `05`.
    Mark,
    /// `06`.
    Registration,
    /// `07`.
    Absence,
    /// `08`.
    Program,
    /// `99`.
    Counts,
}
