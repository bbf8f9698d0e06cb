use crate::piece::Piece;

/// What comes next of a text that is cut into lines.
///
/// A line ends at LF, and a CR directly before that LF isn't part of it. Bytes behind the last LF are a line too.
#[derive(Drop)]
pub enum Next {
    /// A line of at most `LONGEST_LINE` bytes, its end not counted.
    Line {
        /// The line without its end.
        bytes: Piece,
        /// Whether CR and LF ended the line.
        crlf: bool,
    },
    /// A line of more than `LONGEST_LINE` bytes, its end not counted. It was passed over to its end.
    TooLong,
    /// There are no bytes left. Each later call answers the same.
    End,
    /// The source failed, and its count of faults rose. Nothing is lost: a later call goes on with the same line.
    SourceFault,
    /// More bytes came than a text may have, and no line ends before them. Each later call answers the same.
    InputLimit,
}
