/// A line that isn't one of a record, or isn't a head.
#[derive(Clone, Copy, Debug, PartialEq, Eq)]
pub struct BadLine {
    /// The number of the first field that is off its grammar, counted from 1 in the order of Portaria MTP 671/2021,
    /// annex V. 0 where the line's type, its tenth byte, is none that the reader takes, or the line hasn't the length of
    /// its type. The types are 2, 4, 5, 6 and 7 for a record and 1 for a head.
    pub field: u8,
}

/// What a lenient reader tells of a line beside its values. A strict reader takes no line of which anything is to be told.
#[derive(Clone, Copy, Debug, PartialEq, Eq)]
pub struct Notes {
    /// The checksum isn't that of the line.
    pub crc: bool,
    /// The seconds of a stamp aren't 00, or its offset is `-0000`.
    pub stamp: bool,
    /// The recorder's number isn't all digits.
    pub rep: bool,
}

impl Notes {
    /// Nothing is to be told.
    pub const NONE: Notes = Notes {
        crc: false,
        stamp: false,
        rep: false,
    };
}
