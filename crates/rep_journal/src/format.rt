/// The first bytes of a journal: a text with the version `1`, and LF.
pub(crate) const MAGIC: [u8; 16] = *b"REP-P JOURNAL 1\n";

/// The magic and a closed gate.
pub(crate) const BLANK: [u8; 17] = *b"REP-P JOURNAL 1\n\0";

/// The byte of an open gate. Every other byte is a closed one.
pub(crate) const OPEN_GATE: u8 = 0xA5;

/// The closed gate that is written.
pub(crate) const CLOSED_GATE: u8 = 0x00;

/// The bytes of a frame before its line: length, origin and sequence number.
pub(crate) const HEAD_SIZE: usize = 12;

/// The bytes of the longest line.
pub(crate) const LONGEST_LINE: usize = 331;

/// The most bytes that are written behind a gate: a frame and the next gate.
pub(crate) const LONGEST_STAGE: usize = HEAD_SIZE + LONGEST_LINE + 1;

/// The place of the first gate.
pub(crate) const FIRST_GATE: u64 = 16;

/// The bytes that a frame needs at most: its gate, itself and the next gate.
pub(crate) const ROOM_OF_FRAME: u32 = 345;

/// The bytes of the magic and a gate.
pub(crate) const SIZE_OF_MAGIC: u32 = 17;

/// The most frames that a journal can have.
pub const MOST_FRAMES: u32 = 999_999_999;
