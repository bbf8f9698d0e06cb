// What the program keeps to where it opens a file that it may write.
use std::fs::File;
use std::io;
use std::os::fd::AsRawFd;

/// The permissions of a file that is made: its owner reads and writes it, and nobody else does.
pub const OWNER_ALONE: u32 = 0o600;

/// The last of the descriptors that stand for standard input, output and the error stream.
const LAST_STANDARD: i32 = 2;

/// The same open file, under a number that stands for no standard stream. What is meant for a standard stream that was
/// closed when the program began must not land in a file.
pub fn beyond_standard(file: File) -> io::Result<File> {
    if file.as_raw_fd() <= LAST_STANDARD {
        file.try_clone()
    } else {
        Ok(file)
    }
}
