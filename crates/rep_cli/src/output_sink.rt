ghost use Rattle.std.specs.Prelude.{◌≡◌, ◌<◌, ◌≤◌, None, Some, IfOk, length, option_map, string_bytes};
ghost use Rattle.rep_cli.specs.Paths.{shown_path};

use crate::opening::{OWNER_ALONE, beyond_standard};
use rep_io::{Failed, Sink};
use std::fs::{File, OpenOptions};
use std::io::{self, Write};
use std::os::unix::fs::OpenOptionsExt;
use std::rt::Files;

/// The path at which the system shows what standard output is.
const STANDARD_OUTPUT: &str = "/dev/stdout";

/// Standard output, or a file that is written. It tells nothing of its content.
///
/// A file stays as it is until the first call. That one opens it, or makes it where it isn't there, locks it, and only then
/// empties it: where another open of it has a lock, as a journal has that is worked on, nothing of it is changed and the call
/// fails. A device or a pipe is written as it is.
#[derive(Drop)]
pub struct OutputSink<'a, R: Files<File = File> + Print> {
    rt: &'a R,
    /// The path of the file; none for standard output.
    path: Option<String>,
    file: Option<File>,
    pub(crate) faults: u64,
}

impl<'a, R: Files<File = File> + Print> OutputSink<'a, R> {
    /// Standard output.
    pub fn standard(rt: &'a R) -> Self
        ensures path { option_map string_bytes result.path ≡ None }
    {
        OutputSink {
            rt,
            path: None,
            file: None,
            faults: 0,
        }
    }

    /// The file at a path, which need not be there.
    pub fn file(rt: &'a R, path: String) -> Self
        ensures path { option_map string_bytes result.path ≡ Some (string_bytes path) }
    {
        OutputSink {
            rt,
            path: Some(path),
            file: None,
            faults: 0,
        }
    }

    /// The path at which the system shows what is written.
    pub fn shown_path(&self) -> &str
        ensures { result.now ≡ shown_path (option_map string_bytes self.now.path) }
    {
        match &self.path {
            Some(path) => path.as_str(),
            None => STANDARD_OUTPUT,
        }
    }
}

/// Opens the file at the path and empties it. It is made where it isn't there.
///
/// # Errors
///
/// One of the system's, or `WouldBlock` where another open of the file has a lock.
fn open_emptied<R: Files<File = File>>(rt: &R, path: &str) -> io::Result<File> {
    let opened = OpenOptions::new()
        .write(true)
        .create(true)
        .mode(OWNER_ALONE)
        .open(rt, path)?;
    let file = beyond_standard(opened)?;
    if file.metadata()?.is_file() {
        file.try_lock()?;
        file.set_len(0)?;
    }
    Ok(file)
}

/// Writes a front of the piece to standard output, or to the file at the path, which is opened where it isn't open.
fn write_to<R: Files<File = File> + Print>(
    rt: &R,
    path: &Option<String>,
    file: &mut Option<File>,
    piece: &[u8],
) -> io::Result<usize>
    ensures { IfOk result (λ n. n ≤ length piece.now) }
{
    let Some(path) = path else {
        return io::writer(rt).write(piece);
    };
    if let Some(file) = file {
        return file.write(piece);
    }
    let mut opened = open_emptied(rt, path.as_str())?;
    let done = opened.write(piece);
    *file = Some(opened);
    done
}

/// Writes a front of the piece, some byte at least.
///
/// # Errors
///
/// One of the system's, or `WriteZero` where nothing was taken of a piece that isn't empty.
fn write_some<R: Files<File = File> + Print>(
    rt: &R,
    path: &Option<String>,
    file: &mut Option<File>,
    piece: &[u8],
) -> io::Result<usize>
    ensures within { IfOk result (λ n. n ≤ length piece.now) }
    ensures some { IfOk result (λ n. 0 < length piece.now → 0 < n) }
{
    let count = write_to(rt, path, file, piece)?;
    if count == 0 && !piece.is_empty() {
        return Err(io::Error::from(io::ErrorKind::WriteZero));
    }
    Ok(count)
}

impl<'a, R: Files<File = File> + Print> Sink for OutputSink<'a, R> {
    ghost written = { λ _. None };

    ghost faults = { λ s. s.faults };

    fn write(&mut self, piece: &[u8]) -> Result<usize, Failed> {
        match write_some(self.rt, &self.path, &mut self.file, piece) {
            Ok(count) => Ok(count),
            Err(_) => {
                self.faults = self.faults.saturating_add(1);
                Err(Failed)
            }
        }
    }
}
