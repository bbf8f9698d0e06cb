ghost use Rattle.std.specs.Prelude.{◌≡◌, None};
ghost use Rattle.std.specs.Io.{ReadsAtMost};

use rep_io::{Failed, Source};
use std::fs::File;
use std::io::{self, Read};
use std::rt::Files;

/// A file that is read. It is opened at the first call, and tells nothing of its content.
#[derive(Drop)]
pub struct FileSource<'a, R: Files> {
    rt: &'a R,
    pub(crate) path: &'a str,
    file: Option<R::File>,
    pub(crate) faults: u64,
}

impl<'a, R: Files> FileSource<'a, R> {
    /// The file at a path, which need not be there.
    pub fn new(rt: &'a R, path: &'a str) -> Self
        ensures path { result.path.now ≡ path.now }
        ensures sound { result.faults ≡ 0 }
    {
        FileSource {
            rt,
            path,
            file: None,
            faults: 0,
        }
    }
}

/// Reads from the file, which is opened before that where it isn't open.
fn read_opened<R: Files>(
    rt: &R,
    path: &str,
    file: &mut Option<R::File>,
    into: &mut [u8],
) -> io::Result<usize>
    ensures { ReadsAtMost result into.new }
{
    if let Some(file) = file {
        return file.read(into);
    }
    let mut opened = File::open(rt, path)?;
    let count = opened.read(into)?;
    *file = Some(opened);
    Ok(count)
}

impl<'a, R: Files> Source for FileSource<'a, R> {
    ghost left = { λ _. None };

    ghost faults = { λ s. s.faults };

    fn read(&mut self, into: &mut [u8]) -> Result<usize, Failed> {
        match read_opened(self.rt, self.path, &mut self.file, into) {
            Ok(count) => Ok(count),
            Err(_) => {
                self.faults = self.faults.saturating_add(1);
                Err(Failed)
            }
        }
    }
}
