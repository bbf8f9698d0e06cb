ghost use Rattle.std.specs.Prelude.{◌≡◌};
ghost use Rattle.rep_cli.specs.Paths.{access_for};

use rep_words::Command;

/// How a command uses the file of a journal.
#[derive(Clone, Copy, Debug, PartialEq, Eq)]
pub enum Access {
    /// It is read and made sure of, and nothing else is asked of it. Several programs may read it at a time.
    Read,
    /// It is read and written by one program at a time. Where nothing is, nothing is made.
    Write,
    /// As `Write`; where nothing is, the first write makes the file.
    Make,
}

impl Access {
    /// The least that a command can do with. One without a journal asks for nothing but to read.
    pub fn of(command: Command) -> Self
        ensures { result ≡ access_for command }
    {
        match command {
            Command::Create => Access::Make,
            Command::Run => Access::Write,
            Command::Print | Command::Extract | Command::Receipt | Command::Drill => Access::Read,
        }
    }
}
