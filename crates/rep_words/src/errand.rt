ghost use Rattle.std.specs.Prelude.{◌≡◌, map, string_bytes, Err, IfOk, IsErrOf, OnOk};
ghost use Rattle.rep_words.specs.Words.{Asks, IsOnGrammar};
ghost use Rattle.rep_words.specs.Places.{clock_of, command_of, disk_of, ending_of, outs_of, texts_of};

use crate::words::{Asked, asked_of};
use std::alloc::{AllocFailed, Global};

/// What the program is asked to do.
#[derive(Clone, Copy, Debug, PartialEq, Eq)]
pub enum Command {
    Print,
    Create,
    Run,
    Extract,
    Receipt,
    Drill,
}

impl Command {
    /// What stands behind the word of a file that the command writes, in that file's path: `run` writes the replies to a lane
    /// beside the lane's file.
    pub fn ending(self) -> &'static str
        ensures { result.now ≡ ending_of self }
    {
        match self {
            Command::Print
            | Command::Create
            | Command::Extract
            | Command::Receipt
            | Command::Drill => "",
            Command::Run => ".out",
        }
    }
}

/// A command, and the places of the words that name what it works on, counted from 0.
#[derive(Debug, Drop)]
pub struct Errand {
    pub command: Command,
    /// The texts that it reads.
    pub texts: Vec<u32>,
    /// The files that it writes; a path is the word with the command's ending behind it.
    pub outs: Vec<u32>,
    /// The journal that it works on.
    pub disk: Option<u32>,
    /// Whether it uses the clock.
    pub clock: bool,
}

/// Why there is no errand.
#[derive(Clone, Copy, Debug, PartialEq, Eq)]
pub enum WordsFault {
    /// The words are those of no command.
    OffGrammar,
    OutOfMemory,
}

impl<T: Drop> From<AllocFailed<T>> for WordsFault {
    ghost use Rattle.rep_words.specs.declared.errand.WordsFault.TheVariants.{OutOfMemory};

    ghost from_gives = { λ _ e. e ≡ OutOfMemory };

    fn from(_: AllocFailed<T>) -> Self {
        WordsFault::OutOfMemory
    }
}

/// What the words ask for.
///
/// # Errors
///
/// `OffGrammar` exactly where the words are those of no command.
pub fn plan_words(alloc: Global, words: &[String]) -> Result<Errand, WordsFault>
    ensures on_grammar { OnOk result (IsOnGrammar (map string_bytes words.now)) }
    ensures command { IfOk result (λ errand. (asked : Asked) → Asks (map string_bytes words.now) asked → errand.command ≡ command_of asked) }
    ensures texts { IfOk result (λ errand. (asked : Asked) → Asks (map string_bytes words.now) asked → errand.texts.items ≡ texts_of asked) }
    ensures outs { IfOk result (λ errand. (asked : Asked) → Asks (map string_bytes words.now) asked → errand.outs.items ≡ outs_of asked) }
    ensures disk { IfOk result (λ errand. (asked : Asked) → Asks (map string_bytes words.now) asked → errand.disk ≡ disk_of asked) }
    ensures clock { IfOk result (λ errand. (asked : Asked) → Asks (map string_bytes words.now) asked → errand.clock ≡ clock_of asked) }
    ensures off_grammar { IsErrOf result WordsFault.OffGrammar → ¬ IsOnGrammar (map string_bytes words.now) }
    ensures only_off_grammar { ¬ IsOnGrammar (map string_bytes words.now) → result ≡ Err WordsFault.OffGrammar }
{
    match asked_of(words) {
        Some(asked) => errand_of(alloc, asked),
        None => Err(WordsFault::OffGrammar),
    }
}

/// The errand of what is asked.
fn errand_of(alloc: Global, asked: Asked) -> Result<Errand, WordsFault>
    ensures command { IfOk result (λ errand. errand.command ≡ command_of asked) }
    ensures texts { IfOk result (λ errand. errand.texts.items ≡ texts_of asked) }
    ensures outs { IfOk result (λ errand. errand.outs.items ≡ outs_of asked) }
    ensures disk { IfOk result (λ errand. errand.disk ≡ disk_of asked) }
    ensures clock { IfOk result (λ errand. errand.clock ≡ clock_of asked) }
    ensures memory { ¬ IsErrOf result WordsFault.OffGrammar }
{
    let (command, texts, outs, disk, clock): (Command, &[u32], &[u32], Option<u32>, bool) =
        match asked {
            Asked::Print { .. } => (Command::Print, &[1], &[2], None, true),
            Asked::Create => (Command::Create, &[1], &[], Some(2), true),
            Asked::Run => (Command::Run, &[1, 3], &[3], Some(2), true),
            Asked::Extract { .. } => (Command::Extract, &[1], &[5], Some(2), true),
            Asked::Receipt { .. } => (Command::Receipt, &[1], &[], Some(2), false),
            Asked::Drill => (Command::Drill, &[1], &[], None, false),
        };
    Ok(Errand {
        command,
        texts: list_of(alloc, texts)?,
        outs: list_of(alloc, outs)?,
        disk,
        clock,
    })
}

/// A list of these places.
fn list_of(alloc: Global, places: &[u32]) -> Result<Vec<u32>, WordsFault>
    ensures places { IfOk result (λ list. list.items ≡ places.now) }
    ensures memory { ¬ IsErrOf result WordsFault.OffGrammar }
{
    let mut list = Vec::new(alloc);
    for place in places {
        list.push(*place)?;
    }
    Ok(list)
}
