ghost use Rattle.std.specs.Prelude.{◌≡◌, ◌<◌, ◌++◌, [], None, Some, All, map, option_map, string_bytes, length, is_some, IfOk, IfSome};
ghost use Rattle.rep_words.specs.Words.{Asks, IsOnGrammar};
ghost use Rattle.rep_words.specs.Places.{ending_of};
ghost use Rattle.rep_words.specs.Rigged.{IsRigged};
ghost use Rattle.rep_cli.specs.Paths.{access_for, access_of, disk_path, out_paths, text_paths, word_at};

use crate::access::Access;
use crate::file_disk::FileDisk;
use crate::file_source::FileSource;
use crate::output_sink::OutputSink;
use crate::system_clock::SystemClock;
use rep_io::OutOfMemory;
use rep_words::{Asked, Errand, Rig, WordsFault, plan_words};
use std::alloc::Global;
use std::fs::File;
use std::rt::{Clock, Files};

/// A rig of files, standard output and the system's clock.
pub type SystemRig<'a, R> = Rig<
    FileSource<'a, R>,
    OutputSink<'a, R>,
    FileDisk<'a, R>,
    SystemClock<'a, R>,
>;

/// The rig that the words ask for: each text, each file and the journal that they name, and the clock where it is used.
/// Where they are the words of no command it has standard output alone. No file is opened.
///
/// # Errors
///
/// `OutOfMemory`.
pub fn rig_for<'a, R: Files<File = File> + Print + Clock>(
    alloc: Global,
    rt: &'a R,
    words: &'a [String],
) -> Result<SystemRig<'a, R>, OutOfMemory>
    ensures rigged { IfOk result (λ rig. (asked : Asked) → Asks (map string_bytes words.now) asked
        → IsRigged asked rig.texts.items rig.outs.items rig.disk rig.clock) }
    ensures reads { IfOk result (λ rig. (asked : Asked) (asks : Asks (map string_bytes words.now) asked)
        → map (λ s. s.path.now) rig.texts.items ≡ text_paths (map string_bytes words.now) asked asks) }
    ensures writes { IfOk result (λ rig. (asked : Asked) (asks : Asks (map string_bytes words.now) asked)
        → map (λ s. option_map string_bytes s.path) rig.outs.items ≡ map Some (out_paths (map string_bytes words.now) asked asks)) }
    ensures keeps { IfOk result (λ rig. (asked : Asked) (asks : Asks (map string_bytes words.now) asked)
        → option_map (λ d. d.file.path.now) rig.disk ≡ disk_path (map string_bytes words.now) asked asks) }
    ensures uses { IfOk result (λ rig. (asked : Asked) → Asks (map string_bytes words.now) asked
        → option_map (λ d. d.file.access) rig.disk ≡ access_of asked) }
    ensures says { IfOk result (λ rig. option_map string_bytes rig.out.path ≡ None) }
    ensures empty { IfOk result (λ rig. (IsOnGrammar (map string_bytes words.now) → ⊥)
        → (rig.texts.items ≡ []) × (rig.outs.items ≡ []) × (rig.disk ≡ None) × (rig.clock ≡ None)) }
{
    match plan_words(alloc, words) {
        Ok(errand) => rig_of(alloc, rt, words, &errand),
        Err(WordsFault::OffGrammar) => Ok(empty_rig(alloc, rt)),
        Err(WordsFault::OutOfMemory) => Err(OutOfMemory),
    }
}

/// A rig of standard output alone.
fn empty_rig<R: Files<File = File> + Print + Clock>(alloc: Global, rt: &R) -> SystemRig<R>
    ensures texts { result.texts.items ≡ [] }
    ensures outs { result.outs.items ≡ [] }
    ensures disk { result.disk ≡ None }
    ensures clock { result.clock ≡ None }
    ensures out { option_map string_bytes result.out.path ≡ None }
{
    Rig {
        texts: Vec::new(alloc),
        outs: Vec::new(alloc),
        disk: None,
        clock: None,
        out: OutputSink::standard(rt),
    }
}

/// The rig of an errand.
fn rig_of<'a, R: Files<File = File> + Print + Clock>(
    alloc: Global,
    rt: &'a R,
    words: &'a [String],
    errand: &Errand,
) -> Result<SystemRig<'a, R>, OutOfMemory>
    requires texts { All (λ place. place < length words.now) errand.now.texts.items }
    requires outs { All (λ place. place < length words.now) errand.now.outs.items }
    requires disk { IfSome errand.now.disk (λ place. place < length words.now) }
    ensures texts { IfOk result (λ rig. map (λ s. s.path.now) rig.texts.items
        ≡ map (word_at (map string_bytes words.now)) errand.now.texts.items) }
    ensures outs { IfOk result (λ rig. map (λ s. option_map string_bytes s.path) rig.outs.items
        ≡ map (λ place. Some (word_at (map string_bytes words.now) place ++ ending_of errand.now.command)) errand.now.outs.items) }
    ensures disk { IfOk result (λ rig. option_map (λ d. d.file.path.now) rig.disk
        ≡ option_map (word_at (map string_bytes words.now)) errand.now.disk) }
    ensures access { IfOk result (λ rig. option_map (λ d. d.file.access) rig.disk
        ≡ option_map (λ _. access_for errand.now.command) errand.now.disk) }
    ensures out { IfOk result (λ rig. option_map string_bytes rig.out.path ≡ None) }
    ensures clock { IfOk result (λ rig. is_some rig.clock ≡ errand.now.clock) }
{
    Ok(Rig {
        texts: sources(alloc, rt, words, &errand.texts)?,
        outs: files(alloc, rt, words, &errand.outs, errand.command.ending())?,
        disk: disk_of(rt, words, errand.disk, Access::of(errand.command)),
        clock: clock_of(rt, errand.clock),
        out: OutputSink::standard(rt),
    })
}

/// The files at the paths that stand at these places of the words, to be read.
fn sources<'a, R: Files>(
    alloc: Global,
    rt: &'a R,
    words: &'a [String],
    places: &[u32],
) -> Result<Vec<FileSource<'a, R>>, OutOfMemory>
    requires named { All (λ place. place < length words.now) places.now }
    ensures paths { IfOk result (λ sources. map (λ s. s.path.now) sources.items
        ≡ map (word_at (map string_bytes words.now)) places.now) }
{
    let mut sources = Vec::new(alloc);
    for place in places {
        sources.push(FileSource::new(rt, words[*place as usize].as_str()))?;
    }
    Ok(sources)
}

/// The files at the paths that are made of the words at these places and this ending, to be written.
fn files<'a, R: Files<File = File> + Print>(
    alloc: Global,
    rt: &'a R,
    words: &[String],
    places: &[u32],
    ending: &str,
) -> Result<Vec<OutputSink<'a, R>>, OutOfMemory>
    requires named { All (λ place. place < length words.now) places.now }
    ensures paths { IfOk result (λ files. map (λ s. option_map string_bytes s.path) files.items
        ≡ map (λ place. Some (word_at (map string_bytes words.now) place ++ ending.now)) places.now) }
{
    let mut files = Vec::new(alloc);
    for place in places {
        let path = joined(alloc, words[*place as usize].as_str(), ending)?;
        files.push(OutputSink::file(rt, path))?;
    }
    Ok(files)
}

/// A word with an ending behind it.
fn joined(alloc: Global, word: &str, ending: &str) -> Result<String, OutOfMemory>
    ensures { IfOk result (λ path. string_bytes path ≡ word.now ++ ending.now) }
{
    let mut path = String::from_str(alloc, word)?;
    path.push_str(ending)?;
    Ok(path)
}

/// The journal at the path that stands at a place of the words, and how it is used.
fn disk_of<'a, R: Files<File = File>>(
    rt: &'a R,
    words: &'a [String],
    place: Option<u32>,
    access: Access,
) -> Option<FileDisk<'a, R>>
    requires named { IfSome place (λ place. place < length words.now) }
    ensures path { option_map (λ d. d.file.path.now) result ≡ option_map (word_at (map string_bytes words.now)) place }
    ensures access { option_map (λ d. d.file.access) result ≡ option_map (λ _. access) place }
{
    match place {
        Some(place) => Some(FileDisk::new(rt, words[place as usize].as_str(), access)),
        None => None,
    }
}

/// The system's clock, where it is used.
fn clock_of<R: Clock>(rt: &R, used: bool) -> Option<SystemClock<R>>
    ensures { is_some result ≡ used }
{
    if used {
        Some(SystemClock::new(rt))
    } else {
        None
    }
}
