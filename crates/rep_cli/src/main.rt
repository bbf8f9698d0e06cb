//! The program: the real files, output and clock, and the call of `top` that does all the rest.
#![tactic(auto)]

mod access;
mod apart;
mod file_disk;
mod file_source;
mod notice;
mod opening;
mod output_sink;
mod rigging;
mod system_clock;
#[cfg(test)]
mod tests;

ghost use Rattle.std.specs.Prelude.{◌≡◌, ◌≢◌, ◌⊎◌, ◌∷◌, [], map, string_bytes};
ghost use Rattle.rep_words.specs.Words.{IsOnGrammar};
ghost use Rattle.rep_cli.specs.Notices.{notice_word};

use apart::{Clash, clash_in};
use notice::{DONE, Notice, SINK_FAULT, answer_notice, print_text};
use output_sink::OutputSink;
use rep_io::OutOfMemory;
use rep_top::top;
use rigging::rig_for;
use std::alloc::Global;
use std::fs::File;
use std::process::ExitCode;
use std::rt::{Clock, Env, Files};
use std::{env, io};

/// The status of a program that had not enough memory.
const NO_MEMORY: u8 = 8;

/// The last line on the output of a program that had not enough memory.
const NO_MEMORY_LINE: &str = "FAULT|8\n";

/// The line of a program that may not write one of its files.
const SINK_FAULT_LINE: &str = "FAULT|5\n";

fn main(rt: HostRuntime) -> ExitCode {
    let alloc = rt.alloc();
    let status = match own_words(alloc, &rt) {
        Ok(words) => answer(alloc, &rt, &words),
        Err(fault) if fault.kind() == io::ErrorKind::OutOfMemory => tell_no_memory(&rt),
        // A word that isn't UTF-8 is one of no command.
        Err(_) => answer(alloc, &rt, &[]),
    };
    ExitCode::from(status)
}

/// The words behind the program's name.
fn own_words<R: Env + Alloc<A = Global>>(alloc: Global, rt: &R) -> io::Result<Vec<String>> {
    let mut words = env::args(rt)?;
    words.next();
    Ok(words.collect(alloc)?)
}

/// Does what the words ask for, and answers the program's status.
fn answer<R: Files<File = File> + Print + Clock>(alloc: Global, rt: &R, words: &[String]) -> u8
    ensures notice { (notice : Notice) → map string_bytes words.now ≡ notice_word notice ∷ []
        → (result ≡ DONE) ⊎ (result ≡ SINK_FAULT) }
    ensures wrong_words { ¬ IsOnGrammar (map string_bytes words.now)
        → ((notice : Notice) → map string_bytes words.now ≡ notice_word notice ∷ [] → ⊥)
        → (result ≡ 2) ⊎ (result ≡ NO_MEMORY) }
    ensures command { IsOnGrammar (map string_bytes words.now)
        → ((notice : Notice) → map string_bytes words.now ≡ notice_word notice ∷ [] → ⊥) → result ≢ 2 }
{
    match answer_notice(&mut OutputSink::standard(rt), words) {
        Some(status) => status,
        None => run(alloc, rt, words),
    }
}

/// Runs the command that the words ask for, over the files that they name, standard output and the system's clock. Where one
/// of its outputs is a file that it reads, keeps or writes besides, it ends before anything is opened.
fn run<R: Files<File = File> + Print + Clock>(alloc: Global, rt: &R, words: &[String]) -> u8
    ensures wrong_words { ¬ IsOnGrammar (map string_bytes words.now) → (result ≡ 2) ⊎ (result ≡ NO_MEMORY) }
    ensures command { IsOnGrammar (map string_bytes words.now) → result ≢ 2 }
{
    match rig_for(alloc, rt, words) {
        Ok(rig) => match clash_in(alloc, rt, &rig) {
            Ok(None) => top(alloc, words, rig).status,
            Ok(Some(clash)) => tell_clash(rt, clash),
            Err(OutOfMemory) => tell_no_memory(rt),
        },
        Err(OutOfMemory) => tell_no_memory(rt),
    }
}

/// Tells that an output may not be written. It is also the status where that can't be told, and where it may not be: standard
/// output itself is such a file.
fn tell_clash<R: Files<File = File> + Print>(rt: &R, clash: Clash) -> u8
    ensures { result ≡ SINK_FAULT }
{
    match clash {
        Clash::StandardOutput => {}
        Clash::File => {
            print_text(&mut OutputSink::standard(rt), SINK_FAULT_LINE);
        }
    }
    SINK_FAULT
}

/// Tells that there was not enough memory to begin. It is also the status where that can't be told.
fn tell_no_memory<R: Files<File = File> + Print>(rt: &R) -> u8
    ensures { result ≡ NO_MEMORY }
{
    print_text(&mut OutputSink::standard(rt), NO_MEMORY_LINE);
    NO_MEMORY
}
