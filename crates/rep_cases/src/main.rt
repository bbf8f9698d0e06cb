//! Plays files of cases: what a command is handed, and what it has to say, to write, to leave and to end with. The words are
//! the files' names. On standard output comes a line a case, `ok` and its name where all is as it is wanted.
//!
//! docs/cases.md tells how such a file is written.
#![tactic(auto)]

mod acting;
mod course;
mod fault;
mod file;
mod given;
mod library;
mod line;
mod wanted;
mod written;

use course::Verdict;
use fault::Fault;
use file::{Book, Report};
use std::io::Write;
use std::process::ExitCode;
use std::{env, fs, io};
use wanted::Miss;

/// The most bytes that are shown of what is wanted, and of what came.
const MOST_SHOWN: usize = 2000;

/// Standard output, and whether each case held so far.
#[derive(Drop)]
struct Listing<'a, R: Print> {
    rt: &'a R,
    holds: bool,
}

impl<'a, R: Print> Report for Listing<'a, R> {
    fn tell(&mut self, name: &[u8], verdict: &Verdict) -> Result<(), Fault> {
        let told = match verdict {
            Verdict::Holds => print_pieces(self.rt, &[b"ok ", name, b"\n"]),
            Verdict::Misses { number, miss } => {
                self.holds = false;
                print_miss(self.rt, name, *number, miss)
            }
        };
        match told {
            Ok(()) => Ok(()),
            Err(_) => Err(Fault::Output),
        }
    }
}

fn print_pieces<R: Print>(rt: &R, pieces: &[&[u8]]) -> io::Result<()> {
    for piece in pieces {
        io::writer(rt).write_all(*piece)?;
    }
    Ok(())
}

fn print_miss<R: Print>(rt: &R, name: &[u8], number: u64, miss: &Miss) -> io::Result<()> {
    print_pieces(rt, &[b"MISS ", name, b"\n"])?;
    let what = miss.what;
    println!(rt; "  up to line {number}: {what}")?;
    print_pieces(
        rt,
        &[
            b"--- wanted\n",
            shown(&miss.wanted),
            b"\n--- came\n",
            shown(&miss.got),
            b"\n---\n",
        ],
    )
}

/// The first bytes of a text.
fn shown(text: &[u8]) -> &[u8] {
    text.get(..MOST_SHOWN).unwrap_or(text)
}

fn print_fault<R: Print>(rt: &R, path: &str, fault: Fault) -> io::Result<()> {
    match fault {
        Fault::Memory => println!(rt; "{path}: not enough memory"),
        Fault::Output => println!(rt; "{path}: the output failed"),
        Fault::Line { number, why } => println!(rt; "{path}:{number}: {why}"),
        Fault::Case { number, why } => println!(rt; "{path}:{number}: {why}"),
    }
}

fn main(rt: HostRuntime) -> io::Result<ExitCode> {
    let mut words = env::args(&rt)?;
    words.next();
    let mut book = Book::new(rt.alloc());
    let mut listing = Listing {
        rt: &rt,
        holds: true,
    };
    for path in words {
        let text = fs::read(&rt, path.as_str())?;
        if let Err(fault) = book.play_file(&text, &mut listing) {
            listing.holds = false;
            print_fault(&rt, path.as_str(), fault)?;
        }
    }
    Ok(if listing.holds {
        ExitCode::SUCCESS
    } else {
        ExitCode::FAILURE
    })
}
