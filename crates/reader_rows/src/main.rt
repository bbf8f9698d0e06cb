//! Plays files of rows: a row has a text, and what a reader has to answer when it is given that. The words are the files'
//! names. On standard output comes a line a group of rows: `ok`, its name and how many rows hold, where all do.
//!
//! docs/rows.md tells how such a file is written.
#![tactic(auto)]

mod aej_rows;
mod answer;
mod fault;
mod field_rows;
mod file;
mod lane_rows;
mod library;
mod line;
mod plan_rows;
mod record_rows;
mod row;
mod site_rows;
mod told;
mod written;

use fault::Fault;
use file::{Book, Report};
use row::Miss;
use std::io::Write;
use std::process::ExitCode;
use std::{env, fs, io};

/// Standard output, and whether each row held so far.
#[derive(Drop)]
struct Listing<'a, R: Print> {
    rt: &'a R,
    holds: bool,
}

impl<'a, R: Print> Report for Listing<'a, R> {
    fn miss(&mut self, name: &[u8], miss: &Miss) -> Result<(), Fault> {
        self.holds = false;
        match print_miss(self.rt, name, miss) {
            Ok(()) => Ok(()),
            Err(_) => Err(Fault::Output),
        }
    }

    fn group(&mut self, name: &[u8], holding: u64, rows: u64) -> Result<(), Fault> {
        match print_group(self.rt, name, holding, rows) {
            Ok(()) => Ok(()),
            Err(_) => Err(Fault::Output),
        }
    }
}

fn print_pieces<R: Print>(rt: &R, pieces: &[&[u8]]) -> io::Result<()> {
    for piece in pieces {
        io::writer(rt).write_all(*piece)?;
    }
    Ok(())
}

fn print_group<R: Print>(rt: &R, name: &[u8], holding: u64, rows: u64) -> io::Result<()> {
    if holding == rows {
        print_pieces(rt, &[b"ok ", name])?;
        return println!(rt; " ({holding} rows)");
    }
    print_pieces(rt, &[b"MISS ", name])?;
    println!(rt; " ({holding} of {rows} rows)")
}

fn print_miss<R: Print>(rt: &R, name: &[u8], miss: &Miss) -> io::Result<()> {
    let number = miss.number;
    print_pieces(rt, &[b"miss in ", name])?;
    println!(rt; ", line {number}")?;
    print_pieces(
        rt,
        &[
            b"--- wanted\n",
            &miss.wanted,
            b"\n--- came\n",
            &miss.got,
            b"\n---\n",
        ],
    )
}

fn print_fault<R: Print>(rt: &R, path: &str, fault: Fault) -> io::Result<()> {
    match fault {
        Fault::Memory => println!(rt; "{path}: not enough memory"),
        Fault::Output => println!(rt; "{path}: the output failed"),
        Fault::Line { number, why } => println!(rt; "{path}:{number}: {why}"),
    }
}

fn main(rt: HostRuntime) -> io::Result<ExitCode> {
    let mut words = env::args(&rt)?;
    words.next();
    let mut book = Book::new(rt.alloc());
    let mut listing = Listing {
        rt: &rt,
        holds: true,
    };
    for path in words {
        let text = fs::read(&rt, path.as_str())?;
        if let Err(fault) = book.play_file(&text, &mut listing) {
            listing.holds = false;
            print_fault(&rt, path.as_str(), fault)?;
        }
    }
    Ok(if listing.holds {
        ExitCode::SUCCESS
    } else {
        ExitCode::FAILURE
    })
}
