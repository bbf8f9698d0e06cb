//! The calls of `top`, each over the objects in memory that its words ask for.

use crate::fault::Fault;
use crate::given::Outside;
use crate::line::Line;
use crate::wanted::Done;
use crate::written::push_line;
use rep_disk::MemDisk;
use rep_io::{MemClock, MemSink, MemSource};
use rep_top::top;
use rep_words::{Asked, Outcome, Rig, asked_of};
use std::alloc::{AllocError, Global};
use std::str;

type MemOutcome = Outcome<MemSource, MemSink, MemDisk, MemClock>;

/// A command of a case, and the lines of the lane or the schedule that stand below it.
#[derive(Clone, Copy)]
pub(crate) struct Task<'a> {
    pub(crate) line: Line<'a>,
    pub(crate) block: &'a [Line<'a>],
}

/// Whether a step is a command.
pub(crate) fn is_command(verb: &[u8]) -> bool {
    match verb {
        b"print" | b"create" | b"run" | b"extract" | b"receipt" | b"drill" | b"words" => true,
        _ => false,
    }
}

/// What a command is given: the site's text, what fails, and what the disk holds.
#[derive(Clone, Copy)]
pub(crate) struct Given<'a> {
    pub(crate) site: &'a [u8],
    pub(crate) contents: &'a [u8],
    pub(crate) outside: &'a Outside,
}

/// Does what a command asks for.
pub(crate) fn act(alloc: Global, task: &Task, given: &Given) -> Result<Done, Fault> {
    let (verb, rest) = task.line.words();
    let outcome = match verb {
        b"print" => print(alloc, task, rest, given)?,
        b"create" => create(alloc, task, given)?,
        b"run" => run(alloc, task, given)?,
        b"extract" => extract(alloc, task, rest, given)?,
        b"receipt" => receipt(alloc, task, rest, given)?,
        b"drill" => drill(alloc, task, given)?,
        _ => refuse(alloc, task, rest, given)?,
    };
    done_of(alloc, &outcome)
}

/// What an outcome shows.
fn done_of(alloc: Global, outcome: &MemOutcome) -> Result<Done, Fault> {
    let file = match outcome.rig.outs.first() {
        Some(file) => file.bytes(),
        None => &[],
    };
    let left = match &outcome.rig.disk {
        Some(disk) => Some(disk.bytes().to_vec(alloc)?),
        None => None,
    };
    Ok(Done {
        file: file.to_vec(alloc)?,
        said: outcome.rig.out.bytes().to_vec(alloc)?,
        status: outcome.status,
        left,
    })
}

fn words_of(alloc: Global, words: &[&str]) -> Result<Vec<String>, AllocError> {
    let mut all = Vec::new(alloc);
    for word in words {
        all.push(String::from_str(alloc, *word)?)?;
    }
    Ok(all)
}

/// The word that bytes of a line are.
fn word_of<'a>(line: &Line, bytes: &'a [u8]) -> Result<&'a str, Fault> {
    match str::from_utf8(bytes) {
        Ok(word) => Ok(word),
        Err(_) => Err(line.fault("no text")),
    }
}

/// A source that gives a text in one piece.
fn text_of(alloc: Global, text: &[u8], fails: &[u64]) -> Result<MemSource, AllocError> {
    let mut pieces = Vec::new(alloc);
    pieces.push(text.to_vec(alloc)?)?;
    Ok(MemSource::new(pieces, fails.to_vec(alloc)?))
}

/// A source that gives the lines of a block. A line `\piece` ends what one read gives at most.
fn lane_of(alloc: Global, task: &Task, given: &Given) -> Result<MemSource, Fault> {
    let mut pieces = Vec::new(alloc);
    let mut piece = Vec::new(alloc);
    for line in task.block {
        if line.text == b"\\piece".as_slice() {
            pieces.push(piece)?;
            piece = Vec::new(alloc);
        } else {
            push_line(line, line.text, &mut piece)?;
        }
    }
    pieces.push(piece)?;
    Ok(MemSource::new(pieces, given.outside.lane.to_vec(alloc)?))
}

/// `print ZONE` of a lane.
fn print(alloc: Global, task: &Task, zone: &[u8], given: &Given) -> Result<MemOutcome, Fault> {
    let words = words_of(alloc, &["print", "lane", "afd", word_of(&task.line, zone)?])?;
    let rig = Rig {
        texts: vec![in alloc; lane_of(alloc, task, given)?]?,
        outs: vec![in alloc; given.outside.file()?]?,
        disk: None,
        clock: Some(given.outside.clock()?),
        out: given.outside.out()?,
    };
    let Some(Asked::Print { .. }) = asked_of(&words) else {
        return Err(task.line.fault("not the words of print"));
    };
    Ok(top(alloc, &words, rig))
}

/// `create` over the contents.
fn create(alloc: Global, task: &Task, given: &Given) -> Result<MemOutcome, Fault> {
    let words = words_of(alloc, &["create", "site", "j"])?;
    let rig = Rig {
        texts: vec![in alloc; text_of(alloc, given.site, &given.outside.site)?]?,
        outs: Vec::new(alloc),
        disk: Some(given.outside.disk(given.contents)?),
        clock: Some(given.outside.clock()?),
        out: given.outside.out()?,
    };
    let Some(Asked::Create) = asked_of(&words) else {
        return Err(task.line.fault("not the words of create"));
    };
    Ok(top(alloc, &words, rig))
}

/// `run` of a lane.
fn run(alloc: Global, task: &Task, given: &Given) -> Result<MemOutcome, Fault> {
    let words = words_of(alloc, &["run", "site", "j", "lane"])?;
    let site = text_of(alloc, given.site, &given.outside.site)?;
    let lane = lane_of(alloc, task, given)?;
    let rig = Rig {
        texts: vec![in alloc; site, lane]?,
        outs: vec![in alloc; given.outside.file()?]?,
        disk: Some(given.outside.disk(given.contents)?),
        clock: Some(given.outside.clock()?),
        out: given.outside.out()?,
    };
    let Some(Asked::Run) = asked_of(&words) else {
        return Err(task.line.fault("not the words of run"));
    };
    Ok(top(alloc, &words, rig))
}

/// `extract FROM TO`. A hyphen alone stands for an empty word.
fn extract(alloc: Global, task: &Task, period: &[u8], given: &Given) -> Result<MemOutcome, Fault> {
    let (from, to) = crate::line::cut_at(period, b' ');
    let from = word_of(&task.line, from)?;
    let to = word_of(&task.line, if to == b"-".as_slice() { &[] } else { to })?;
    let words = words_of(alloc, &["extract", "site", "j", from, to, "afd"])?;
    let site = text_of(alloc, given.site, &given.outside.site)?;
    let rig = Rig {
        texts: vec![in alloc; site]?,
        outs: vec![in alloc; given.outside.file()?]?,
        disk: Some(given.outside.disk(given.contents)?),
        clock: Some(given.outside.clock()?),
        out: given.outside.out()?,
    };
    let Some(Asked::Extract { period }) = asked_of(&words) else {
        return Err(task.line.fault("not the words of extract"));
    };
    let _period = period;
    Ok(top(alloc, &words, rig))
}

/// `receipt NSR`.
fn receipt(alloc: Global, task: &Task, number: &[u8], given: &Given) -> Result<MemOutcome, Fault> {
    let words = words_of(
        alloc,
        &["receipt", "site", "j", word_of(&task.line, number)?],
    )?;
    let rig = Rig {
        texts: vec![in alloc; text_of(alloc, given.site, &given.outside.site)?]?,
        outs: Vec::new(alloc),
        disk: Some(given.outside.disk(given.contents)?),
        clock: None,
        out: given.outside.out()?,
    };
    let Some(Asked::Receipt { .. }) = asked_of(&words) else {
        return Err(task.line.fault("not the words of receipt"));
    };
    Ok(top(alloc, &words, rig))
}

/// `drill` of a schedule.
fn drill(alloc: Global, task: &Task, given: &Given) -> Result<MemOutcome, Fault> {
    let words = words_of(alloc, &["drill", "schedule"])?;
    let rig = Rig {
        texts: vec![in alloc; lane_of(alloc, task, given)?]?,
        outs: Vec::new(alloc),
        disk: None,
        clock: None,
        out: given.outside.out()?,
    };
    let Some(Asked::Drill) = asked_of(&words) else {
        return Err(task.line.fault("not the words of drill"));
    };
    Ok(top(alloc, &words, rig))
}

/// `words WORD WORD ..`, those of no command, over a rig of all there is. A hyphen alone stands for an empty word.
fn refuse(alloc: Global, task: &Task, said: &[u8], given: &Given) -> Result<MemOutcome, Fault> {
    let mut words = Vec::new(alloc);
    if !said.is_empty() {
        for word in said.split(|b| *b == b' ') {
            let word = word_of(&task.line, if word == b"-".as_slice() { &[] } else { word })?;
            words.push(String::from_str(alloc, word)?)?;
        }
    }
    let None = asked_of(&words) else {
        return Err(task.line.fault("the words of a command"));
    };
    let rig = Rig {
        texts: vec![in alloc; text_of(alloc, given.site, &given.outside.site)?]?,
        outs: vec![in alloc; given.outside.file()?]?,
        disk: Some(given.outside.disk(given.contents)?),
        clock: Some(given.outside.clock()?),
        out: given.outside.out()?,
    };
    Ok(top(alloc, &words, rig))
}
