//! A case: turns, one after another, each of which hands a command what it works on and says what has to come of it.

use crate::acting::{Given, Task, act, is_command};
use crate::fault::Fault;
use crate::given::Outside;
use crate::library::Library;
use crate::line::{Depth, Line, cut_at};
use crate::wanted::{Done, Miss, Wanted};
use std::alloc::Global;

/// The name of the site's text, where no step names another.
const SITE: &[u8] = b"site";

/// The most calls of one object that a case lets fail in turn.
const MOST_CALLS: u64 = 1000;

/// What came of a case.
#[derive(Drop)]
pub(crate) enum Verdict {
    Holds,
    /// Something wasn't as it is wanted, in the turn that ends at this line.
    Misses { number: u64, miss: Miss },
}

/// What came of one course of a case.
#[derive(Drop)]
enum Came {
    /// All turns hold.
    Whole,
    /// So they do, while the call that was to fail wasn't made.
    Unmade,
    Missed { number: u64, miss: Miss },
}

/// A turn that is being read: what its command works on, the command, and what is wanted of it.
#[derive(Drop)]
struct Turn<'a> {
    task: Option<Task<'a>>,
    outside: Outside,
    wanted: Wanted,
    /// The object whose calls fail in turn.
    each: Option<&'a [u8]>,
    number: u64,
}

impl<'a> Turn<'a> {
    fn new(alloc: Global, number: u64) -> Self {
        Turn {
            task: None,
            outside: Outside::new(alloc),
            wanted: Wanted::new(alloc),
            each: None,
            number,
        }
    }
}

/// What goes from turn to turn.
#[derive(Drop)]
struct Course<'a, 'b> {
    alloc: Global,
    library: &'b Library,
    site: Vec<u8>,
    /// What the disk holds before the turn.
    contents: Vec<u8>,
    /// The command of the turn before.
    last: Option<Task<'a>>,
    /// The number of the call that fails, where a turn lets each call of an object fail.
    call: u64,
}

/// How many calls are tried behind the first that isn't made.
const TRIED_BEHIND: u64 = 8;

/// Plays a case of these lines, which stand below its heading. Where it lets each call of an object fail, it is played once for
/// each, up to some behind the first that isn't made.
pub(crate) fn play<'a>(
    alloc: Global,
    library: &Library,
    head: &Line<'a>,
    lines: &'a [Line<'a>],
) -> Result<Verdict, Fault> {
    let mut failed = 0u64;
    let mut unmade = 0u64;
    for call in 0..MOST_CALLS {
        match play_once(alloc, library, head, lines, call)? {
            Came::Missed { number, miss } => return Ok(Verdict::Misses { number, miss }),
            Came::Whole if !has_each(lines) => return Ok(Verdict::Holds),
            Came::Whole if unmade > 0 => return Err(head.fault(
                "a call fails behind one that isn't made",
            )),
            Came::Whole => failed = failed.saturating_add(1),
            Came::Unmade if failed == 0 => return Err(head.fault("no call fails")),
            Came::Unmade if unmade == TRIED_BEHIND => return Ok(Verdict::Holds),
            Came::Unmade => unmade = unmade.saturating_add(1),
        }
    }
    Err(head.fault("too many calls fail"))
}

/// Whether a case lets each call of an object fail.
fn has_each(lines: &[Line]) -> bool {
    lines.iter().any(|line| line.depth == Depth::Step && line.text.starts_with(b"each "))
}

fn play_once<'a>(
    alloc: Global,
    library: &Library,
    head: &Line<'a>,
    lines: &'a [Line<'a>],
    call: u64,
) -> Result<Came, Fault> {
    let mut course = Course {
        alloc,
        library,
        site: library.named(head, SITE)?.to_vec(alloc)?,
        contents: Vec::new(alloc),
        last: None,
        call,
    };
    let mut turn = Turn::new(alloc, head.number);
    let mut is_wanting = false;
    for (place, line) in lines.iter().enumerate() {
        if line.depth != Depth::Step {
            continue;
        }
        if turn.wanted.take(library, &course.contents, line)? {
            is_wanting = true;
        } else {
            if is_wanting {
                match course.end(&turn)? {
                    Came::Whole => {}
                    other => return Ok(other),
                }
                turn = Turn::new(alloc, line.number);
                is_wanting = false;
            }
            course.take(&mut turn, line, block_behind(lines, place))?;
        }
        turn.number = line.number;
    }
    course.end(&turn)
}

/// The block that stands below a line.
fn block_behind<'a>(lines: &'a [Line<'a>], place: usize) -> &'a [Line<'a>] {
    let below = lines.get(place.saturating_add(1)..).unwrap_or(&[]);
    let size = below
        .iter()
        .position(|line| line.depth != Depth::Block)
        .unwrap_or(below.len());
    below.get(..size).unwrap_or(&[])
}

impl<'a, 'b> Course<'a, 'b> {
    /// Takes in a step that hands the command something, or is one.
    fn take(
        &mut self,
        turn: &mut Turn<'a>,
        line: &Line<'a>,
        block: &'a [Line<'a>],
    ) -> Result<(), Fault> {
        let (verb, rest) = line.words();
        if is_command(verb) {
            return set_task(turn, line, Task { line: *line, block });
        }
        if !block.is_empty() {
            return Err(line.fault("lines below a step that is no command"));
        }
        match verb {
            b"on" => self.contents = self.library.contents(line, rest)?,
            b"site" => self.site = self.library.contents(line, rest)?,
            b"at" => turn.outside.add_readings(line, rest)?,
            b"fails" => fail(turn, line, rest)?,
            b"room" => narrow(turn, line, rest)?,
            b"each" => {
                turn.outside.add_failure(line, rest, self.call)?;
                turn.each = Some(rest);
            }
            b"again" => match self.last {
                Some(task) => set_task(turn, line, task)?,
                None => return Err(line.fault("there is no command before")),
            },
            _ => return Err(line.fault("a step that isn't known")),
        }
        Ok(())
    }

    /// Does the command of a turn, and compares.
    fn end(&mut self, turn: &Turn<'a>) -> Result<Came, Fault> {
        let number = turn.number;
        let Some(task) = turn.task else {
            return Err(Fault::Case {
                number,
                why: "a turn without a command",
            });
        };
        let done = act(
            self.alloc,
            &task,
            &Given {
                site: &self.site,
                contents: &self.contents,
                outside: &turn.outside,
            },
        )?;
        if turn.each.is_some() {
            return self.end_each(turn, task, done);
        }
        if !turn.wanted.is_whole(&done) {
            return Err(Fault::Case {
                number,
                why: "a turn without what it ends with or leaves",
            });
        }
        if let Some(miss) = turn.wanted.miss(&done)? {
            return Ok(Came::Missed { number, miss });
        }
        self.go_on(task, done.left);
        Ok(Came::Whole)
    }

    /// Compares what came of a turn of which a call was to fail. Where it wasn't made the command did all.
    fn end_each(&mut self, turn: &Turn<'a>, task: Task<'a>, done: Done) -> Result<Came, Fault> {
        let number = turn.number;
        if turn.wanted.status().is_none() {
            return Err(Fault::Case {
                number,
                why: "a turn without what it ends with",
            });
        }
        if done.status < 2 {
            return Ok(Came::Unmade);
        }
        if let Some(miss) = turn.wanted.miss_of_some(&done)? {
            return Ok(Came::Missed { number, miss });
        }
        self.go_on(task, done.left);
        Ok(Came::Whole)
    }

    fn go_on(&mut self, task: Task<'a>, left: Option<Vec<u8>>) {
        self.last = Some(task);
        if let Some(left) = left {
            self.contents = left;
        }
    }
}

fn set_task<'a>(turn: &mut Turn<'a>, line: &Line, task: Task<'a>) -> Result<(), Fault> {
    if turn.task.is_some() {
        return Err(line.fault("a second command before what the first one ends with"));
    }
    turn.task = Some(task);
    Ok(())
}

/// `OBJECT CALL CALL ..`.
fn fail(turn: &mut Turn, line: &Line, said: &[u8]) -> Result<(), Fault> {
    let (object, calls) = cut_at(said, b' ');
    turn.outside.add_failures(line, object, calls)
}

/// `OBJECT BYTES`.
fn narrow(turn: &mut Turn, line: &Line, said: &[u8]) -> Result<(), Fault> {
    let (object, room) = cut_at(said, b' ');
    turn.outside.narrow(line, object, room)
}
