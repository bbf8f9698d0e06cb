//! The core's verdicts against a plain scan of what was recorded, over lists of random lines.

ghost use Rattle.std.specs.Prelude.{◌<◌};
ghost use Rattle.rep_wire.specs.Request.{IsRequest};

use rep_core::{Core, Verdict};
use rep_fields::Stamp;
use rep_io::OutOfMemory;
use rep_wire::{Order, Request, read_lane_head, read_line};
use std::alloc::{AllocError, Global};
use std::process::Abort;
use std::test::Fail;

const DESK: &[u8] = b"L|9|00";

/// The minute 2024-03-04T08:00 of the local time, counted from 1970.
const EIGHT: u32 = 28_492_320;

/// Brasilia's time.
fn at(rt: &impl Abort, local: u32) -> Stamp {
    Stamp::make(local, -180).expect(rt, "a stamp in range")
}

/// The request that a line of a lane asks.
fn asked(rt: &impl Abort, head: &[u8], line: &[u8]) -> Request
    ensures { IsRequest result }
{
    let head = read_lane_head(head).expect(rt, "a head");
    match read_line(line, &head) {
        Ok(Order::Asked(request)) => request,
        Ok(Order::Extract { .. }) | Err(_) => panic!(rt; "{line:?} asks nothing"),
    }
}

/// Records a request where the core's verdict on it has it so, and answers the verdict.
fn judge(core: &mut Core, request: &Request, now: Stamp) -> Result<Verdict, OutOfMemory>
    requires { IsRequest request.now }
{
    let verdict = core.decide(request, core.kept(request));
    if matches!(verdict, Verdict::Fresh) {
        core.reserve(request)?;
        core.accept(request, now);
    }
    Ok(verdict)
}

/// An xorshift generator.
#[derive(Drop)]
struct Dice(u64);

impl Dice {
    /// A number below `sides`.
    fn roll(&mut self, sides: u64) -> u64
        requires { 0 < sides }
        ensures { result < sides }
    {
        self.0 ^= self.0 << 13;
        self.0 ^= self.0 >> 7;
        self.0 ^= self.0 << 17;
        self.0 % sides
    }
}

/// What a line of a random list asks.
#[derive(Clone, Copy, PartialEq)]
enum Kind {
    Online,
    Offline,
    Include,
    Amend,
    Exclude,
    Event,
}

/// A request as the plain scan sees it, with the minute after eight at which it was recorded.
#[derive(Clone, Copy)]
struct Plain {
    desk: u64,
    seq: u64,
    kind: Kind,
    worker: u64,
    marked: u64,
    recorded: u64,
}

impl Plain {
    fn rolled(dice: &mut Dice, recorded: u64) -> Plain {
        Plain {
            desk: 8 + dice.roll(2),
            seq: 1 + dice.roll(30),
            kind: match dice.roll(8) {
                0 | 1 => Kind::Online,
                2 | 3 => Kind::Offline,
                4 => Kind::Include,
                5 => Kind::Amend,
                6 => Kind::Exclude,
                _ => Kind::Event,
            },
            worker: dice.roll(2),
            marked: dice.roll(60),
            recorded,
        }
    }

    fn line(&self, alloc: Global) -> Result<String, AllocError> {
        let seq = self.seq;
        let marked = self.marked;
        let cpf = if self.worker == 0 {
            "11144477735"
        } else {
            "52998224725"
        };
        match self.kind {
            Kind::Online => format!(in alloc; "M|{seq}|{cpf}|0"),
            Kind::Offline => format!(in alloc; "M|{seq}|{cpf}|1|2024-03-04T08:{marked:02}:00-0300"),
            Kind::Include => format!(in alloc; "C|{seq}|I|{cpf}|NAME||52998224725"),
            Kind::Amend => format!(in alloc; "C|{seq}|A|{cpf}|NAME||52998224725"),
            Kind::Exclude => format!(in alloc; "C|{seq}|E|{cpf}|||52998224725"),
            Kind::Event => format!(in alloc; "V|{seq}|07"),
        }
    }

    fn has_content_of(&self, other: &Plain) -> bool {
        self.kind == other.kind
            && (self.kind == Kind::Event || self.worker == other.worker)
            && (self.kind != Kind::Offline || self.marked == other.marked)
    }

    /// Whether the worker is known after these, by the last registration of the worker.
    fn is_known(&self, log: &[Plain]) -> bool {
        let last = log.iter().rev().find(|past| {
            past.worker == self.worker
                && matches!(past.kind, Kind::Include | Kind::Amend | Kind::Exclude)
        });
        match last {
            None => false,
            Some(past) => {
                past.kind != Kind::Exclude
                    || (self.kind == Kind::Offline && self.marked <= past.recorded)
            }
        }
    }

    fn verdict(&self, log: &[Plain], limit: usize) -> Verdict {
        let mut nsr = 0u32;
        for past in log {
            nsr = nsr.saturating_add(1);
            if past.desk == self.desk && past.seq == self.seq {
                return if self.has_content_of(past) {
                    Verdict::Repeat { nsr }
                } else {
                    Verdict::Conflict { nsr }
                };
            }
        }
        let needs_worker = !matches!(self.kind, Kind::Include | Kind::Event);
        if needs_worker && !self.is_known(log) {
            Verdict::Unregistered
        } else if log.len() >= limit {
            Verdict::Exhausted
        } else {
            Verdict::Fresh
        }
    }
}

#[test]
fn random_lists_are_judged_as_by_a_plain_scan(rt: HostRuntime) -> Result<(), Fail> {
    for seed in [1, 20, 300] {
        let mut dice = Dice(seed);
        let mut core = Core::new(rt.alloc(), 25);
        let mut log = Vec::new(rt.alloc());
        for step in 0..240u64 {
            let plain = Plain::rolled(&mut dice, step / 4);
            let line = plain.line(rt.alloc())?;
            let head = if plain.desk == 8 {
                b"L|8|00".as_slice()
            } else {
                DESK
            };
            let request = asked(&rt, head, line.as_bytes());
            let verdict = plain.verdict(&log, 25);
            let judged = judge(&mut core, &request, at(&rt, EIGHT + (step / 4) as u32))?;
            assert_eq!(rt; judged, verdict, "seed {seed}, step {step}");
            if verdict == Verdict::Fresh {
                log.push(plain)?;
            }
        }
        assert_eq!(rt; core.count() as usize, log.len(), "seed {seed}");
    }
    Ok(())
}
