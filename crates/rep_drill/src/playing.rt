//! The lines of a schedule, played one after another.
ghost use Rattle.std.specs.Prelude.{◌≡◌, ◌≢◌, ◌⊎◌, ◌≤◌, ◌↔◌, ℕ, List, [], Some, length, Err, IfOk, IsTrue, MatchResult};
ghost use Rattle.rep_io.specs.Causes.{Rose};
ghost use Rattle.rep_io.specs.Lines.{longest_line};
ghost use Rattle.rep_io.specs.Cutter.{fresh};
ghost use Rattle.rep_site.specs.declared.site.Site.{Site as TheSite};
ghost use Rattle.rep_report.specs.Saying.{SaysLine};
ghost use Rattle.rep_site.specs.Reading.{IsSiteText};
ghost use Rattle.rep_world.specs.Events.{IsNewWorld};
ghost use Rattle.rep_drill.specs.Playing.{BeginsNot, CanPlay, Concludes, Drills, DrillsOver, EndsPlayed, IsWhole, PlaysNext, PlaysOne, PlaysOut, SaysCounts, SaysIts, StopsAtLine, closing_text, sample_text};

use crate::ending::DrillEnding;
use crate::saying::{drill_line, say_seen, schedule_fault_line, sees_refusal};
use crate::schedule::read_event;
use rep_io::{Lines, Next, OutOfMemory, Sink, Source, put_all};
use rep_lane::{lines_of, next_line};
use rep_report::{OutputLine, fault_line, say};
use rep_site::Site;
use rep_world::{World, WorldStop};
use std::alloc::Global;

/// The site whose recorder a drill's world has.
pub const SAMPLE_SITE: &[u8] =
    b"employer_kind = 1\nemployer = \"11222333000181\"\nname = \"ACME LTDA\"\n\
    place = \"RUA A 1\"\nresponsible = \"52998224725\"\nrep = \"00051202400012345\"\ndeveloper_kind = 1\n\
    developer = \"11222333000181\"\noffset = \"-0300\"\n";

/// What `drill` hands back, and the status that the program ends with.
#[derive(Drop)]
pub struct DrillDone<S: Source, K: Sink> {
    pub schedule: S,
    pub out: K,
    pub status: u8,
}

// The world that a drill begins with.
fn sample_world(alloc: Global) -> Result<World, OutOfMemory>
    ensures { IfOk result (λ world. (site : TheSite) × IsSiteText sample_text site × IsNewWorld site world) }
{
    match Site::read(alloc, SAMPLE_SITE) {
        Ok(site) => World::new(alloc, &site),
        Err(_) => Err(OutOfMemory),
    }
}

/// Plays the lines of a schedule, one after another, each of them an event with the line's number, and says what is seen of
/// each. Then it says how many events there were and how many entries the contents have, or the line of a fault. A line that
/// says no event, or one that names a message that wasn't sent, ends the drill; what was said before it stands.
///
/// The status is 0, or 1 where a refusal was said; 3 for such a line; 4 and 5 only where the source or the output failed in
/// this call; 8 for want of memory; and 10 where the text is too long.
pub fn drill<S: Source, K: Sink>(alloc: Global, schedule: S, out: K) -> DrillDone<S, K>
    ensures drilled { Drills S.left (fresh schedule) (K.written out) (K.written result.out) (K.faults out)
        (K.faults result.out) result.status
        ⊎ BeginsNot schedule result.schedule (K.written out) (K.written result.out)
        (Rose (K.faults out) (K.faults result.out)) result.status }
    ensures source_fault { result.status ≡ 4 → Rose (S.faults schedule) (S.faults result.schedule) }
    ensures sink_fault { result.status ≡ 5 → Rose (K.faults out) (K.faults result.out) }
    // No fault is passed over. One of the output at the counts is told in the place of another.
    ensures no_source_fault { result.status ≢ 4 → result.status ≢ 5 → S.faults result.schedule ≡ S.faults schedule }
    // Where no line is refused and nothing of the outside fails, all are played, unless memory is short.
    ensures complete { (text : List ℕ) → S.left schedule ≡ Some text → CanPlay text
        → ¬ Rose (S.faults schedule) (S.faults result.schedule) → ¬ Rose (K.faults out) (K.faults result.out)
        → (result.status ≡ 0) ⊎ (result.status ≡ 1) ⊎ (result.status ≡ 8) }
{
    match sample_world(alloc) {
        Ok(world) => drill_over(world, schedule, out),
        Err(OutOfMemory) => {
            let mut out = out;
            let told = close(DrillEnding::OutOfMemory, &mut out);
            DrillDone {
                schedule,
                out,
                status: told.status(),
            }
        }
    }
}

// Plays the lines of a schedule over this world, and says the end.
fn drill_over<S: Source, K: Sink>(world: World, schedule: S, out: K) -> DrillDone<S, K>
    ensures drilled { DrillsOver S.left (fresh schedule) world (K.written out) (K.written result.out) (K.faults out)
        (K.faults result.out) result.status }
    ensures source_fault { result.status ≡ 4 → Rose (S.faults schedule) (S.faults result.schedule) }
    ensures sink_fault { result.status ≡ 5 → Rose (K.faults out) (K.faults result.out) }
    ensures no_source_fault { result.status ≢ 4 → S.faults result.schedule ≡ S.faults schedule }
    ensures complete { (text : List ℕ) → S.left schedule ≡ Some text → world.sent ≡ [] → CanPlay text
        → ¬ Rose (S.faults schedule) (S.faults result.schedule) → ¬ Rose (K.faults out) (K.faults result.out)
        → (result.status ≡ 0) ⊎ (result.status ≡ 1) ⊎ (result.status ≡ 8) }
{
    let mut world = world;
    let mut lines = lines_of(schedule);
    let mut out = out;
    let (ending, events) = play_all(&mut world, &mut lines, &mut out);
    let told = conclude(&world, ending, events, &mut out);
    DrillDone {
        schedule: lines.into_source(),
        out,
        status: told.status(),
    }
}

// Plays the lines up to the end. Answers how the drill ends, and how many lines were played.
fn play_all<S: Source, K: Sink>(
    world: &mut World,
    lines: &mut Lines<S>,
    out: &mut K,
) -> (DrillEnding, u64)
    ensures plays { PlaysOut S.left lines.old world.old world.new (K.written out.old) (K.written out.new) result.0 result.1 }
    ensures source_later { S.faults lines.old.source ≤ S.faults lines.new.source }
    ensures source_fault { result.0 ≡ DrillEnding.SourceFault → Rose (S.faults lines.old.source) (S.faults lines.new.source) }
    ensures no_source_fault { result.0 ≢ DrillEnding.SourceFault → S.faults lines.new.source ≡ S.faults lines.old.source }
    ensures sink_later { K.faults out.old ≤ K.faults out.new }
    ensures sink_fault { result.0 ≡ DrillEnding.SinkFault → Rose (K.faults out.old) (K.faults out.new) }
{
    let mut refused = false;
    let mut events = 0;
    for number in 1..u64::MAX {
        match play_next(number, world, lines, out) {
            Ok(Some(is_refused)) => refused = either(refused, is_refused),
            Ok(None) => return (ending_of(refused), events),
            Err(ending) => return (ending, events),
        }
        events = number;
    }
    (DrillEnding::OutOfMemory, events)
}

// Whether one of them is so.
fn either(one: bool, other: bool) -> bool
    ensures { IsTrue result ↔ (IsTrue one ⊎ IsTrue other) }
{
    one || other
}

// How a drill ends all of whose lines were played.
fn ending_of(refused: bool) -> DrillEnding
    ensures { EndsPlayed refused result }
{
    if refused {
        DrillEnding::SomeRefused
    } else {
        DrillEnding::AllPlayed
    }
}

// Plays the next line, which has this number, and says what is seen. Answers whether a refusal was said; none where there is
// no line left.
fn play_next<S: Source, K: Sink>(
    number: u64,
    world: &mut World,
    lines: &mut Lines<S>,
    out: &mut K,
) -> Result<Option<bool>, DrillEnding>
    ensures plays { PlaysNext S.left number lines.old lines.new world.old world.new (K.written out.old) (K.written out.new) result }
    ensures source_later { S.faults lines.old.source ≤ S.faults lines.new.source }
    ensures source_fault { result ≡ Err DrillEnding.SourceFault
        → Rose (S.faults lines.old.source) (S.faults lines.new.source) }
    ensures no_source_fault { result ≢ Err DrillEnding.SourceFault
        → S.faults lines.new.source ≡ S.faults lines.old.source }
    ensures sink_later { K.faults out.old ≤ K.faults out.new }
    ensures sink_fault { result ≡ Err DrillEnding.SinkFault → Rose (K.faults out.old) (K.faults out.new) }
{
    match next_line(lines) {
        Next::Line { bytes, crlf: _ } => match play_line(number, bytes.bytes(), world, out) {
            Ok(is_refused) => Ok(Some(is_refused)),
            Err(ending) => Err(ending),
        },
        Next::TooLong => Err(DrillEnding::Refused { line: number }),
        Next::End => Ok(None),
        Next::SourceFault => Err(DrillEnding::SourceFault),
        Next::InputLimit => Err(DrillEnding::InputLimit),
    }
}

// Plays a line, and says what is seen. Answers whether a refusal was said.
fn play_line<K: Sink>(
    number: u64,
    line: &[u8],
    world: &mut World,
    out: &mut K,
) -> Result<bool, DrillEnding>
    requires { length line.now ≤ longest_line }
    ensures plays { MatchResult result
        (PlaysOne number line.now world.old world.new (K.written out.old) (K.written out.new))
        (StopsAtLine number line.now world.old world.new (K.written out.old) (K.written out.new)) }
    ensures sink_later { K.faults out.old ≤ K.faults out.new }
    ensures sink_fault { result ≡ Err DrillEnding.SinkFault → Rose (K.faults out.old) (K.faults out.new) }
{
    let Some(event) = read_event(line) else {
        return Err(DrillEnding::Refused { line: number });
    };
    match world.step(&event) {
        Ok(seen) => match say_seen(number, &seen, out) {
            Ok(()) => Ok(sees_refusal(&seen)),
            Err(_) => Err(DrillEnding::SinkFault),
        },
        Err(WorldStop::NotSent) => Err(DrillEnding::Refused { line: number }),
        Err(WorldStop::OutOfMemory) => Err(DrillEnding::OutOfMemory),
    }
}

// Says how the drill ended. Where the output fails at the line of the counts, that is told in its place.
fn conclude<K: Sink>(world: &World, ending: DrillEnding, events: u64, out: &mut K) -> DrillEnding
    ensures { Concludes events world.now ending (K.written out.old) (K.written out.new)
        (K.faults out.old) (K.faults out.new) result }
{
    let told = say_counts(world, ending, events, out);
    close(told, out)
}

// Says the line of the counts where all lines were played. Answers how the drill ends then.
fn say_counts<K: Sink>(world: &World, ending: DrillEnding, events: u64, out: &mut K) -> DrillEnding
    ensures says { SaysIts (SaysCounts events world.now ending) (K.written out.old) (K.written out.new)
        (Rose (K.faults out.old) (K.faults out.new)) result }
    ensures sink_later { K.faults out.old ≤ K.faults out.new }
{
    if !ending.is_whole() {
        return ending;
    }
    let Ok(entries) = world.entries() else {
        return DrillEnding::OutOfMemory;
    };
    match put_all(out, drill_line(events, entries).bytes()) {
        Ok(()) => ending,
        Err(_) => DrillEnding::SinkFault,
    }
}

// Says the line of a fault, if the ending is one.
fn close<K: Sink>(ending: DrillEnding, out: &mut K) -> DrillEnding
    ensures same { result ≡ ending }
    ensures says { SaysLine (closing_text ending) (K.written out.old) (K.written out.new)
        (Rose (K.faults out.old) (K.faults out.new)) }
    ensures sink_later { K.faults out.old ≤ K.faults out.new }
{
    if ending.is_whole() {
        return ending;
    }
    say(&closing_line(ending), out);
    ending
}

// The last line of an ending with which not all was played.
fn closing_line(ending: DrillEnding) -> OutputLine
    requires { IsWhole ending → ⊥ }
    ensures { result ≡ closing_text ending }
{
    match ending {
        DrillEnding::Refused { line } => schedule_fault_line(line),
        DrillEnding::AllPlayed
        | DrillEnding::SomeRefused
        | DrillEnding::SourceFault
        | DrillEnding::SinkFault
        | DrillEnding::OutOfMemory
        | DrillEnding::InputLimit => fault_line(ending.status()),
    }
}
