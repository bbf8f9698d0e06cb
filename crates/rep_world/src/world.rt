//! The world.
ghost use Rattle.std.specs.Prelude.{◌≡◌, ◌<◌, ◌++◌, [], ◌∷◌, MatchOption, vec_len, vec_capacity};
ghost use Rattle.rep_world.specs.Events.{IsUnsent, SeesReply, receipts_in};
ghost use Rattle.rep_world.specs.World.{IsMessage};

use crate::event::{Event, Seen, WorldStop};
use crate::naming::Naming;
use crate::recorder::Recorder;
use crate::standing::{bytes_of, bytes_while_up, image_now, is_running};
use crate::steps::{FIRST_MINUTE, answer, count, crash, entries_of, extracted, fail, make, open};
use afd_records::Op;
use rep_disk::{Image, MemDisk};
use rep_fields::{Day, EmployerId, Stamp};
use rep_io::OutOfMemory;
use rep_site::Site;
use rep_wire::{Answer, Ask, Reply, Request, Slip};
use std::alloc::Global;
use std::marker::Model;
use sure_disk::no_fails;

/// The recorder of a site in a world: what was sent to it, what happened, and which receipts it issued.
#[derive(Drop)]
pub struct World {
    alloc: Global,
    site: Site,
    sent: Vec<Request>,
    named: Vec<Naming>,
    issued: Vec<Slip>,
    recorder: Recorder,
}

impl Model for World {
    ghost use Rattle.rep_world.specs.World.{World as TheWorld};

    ghost Value = { TheWorld };

    ghost use Rattle.rep_world.specs.Fields.{IsKept, world_of};

    ghost view = { λ w. world_of w.site w.sent.items w.named.items w.issued.items w.recorder };

    ghost invariant = { λ w. IsKept w.site w.sent.items w.named.items w.issued.items w.recorder };
}

impl World {
    ghost use Rattle.std.specs.Prelude.{◌≡◌, ◌≤◌, All, IfOk};
    ghost use Rattle.rep_io.specs.Streams.{IsReading};
    ghost use Rattle.rep_wire.specs.Request.{IsRequest};
    ghost use Rattle.rep_site.specs.Site.{IsSite};
    ghost use Rattle.rep_world.specs.World.{IsWorld};
    ghost use Rattle.rep_world.specs.Events.{Counts, Does, GoesOn, IsNewWorld, IsPlayable};
    ghost use Rattle.rep_world.specs.Play.{PlaysAll};
    ghost use Rattle.rep_world.specs.declared.event.Event.{Event as TheEvent};

    /// A world whose recorder is up, with a journal that was made of the site's employer record at minute 28,492,440.
    pub fn new(alloc: Global, site: &Site) -> Result<World, OutOfMemory>
        requires { IsSite site.now }
        ensures made { IfOk result (IsNewWorld site.now) }
        ensures holds { IfOk result IsWorld }
    {
        let store = make(alloc, site)?;
        Ok(World {
            alloc,
            site: *site,
            sent: Vec::new(alloc),
            named: Vec::new(alloc),
            issued: Vec::new(alloc),
            recorder: Recorder::Up(store),
        })
    }

    /// Plays an event, and answers what is seen of it.
    ///
    /// # Errors
    ///
    /// `NotSent` exactly where the event names a message that wasn't sent. `OutOfMemory`. The world is as before then.
    pub fn step(&mut self, e: &Event) -> Result<Seen, WorldStop>
        requires { IsPlayable e.now }
        ensures does { Does e.now self.old self.new result }
        ensures holds { IsWorld self.new }
    {
        match e {
            Event::Send { request } => self.send(request),
            Event::Deliver { k, minute, lost } => self.deliver(*k, *minute, *lost),
            Event::Fail { k, minute, call } => self.fail(*k, *minute, *call),
            Event::Crash {
                k,
                minute,
                call,
                image,
            } => self.crash(*k, *minute, *call, *image),
            Event::Rest { image } => self.rest(*image),
            Event::Reopen => self.reopen(),
            Event::Extract { from, to, minute } => self.extract(*from, *to, *minute),
        }
    }

    /// Plays events, one after another, until one isn't played.
    ///
    /// # Errors
    ///
    /// `NotSent` and `OutOfMemory` as of `step`; the events before that one have been played.
    pub fn play(&mut self, events: &[Event]) -> Result<(), WorldStop>
        requires { All IsPlayable events.now }
        ensures plays { PlaysAll self.old events.now self.new result }
        ensures goes_on { GoesOn self.old self.new }
        ensures holds { IsWorld self.new }
    {
        let _ = self.is_up();
        for e in events {
            match self.step(e) {
                Ok(_) => {}
                Err(stop) => return Err(stop),
            }
        }
        Ok(())
    }

    /// How many entries the history has that the bytes keep.
    pub fn entries(&self) -> Result<u32, OutOfMemory>
        ensures counts { IfOk result (Counts self.now.disk.bytes) }
        ensures holds { IsWorld self.now }
    {
        entries_of(self.alloc, &self.recorder)
    }

    /// Whether the recorder is up.
    pub fn is_up(&self) -> bool
        ensures value { result ≡ self.now.up }
        ensures holds { IsWorld self.now }
    {
        is_running(&self.recorder)
    }

    // A message is added.
    fn send(&mut self, request: &Request) -> Result<Seen, WorldStop>
        requires { IsRequest request.now }
        ensures does { Does (TheEvent.Send request.now) self.old self.new result }
        ensures holds { IsWorld self.new }
    {
        let Ok(k) = u32::try_from(self.sent.len() + 1) else {
            return Err(WorldStop::OutOfMemory);
        };
        if self.sent.reserve(1).is_err() {
            return Err(WorldStop::OutOfMemory);
        }
        add(&mut self.sent, request);
        Ok(Seen::Sent { k })
    }

    // A message arrives.
    fn deliver(&mut self, k: u32, minute: u32, lost: bool) -> Result<Seen, WorldStop>
        requires { IsReading minute }
        ensures does { Does (TheEvent.Deliver k minute lost) self.old self.new result }
        ensures holds { IsWorld self.new }
    {
        let Some(request) = message(&self.sent, k) else {
            return Err(WorldStop::NotSent);
        };
        let seq = request.seq;
        if self.named.reserve(1).is_err() {
            return Err(WorldStop::OutOfMemory);
        }
        if self.issued.reserve(1).is_err() {
            return Err(WorldStop::OutOfMemory);
        }
        let Ok(answered) = answer(&mut self.recorder, &self.site, request, minute) else {
            return Err(WorldStop::OutOfMemory);
        };
        let Some(reply) = answered else {
            return Ok(Seen::Idle);
        };
        self.named.push_reserved(Naming { message: k, minute });
        issue(&mut self.issued, &reply.answer);
        Ok(seen_of(lost, seq, reply))
    }

    // A message arrives, and a device call of its put fails.
    fn fail(&mut self, k: u32, minute: u32, call: u8) -> Result<Seen, WorldStop>
        requires minute { IsReading minute }
        requires some_call { 1 ≤ call }
        requires call { call ≤ 4 }
        ensures does { Does (TheEvent.Fail k minute call) self.old self.new result }
        ensures holds { IsWorld self.new }
    {
        let Some(request) = message(&self.sent, k) else {
            return Err(WorldStop::NotSent);
        };
        let Some(bytes) = bytes_while_up(&self.recorder) else {
            return Ok(Seen::Idle);
        };
        let Ok(tried) = fail(self.alloc, &self.site, bytes, request, minute, call) else {
            return Err(WorldStop::OutOfMemory);
        };
        let Some(left) = tried else {
            return self.deliver(k, minute, false);
        };
        if self.named.reserve(1).is_err() {
            return Err(WorldStop::OutOfMemory);
        }
        self.named.push_reserved(Naming { message: k, minute });
        self.recorder = Recorder::Down(left.disk);
        Ok(Seen::Failed { n: left.entries })
    }

    // A message arrives, and a crash comes within a device call of its put.
    fn crash(&mut self, k: u32, minute: u32, call: u8, image: Image) -> Result<Seen, WorldStop>
        requires minute { IsReading minute }
        requires some_call { 1 ≤ call }
        requires call { call ≤ 4 }
        ensures does { Does (TheEvent.Crash k minute call image) self.old self.new result }
        ensures holds { IsWorld self.new }
    {
        let Some(request) = message(&self.sent, k) else {
            return Err(WorldStop::NotSent);
        };
        let Some(bytes) = bytes_while_up(&self.recorder) else {
            return Ok(Seen::Idle);
        };
        let Ok(tried) = crash(self.alloc, &self.site, bytes, request, minute, call, image) else {
            return Err(WorldStop::OutOfMemory);
        };
        let Some(left) = tried else {
            return self.deliver(k, minute, false);
        };
        let Ok(n) = count(self.alloc, &left) else {
            return Err(WorldStop::OutOfMemory);
        };
        if self.named.reserve(1).is_err() {
            return Err(WorldStop::OutOfMemory);
        }
        self.named.push_reserved(Naming { message: k, minute });
        self.recorder = Recorder::Down(MemDisk::new(self.alloc, left, no_fails(self.alloc)));
        Ok(Seen::Crashed { n })
    }

    // A crash comes between calls.
    fn rest(&mut self, image: Image) -> Result<Seen, WorldStop>
        ensures does { Does (TheEvent.Rest image) self.old self.new result }
        ensures holds { IsWorld self.new }
    {
        let Ok(left) = image_now(self.alloc, &self.recorder, image) else {
            return Err(WorldStop::OutOfMemory);
        };
        let Ok(n) = count(self.alloc, &left) else {
            return Err(WorldStop::OutOfMemory);
        };
        self.recorder = Recorder::Down(MemDisk::new(self.alloc, left, no_fails(self.alloc)));
        Ok(Seen::AtRest { n })
    }

    // The recorder is opened again.
    fn reopen(&mut self) -> Result<Seen, WorldStop>
        ensures does { Does TheEvent.Reopen self.old self.new result }
        ensures holds { IsWorld self.new }
    {
        if is_running(&self.recorder) {
            return Ok(Seen::Idle);
        }
        let bytes = bytes_of(&self.recorder);
        let Ok(store) = open(self.alloc, &self.site, bytes, FIRST_MINUTE) else {
            return Err(WorldStop::OutOfMemory);
        };
        let n = store.count();
        self.recorder = Recorder::Up(store);
        Ok(Seen::Opened { n })
    }

    // The AFD of a period is extracted.
    fn extract(&mut self, from: Day, to: Day, minute: u32) -> Result<Seen, WorldStop>
        ensures does { Does (TheEvent.Extract from to minute) self.old self.new result }
        ensures holds { IsWorld self.new }
    {
        // Its head names the minute, and its size is the same for each.
        let _minute = minute;
        let Some(bytes) = extracted(&self.recorder, from, to) else {
            return Ok(Seen::Idle);
        };
        Ok(Seen::Extracted { bytes })
    }
}

// A message more.
fn add(sent: &mut Vec<Request>, request: &Request)
    requires { vec_len sent.old < vec_capacity sent.old }
    ensures { sent.new.items ≡ sent.old.items ++ request.now ∷ [] }
{
    // The prover finds the types inside of what is pushed only where the function names them.
    let _inside: (Option<Ask>, Option<EmployerId>, Option<Op>, Option<Stamp>) = (
        None, None, None, None,
    );
    sent.push_reserved(*request);
}

// The message with this number.
fn message(sent: &[Request], k: u32) -> Option<&Request>
    ensures { MatchOption result (IsUnsent sent.now k) (λ q. IsMessage sent.now k q.now) }
{
    if k == 0 {
        return None;
    }
    sent.get(k as usize - 1)
}

// The receipt of an answer, if it is one, is issued.
fn issue(issued: &mut Vec<Slip>, answer: &Answer)
    requires { vec_len issued.old < vec_capacity issued.old }
    ensures { issued.new.items ≡ issued.old.items ++ receipts_in answer.now }
{
    // The prover finds the types inside of what is pushed only where the function names them.
    let _inside: (Option<Stamp>, Option<[u8; 64]>) = (None, None);
    match answer {
        Answer::Receipt(slip) => issued.push_reserved(*slip),
        Answer::Refused(_) => {}
    }
}

// What is seen of a reply.
fn seen_of(lost: bool, seq: u64, reply: Reply) -> Seen
    ensures { SeesReply lost seq reply result }
{
    if lost {
        Seen::ReplyLost
    } else {
        Seen::Answered { seq, reply }
    }
}
