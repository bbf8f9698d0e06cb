ghost use Rattle.std.specs.Prelude.{◌≡◌, ◌++◌, ◌↔◌, [], None, Ok, All, Any, IsTrue, IsFalse, IfOk, map, option_map, option_to_list};
ghost use Rattle.rep_cli.specs.Apart.{IsSame};

use crate::rigging::SystemRig;
use rep_io::OutOfMemory;
use std::alloc::Global;
use std::fs::{self, File};
use std::os::unix::fs::MetadataExt;
use std::rt::{Clock, Files};

/// What stands at a path, as far as it is seen without opening it. Links are followed.
#[derive(Clone, Copy, Debug, PartialEq, Eq)]
pub enum Seen {
    /// Nothing, or nothing that could be seen.
    Nothing,
    /// A file, by its device and its number there.
    File { device: u64, number: u64 },
    /// What keeps no bytes that others could lose: a device, a pipe, a terminal. Or a folder, which can't be written.
    Other,
}

/// A path and what stands there.
#[derive(Clone, Copy, Debug)]
pub struct Place<'a> {
    pub path: &'a str,
    pub seen: Seen,
}

impl<'a> Place<'a> {
    /// The path and what the system shows there now.
    pub fn at<R: Files>(rt: &R, path: &'a str) -> Self
        ensures path { result.path.now ≡ path.now }
    {
        let seen = match fs::metadata(rt, path) {
            Ok(found) if found.is_file() => Seen::File {
                device: found.dev(),
                number: found.ino(),
            },
            Ok(_) => Seen::Other,
            Err(_) => Seen::Nothing,
        };
        Place { path, seen }
    }

    /// Whether what is written at the one is written at the other: one file, or one path where nothing is yet.
    pub fn is_same(&self, other: &Place) -> bool
        ensures { IsTrue result ↔ IsSame self.now other.now }
    {
        match (self.seen, other.seen) {
            (
                Seen::File { device, number },
                Seen::File {
                    device: other_device,
                    number: other_number,
                },
            ) => device == other_device && number == other_number,
            (Seen::Nothing, Seen::Nothing) => self.path == other.path,
            (Seen::File { .. }, Seen::Nothing | Seen::Other)
            | (Seen::Nothing, Seen::File { .. } | Seen::Other)
            | (Seen::Other, Seen::File { .. } | Seen::Nothing | Seen::Other) => false,
        }
    }
}

/// Whether a place is the same as one of these.
fn is_among(place: &Place, others: &[Place]) -> bool
    ensures met { IsTrue result → Any (IsSame place.now) others.now }
    ensures apart { IsFalse result → All (λ other. ¬ IsSame place.now other) others.now }
{
    for other in others {
        if place.is_same(other) {
            return true;
        }
    }
    false
}

/// An output that is not to be written, since the command reads it, keeps it or writes something else to it.
#[derive(Clone, Copy, Debug, PartialEq, Eq)]
pub enum Clash {
    StandardOutput,
    File,
}

/// An output of a rig that is a file which the rig reads or keeps too, or another output; standard output where it is one of
/// them. It is looked for without opening or changing anything. A rig without texts is that of no command, and has nothing to
/// lose.
///
/// # Errors
///
/// `OutOfMemory`.
pub fn clash_in<R: Files<File = File> + Print + Clock>(
    alloc: Global,
    rt: &R,
    rig: &SystemRig<'_, R>,
) -> Result<Option<Clash>, OutOfMemory>
    ensures no_command { rig.now.texts.items ≡ [] → result ≡ Ok None }
{
    if rig.texts.is_empty() {
        return Ok(None);
    }
    let mut taken = kept_places(alloc, rt, rig)?;
    let mut clash = None;
    for out in &rig.outs {
        let place = Place::at(rt, out.shown_path());
        if is_among(&place, &taken) {
            clash = Some(Clash::File);
        }
        taken.push(place)?;
    }
    if is_among(&Place::at(rt, rig.out.shown_path()), &taken) {
        clash = Some(Clash::StandardOutput);
    }
    Ok(clash)
}

/// What stands at the paths of the texts and of the journal.
fn kept_places<'b, R: Files<File = File> + Print + Clock>(
    alloc: Global,
    rt: &R,
    rig: &'b SystemRig<'_, R>,
) -> Result<Vec<Place<'b>>, OutOfMemory>
    ensures paths { IfOk result (λ places. map (λ place. place.path.now) places.items
        ≡ map (λ s. s.path.now) rig.now.texts.items ++ option_to_list (option_map (λ d. d.file.path.now) rig.now.disk)) }
{
    let mut places = Vec::new(alloc);
    for text in &rig.texts {
        places.push(Place::at(rt, text.path))?;
    }
    if let Some(disk) = &rig.disk {
        places.push(Place::at(rt, disk.file.path))?;
    }
    Ok(places)
}
