ghost use Rattle.std.specs.Prelude.{◌≡◌, ◌+◌, ◌++◌, ◌≤◌, IfOk, OnOk, IsOk, if◌then◌else◌, length, map, take, drop, vec_len, vec_capacity};
ghost use Rattle.rep_disk.specs.Record.{over, at_rest, pended, rested, opened, changed, Put, Shorten, reached, replay, image_of, is_synced_by, odd_byte};
ghost use Rattle.rep_disk.specs.Standing.{state_of};
ghost use Rattle.rep_disk.specs.Fields.{made_of, step_of, log_of, size_of, size_of_all};
ghost use Rattle.rep_disk.specs.declared.standing.Cell.{Cell};

use crate::change::{Change, Kind};
use crate::image::Image;
use std::alloc::{AllocError, Global};

/// The byte of the odd image at each pending place.
const ODD_BYTE: u8 = 0x37;

/// A place that an image may have.
#[derive(Clone, Copy)]
pub(crate) struct Cell {
    /// What was written there last.
    pub byte: u8,
    /// Whether no sync has made sure of it.
    pub pending: bool,
}

/// How a disk stood at a moment, while its record is replayed.
#[derive(Drop)]
pub(crate) struct Standing {
    /// What a read gave.
    pub seen: Vec<u8>,
    /// What a read gave at the last sync.
    pub settled: Vec<u8>,
    /// The places up to the greatest length since then.
    pub cells: Vec<Cell>,
    /// The least length since then.
    pub least: usize,
}

/// Puts a piece over what stands from a place on, and past the end.
pub(crate) fn put<T: Copy>(xs: &mut Vec<T>, at: usize, piece: &[T]) -> Result<(), AllocError>
    ensures put { OnOk result (xs.new.items ≡ over at piece.now xs.old.items) }
    ensures capacity { vec_capacity xs.old ≤ vec_capacity xs.new }
    ensures longer { OnOk result (vec_len xs.new ≤ vec_len xs.old + length piece.now) }
    ensures succeeds { vec_len xs.old + length piece.now ≤ vec_capacity xs.old → IsOk result }
{
    let at = at.min(xs.len());
    let inner = piece.len().min(xs.len() - at);
    xs[at..at + inner].copy_from_slice(&piece[..inner]);
    xs.extend_from_slice(&piece[inner..])
}

/// The same, unless the call fails.
pub(crate) fn put_unless(
    failed: bool,
    bytes: &mut Vec<u8>,
    at: usize,
    piece: &[u8],
) -> Result<(), AllocError>
    ensures put { OnOk result (bytes.new.items ≡ (if failed then bytes.old.items else over at piece.now bytes.old.items)) }
    ensures capacity { vec_capacity bytes.old ≤ vec_capacity bytes.new }
    ensures longer { OnOk result (vec_len bytes.new ≤ vec_len bytes.old + length piece.now) }
    ensures succeeds { vec_len bytes.old + length piece.now ≤ vec_capacity bytes.old → IsOk result }
{
    if failed {
        return Ok(());
    }
    put(bytes, at, piece)
}

/// Shortens the bytes, unless the call fails.
pub(crate) fn shorten_unless(failed: bool, bytes: &mut Vec<u8>, size: usize)
    ensures cut { bytes.new.items ≡ (if failed then bytes.old.items else take size bytes.old.items) }
    ensures capacity { vec_capacity bytes.old ≤ vec_capacity bytes.new }
    ensures shorter { vec_len bytes.new ≤ vec_len bytes.old }
{
    if failed {
        return;
    }
    bytes.truncate(size);
}

fn rested_cells(alloc: Global, bytes: &[u8]) -> Result<Vec<Cell>, AllocError>
    ensures { IfOk result (λ v. v.items ≡ rested bytes.now) }
{
    bytes
        .iter()
        .map(|byte| Cell {
            byte: *byte,
            pending: false,
        })
        .collect(alloc)
}

fn pended_cells(alloc: Global, bytes: &[u8]) -> Result<Vec<Cell>, AllocError>
    ensures { IfOk result (λ v. v.items ≡ pended bytes.now) }
{
    bytes
        .iter()
        .map(|byte| Cell {
            byte: *byte,
            pending: true,
        })
        .collect(alloc)
}

fn opened_cells(alloc: Global, cells: &[Cell]) -> Result<Vec<Cell>, AllocError>
    ensures { IfOk result (λ v. v.items ≡ opened cells.now) }
{
    cells
        .iter()
        .map(|cell| Cell {
            byte: cell.byte,
            pending: true,
        })
        .collect(alloc)
}

fn new_bytes(alloc: Global, cells: &[Cell]) -> Result<Vec<u8>, AllocError>
    ensures { IfOk result (λ v. v.items ≡ map (λ (c : Cell). c.byte) cells.now) }
{
    cells.iter().map(|cell| cell.byte).collect(alloc)
}

fn odd_bytes(alloc: Global, cells: &[Cell]) -> Result<Vec<u8>, AllocError>
    ensures { IfOk result (λ v. v.items ≡ map (λ (c : Cell). if c.pending then odd_byte else c.byte) cells.now) }
{
    cells
        .iter()
        .map(|cell| if cell.pending { ODD_BYTE } else { cell.byte })
        .collect(alloc)
}

/// Opens the places past a cut.
fn open_past(alloc: Global, cells: &mut Vec<Cell>, size: usize) -> Result<(), AllocError>
    ensures { OnOk result (cells.new.items ≡ take size cells.old.items ++ opened (drop size cells.old.items)) }
{
    let size = size.min(cells.len());
    let past = opened_cells(alloc, &cells[size..])?;
    cells.truncate(size);
    cells.extend_from_slice(&past)
}

fn is_synced_by(moment: u64, synced: Option<u64>) -> bool
    ensures { result ≡ is_synced_by moment synced }
{
    match synced {
        None => false,
        Some(t) => t <= moment,
    }
}

impl Standing {
    fn at_rest(alloc: Global, bytes: &[u8]) -> Result<Standing, AllocError>
        ensures { IfOk result (λ s. state_of s ≡ at_rest bytes.now) }
    {
        Ok(Standing {
            seen: bytes.to_vec(alloc)?,
            settled: bytes.to_vec(alloc)?,
            cells: rested_cells(alloc, bytes)?,
            least: bytes.len(),
        })
    }

    fn settle(&mut self, alloc: Global) -> Result<(), AllocError>
        ensures { OnOk result (state_of self.new ≡ at_rest (state_of self.old).seen) }
    {
        self.settled = self.seen.as_slice().to_vec(alloc)?;
        self.cells = rested_cells(alloc, &self.seen)?;
        self.least = self.seen.len();
        Ok(())
    }

    fn put(
        &mut self,
        alloc: Global,
        at: usize,
        piece: &[u8],
        failed: bool,
    ) -> Result<(), AllocError>
        ensures { OnOk result (state_of self.new ≡ changed (Put at piece.now) failed (state_of self.old)) }
    {
        put_unless(failed, &mut self.seen, at, piece)?;
        let cells = pended_cells(alloc, piece)?;
        put(&mut self.cells, at, &cells)
    }

    fn shorten(&mut self, alloc: Global, size: usize, failed: bool) -> Result<(), AllocError>
        ensures { OnOk result (state_of self.new ≡ changed (Shorten size) failed (state_of self.old)) }
    {
        shorten_unless(failed, &mut self.seen, size);
        self.least = self.least.min(size);
        open_past(alloc, &mut self.cells, size)
    }

    fn change(&mut self, alloc: Global, change: &Change, pieces: &[u8]) -> Result<(), AllocError>
        requires { size_of change.now.kind ≤ length pieces.now }
        ensures { OnOk result (state_of self.new ≡ changed (step_of change.now.kind pieces.now) change.now.failed (state_of self.old)) }
    {
        match change.kind {
            Kind::Write { at, size } => self.put(alloc, at, &pieces[..size], change.failed),
            Kind::Cut { size } => self.shorten(alloc, size, change.failed),
        }
    }

    /// Goes on by one change, as far as the moment.
    fn reach(
        &mut self,
        alloc: Global,
        moment: u64,
        change: &Change,
        pieces: &[u8],
    ) -> Result<(), AllocError>
        requires { size_of change.now.kind ≤ length pieces.now }
        ensures { OnOk result (state_of self.new ≡ reached moment (made_of change.now pieces.now) (state_of self.old)) }
    {
        if change.begun > moment {
            return Ok(());
        }
        self.change(alloc, change, pieces)?;
        if !is_synced_by(moment, change.synced) {
            return Ok(());
        }
        self.settle(alloc)
    }

    /// One of the three images.
    pub fn image(self, alloc: Global, image: Image) -> Result<Vec<u8>, AllocError>
        ensures { IfOk result (λ v. v.items ≡ image_of image (state_of self)) }
    {
        match image {
            Image::Old => {
                let mut old = self.settled;
                old.truncate(self.least);
                Ok(old)
            }
            Image::New => new_bytes(alloc, &self.cells),
            Image::Odd => odd_bytes(alloc, &self.cells),
        }
    }
}

/// The pieces behind that of a change.
fn behind(kind: Kind, pieces: &[u8]) -> &[u8]
    requires { size_of kind ≤ length pieces.now }
    ensures { result.now ≡ drop (size_of kind) pieces.now }
{
    match kind {
        Kind::Write { at: _, size } => &pieces[size..],
        Kind::Cut { size: _ } => pieces,
    }
}

/// How a disk stood at a moment, by its first bytes and its record.
pub(crate) fn replay(
    alloc: Global,
    first: &[u8],
    log: &[Change],
    pieces: &[u8],
    moment: u64,
) -> Result<Standing, AllocError>
    requires { size_of_all log.now ≡ length pieces.now }
    ensures { IfOk result (λ s. state_of s ≡ replay moment (at_rest first.now) (log_of log.now pieces.now)) }
{
    let mut standing = Standing::at_rest(alloc, first)?;
    let mut rest = pieces;
    for change in log {
        standing.reach(alloc, moment, change, rest)?;
        rest = behind(change.kind, rest);
    }
    Ok(standing)
}
