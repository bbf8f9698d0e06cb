//! A recorder that is up or down.
use crate::dial::Dial;
use rep_disk::MemDisk;
use rep_store::Store;
use sure_disk::SureDisk;

/// A recorder that is up, or what is left of it.
#[derive(Drop)]
pub enum Recorder {
    Up(Store<SureDisk, Dial>),
    Down(MemDisk),
}

/// What is left of a recorder that failed.
#[derive(Drop)]
pub struct Left {
    pub disk: MemDisk,
    /// How many entries the history has that it keeps.
    pub entries: u32,
}
