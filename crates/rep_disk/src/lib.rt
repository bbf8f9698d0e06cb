//! A disk as the journal sees it: contents that are read, written, cut and made sure of, what a crash at each moment
//! may leave, and a count of faults. Beside the trait there are two disks in memory, which fail by a list and from a
//! call on.
#![tactic(auto)]

mod change;
mod disk;
mod fuse_disk;
mod image;
mod mem_disk;
mod room;
mod standing;

pub use disk::Disk;
pub use fuse_disk::FuseDisk;
pub use image::Image;
pub use mem_disk::{Fails, MemDisk};
