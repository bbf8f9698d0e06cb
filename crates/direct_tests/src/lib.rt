//! Tests of what neither a clause nor a case can say: which calls of the fakes in memory fail, what a crash at each moment may
//! leave of a disk and of a journal, the core against a plain scan over random lists, and participants at work in threads.
#![tactic(auto)]

#[cfg(test)]
mod disks;
#[cfg(test)]
mod fakes;
#[cfg(test)]
mod images;
#[cfg(test)]
mod judging;
#[cfg(test)]
mod turns;
