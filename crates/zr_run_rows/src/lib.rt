//! Examples of what stands at the edge of a run: words, lines, replies, disks in memory, what they show, and whole scripts.
//!
//! Each tries calls of one crate with values from outside. They stand in a crate of their own, so that none of these is proved a
//! second time for its tests.
#![tactic(auto)]

#[cfg(test)]
mod labels;
#[cfg(test)]
mod scans;
#[cfg(test)]
mod scripts;
#[cfg(test)]
mod sessions;
#[cfg(test)]
mod shelves;
#[cfg(test)]
mod views;
#[cfg(test)]
mod words;
