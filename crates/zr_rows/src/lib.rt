//! Examples of sets, mappings, allocations and spaces, with values from outside.
//!
//! Each tries calls of one crate, or what is passed on from one to the next: a mapping that is searched, counted and
//! condensed. They stand in a crate of their own, so that none of these is proved a second time for its tests.
#![tactic(auto)]

#[cfg(test)]
mod audits;
#[cfg(test)]
mod chains;
#[cfg(test)]
mod choosers;
#[cfg(test)]
mod condensings;
#[cfg(test)]
mod entries;
#[cfg(test)]
mod evacuations;
#[cfg(test)]
mod mappings;
#[cfg(test)]
mod metaslabs;
#[cfg(test)]
mod pages;
#[cfg(test)]
mod ranges;
#[cfg(test)]
mod removals;
#[cfg(test)]
mod space_maps;
#[cfg(test)]
mod spaces;
