//! Examples of what stands over stores of blocks: trees, directories, streams and heads, changes, commits and imports.
//!
//! Each tries calls of one crate, with what the crates below it give, on a store in memory; two on devices in memory.
//! They stand in a crate of their own, so that none of these is proved a second time for its tests.
#![tactic(auto)]

#[cfg(test)]
mod caches;
#[cfg(test)]
mod changes;
#[cfg(test)]
mod commits;
#[cfg(test)]
mod devices;
#[cfg(test)]
mod groups;
#[cfg(test)]
mod heads;
#[cfg(test)]
mod imports;
#[cfg(test)]
mod lookups;
#[cfg(test)]
mod objects;
#[cfg(test)]
mod pointers;
#[cfg(test)]
mod removals;
#[cfg(test)]
mod roots;
#[cfg(test)]
mod stores;
#[cfg(test)]
mod trees;
