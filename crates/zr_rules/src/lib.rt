//! What the space of a pool is, as definitions alone.
//!
//! Every unit of every device has one use at a time. The rules here say which: where an allocation is placed, where a
//! pointer to a removed device leads, what a free gives back, what a checkpoint keeps, and how much room the commits to
//! come may take. They speak of plain values, so that each crate from the sets of units up can cite them, and the
//! theorem of the pool is put together from the very words that the parts were proved against. There is no code.
#![tactic(auto)]
