//! What the disks mean: the pool that an image of the slots shows, or why it shows none.
//!
//! A crash may leave any image, and a device may have any bytes. So the meaning of an image is defined for all bytes: the
//! checks of an import stand in their order, and the first that fails is the refusal. What is read goes through the
//! mappings of the very root that is read, so the meaning of a root does not change while its units keep their bytes.
//! There is no code: the calls of an import cite these words.
#![tactic(auto)]

pub mod laws;
