//! The head of the metadata, and what its streams record.
//!
//! The metadata of a root is a short head and streams of words: the logs of the sets of its devices, their mappings,
//! and what is condensed. The head says how many words each stream has and where its tree is, so a commit writes only
//! what changed and a new head. Which streams there are follows from the rows of the devices. A head has one spelling,
//! and bytes that are not exactly that are refused.
#![tactic(auto)]

mod form;
mod late;
mod laws;
mod log;
mod map;
mod part;
mod parts;
mod read;
mod write;

pub use form::is_head;
pub use late::late_words;
pub use laws::{heads_are_short, one_head};
pub use part::{DevWords, PartsErr, part_of};
pub use parts::parts_of;
pub use read::{MetaErr, decode_head};
pub use write::encode_head;
use zr_base::{Blob, CkptPart, Items};
use zr_bptr::Tree;

/// A number of words, and the tree that has them: 512 in a leaf, and zeros behind the last.
#[derive(Clone, Copy, PartialEq, Eq, Debug)]
pub struct Stream {
    pub words: u64,
    pub tree: Tree,
}

/// The device whose mapping is condensed, and how many of its entries are worked through.
#[derive(Clone, Copy, PartialEq, Eq, Debug)]
pub struct CondAt {
    pub dev: u32,
    pub at: u64,
}

/// A head: its form, which is 1 or 2, the directory, the block of the saved root, the checkpoint, what is condensed,
/// and the streams in order. Form 1 has no streams of late sets.
#[derive(Drop)]
pub struct Head {
    pub form: u64,
    pub dir: Tree,
    pub saved: Option<Blob>,
    pub ckpt: CkptPart,
    pub cond: Option<CondAt>,
    pub streams: Items<Stream>,
}
