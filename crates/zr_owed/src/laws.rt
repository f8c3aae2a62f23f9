//! Why what is owed is always there, as laws on the counts.
//!
//! Let room be the free units and the metadata units that come back. Where the room covers what is owed, the metadata
//! of a commit fits into what was owed for it, and the room covers what is owed afterwards. So no commit is ever
//! refused for room, and the law holds again after it. What a commit does to the counts (`IsCommit`) is what the
//! crates of trees, streams and space say of their calls.
ghost use Rattle.std.specs.Prelude.{ℕ, ◌+◌, ◌*◌, ◌<◌, ◌≤◌, max};
ghost use Rattle.std.specs.Int.{div_ceil};
ghost use Rattle.zr_base.specs.declared.space.Sizes.{Sizes};
ghost use Rattle.zr_base.specs.Trees.{tree_units};
ghost use Rattle.zr_rules.specs.Owed.{metadata_units, stream_units, words_to_come};
ghost use Rattle.zr_owed.specs.Room.{HasRoom, IsCommit};

/// The metadata of a commit fits into the units that were owed for it.
#[tactic(auto, using(crate::proofs::RoomLaws::commit_fits))]
pub fn metadata_fits()
    ensures { (old new : Sizes) (before after blocks words uncopied metadata dropped late1 late2 : ℕ)
        → IsCommit old new before after blocks words uncopied metadata dropped late1 late2 → metadata ≤ metadata_units old }
{}

/// A commit keeps the room.
pub fn commits_keep_room()
    ensures { (old new : Sizes) (before after blocks words uncopied metadata dropped late1 late2 : ℕ)
        → IsCommit old new before after blocks words uncopied metadata dropped late1 late2 → HasRoom old before → HasRoom new after }
{}

/// The four streams of a device more take at most 18 units, where there are at most 136 streams.
#[tactic(auto, using(crate::proofs::RoomLaws::device_takes))]
pub fn devices_take_little()
    ensures { (s : Sizes) → s.streams ≤ 136 → metadata_units (record s { streams = s.streams + 4 }) ≤ metadata_units s + 18 }
{}

/// A log of at most twice its words anew and one leaf more takes a unit for every 128 words anew, and three.
#[tactic(auto, using(crate::proofs::RoomLaws::log_units))]
pub fn logs_take_little()
    ensures { (anew : ℕ) → 128 * tree_units (div_ceil (2 * anew + 512) 512) ≤ anew + 384 }
{}

/// Another stream takes a unit for every 128 words, and one.
#[tactic(auto, using(crate::proofs::RoomLaws::other_units))]
pub fn streams_take_little()
    ensures { (words : ℕ) → 0 < words → 128 * tree_units (div_ceil words 512) ≤ words + 128 }
{}

/// A tree has fewer than twice as many units as leaves.
pub fn trees_are_small()
    ensures { (leaves : ℕ) → 0 < leaves → tree_units leaves < 2 * leaves }
{}

/// More leaves have no fewer units.
#[tactic(auto, using(crate::proofs::RoomLaws::tree_units_mono))]
pub fn trees_grow()
    ensures { (m n : ℕ) → m ≤ n → tree_units m ≤ tree_units n }
{}

/// The streams, and a 64th of the metadata before them, which the late sets name, fit into what is owed for metadata.
#[tactic(auto, using(crate::proofs::RoomLaws::past_fits))]
pub fn late_sets_fit()
    ensures { (streams past : ℕ) → 64 * streams + past ≤ 64 * max past (streams + div_ceil streams 63) }
{}

/// Fewer words in fewer streams take no more units, and no more metadata where there was no more before.
pub fn fewer_words_take_less()
    ensures streams { (more fewer : Sizes) → fewer.streams ≤ more.streams → words_to_come fewer ≤ words_to_come more → stream_units fewer ≤ stream_units more }
    ensures metadata { (more fewer : Sizes) → fewer.streams ≤ more.streams → words_to_come fewer ≤ words_to_come more → fewer.past ≤ more.past → metadata_units fewer ≤ metadata_units more }
{}
