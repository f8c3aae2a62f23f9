//! What holds of every stream in every store.
ghost use Rattle.std.specs.Prelude.{◌≡◌, ◌^◌, ◌<◌, List, ℕ, length, All};
ghost use Rattle.std.specs.Int.{div_ceil};
ghost use Rattle.zr_base.specs.Trees.{tree_units};
ghost use Rattle.zr_bptr.specs.declared.Bptr.{Bptr};
ghost use Rattle.zr_store.specs.Store.{Stored, hits};
ghost use Rattle.zr_meta.specs.declared.Stream.{Stream};
ghost use Rattle.zr_meta.specs.Heads.{IsStream};
ghost use Rattle.zr_tree.specs.Trees.{tree_reach};
ghost use Rattle.zr_root.specs.Streams.{HasWords};

/// A stream has as many blocks as the tree of its leaves must have.
pub fn streams_take_what_they_must()
    ensures { (s : Stored) (stream : Stream) (ns : List ℕ) → IsStream stream → HasWords s stream ns → length (tree_reach s stream.tree) ≡ tree_units (div_ceil (length ns) 512) }
{}

/// The same words stand in a stream wherever its own blocks have the same bytes, whatever stands beside them.
pub fn streams_stand_alone()
    ensures { (old new : Stored) (stream : Stream) (ns : List ℕ) → ((b : Bptr) → 0 < hits (tree_reach old stream.tree) b.at → new.bytes b ≡ old.bytes b) → HasWords old stream ns → HasWords new stream ns }
{}

/// In a stream stand no two lists of words.
pub fn streams_have_one_value()
    ensures { (s : Stored) (stream : Stream) (ns ms : List ℕ) → All (λ n. n < 2 ^ 64) ns → All (λ n. n < 2 ^ 64) ms → HasWords s stream ns → HasWords s stream ms → ns ≡ ms }
{}
