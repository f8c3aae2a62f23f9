//! What a commit leaves of the metadata, tried: a set that did not change keeps its record, and when a log is written anew.
ghost use Rattle.std.specs.Prelude.{◌≡◌, ℕ, List, [], ◌∷◌, true, false};
ghost use Rattle.zr_base.specs.declared.space.Extent.{Extent};
ghost use Rattle.zr_base.specs.declared.space.DevState.TheVariants as row;
ghost use Rattle.zr_store.specs.Store.{Stored};
ghost use Rattle.zr_meta.specs.declared.Stream.{Stream};
ghost use Rattle.zr_moves.specs.Streams.{LogsSet, needs_anew, kinds_of, Held, Kept, Entries, Counts, Marks, Late1, Late2};

/// The log of a set that did not change keeps its record.
pub fn an_unchanged_set_keeps_its_record()
    ensures { (version dev txg : ℕ) (es : List Extent) (old new : Stored) (a b : Stream) (had has : List ℕ) → LogsSet version dev txg es es old new a b had has → b ≡ a }
{}

/// A log is written anew where it would have more than twice the words of its set and 512.
pub fn when_a_log_is_written_anew()
    ensures longest { needs_anew 600 12 50 ≡ false }
    ensures longer { needs_anew 600 13 50 ≡ true }
    ensures small { needs_anew 0 512 0 ≡ false }
{}

/// A device that is leaving has its mapping behind its logs, and one that is gone has no log and no late set.
pub fn the_streams_of_devices()
    ensures leaving { kinds_of 2 row.Leaving ≡ Held ∷ (Kept ∷ (Entries ∷ (Counts ∷ (Marks ∷ (Late1 ∷ (Late2 ∷ [])))))) }
    ensures gone { kinds_of 2 row.Gone ≡ Entries ∷ (Counts ∷ (Marks ∷ [])) }
    ensures first_form { kinds_of 1 row.On ≡ Held ∷ (Kept ∷ []) }
{}
