//! What follows from the form of a head: bytes spell at most one, so reading gives back what was written; and no head is
//! long.
ghost use Rattle.std.specs.Prelude.{◌≡◌, ◌≤◌, ◌*◌, ◌+◌, ℕ, List, length};
ghost use Rattle.zr_base.specs.declared.space.DevRow.{DevRow};
ghost use Rattle.zr_meta.specs.declared.Head.{Head};
ghost use Rattle.zr_meta.specs.Heads.{SpellsHead, head_words, leaving_count};

/// Bytes spell at most one head, whatever the devices are.
pub fn one_head()
    ensures { (table other : List DevRow) (bytes : List ℕ) (h k : Head) → SpellsHead table bytes h → SpellsHead other bytes k → h ≡ k }
{}

/// How many words a head has: at most 2,796 where at most one of 32 devices is leaving, and never more than 4,377.
pub fn heads_are_short()
    ensures words { (table : List DevRow) (bytes : List ℕ) (h : Head) → SpellsHead table bytes h → length bytes ≡ 8 * head_words h }
    ensures one_leaving { (table : List DevRow) (bytes : List ℕ) (h : Head) → SpellsHead table bytes h → length table ≤ 32 → leaving_count table ≤ 1 → head_words h ≤ 2796 }
    ensures any { (table : List DevRow) (bytes : List ℕ) (h : Head) → SpellsHead table bytes h → length table ≤ 32 → head_words h ≤ 4377 }
{}
