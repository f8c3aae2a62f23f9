//! The room from the begin of a group to its end.
//!
//! A commit gives metadata back before its group ends; such units are neither free nor late then, and are late once it has
//! ended. Counted with them the room falls by the units of new blocks alone.
ghost use Rattle.std.specs.Prelude.{◌≡◌, ℕ, ◌+◌, ◌≤◌, Bool, List, [], sum_by};
ghost use Rattle.zr_base.specs.declared.space.Dva.{Dva};
ghost use Rattle.zr_base.specs.declared.space.Policy.{Policy};
ghost use Rattle.zr_reckon.specs.Base.{base_words};
ghost use Rattle.zr_reckon.specs.Coming.{room_to_come, KeepsRecords};
ghost use Rattle.zr_reckon.specs.Uses.{dropped_units, room};
ghost use Rattle.zr_rules.specs.Columns.{free_units, sizes};
ghost use Rattle.zr_rules.specs.Frees.{Allocates, AllocatesMeta, DropsMeta, Frees};
ghost use Rattle.zr_rules.specs.Space.{Space, opened_of, IsLawful};
ghost use Rattle.zr_rules.specs.Steps.{Commits};

/// Metadata that is given back adds no word and frees no unit yet, and leaves the counts but those of metadata: its units go
/// from those of the roots, and wait for the group's end.
pub fn metadata_given_back_adds_no_word()
    ensures words { (old new : Space) (list : List Dva) (blocks objects : ℕ) → DropsMeta old new list → KeepsRecords old new
        → (sizes new blocks objects).words ≡ (sizes old blocks objects).words }
    ensures base { (old new : Space) (list : List Dva) → DropsMeta old new list → KeepsRecords old new → base_words new ≡ base_words old }
    ensures free { (old new : Space) (list : List Dva) → DropsMeta old new list → KeepsRecords old new → free_units new ≡ free_units old }
    ensures metadata { (old new : Space) (list : List Dva) → DropsMeta old new list → KeepsRecords old new
        → sum_by (λ a. a.len) new.meta + sum_by (λ a. a.len) new.saved_meta + sum_by (λ a. a.len) list ≡ sum_by (λ a. a.len) old.meta + sum_by (λ a. a.len) old.saved_meta }
    ensures given { (old new : Space) (list : List Dva) → DropsMeta old new list → KeepsRecords old new → dropped_units new ≤ dropped_units old + sum_by (λ a. a.len) list }
    ensures others { (old new : Space) (list : List Dva) (blocks objects : ℕ) → DropsMeta old new list → KeepsRecords old new
        → sizes new blocks objects ≡ record (sizes old blocks objects) { turning = (sizes new blocks objects).turning; past = (sizes new blocks objects).past } }
{}

/// From the begin of a group to its end the room falls by the units of new blocks alone.
pub fn a_group_takes_its_blocks_from_the_room()
    ensures begin { (s : Space) → IsLawful s → ((d : ℕ) → (opened_of s d).dropped ≡ []) → room_to_come s ≡ room s }
    ensures none { (s : Space) → IsLawful s → ((d : ℕ) → (opened_of s d).dropped ≡ []) → dropped_units s ≡ 0 }
    ensures block { (policy : Policy) (want : ℕ) (old new : Space) (at : Dva) → Allocates policy want old new at → room_to_come new + want ≡ room_to_come old }
    ensures metadata { (policy : Policy) (want : ℕ) (old new : Space) (at : Dva) → AllocatesMeta policy want old new at → room_to_come new ≡ room_to_come old }
    ensures free { (old new : Space) (a : Dva) (birth : ℕ) → Frees old new a birth → room_to_come old ≤ room_to_come new }
    ensures drop { (old new : Space) (list : List Dva) → DropsMeta old new list → KeepsRecords old new → room_to_come old ≤ room_to_come new }
    ensures end { (reset : Bool) (old new : Space) → Commits reset old new → room_to_come old ≤ room new }
{}
