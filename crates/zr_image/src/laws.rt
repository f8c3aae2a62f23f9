//! The definitions, tried on examples and against wrong readings.
ghost use Rattle.std.specs.Prelude.{◌≡◌, ◌≢◌, ◌↔◌, ℕ, ◌+◌, ◌<◌, ◌≤◌, List, [], ◌∷◌, ◌++◌, length, Bool, true, Option, None, Some, Result, Ok, Err};
ghost use Rattle.zr_base.specs.declared.refusal.Refusal.{Refusal};
ghost use Rattle.zr_base.specs.declared.refusal.Refusal.TheVariants.{BadRoot, NoPoolOnDevices, TwoPools, UnknownVersion};
ghost use Rattle.zr_shelf.specs.Disks.{Stand, disk, part};
ghost use Rattle.zr_bptr.specs.declared.Bptr.{Bptr};
ghost use Rattle.zr_bptr.specs.declared.Ptr.{Ptr};
ghost use Rattle.zr_bptr.specs.declared.Tree.{Tree};
ghost use Rattle.zr_label.specs.Blocks.{SpellsLabel, SpellsUber};
ghost use Rattle.zr_meta.specs.declared.Stream.{Stream};
ghost use Rattle.zr_meta.specs.declared.Head.{Head};
ghost use Rattle.zr_meta.specs.Heads.{IsStream, IsHead};
ghost use Rattle.std.specs.Int.{div_ceil};
ghost use Rattle.zr_base.specs.declared.space.DevRow.{DevRow};
ghost use Rattle.zr_bptr.specs.declared.Ptr.TheVariants.{At};
ghost use Rattle.zr_label.specs.Geometry.{label_block_at, ring_slot_at, unit_at};
ghost use Rattle.zr_label.specs.declared.root.Label.{Label};
ghost use Rattle.zr_label.specs.declared.root.Uber.{Uber};
ghost use Rattle.zr_label.specs.declared.root.Seen.{Seen};
ghost use Rattle.zr_model.specs.State.{PoolState, ShelfPart, Empty, Refused, Is};
ghost use Rattle.zr_rules.specs.Equation.{root_space};
ghost use Rattle.zr_image.specs.Numbers.{Form, Sets, Mappings, Destinations, Condensing, Removal, Units, SavedRoots, Room, broken, rule_number};
ghost use Rattle.zr_image.specs.Current.{IsCurrent, IsShownAt, IsShown, FindsCurrent, IsOnePool, IsInWindow, IsOldest, slots_of, missing_device, reset_of};
ghost use Rattle.zr_image.specs.Honest.{IsLeft};
ghost use Rattle.zr_tree.specs.Trees.{tree_leaves};
ghost use Rattle.zr_view.specs.Views.{View, address_bytes};
ghost use Rattle.zr_image.specs.Reading.{HasSum, damage, store_of};
ghost use Rattle.zr_image.specs.Walks.{Setting, MayMark, Walks};
ghost use Rattle.zr_image.specs.Rules.{AreLawfulParts, IsBalanced};
ghost use Rattle.zr_image.specs.Roots.{Root, StandIn, ReadsStream, WalksAll, block_setting, meta_setting};
ghost use Rattle.zr_image.specs.Checks.{Each};
ghost use Rattle.zr_image.specs.StateOf.{IsPart};
ghost use Rattle.zr_image.specs.Frame.{KeepsRoot, KeepsMeaning, KeepsShelf};
ghost use Rattle.zr_image.specs.Examples.{two_checks, root_of, two_rows, gone_row, on_row, turned, strangers, split, chain, parts_of, on_with, chain_view, unit_five, five, pointer_five, walk_at, one_block, HasDamagedFirst};

/// The first check that fails is answered, and none behind it.
pub fn the_first_check_that_fails()
    ensures told { (e : Refusal) → two_checks (5 < 4) (5 < 4) (Err e) → e ≡ BadRoot 3 }
    ensures later { (e : Refusal) → two_checks (4 < 5) (5 < 4) (Err e) → e ≡ BadRoot 9 }
    ensures none { two_checks (5 < 4) (4 < 5) (Ok tt) → ⊥ }
{}

/// The numbers that a refusal prints.
pub fn the_numbers_of_rules()
    ensures { rule_number Form ∷ (rule_number Sets ∷ (rule_number Mappings ∷ (rule_number Destinations ∷ (rule_number Condensing ∷ (rule_number Removal ∷ (rule_number Units ∷ (rule_number SavedRoots ∷ (rule_number Room ∷ []))))))))
        ≡ 1 ∷ (2 ∷ (3 ∷ (4 ∷ (5 ∷ (6 ∷ (7 ∷ (8 ∷ (9 ∷ [])))))))) }
{}

/// The slots of a root's devices: by their labels and not by their order. A label of an earlier adding, or one that names
/// other units, is not the device's, and a device that is gone needs none.
pub fn the_slots_of_devices()
    ensures turned { slots_of (root_of 5 1 8 two_rows) turned ≡ Some 1 ∷ (Some 0 ∷ []) }
    ensures there { missing_device (root_of 5 1 8 two_rows) turned ≡ None }
    ensures missing { missing_device (root_of 5 1 8 two_rows) strangers ≡ Some 1 }
    ensures gone { missing_device (root_of 5 1 8 (on_row 1 ∷ (gone_row 5 ∷ []))) strangers ≡ None }
    ensures none { slots_of (root_of 5 1 8 (on_row 1 ∷ (gone_row 5 ∷ []))) turned ≡ Some 1 ∷ (None ∷ []) }
{}

/// Two different roots of the highest group are refused, whether two slots show them or one.
pub fn two_roots_of_one_group_are_refused()
    ensures told { IsOnePool split (root_of 5 1 8 two_rows) (Err (TwoPools 0 1)) }
    ensures apart { (seen : List Seen) (a b : ℕ) (u v w : Uber) → a < b → IsShownAt seen a u → IsShownAt seen b v → IsCurrent seen u → IsCurrent seen v → u ≢ v → FindsCurrent seen (Ok w) → ⊥ }
    ensures together { (seen : List Seen) (a : ℕ) (u v w : Uber) → IsShownAt seen a u → IsShownAt seen a v → IsCurrent seen u → IsCurrent seen v → u ≢ v → FindsCurrent seen (Ok w) → ⊥ }
    ensures group { (seen : List Seen) (u v : Uber) → IsCurrent seen u → IsCurrent seen v → u.txg ≡ v.txg }
{}

/// At most two groups are kept behind the current one, none before the last reset, and none whose roots differ.
pub fn few_groups_are_kept()
    ensures third { (seen : List Seen) → IsInWindow seen (root_of 5 1 8 two_rows) 2 → ⊥ }
    ensures reset { (seen : List Seen) → IsInWindow seen (root_of 7 6 8 two_rows) 5 → ⊥ }
    ensures first_form { reset_of (root_of 7 0 8 two_rows) ≡ 7 }
    ensures differ { (seen : List Seen) (current u v : Uber) (txg : ℕ) → IsInWindow seen current txg → IsShown seen u → IsShown seen v → u.txg ≡ txg → v.txg ≡ txg → u ≢ v → ⊥ }
    ensures gap { (seen : List Seen) (current : Uber) (txg g : ℕ) → IsInWindow seen current txg → txg ≤ g → g ≤ current.txg → ((u : Uber) → IsShown seen u → u.txg ≢ g) → ⊥ }
    ensures oldest { (seen : List Seen) (current : Uber) (a b : ℕ) → IsOldest seen current a → IsOldest seen current b → a ≡ b }
{}

/// Where nothing waits to be written, an honest crash shows no label and no root that was not there.
pub fn no_crash_makes_up_a_root()
    ensures label { (stand : Stand) (image : List (List ℕ)) (slot n : ℕ) (l : Label) → stand.writes ≡ [] → IsLeft stand image → n < 4
        → SpellsLabel (part (disk image slot) (label_block_at (length (disk stand.durable slot)) n) 4096) l
        → SpellsLabel (part (disk stand.durable slot) (label_block_at (length (disk stand.durable slot)) n) 4096) l }
    ensures root { (stand : Stand) (image : List (List ℕ)) (slot n k : ℕ) (u : Uber) → stand.writes ≡ [] → IsLeft stand image → n < 4 → k < 32
        → SpellsUber (part (disk image slot) (ring_slot_at (length (disk stand.durable slot)) n k) 4096) u
        → SpellsUber (part (disk stand.durable slot) (ring_slot_at (length (disk stand.durable slot)) n k) 4096) u }
{}

/// An address on a device that is gone reads where its units went, over each device on the way.
pub fn an_address_reads_where_it_leads()
    ensures one { (disks : List (List ℕ)) → address_bytes (chain_view disks) (record { dev = 0; start = 10; len = 1 }) ≡ part (disk disks 0) (unit_at 100) 4096 ++ [] }
    ensures two { (disks : List (List ℕ)) → address_bytes (chain_view disks) (record { dev = 0; start = 11; len = 2 }) ≡ part (disk disks 0) (unit_at 40) 4096 ++ (part (disk disks 0) (unit_at 41) 4096 ++ []) }
    ensures nowhere { (disks : List (List ℕ)) → address_bytes (chain_view disks) (record { dev = 0; start = 13; len = 1 }) ≡ [] }
{}

/// A walk marks no unit twice, and no pointer that is younger than its root.
pub fn a_walk_marks_each_unit_once()
    ensures first { MayMark (walk_at 2) [] pointer_five }
    ensures again { MayMark (walk_at 2) (pointer_five ∷ []) pointer_five → ⊥ }
    ensures young { (before : List Bptr) → MayMark (walk_at 1) before pointer_five → ⊥ }
{}

/// A mapping that leads to a device that went later is lawful, and one that leads back breaks the rule of destinations.
pub fn mappings_lead_to_what_went_later()
    ensures later { AreLawfulParts (parts_of (chain 6)) (Ok tt) }
    ensures back { AreLawfulParts (parts_of (chain 4)) (Err (BadRoot 4)) }
    ensures never { AreLawfulParts (parts_of (chain 4)) (Ok tt) → ⊥ }
{}

/// A unit has one use: what is live is neither kept, nor metadata, nor pointed to twice, and what is held is used.
pub fn each_unit_has_one_use()
    ensures live_and_kept { IsBalanced (root_space (parts_of (on_with five five ∷ [])) [] []) (unit_five ∷ []) None → ⊥ }
    ensures live_and_meta { IsBalanced (root_space (parts_of (on_with five [] ∷ [])) (unit_five ∷ []) []) (unit_five ∷ []) None → ⊥ }
    ensures twice { IsBalanced (root_space (parts_of (on_with five [] ∷ [])) [] []) (unit_five ∷ (unit_five ∷ [])) None → ⊥ }
    ensures unused { IsBalanced (root_space (parts_of (on_with five [] ∷ [])) [] []) [] None → ⊥ }
    ensures not_held { IsBalanced (root_space (parts_of (on_with [] [] ∷ [])) [] []) (unit_five ∷ []) None → ⊥ }
{}

/// What an outcome makes of the shelf: nothing without a root, a pool that is refused, and never a pool from a refusal.
pub fn what_a_refusal_makes_of_the_shelf()
    ensures empty { (paths disks : List (List ℕ)) (seen : List Seen) (p : ShelfPart) → IsPart paths disks seen (Err NoPoolOnDevices) p → p ≡ Empty }
    ensures refused { (paths disks : List (List ℕ)) (seen : List Seen) → IsPart paths disks seen (Err (UnknownVersion 3)) (Refused (UnknownVersion 3)) }
    ensures never { (paths disks : List (List ℕ)) (seen : List Seen) (p : PoolState) → IsPart paths disks seen (Err (BadRoot 1)) (Is p) → ⊥ }
{}

/// A root opens as before, with the root that it saved, from other disks on which its units and its metadata have their
/// bytes, and means the same pool; and so does a shelf whose slots show the same.
pub fn a_root_stays_while_its_units_do()
    ensures root { (slots : List (Option ℕ)) (u : Uber) (r : Root) (saved : Option Root) → KeepsRoot slots u r saved }
    ensures meaning { (paths : List (List ℕ)) (slots : List (Option ℕ)) (r : Root) (saved : Option Root) (p : PoolState) → KeepsMeaning paths slots r saved p }
    ensures shelf { (paths : List (List ℕ)) (seen : List Seen) (r : Root) (saved : Option Root) (p : PoolState) → KeepsShelf paths seen r saved p }
{}

/// The tree of a directory is walked whole before a leaf of it is read. So what the tree is refused for is the answer, be
/// its leaves damaged or not: where the first leaf is damaged and a later pointer breaks the rule on units, that rule is
/// told and never the damage. A damaged leaf is told where the tree is in order.
pub fn a_directory_is_walked_before_its_leaves_are_read()
    ensures one { (v : View) (may_be : ℕ → ℕ → Bool) (txg : ℕ) (dir : Tree) (x y : Result (List Bptr) Refusal) → WalksAll v may_be txg dir x → WalksAll v may_be txg dir y → x ≡ y }
    ensures tree { (v : View) (may_be : ℕ → ℕ → Bool) (txg : ℕ) (dir : Tree) (r : Refusal) (x : Result (List Bptr) Refusal) → Walks (block_setting v may_be txg 1 4096) dir [] (Err r)
        → WalksAll v may_be txg dir x ↔ (x ≡ Err r) }
    ensures units { (v : View) (may_be : ℕ → ℕ → Bool) (txg : ℕ) (b p q : Bptr) (more : List Ptr) → HasDamagedFirst v may_be txg b p q more → WalksAll v may_be txg (one_block b) (Err (BadRoot 7)) }
    ensures never { (v : View) (may_be : ℕ → ℕ → Bool) (txg : ℕ) (b p q : Bptr) (more : List Ptr) → HasDamagedFirst v may_be txg b p q more → WalksAll v may_be txg (one_block b) (Err (damage v p)) → ⊥ }
    ensures leaf { (v : View) (may_be : ℕ → ℕ → Bool) (txg : ℕ) (dir : Tree) (marks more : List Bptr) (p : Bptr) → Walks (block_setting v may_be txg 1 4096) dir [] (Ok marks)
        → tree_leaves (store_of v) dir ≡ p ∷ more → (HasSum v p → ⊥) → WalksAll v may_be txg dir (Err (damage v p)) }
{}

/// A stream has one value, and the streams of a root are read one after another: what the first is refused for is the
/// answer, be the others in their form or not. Words, padding and holes of a stream are told before the next is walked.
pub fn streams_are_read_in_their_order()
    ensures value { (v : View) (t : Stream) (a b : List ℕ) → StandIn v t a → StandIn v t b → a ≡ b }
    ensures one { (v : View) (u : Uber) (ts : List Stream) (before : List ℕ × List Bptr) (x y : Result (List ℕ × List Bptr) Refusal) → Each (ReadsStream v u) ts before x → Each (ReadsStream v u) ts before y → x ≡ y }
    ensures form { (v : View) (u : Uber) (t : Stream) (ts : List Stream) (before : List ℕ × List Bptr) (marks : List Bptr) (x : Result (List ℕ × List Bptr) Refusal) → Walks (meta_setting v u (div_ceil t.words 512)) t.tree before.1 (Ok marks)
        → ((words : List ℕ) → StandIn v t words → ⊥) → Each (ReadsStream v u) (t ∷ ts) before x → x ≡ Err (broken Form) }
{
    zr_root::streams_have_one_value();
}

/// The root of a stream, and that of the directory, is a block of one unit, also where it is a leaf.
pub fn roots_of_metadata_have_one_unit()
    ensures stream { (t : Stream) (b : Bptr) → IsStream t → t.tree.root ≡ At b → b.at.len ≡ 1 }
    ensures directory { (table : List DevRow) (h : Head) (b : Bptr) → IsHead table h → h.dir.root ≡ At b → b.at.len ≡ 1 }
{}
