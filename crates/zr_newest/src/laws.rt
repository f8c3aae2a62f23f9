//! The laws, as calls that do nothing: a caller learns them by their contracts.
ghost use Rattle.std.specs.Prelude.{◌≡◌, ◌≢◌, ℕ, ◌+◌, ◌<◌, false, List, map, length, slice_set, Option, Some, Ok};
ghost use Rattle.zr_base.specs.declared.space.DevRow.{DevRow};
ghost use Rattle.zr_image.specs.Current.{FindsCurrent, ShowsAll, is_device};
ghost use Rattle.zr_label.specs.Blocks.{IsUber, SpellsLabel, padding};
ghost use Rattle.zr_label.specs.Geometry.{units_of_size};
ghost use Rattle.zr_label.specs.declared.root.Label.{Label};
ghost use Rattle.zr_label.specs.declared.root.Seen.{Seen};
ghost use Rattle.zr_label.specs.declared.root.Uber.{Uber};
ghost use Rattle.zr_rules.specs.Places.{is_gone};
ghost use Rattle.zr_scan.specs.Scan.{IsFirstLabel, block_of, ring_block};
ghost use Rattle.zr_shelf.specs.Disks.{disk, part};
ghost use Rattle.zr_view.specs.Views.{slot_of};
ghost use Rattle.zr_newest.specs.Newest.{AreAt, HasOwnDevices, HaveLabels, IsAbove, IsNewestOn, JoinsDevice, KeepsRings, PreparesSlot, PutsRoot, ShowsRoot, StandsAtDevice};

/// The current root that the slots show is the newest of its pool, with the devices that it has by their labels.
pub fn current_is_newest()
    ensures { (disks : List (List ℕ)) (seen : List Seen) (u : Uber) (slots : List (Option ℕ)) → ShowsAll disks seen → FindsCurrent seen (Ok u) → AreAt slots u seen → IsNewestOn disks u slots }
{}

/// Where labels and rings have their bytes, the newest root stays the newest.
pub fn newest_stays()
    ensures { (before after : List (List ℕ)) (u : Uber) (slots : List (Option ℕ)) → KeepsRings before after → IsNewestOn before u slots → IsNewestOn after u slots }
{}

/// A root of a later group of the pool is above all that stand, and so is one of a later group than the current root's.
pub fn later_is_above()
    ensures current { (disks : List (List ℕ)) (seen : List Seen) (u next : Uber) → ShowsAll disks seen → FindsCurrent seen (Ok u) → u.txg < next.txg → IsAbove disks next }
    ensures newest { (disks : List (List ℕ)) (u next : Uber) (slots : List (Option ℕ)) → IsNewestOn disks u slots → next.guid ≡ u.guid → u.txg < next.txg → IsAbove disks next }
{}

/// A root above all that stood, which was put into ring slots, one of them at a device of it, is the newest from then on.
pub fn published_is_newest()
    ensures { (before after : List (List ℕ)) (u : Uber) (slots : List (Option ℕ)) (seen : List Seen) → IsUber u → IsAbove before u → PutsRoot before after u → HaveLabels before seen → AreAt slots u seen → StandsAtDevice after u slots → IsNewestOn after u slots }
{}

/// A root with the devices of the newest has them where that has them. So has one with some of them, as their labels tell.
pub fn same_devices_stay()
    ensures own { (u next : Uber) (slots mine : List (Option ℕ)) (seen : List Seen) → AreAt slots u seen → HasOwnDevices u next slots mine → AreAt mine next seen }
    ensures all { (disks : List (List ℕ)) (u next : Uber) (slots : List (Option ℕ)) → IsNewestOn disks u slots → next.guid ≡ u.guid → next.count ≡ u.count → next.rows ≡ u.rows → (seen : List Seen) → HaveLabels disks seen → AreAt slots next seen }
{}

/// A slot that is prepared beside a pool, with a label that names no device of its newest root, leaves that root the newest.
pub fn prepared_is_beside()
    ensures { (before after : List (List ℕ)) (slot : ℕ) (l : Label) (u : Uber) (slots : List (Option ℕ)) → PreparesSlot before after slot l → ((d : ℕ) → slot_of slots d ≢ Some slot) → ((d : ℕ) → d < u.count → is_device u d (Some l) ≡ false) → IsNewestOn before u slots → IsNewestOn after u slots }
{}

/// What makes a slot prepared, from what is written to its disk alone; and what makes a device the next one of a root, whose row was put behind the others, with a label of no other slot.
pub fn a_slot_is_prepared()
    ensures prepared { (before after : List (List ℕ)) (slot size : ℕ) (l : Label) → slot < length before → map length after ≡ map length before → length (disk after slot) ≡ size → units_of_size size 2 ≡ Some l.units
        → ((other at n : ℕ) → other ≢ slot → part (disk after other) at n ≡ part (disk before other) at n) → ((n : ℕ) → n < 4 → SpellsLabel (block_of size (disk after slot) n) l)
        → ((n k : ℕ) → n < 4 → k < 32 → ring_block size (disk after slot) n k ≡ padding 4096) → PreparesSlot before after slot l }
    ensures joins { (before : List (List ℕ)) (u next : Uber) (slots : List (Option ℕ)) (slot : ℕ) (l : Label) (row : DevRow) → next.guid ≡ u.guid → next.count ≡ u.count + 1 → next.rows ≡ slice_set u.rows u.count row → u.count < length u.rows → u.count < length slots
        → is_gone row.state ≡ false → l.guid ≡ u.guid → l.index ≡ u.count → l.added ≡ row.added → l.units ≡ row.units → ((d : ℕ) → slot_of slots d ≢ Some slot)
        → ((other : ℕ) (m : Label) → other ≢ slot → other < length before → IsFirstLabel (length (disk before other)) (disk before other) m → m.guid ≡ l.guid → m.index ≡ l.index → m.added ≡ l.added → ⊥)
        → JoinsDevice before u next slots (slice_set slots u.count (Some slot)) slot l }
{}

/// A slot that is prepared shows no root, and its label is seen from then on: so a root that has the device there has it by the labels.
pub fn prepared_joins()
    ensures none { (before after : List (List ℕ)) (slot other : ℕ) (l : Label) (v : Uber) → PreparesSlot before after slot l → ShowsRoot after other v → ShowsRoot before other v }
    ensures joined { (before after : List (List ℕ)) (slot : ℕ) (l : Label) (u next : Uber) (slots mine : List (Option ℕ)) (seen : List Seen) → PreparesSlot before after slot l → HaveLabels before seen → AreAt slots u seen → JoinsDevice before u next slots mine slot l
        → (behind : List Seen) × HaveLabels after behind × AreAt mine next behind }
{}

/// Where the slots show a current root at all, it is the newest of a pool that stands there, whatever is seen of the slots, and its devices are where that pool has them.
pub fn newest_is_current()
    ensures alone { (disks : List (List ℕ)) (u v : Uber) (slots : List (Option ℕ)) (seen : List Seen) → IsNewestOn disks u slots → ShowsAll disks seen → FindsCurrent seen (Ok v) → v ≡ u }
    ensures current { (disks : List (List ℕ)) (u v : Uber) (slots : List (Option ℕ)) (seen other : List Seen) → IsNewestOn disks u slots → ShowsAll disks seen → FindsCurrent seen (Ok v) → ShowsAll disks other → FindsCurrent other (Ok u) }
    ensures devices { (disks : List (List ℕ)) (u : Uber) (slots : List (Option ℕ)) (seen : List Seen) → IsNewestOn disks u slots → ShowsAll disks seen → AreAt slots u seen }
{}
