//! The objects to which a directory leads.
//!
//! A directory that was found on disks is a tree of blocks, and so is each object in it. What that means is a finite map of
//! objects, each a finite map of bytes. Here such a map is made for every directory whose leaves stand where they may: an
//! object's bytes leaf by leaf, zeros in a hole, and zeros where a leaf has another sum than its pointer. A store that has
//! the blocks to which the directory leads holds these objects, since each leaf of the directory has objects of its own. And
//! what a store holds is found again: in an image where its pointers read the same, its directory has just these objects.
#![tactic(auto)]

ghost use Rattle.std.specs.Prelude.{◌≡◌, []};
ghost use Rattle.std.specs.FinMap as fin;
ghost use Rattle.zr_bptr.specs.declared.Tree.{Tree};
ghost use Rattle.zr_store.specs.Store.{Stored};
ghost use Rattle.zr_model.specs.Objects.{Objects};
ghost use Rattle.zr_image.specs.StateOf.{AreObjects};
ghost use Rattle.zr_import.specs.Directories.{IsInPlace};
ghost use Rattle.zr_moves.specs.Account.{Account};
ghost use Rattle.zr_held.specs.Steps.{no_tree};
ghost use Rattle.zr_held.specs.Held.{HasObjects};
ghost use Rattle.zr_found.specs.Found.{HasReached, HoldsFound, ReadsAlike};

/// A store that has the blocks to which a directory leads in an image holds objects, which are those of the directory there,
/// for an account with this directory and an empty group.
pub fn objects_found()
    ensures { (image s : Stored) (a : Account) → a.changes.objects ≡ [] → IsInPlace image a.dir → HasReached image s a.dir → HoldsFound image s a }
{}

/// The objects that a store holds are those of the directory in each image where the pointers of the store read their bytes,
/// for an account with an empty group.
pub fn held_are_found()
    ensures { (image s : Stored) (a : Account) (objects : Objects) → a.changes.objects ≡ [] → ReadsAlike image s → HasObjects s a objects → AreObjects image a.dir objects }
{}

/// A directory means one thing: what it says of each byte and each lost block leaves no choice.
pub fn one_meaning()
    ensures { (s : Stored) (dir : Tree) (x y : Objects) → AreObjects s dir x → AreObjects s dir y → x ≡ y }
{}

/// Without a directory no objects are found.
pub fn nothing_found()
    ensures { (image s : Stored) (a : Account) → a.dir ≡ no_tree → (found : HoldsFound image s a) → found.objects ≡ fin.empty }
{}
