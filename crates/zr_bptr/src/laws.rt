//! What follows from the definitions of the spellings: bytes spell at most one value, so a reader gives back what was
//! written.
ghost use Rattle.std.specs.Prelude.{◌≡◌, ℕ, List, Option};
ghost use Rattle.zr_bptr.specs.declared.Ptr.{Ptr};
ghost use Rattle.zr_bptr.specs.declared.ObjRec.{ObjRec};
ghost use Rattle.zr_bptr.specs.Spelling.{SpellsPointer, SpellsTreeBlock, SpellsRecords};

/// Bytes spell at most one pointer, one tree block and one leaf of the directory.
pub fn one_value()
    ensures pointer { (bytes : List ℕ) (p q : Ptr) → SpellsPointer bytes p → SpellsPointer bytes q → p ≡ q }
    ensures block { (bytes : List ℕ) (level other fill more : ℕ) (ps qs : List Ptr) → SpellsTreeBlock bytes level fill ps → SpellsTreeBlock bytes other more qs → ps ≡ qs }
    ensures records { (bytes : List ℕ) (rs ss : List (Option ObjRec)) → SpellsRecords bytes rs → SpellsRecords bytes ss → rs ≡ ss }
{}
