//! What follows from the definitions of the spellings: a block spells at most one label and at most one root, so a reader
//! gives back what was written.
ghost use Rattle.std.specs.Prelude.{◌≡◌, ℕ, List};
ghost use Rattle.zr_label.specs.declared.root.Label.{Label};
ghost use Rattle.zr_label.specs.declared.root.Uber.{Uber};
ghost use Rattle.zr_label.specs.Blocks.{SpellsLabel, SpellsUber};

/// A block spells at most one label and at most one root.
pub fn one_value()
    ensures label { (block : List ℕ) (l m : Label) → SpellsLabel block l → SpellsLabel block m → l ≡ m }
    ensures uber { (block : List ℕ) (u v : Uber) → SpellsUber block u → SpellsUber block v → u ≡ v }
{}
