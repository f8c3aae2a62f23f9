//! What the calls of a removal are together.
ghost use Rattle.std.specs.Prelude.{ℕ};
ghost use Rattle.zr_base.specs.declared.space.Policy.{Policy};
ghost use Rattle.zr_rules.specs.Space.{Space};
ghost use Rattle.zr_rules.specs.Steps.{Copies};
ghost use Rattle.zr_space.specs.Plans.{MakesCopy, Plans};
ghost use Rattle.zr_space.specs.declared.copy.Plan.{Plan};

/// A plan and the entry that is made for it are together a copy: of the lowest extent that is left, its length or the first
/// of the halves for which there is a place.
pub fn plan_and_entry()
    ensures { (policy : Policy) (old new : Space) (d : ℕ) (p : Plan) → Plans policy old d p → MakesCopy old new d p → Copies policy old new d p.from.len }
{}
