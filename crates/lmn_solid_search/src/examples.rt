//! Images that are read, and what a guard binds: each the contract of an empty function.
ghost use Rattle.std.specs.Prelude.{◌≡◌, ◌≢◌, ◌∷◌, [], ℤ, Some, None};
ghost use Rattle.lmn_base.specs.Graphs.{Port};
ghost use Rattle.lmn_base.specs.declared.guard.Cond.TheVariants.{Equal};
ghost use Rattle.lmn_base.specs.declared.guard.Expr.TheVariants.{Int};
ghost use Rattle.lmn_base.specs.declared.level.CtxUse.{CtxUse};
ghost use Rattle.lmn_base.specs.declared.refusal.Pos.{Pos};
ghost use Rattle.lmn_store_heap.specs.Heap.{Heap};
ghost use Rattle.lmn_solid_heads.specs.Guards.{Meaning};
ghost use Rattle.lmn_solid_search.specs.Binding.{after_all};
ghost use Rattle.lmn_solid_search.specs.Finding.{images};
ghost use Rattle.lmn_solid_search.specs.declared.embedding.Found.{Found as FoundBy};

/// Atoms of a head count from 0 and its membranes from 1; number 0 is the membrane of the rule.
pub fn images_are_read()
    ensures atom { (found : FoundBy) → found.atoms ≡ 5 ∷ (8 ∷ []) → (images 3 found).atom 1 ≡ 8 }
    ensures home { (found : FoundBy) → (images 3 found).membrane 0 ≡ 3 }
    ensures membrane { (found : FoundBy) → found.membranes ≡ 7 ∷ [] → (images 3 found).membrane 1 ≡ 7 }
    ensures other { (found : FoundBy) → found.atoms ≡ 5 ∷ (8 ∷ []) → (images 3 found).atom 0 ≢ 8 }
{}

/// `$x = 3` binds `$x` where it stands for no part; where it stands for one, nothing is bound.
pub fn equals_binds()
    ensures bound { (h : Heap) (s : Meaning) (x : CtxUse) (z : ℤ) (pos : Pos) → s.part_of x.name ≡ None → (after_all h s (Equal x (Int z) pos ∷ [])).bound_to x.name ≡ Some z }
    ensures part { (h : Heap) (s : Meaning) (x : CtxUse) (z : ℤ) (pos : Pos) (p : Port) → s.part_of x.name ≡ Some p → after_all h s (Equal x (Int z) pos ∷ []) ≡ s }
{}
