//! Small examples, each the contract of a function with an empty body.
ghost use Rattle.std.specs.Prelude.{[], ◌∷◌};
ghost use Rattle.lmn_store_slab.specs.Lines.{SameSize};

/// One list is one list still where its number has left it, and two lists are more.
pub fn sizes_are_told()
    ensures alike { SameSize (record { lists = (0 ∷ []) ∷ []; size = 1 }) (record { lists = [] ∷ []; size = 1 }) }
    ensures differ { SameSize (record { lists = [] ∷ []; size = 1 }) (record { lists = [] ∷ [] ∷ []; size = 1 }) → ⊥ }
{}
