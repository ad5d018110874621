//! An embedding of a rule's head on a heap is an embedding in the region that stands for the heap.
//!
//! The definitions stand in `specs/`. Each law is the contract of a function with an empty body, so nothing here does
//! anything when it runs.
#![tactic(auto)]

ghost use Rattle.lmn_adequacy_heaps.specs.Examples.{AcrossHasItsForest, AcrossIsRead};
ghost use Rattle.lmn_adequacy_heaps.specs.Parts.{EmbeddedPartsAreApart, EmbeddedPartsAreGround, EqualPartsAlike, GroundPartsStandWhole, IntegerPartsAlike, PartsAreApart, UnaryPartsAlike, WholePartsAreGround};
ghost use Rattle.lmn_adequacy_heaps.specs.Laws.{EmbedsAlike, GuardsAlike, HeadsAlike, HeapsAreNamed, HeapIrreducibleExactly, LeastAlike, NumbersLeftInOrder, SolidsAreRegions, HeapStepsExactly};

/// The head of a rule embeds on a heap, its guard aside, exactly where it lies in the region that stands for the membrane:
/// at the same numbers and with the same parts.
pub fn heads_embed_alike()
    ensures { HeadsAlike }
{}

/// The guard of a rule holds on a heap exactly where it holds in the calculus, for an assignment that takes each typed
/// context to its part and each name that the guard binds to its integer.
pub fn guards_hold_alike()
    ensures { GuardsAlike }
{}

/// Of two embeddings of a head on a heap, the positions and the numbers that the calculus counts are in the same order.
pub fn numbers_are_in_order()
    ensures { NumbersLeftInOrder }
{}

/// A rule embeds on a heap, at a membrane, exactly where its tree embeds in the region that stands there, and at the same
/// numbers.
pub fn rules_embed_alike()
    ensures { EmbedsAlike }
{}

/// The least embedding of a rule on a heap, by the positions of its images in their lists, is the least in the region.
pub fn least_embeddings_are_alike()
    ensures { LeastAlike }
{}

/// A step is possible from the process of a heap exactly where a rule of some membrane embeds on the heap, and the process
/// is irreducible exactly where none does.
pub fn steps_are_exact()
    ensures steps { HeapStepsExactly }
    ensures irreducible { HeapIrreducibleExactly }
{}

/// The region of a heap is that of its solid.
#[tactic(auto, using(crate::proofs::SolidRegions::solids_are_regions))]
pub fn solids_are_regions()
    ensures { SolidsAreRegions }
{}

/// The links of each valid heap can be numbered, so each valid heap can be read.
#[tactic(auto, using(crate::proofs::Naming::heaps_are_named))]
pub fn heaps_are_named()
    ensures { HeapsAreNamed }
{}

/// A part of a heap that stands whole in a membrane, and is entered from outside of it, is ground in the calculus.
pub fn whole_parts_are_ground()
    ensures { WholePartsAreGround }
{}

/// Atoms of a membrane that are a ground part in the calculus are what is reached through its root on the heap, and stand
/// whole.
pub fn ground_parts_stand_whole()
    ensures { GroundPartsStandWhole }
{}

/// Two parts are equal as rooted graphs on the heap exactly where they are in the calculus.
pub fn equal_parts_are_alike()
    ensures { EqualPartsAlike }
{}

/// Two parts that are entered at different ports, each from outside of both, have no atom in common.
pub fn parts_are_apart()
    ensures { PartsAreApart }
{}

/// A part is one atom of arity 1 on the heap exactly where it is in the calculus.
pub fn unary_parts_are_alike()
    ensures { UnaryPartsAlike }
{}

/// A part is an integer on the heap exactly where it is this integer in the calculus.
pub fn integer_parts_are_alike()
    ensures { IntegerPartsAlike }
{}

/// The part of a typed context of an embedded head is ground in the calculus.
pub fn embedded_parts_are_ground()
    ensures { EmbeddedPartsAreGround }
{}

/// Two such parts have no atom in common.
pub fn embedded_parts_are_apart()
    ensures { EmbeddedPartsAreApart }
{}

/// A small heap, `{a(X)}, b(X)`, can be read with names enough for its atoms, and with fewer it can't.
pub fn across_is_read()
    ensures { AcrossIsRead }
{}

/// The membranes in its root are one membrane with none in it.
pub fn across_has_its_forest()
    ensures { AcrossHasItsForest }
{}
