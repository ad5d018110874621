//! What the body of a rule does to a heap, and that it makes the next solid of it.
//!
//! The definitions stand in `specs/`. Each law is the contract of a function with an empty body, so nothing here does
//! anything when it runs.
#![tactic(auto)]

ghost use Rattle.lmn_solid_bodies.specs.Laws.{BodyFires, BodyFiresWithin, BodyCanRun, FiringLeavesSolid, FiringLeavesAtoms, CopiesInSolid, RestsInSolid, PrepareStops, FlattenedArePlaced, FlattenedKeepLinks, FlattenedAreMade, FlattenedHeads, FlattenedAreLinked, FlattenedRules, ContextsOfHeads, LinksHaveNumbers};
ghost use Rattle.lmn_solid_bodies.specs.CopyExamples.{PartHasCopy};
ghost use Rattle.lmn_solid_bodies.specs.Meant.{BodyCodeIsMeant};
ghost use Rattle.lmn_solid_bodies.specs.Worked.{WorkedBodies};

mod items;

pub use items::BodyItem;

/// The code of a body without membranes and contexts fires the rule.
pub fn body_code_fires()
    ensures { BodyFires }
{}

/// The code of a body with membranes, contexts and rules fires the rule: the heap is valid again, and its links and lists
/// are those of the firing.
pub fn body_code_fires_within()
    ensures { BodyFiresWithin }
{}

/// A firing leaves the atoms of the solid, in each membrane; those of a copy are the atoms of its part, or of its rest, each link
/// at its image.
pub fn firing_leaves_atoms()
    ensures solid { FiringLeavesSolid }
    ensures atoms { FiringLeavesAtoms }
    ensures copies { CopiesInSolid }
    ensures rests { RestsInSolid }
{}

/// A prepare may be given up after any of its instructions: what was made waits alone, and without it the heap is as it was,
/// but for spares.
pub fn prepare_stops()
    ensures { PrepareStops }
{}

/// The items of a flattened body are well placed, its links are those of its levels, and its atoms fit their arities.
pub fn flattened_bodies()
    ensures placed { FlattenedArePlaced }
    ensures links { FlattenedKeepLinks }
    ensures made { FlattenedAreMade }
{}

/// A flattened head is nested as its numbers say, each link stands twice in a flattened rule, and so the laws of firing
/// hold for it.
pub fn flattened_rules()
    ensures heads { FlattenedHeads }
    ensures contexts { ContextsOfHeads }
    ensures linked { FlattenedAreLinked }
    ensures nested { FlattenedRules }
{}

/// The links of every valid heap can be numbered, as the laws of firing want it.
pub fn links_have_numbers()
    ensures { LinksHaveNumbers }
{}

/// When a body is prepared, each of its instructions meets in its turn the conditions of the calls that it makes.
pub fn body_code_can_run()
    ensures { BodyCanRun }
{}

/// The listings of the bodies of some rules.
pub fn worked_bodies()
    ensures { WorkedBodies }
{}

/// The part that `a` holds in `a(X), f(X,Y), b(Y)` has a copy, whose atoms are in depth-first order.
pub fn part_has_copy()
    ensures { PartHasCopy }
{}

/// The code of the body of `a, a :- b` on `a. a.`: what each run of it leaves.
#[tactic(auto, using(crate::proofs::Meant::body_code_is_meant))]
pub fn body_code_is_meant()
    ensures { BodyCodeIsMeant }
{}
