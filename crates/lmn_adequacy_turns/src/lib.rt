//! A turn on a heap and the calculus: what the code of a whole rule does is what the terms say.
//!
//! The definitions stand in `specs/`. Each law is the contract of a function that at most names other laws, so nothing here
//! does anything when it runs.
#![tactic(auto)]

ghost use Rattle.lmn_adequacy_turns.specs.Accepted.{AcceptedFires};
ghost use Rattle.lmn_adequacy_turns.specs.Bound.{BoundNames};
ghost use Rattle.lmn_adequacy_turns.specs.BoundExamples.{BindsFromLeft};
ghost use Rattle.lmn_adequacy_turns.specs.Laws.{CodeFires};
ghost use Rattle.lmn_adequacy_turns.specs.Commits.{PlainsAreTables, TurnsCommit};
ghost use Rattle.lmn_adequacy_turns.specs.Ends.{IrreducibleByCode, StepsByCode};
ghost use Rattle.lmn_adequacy_turns.specs.Turning.{TurnIsNext, TurnIsRead};

use lmn_adequacy::firings_commit;
use lmn_adequacy_heaps::{least_embeddings_are_alike, rules_embed_alike, steps_are_exact};
use lmn_compile_body::accepted_bodies;
use lmn_compile_head::{accepted_heads, accepted_least, code_means_embedding};

/// Where the code of a head first succeeds, the head embeds, at the least positions, and the code of the body fires the rule
/// there: the heap is valid again, and its links and lists are those of the firing.
pub fn code_fires_rules()
    ensures { CodeFires }
{}

/// The code of an accepted rule fires it: where its head code first succeeds, its body code, run with the same registers,
/// leaves a valid heap, whose links, lists and copies are those of the firing.
pub fn accepted_rules_fire()
    ensures { AcceptedFires }
{
    accepted_least();
    accepted_bodies();
}

/// Where the head code of an accepted rule succeeds, the register that the body reads for a name that the guard binds holds
/// the value of its expression over the embedding.
pub fn bound_names_have_values()
    ensures { BoundNames }
{
    accepted_heads();
}

/// `$x = 3, $y = $x` binds `$y` to 3; a context of the head isn't bound.
pub fn guards_bind_from_left()
    ensures { BindsFromLeft }
{}

/// A step is possible from the process of a heap exactly where the head code of a rule succeeds in some membrane, and the
/// process is irreducible exactly where none does.
pub fn turns_end_exactly()
    ensures steps { StepsByCode }
    ensures irreducible { IrreducibleByCode }
{
    accepted_heads();
    code_means_embedding();
    steps_are_exact();
}

/// Where the head code of an accepted rule first succeeds, its body code, run with the same registers, leaves a valid heap that
/// can be read again, with the same names and rules. Each rule of a membrane of it stood in one before or stands in the body.
pub fn turns_are_read()
    ensures { TurnIsRead }
{
    accepted_rules_fire();
    accepted_heads();
    accepted_bodies();
}

/// Where the head code of an accepted rule first succeeds, its body code, run with the same registers, leaves a heap whose region
/// is the next one of the calculus.
pub fn turns_are_next()
    ensures { TurnIsNext }
{
    accepted_rules_fire();
    accepted_heads();
    accepted_bodies();
}

/// Where the head code of an accepted rule of a membrane first succeeds, its body code makes a turn: the heap that it leaves has
/// the next solid of the calculus, by the least positions of the rule in its membrane, and its process comes by one commit.
pub fn turns_commit()
    ensures { TurnsCommit }
{
    turns_are_next();
    accepted_heads();
    accepted_least();
    bound_names_have_values();
    rules_embed_alike();
    least_embeddings_are_alike();
    firings_commit();
}

/// The rules of a well made plain are a table that each turn keeps to: a rule that stands in the body of one is one of them.
pub fn plains_are_tables()
    ensures { PlainsAreTables }
{}
