//! The code of the head of a rule, and the law that its first success is the least match.
#![tactic(auto)]

ghost use Rattle.lmn_compile_head.specs.Laws.{CodeOfEmbeddings, CodeOfLeast, OneLeast};
ghost use Rattle.lmn_compile_head.specs.Accepted.{AcceptedHeads, AcceptedLeast};

mod codes;
mod conditions;
mod fills;
mod heads;
mod levels;
mod tables;

pub use heads::{code_of_items, head};
pub use levels::{flatten, numbers};
pub use tables::times_of;

/// The code of a head succeeds exactly with the embeddings of the head.
#[tactic(auto, using(crate::proofs::Laws::code_of_embeddings))]
pub fn code_means_embedding()
    ensures { CodeOfEmbeddings }
{}

/// The first success of the code of a head is the least embedding, and it fails where there is none.
#[tactic(auto, using(crate::proofs::Laws::code_of_least))]
pub fn first_success_is_least()
    ensures { CodeOfLeast }
{}

/// The laws above hold of the head of each accepted rule, whose code has room.
#[tactic(auto, using(crate::proofs::AcceptedHeads::accepted_heads))]
pub fn accepted_heads()
    ensures { AcceptedHeads }
{}

/// The first success of the code of an accepted head is its least embedding, and the code fails where there is none.
#[tactic(auto, using(crate::proofs::AcceptedHeads::accepted_least))]
pub fn accepted_least()
    ensures { AcceptedLeast }
{}

/// Two least embeddings of a head lie at the same places.
#[tactic(auto, using(crate::proofs::Only::one_least))]
pub fn one_least()
    ensures { OneLeast }
{}
