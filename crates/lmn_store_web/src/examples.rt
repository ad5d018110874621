//! What the heap of a small web has. Each law is the contract of a function with an empty body.
ghost use Rattle.lmn_store_web.specs.Examples.{AtomStands, AtomWaits, IntegerIsNoName, IntegersAreTogether, KeyIsAwake, LabelsAreRead, OtherIsNotIndexed, PostIsNoMembrane, RootIsAlone, RootIsIndexed, RootIsKey, SleeperIsNoKey, ValuesAreApart, WaitingIsNotAlone};

/// An atom in the list of the root stands there.
#[tactic(auto, using(crate::proofs::ExampleProofs::atom_stands))]
pub fn atom_stands()
    ensures { AtomStands }
{}

/// One in the list of what waits has no home.
#[tactic(auto, using(crate::proofs::ExampleProofs::atom_waits))]
pub fn atom_waits()
    ensures { AtomWaits }
{}

/// What waits stands in no membrane.
#[tactic(auto, using(crate::proofs::ExampleProofs::post_is_no_membrane))]
pub fn post_is_no_membrane()
    ensures { PostIsNoMembrane }
{}

/// A heap in which something waits isn't a root alone.
#[tactic(auto, using(crate::proofs::ExampleProofs::waiting_is_not_alone))]
pub fn waiting_is_not_alone()
    ensures { WaitingIsNotAlone }
{}

/// A root alone is the one membrane.
#[tactic(auto, using(crate::proofs::ExampleProofs::root_is_alone))]
pub fn root_is_alone()
    ensures { RootIsAlone }
{}

/// Labels are read back.
#[tactic(auto, using(crate::proofs::ExampleProofs::labels_are_read))]
pub fn labels_are_read()
    ensures { LabelsAreRead }
{}

/// An integer is no name.
#[tactic(auto, using(crate::proofs::ExampleProofs::integer_is_no_name))]
pub fn integer_is_no_name()
    ensures { IntegerIsNoName }
{}

/// Integers that are filed by value are of two classes, multiples of a power of two too.
#[tactic(auto, using(crate::proofs::ExampleProofs::values_are_apart))]
pub fn values_are_apart()
    ensures { ValuesAreApart }
{}

/// Filed otherwise, they are of one.
#[tactic(auto, using(crate::proofs::ExampleProofs::integers_are_together))]
pub fn integers_are_together()
    ensures { IntegersAreTogether }
{}

/// A root alone is a key in which nothing stands, awake or not.
#[tactic(auto, using(crate::proofs::ExampleProofs::root_is_key))]
pub fn root_is_key()
    ensures { RootIsKey }
{}

/// A new membrane beside it is one that is awake.
#[tactic(auto, using(crate::proofs::ExampleProofs::key_is_awake))]
pub fn key_is_awake()
    ensures { KeyIsAwake }
{}

/// It isn't one that sleeps.
#[tactic(auto, using(crate::proofs::ExampleProofs::sleeper_is_no_key))]
pub fn sleeper_is_no_key()
    ensures { SleeperIsNoKey }
{}

/// A root alone is indexed by what has its key and its number.
#[tactic(auto, using(crate::proofs::ExampleProofs::root_is_indexed))]
pub fn root_is_indexed()
    ensures { RootIsIndexed }
{}

/// A list with another number doesn't index it.
#[tactic(auto, using(crate::proofs::ExampleProofs::other_is_not_indexed))]
pub fn other_is_not_indexed()
    ensures { OtherIsNotIndexed }
{}
