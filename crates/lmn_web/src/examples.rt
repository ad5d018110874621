//! What holds of a small web. Each law is the contract of a function with an empty body.
ghost use Rattle.lmn_web.specs.Examples.{BothAreGone, BothAreListed, BothAreOfOneClass, FarFilesNone, FirstIsGone, FiveIsNotNew, GoneIsLoose, ListedIsNotLoose, LostAreNotListed, NearFiles, NoneHasTwoPorts, NoneIsOfAnotherClass, OneHasLabel, SecondIsFirst, SecondIsLast, SevenIsNew, StillThereIsNotGone, ThreeAreARing, TwoAreNoRing};

/// A cell that was added last stands at the end.
#[tactic(auto, using(crate::proofs::ExampleProofs::second_is_last))]
pub fn second_is_last()
    ensures { SecondIsLast }
{}

/// One that was added before another stands there.
#[tactic(auto, using(crate::proofs::ExampleProofs::second_is_first))]
pub fn second_is_first()
    ensures { SecondIsFirst }
{}

/// One that left a list isn't in it, and has no home.
#[tactic(auto, using(crate::proofs::ExampleProofs::first_is_gone))]
pub fn first_is_gone()
    ensures { FirstIsGone }
{}

/// Two atoms in a membrane are listed.
#[tactic(auto, using(crate::proofs::ExampleProofs::both_are_listed))]
pub fn both_are_listed()
    ensures { BothAreListed }
{}

/// With an empty list they aren't.
#[tactic(auto, using(crate::proofs::ExampleProofs::lost_are_not_listed))]
pub fn lost_are_not_listed()
    ensures { LostAreNotListed }
{}

/// An atom that left its list may be freed.
#[tactic(auto, using(crate::proofs::ExampleProofs::gone_is_loose))]
pub fn gone_is_loose()
    ensures { GoneIsLoose }
{}

/// One that is in a list may not.
#[tactic(auto, using(crate::proofs::ExampleProofs::listed_is_not_loose))]
pub fn listed_is_not_loose()
    ensures { ListedIsNotLoose }
{}

/// The atoms of a membrane are freed, and the membrane stays.
#[tactic(auto, using(crate::proofs::ExampleProofs::both_are_gone))]
pub fn both_are_gone()
    ensures { BothAreGone }
{}

/// Where nothing changes they aren't freed.
#[tactic(auto, using(crate::proofs::ExampleProofs::still_there_is_not_gone))]
pub fn still_there_is_not_gone()
    ensures { StillThereIsNotGone }
{}

/// One of two atoms has a label.
#[tactic(auto, using(crate::proofs::ExampleProofs::one_has_label))]
pub fn one_has_label()
    ensures { OneHasLabel }
{}

/// None has it with another number of ports.
#[tactic(auto, using(crate::proofs::ExampleProofs::none_has_two_ports))]
pub fn none_has_two_ports()
    ensures { NoneHasTwoPorts }
{}

/// Two atoms whose labels have one upper half are of one class.
#[tactic(auto, using(crate::proofs::ExampleProofs::both_are_of_one_class))]
pub fn both_are_of_one_class()
    ensures { BothAreOfOneClass }
{}

/// None is of the class of another upper half.
#[tactic(auto, using(crate::proofs::ExampleProofs::none_is_of_another_class))]
pub fn none_is_of_another_class()
    ensures { NoneIsOfAnotherClass }
{}

/// A membrane whose label has another class than 0 files no atoms.
#[tactic(auto, using(crate::proofs::ExampleProofs::far_files_none))]
pub fn far_files_none()
    ensures { FarFilesNone }
{}

/// One whose label has the class 0 files them.
#[tactic(auto, using(crate::proofs::ExampleProofs::near_files))]
pub fn near_files()
    ensures { NearFiles }
{}

/// Three atoms of which each leads to the next and the last one to the first are a ring.
#[tactic(auto, using(crate::proofs::ExampleProofs::three_are_a_ring))]
pub fn three_are_a_ring()
    ensures { ThreeAreARing }
{}

/// Two of the three aren't.
#[tactic(auto, using(crate::proofs::ExampleProofs::two_are_no_ring))]
pub fn two_are_no_ring()
    ensures { TwoAreNoRing }
{}

/// An index that none of three atoms has is new.
#[tactic(auto, using(crate::proofs::ExampleProofs::seven_is_new))]
pub fn seven_is_new()
    ensures { SevenIsNew }
{}

/// One that one of them has isn't.
#[tactic(auto, using(crate::proofs::ExampleProofs::five_is_not_new))]
pub fn five_is_not_new()
    ensures { FiveIsNotNew }
{}
