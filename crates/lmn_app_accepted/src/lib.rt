//! What holds of the rules of an accepted text, that it can be loaded, and that a text is one process by any list of names.
#![tactic(auto)]

ghost use Rattle.lmn_app_accepted.specs.Loading.{AcceptedAreNamed, AcceptedAreNamedBehind, AcceptedCanBeLoaded};
ghost use Rattle.lmn_app_accepted.specs.Rules.{AcceptedTexts};
ghost use Rattle.lmn_app_accepted.specs.OneProcess.{OneProcess, OneProcessOfReadings};

/// The plain of an accepted text is well made, has only names of the list that reading leaves, and no atom of its top has too
/// many links. Each of its rules is whole,
/// with its plan; the kinds of the plan are those that its guard gives; and the tree of the rule is accepted, where names and
/// links have their numbers.
pub fn accepted_texts()
    ensures { AcceptedTexts }
{}

/// A text is one process, whatever the list by which its names have numbers: where each of two lists holds the names of its
/// plain, and where each is what reading leaves.
pub fn texts_are_one_process()
    ensures held { OneProcess }
    ensures read { OneProcessOfReadings }
{}

/// The plain of an accepted text can be loaded, and the list that reading leaves has its names, as has a list that goes on behind it.
pub fn accepted_texts_can_be_loaded()
    ensures loaded { AcceptedCanBeLoaded }
    ensures named { AcceptedAreNamed }
    ensures behind { AcceptedAreNamedBehind }
{
    accepted_texts();
}
