//! Laws of the translation from the values that the program keeps to rules, regions and processes.

ghost use Rattle.lmn_congruence.specs.TranslationLaws.{NumbersStandForRules, LevelLinksKept, TopLinksKept};
ghost use Rattle.lmn_congruence.specs.TranslationLaws.{SolidLinksKept, ItemsKept, LinkedRulesKept};
ghost use Rattle.lmn_congruence.specs.TranslationLaws.{SolidsClosed, PlainsClosed, LabelsApart, NoSolidConnector};
ghost use Rattle.lmn_congruence.specs.TranslationLaws.{SolidsOfPlains};
ghost use Rattle.lmn_congruence.specs.Examples.{RulesKeepTheirNumbers};

/// In a well made plain the rule with a number is the tree of its head, guard and body, in which each
/// number again stands for the rule with that number.
#[tactic(auto, using(crate::proofs::NumberedRules::rule_has_number))]
pub fn numbers_stand_for_rules()
    ensures { NumbersStandForRules }
{}

/// A link occurs in the tree of a level as often as in the level.
#[tactic(auto, using(crate::proofs::TranslatedLinks::level_links))]
pub fn links_of_levels_are_kept()
    ensures { LevelLinksKept }
{}

/// A link occurs in the process of a well made plain as often as at its top.
#[tactic(auto, using(crate::proofs::TranslatedLinks::top_links))]
pub fn links_of_tops_are_kept()
    ensures { TopLinksKept }
{}

/// A link occurs in the process of a solid as often as in the solid.
#[tactic(auto, using(crate::proofs::TranslatedLinks::solid_links_kept))]
pub fn links_of_solids_are_kept()
    ensures { SolidLinksKept }
{}

/// A solid has as many items as the region that it stands for.
#[tactic(auto, using(crate::proofs::TranslatedItems::items_kept))]
pub fn items_are_kept()
    ensures { ItemsKept }
{}

/// A rule is linked exactly where its tree is.
pub fn linked_rules_are_kept()
    ensures { LinkedRulesKept }
{}

/// The process of a solid is closed. That of a well made plain is closed exactly where each link of its top
/// stands there twice.
#[tactic(auto, using(crate::proofs::TranslatedLinks::solids_closed))]
pub fn processes_are_closed()
    ensures solid { SolidsClosed }
    ensures plain { PlainsClosed }
{}

/// Labels whose names a list of names has are told apart by their trees. So no atom in the region of a solid is
/// named `=` and has two links.
pub fn labels_are_apart()
    ensures labels { LabelsApart }
    ensures solid { NoSolidConnector }
{}

/// The solid of a plain, which is said by numbers, has the region of the plain's top by each list of names.
#[tactic(auto, using(crate::proofs::SolidsOfPlains::solids_of_plains))]
pub fn solids_of_plains_are_regions_of_tops()
    ensures { SolidsOfPlains }
{}

/// The solid of `a :- b. a :- b.` has the rules 0 and 1, and no solid with the rule 1 twice is its solid.
#[tactic(auto, using(crate::proofs::ExampleSolids::rules_keep_their_numbers))]
pub fn rules_keep_their_numbers()
    ensures { RulesKeepTheirNumbers }
{}
