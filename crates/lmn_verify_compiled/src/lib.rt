//! That compiled code is verified and can be listed, for every accepted text, and that a listing is the listing of one list of
//! codes.
#![tactic(auto)]

ghost use Rattle.lmn_verify_compiled.specs.AcceptedCodes.{AcceptedIsVerified, TablesAreVerified};
ghost use Rattle.lmn_verify_compiled.specs.CompiledListings.{CompiledAreListed, CompiledAreRead, CompiledIsNotRefused};
ghost use Rattle.lmn_verify_compiled.specs.HeadCodes.{HeadCodeFindsFirst, HeadCodeIsHead, HeadCodeLooks, HeadCodeTellsApart, HeadCodeTellsMembranesApart};
ghost use Rattle.lmn_verify_compiled.specs.Kept.{VerifiedIsWhole};
ghost use Rattle.lmn_verify_compiled.specs.ListedTables.{TablesAreListed, VerifiedAreListed};
ghost use Rattle.lmn_verify_compiled.specs.ListingExamples.{ListingExamples};
ghost use Rattle.lmn_verify_compiled.specs.OneReading.{ListedCodesAreOne, ListedCodesAreRead, ListedNamesAreOne, VerifiedIsNotRefused};
ghost use Rattle.lmn_verify_compiled.specs.Laws.{AcceptedCanBeListed, AcceptedNamesAreFew};

use lmn_app_accepted::{accepted_texts, accepted_texts_can_be_loaded};
use lmn_app_runs::plains_are_printable;
use lmn_compile_body::accepted_bodies;
use lmn_compile_head::accepted_heads;
use lmn_compile_listing::codes_have_names;
use lmn_machine_laws::{accepted_in_order, accepted_sets_items};
use lmn_schedule_strategy::bodies_are_ready;

/// Codes that have one listing are one, where no name stands twice in the list, and stay so where names are put. So codes that are
/// listed are those that are read, and where each is verified the listing isn't refused. Where the names of codes with one listing are
/// put in their order, the lists of names are one too.
pub fn listed_codes_are_one()
    ensures one { ListedCodesAreOne }
    ensures read { ListedCodesAreRead }
    ensures names { ListedNamesAreOne }
    ensures refused { VerifiedIsNotRefused }
{}

/// The code of each head has instructions of a head, and COMMIT, which ends it and stands once; each DEREF in it is directly
/// followed by FUNC and INMEM of its register; what finds stands before what looks at typed contexts, counts, or asks; and two atoms
/// of one functor in one membrane, and two membranes in one, are told apart.
pub fn head_code_is_head()
    ensures head { HeadCodeIsHead }
    ensures looks { HeadCodeLooks }
    ensures first { HeadCodeFindsFirst }
    ensures apart { HeadCodeTellsApart }
    ensures apart_membranes { HeadCodeTellsMembranesApart }
{}

/// The code of each accepted rule is verified, where the rules that are written in its body are among those that there are. So each
/// code of a table of rules is.
pub fn accepted_is_verified()
    ensures accepted { AcceptedIsVerified }
    ensures tables { TablesAreVerified }
{
    accepted_heads();
    accepted_bodies();
    accepted_in_order();
    accepted_sets_items();
    bodies_are_ready();
}

/// Verified code of which a listing keeps all numbers is a head and a body that can be listed. So verified codes, as those of a table
/// of accepted rules are, have a listing that is read, with names of at most 255 bytes that have no line feed.
pub fn verified_are_listed()
    ensures whole { VerifiedIsWhole }
    ensures listed { VerifiedAreListed }
    ensures tables { TablesAreListed }
{
    accepted_is_verified();
}

/// What is written of compiled rules are the listings of their codes. So the codes that are read of it are theirs, and it isn't refused.
pub fn compiled_are_listed()
    ensures listed { CompiledAreListed }
    ensures read { CompiledAreRead }
    ensures refused { CompiledIsNotRefused }
{
    codes_have_names();
    listed_codes_are_one();
    accepted_is_verified();
    verified_are_listed();
}

/// Codes of which a listing keeps all numbers, names that stand in a line, and some that don't.
pub fn listing_examples()
    ensures { ListingExamples }
{}

/// The rules of an accepted text, of fewer than 2 ^ 31 bytes, can be listed with their plans and with the names that reading leaves.
pub fn accepted_can_be_listed()
    ensures { AcceptedCanBeListed }
{
    accepted_texts();
    accepted_texts_can_be_loaded();
    accepted_heads();
    plains_are_printable();
}

/// An accepted text has at most 8 more names than bytes.
pub fn accepted_names_are_few()
    ensures { AcceptedNamesAreFew }
{}
