//! What the words of contracts say of small rows. Each law is the contract of a function with an empty body.
ghost use Rattle.std.specs.Prelude.{[], ◌∷◌};
ghost use Rattle.lmn_web_rows.specs.Rows.{blank, spare};
ghost use Rattle.lmn_web_rows.specs.Seen.{AreNumbered, HaveSameWords, IsMade, IsGone};
ghost use Rattle.lmn_web_rows.specs.Examples.{used, with_number};

/// A row with a number is new where there was none, and not where it was.
pub fn a_row_is_made()
    ensures made { IsMade [] (used 8 (with_number 3) ∷ []) 8 8 }
    ensures there { IsMade (used 8 (with_number 3) ∷ []) (used 8 (with_number 3) ∷ []) 8 8 → ⊥ }
{}

/// Two rows are numbered where they have two numbers below the count, and not where they have one.
pub fn rows_are_numbered()
    ensures two { AreNumbered (used 8 (with_number 0) ∷ used 16 (with_number 1) ∷ []) 2 }
    ensures one { AreNumbered (used 8 (with_number 0) ∷ used 16 (with_number 0) ∷ []) 2 → ⊥ }
{}

/// A row is gone that was there and isn't any more, and not one that is.
pub fn a_row_is_gone()
    ensures gone { IsGone (spare 8 (blank ∷ []) ∷ []) [] 8 }
    ensures there { IsGone (spare 8 (blank ∷ []) ∷ []) (spare 8 (blank ∷ []) ∷ []) 8 → ⊥ }
{}

/// A row without words changes none, and one with a word does.
pub fn words_are_the_same()
    ensures same { HaveSameWords [] (spare 8 [] ∷ []) }
    ensures others { HaveSameWords [] (spare 8 (blank ∷ []) ∷ []) → ⊥ }
{}
