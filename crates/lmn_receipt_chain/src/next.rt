use lmn_base::{NoMemory, Solid};
use std::alloc::Global;

/// A next solid, looked for beside a text.
#[derive(Drop)]
pub struct NextSolid {
    /// `None` where it is found that the text doesn't begin with its line. Then it isn't made.
    pub solid: Option<Solid>,
    /// It is the next one from each number of a membrane from the one that was asked up to this one.
    pub reach: u64,
}

/// What gives next solids and knows lines of solids.
pub trait NextSolids {
    ghost use Rattle.std.specs.Prelude.{◌≡◌, ◌<◌, ◌≤◌, ◌++◌, ℕ, List, None, IsTrue, IsFalse, IfOk, IfSome, drop, length, map};
    ghost use Rattle.lmn_base.specs.declared.solid.Solid.{Solid};
    ghost use Rattle.lmn_congruence.specs.Regions.{Region};
    ghost use Rattle.lmn_adequacy.specs.Choice.{paths};
    ghost use Rattle.lmn_adequacy.specs.Embedding.{HasEmbedding};
    ghost use Rattle.lmn_receipt_chain.specs.Bytes.{IsFirstLine};
    ghost use Rattle.lmn_receipt_chain.specs.Chains.{line_of_solid};
    ghost use Rattle.lmn_receipt_chain.specs.Found.{AreLeftOut, IsNextFound};

    /// What is made of a solid once, and lent to each question for a next one.
    type Tables: Drop;

    /// What is asked of a solid.
    ghost fits: { Self → Solid → Type 0 };
    /// A solid as one of the calculus.
    ghost region: { Self → Solid → Region };
    /// Tables are those of a solid.
    ghost are_of: { Self → Solid → Self.Tables → Type 0 };

    /// The number of membranes, the root included.
    fn membranes(&self, alloc: Global, solid: &Solid) -> Result<u64, NoMemory>
        requires { fits self.now solid.now }
        ensures { IfOk result (λ count. count ≡ length (paths (region self.now solid.now))) };

    /// The tables of a solid.
    fn tables(&self, alloc: Global, solid: &Solid) -> Result<Self::Tables, NoMemory>
        requires { fits self.now solid.now }
        ensures { IfOk result (are_of self.now solid.now) };

    /// How deep each membrane stands, in preorder: the root at 0.
    fn depths(&self, alloc: Global, tables: &Self::Tables) -> Result<Vec<u64>, NoMemory>
        requires { (solid : Solid) × fits self.now solid × are_of self.now solid tables.now }
        ensures { (solid : Solid) → fits self.now solid → are_of self.now solid tables.now → IfOk result (λ depths. depths.items ≡ map length (paths (region self.now solid))) };

    /// The next solid where membranes are asked from a number on, wrapping round, unless it is found that a text doesn't begin with its
    /// line; `None` where no rule of any membrane embeds. `line` is the first line of the text, and what fires in a membrane that is left
    /// out needn't be made.
    fn next_from(
        &self,
        alloc: Global,
        tables: &mut Self::Tables,
        from: u64,
        text: &[u8],
        line: &[u8],
        left_out: &[bool],
    ) -> Result<Option<NextSolid>, NoMemory>
        requires line { IsFirstLine text.now line.now }
        requires asked { (solid : Solid) × fits self.now solid × are_of self.now solid tables.old × (from < length (paths (region self.now solid))) }
        ensures tables { (solid : Solid) → fits self.now solid → are_of self.now solid tables.old → are_of self.now solid tables.new }
        ensures found { (solid : Solid) → fits self.now solid → are_of self.now solid tables.old → AreLeftOut (region self.now solid) text.now left_out.now →
            IfOk result (λ found. IfSome found (IsNextFound (fits self.now) (region self.now) (region self.now solid) from text.now)) }
        ensures none { (solid : Solid) → fits self.now solid → are_of self.now solid tables.old →
            IfOk result (λ found. found ≡ None → ¬ (HasEmbedding (region self.now solid))) };

    /// Whether a rule of some membrane embeds.
    fn embeds(&self, alloc: Global, solid: &Solid) -> Result<bool, NoMemory>
        requires { fits self.now solid.now }
        ensures some { IfOk result (λ is. IsTrue is → HasEmbedding (region self.now solid.now)) }
        ensures none { IfOk result (λ is. IsFalse is → ¬ (HasEmbedding (region self.now solid.now))) };

    /// Which membrane is worth asking first for a solid whose line a text begins with. Any answer is right.
    fn hint(&self, alloc: Global, solid: &Solid, text: &[u8]) -> Result<u64, NoMemory>
        requires { fits self.now solid.now };

    /// The length of the line of a solid, where a text begins with that line.
    fn front(&self, alloc: Global, solid: &Solid, text: &[u8]) -> Result<Option<usize>, NoMemory>
        requires { fits self.now solid.now }
        ensures some { IfOk result (λ found. IfSome found (λ len. (0 < len) × (len ≤ length text.now) × (text.now ≡ line_of_solid (region self.now solid.now) ++ drop len text.now))) }
        ensures none { IfOk result (λ found. found ≡ None → (rest : List ℕ) → ¬ (text.now ≡ line_of_solid (region self.now solid.now) ++ rest)) };
}
