ghost use Rattle.std.specs.Prelude.{◌≡◌, ◌+◌, ◌++◌, [], List, ℕ, slice_get, Some, IfOk, OnOk};
ghost use Rattle.std.specs.BTreeMap.{get};
ghost use Rattle.std.specs.Ordering.{nat_cmp};
ghost use Rattle.lmn_base.specs.Names.{IsNames};
ghost use Rattle.lmn_congruence.specs.Rules.{Name};
ghost use Rattle.lmn_parser.specs.Syntax.{term_of};
ghost use Rattle.lmn_flatten_plain.specs.Expansion.{argument, written_link};
ghost use Rattle.lmn_flatten_plain.specs.Keys.{IsLinkIn, IsKey};
ghost use Rattle.lmn_flatten_plain.specs.Links.{Link, written, made};
ghost use Rattle.lmn_flatten.specs.Built.{IsUse};
ghost use Rattle.lmn_flatten.specs.Glossaries.{Reading, IsGlossary};
ghost use Rattle.lmn_flatten.specs.Scopes.{IsScope, Meets, NoWay};

use crate::glossary::Glossary;
use lmn_base::{NoMemory, Occ, Pos};
use lmn_parser::Term;
use std::alloc::Global;
use std::collections::BTreeMap;

/// The links of a rule, or of the process outside every rule, that have been met. Each has a number, counted from 0.
pub(crate) struct Scope {
    /// The numbers of links that are written in the text, by the numbers of their names.
    pub(crate) written: BTreeMap<u32, u32>,
    /// How many links have been met.
    pub(crate) count: u32,
}

// By hand, so that each exit of a function that holds a scope has one call for it.
impl Drop for Scope {
    fn drop(self) {
        let Scope {
            written: _,
            count: _,
        } = self;
    }
}

impl Scope {
    /// No links.
    pub(crate) fn new(alloc: Global) -> Scope
        ensures { (r : Reading) → IsScope r [] result }
    {
        Scope {
            written: BTreeMap::new(alloc),
            count: 0,
        }
    }

    /// The number of a link that hasn't been met.
    pub(crate) fn next(&mut self) -> Result<u32, NoMemory>
        ensures number { IfOk result (λ number. number ≡ self.old.count) }
        ensures count { OnOk result (self.new.count ≡ self.old.count + 1) }
        ensures written { self.new.written ≡ self.old.written }
    {
        let number = self.count;
        if number == u32::MAX {
            return Err(NoMemory);
        }
        self.count = number + 1;
        Ok(number)
    }

    /// The number of a link with a name.
    fn named(&mut self, name: u32) -> Result<u32, NoMemory>
        ensures { IfOk result (λ number. (r : Reading) (keys : List Link) (n : Name) → IsNames r.links → IsScope r keys self.old
            → slice_get r.links name ≡ Some n → (m : Meets r NoWay keys self.new) × IsKey (keys ++ m.more) (written n) number) }
    {
        match self.number_of(name) {
            Some(number) => Ok(number),
            None => {
                let number = self.next()?;
                self.written.insert(name, number)?;
                Ok(number)
            }
        }
    }

    /// The number of a link with a name that has been met.
    fn number_of(&self, name: u32) -> Option<u32>
        ensures { result ≡ get nat_cmp self.now.written name }
    {
        match self.written.get(&name) {
            Some(number) => Some(*number),
            None => None,
        }
    }

    /// The occurrence of a link that is written in the text.
    pub(crate) fn written(&mut self, glossary: &Glossary, token: usize) -> Result<Occ, NoMemory>
        ensures { IfOk result (λ occ. (r : Reading) (keys : List Link) → IsGlossary r glossary.now → IsScope r keys self.old
            → (m : Meets r NoWay keys self.new) × IsUse r.names (IsKey (keys ++ m.more)) (written_link r.words r.places token) occ) }
    {
        let name = glossary.link(token)?;
        let pos = glossary.place(token)?;
        let link = self.named(name)?;
        Ok(Occ { link, pos })
    }

    /// The occurrence that stands for an argument: a link itself, and else a new link.
    pub(crate) fn argument(
        &mut self,
        glossary: &Glossary,
        pos: Pos,
        term: &Term,
    ) -> Result<Occ, NoMemory>
        ensures { IfOk result (λ occ. (r : Reading) (keys : List Link) (way : List ℕ) → IsGlossary r glossary.now → IsScope r keys self.old
            → (IsLinkIn (made way) keys → ⊥)
            → (m : Meets r (λ v. v ≡ way) keys self.new) × IsUse r.names (IsKey (keys ++ m.more)) (argument r.words r.places pos way (term_of term.now)) occ) }
    {
        match term {
            Term::Link(token) => self.written(glossary, *token),
            Term::Atom(_) => self.unwritten(pos),
            Term::List(_, _) => self.unwritten(pos),
            Term::Context(_) => self.unwritten(pos),
            Term::Membrane(_) => self.unwritten(pos),
        }
    }

    /// The occurrence of a new link that isn't written in the text.
    pub(crate) fn unwritten(&mut self, pos: Pos) -> Result<Occ, NoMemory>
        ensures { IfOk result (λ occ. (r : Reading) (keys : List Link) (way : List ℕ) → IsScope r keys self.old → (IsLinkIn (made way) keys → ⊥)
            → (m : Meets r (λ v. v ≡ way) keys self.new) × IsUse r.names (IsKey (keys ++ m.more)) (record { link = made way; pos = pos }) occ) }
    {
        let link = self.next()?;
        Ok(Occ { link, pos })
    }
}
