ghost use Rattle.std.specs.Prelude.{◌≡◌, List, OnOk};
ghost use Rattle.std.specs.List.{AllZip};
ghost use Rattle.lmn_congruence.specs.Rules.{Name};
ghost use Rattle.lmn_congruence.specs.Rules as tree;
ghost use Rattle.lmn_flatten_plain.specs.Expanded.{atom_leaf};
ghost use Rattle.lmn_flatten_plain.specs.Keys.{IsKey};
ghost use Rattle.lmn_flatten_plain.specs.Links.{Link, Use};
ghost use Rattle.lmn_flatten_plain.specs.Parts.{Parts, level_from_parts};
ghost use Rattle.lmn_flatten_plain.specs.Plains.{numbered_label};
ghost use Rattle.lmn_flatten.specs.Built.{IsPartOfLevel, IsLevel, IsUse, AddsLeaf, no_items};

use crate::number::narrow_arity;
use lmn_base::{CtxUse, Functor, Label, Leaf, Level, NoMemory, Occ, Pos, Rows};
use std::alloc::Global;

/// What stands in a level that isn't whole yet.
pub(crate) struct Part {
    /// The atoms and the typed contexts.
    pub(crate) leaves: Rows<Leaf>,
    /// The membranes.
    pub(crate) membranes: Rows<Level>,
    /// The untyped contexts.
    pub(crate) contexts: Rows<CtxUse>,
    /// The rule contexts.
    pub(crate) rule_contexts: Rows<CtxUse>,
    /// The rules, by their numbers in the table.
    pub(crate) rules: Rows<u32>,
}

// By hand, so that each exit of a function that holds a part has one call for it.
impl Drop for Part {
    fn drop(self) {
        let Part {
            leaves: _,
            membranes: _,
            contexts: _,
            rule_contexts: _,
            rules: _,
        } = self;
    }
}

impl Part {
    /// Nothing.
    pub(crate) fn new(alloc: Global) -> Part
        ensures { result ≡ no_items }
    {
        Part {
            leaves: Rows::new(alloc),
            membranes: Rows::new(alloc),
            contexts: Rows::new(alloc),
            rule_contexts: Rows::new(alloc),
            rules: Rows::new(alloc),
        }
    }

    /// The level that holds this and nothing else.
    pub(crate) fn into_level(self) -> Level
        ensures { (names : List Name) (keys : List Link) (p : Parts) → IsPartOfLevel names (IsKey keys) p self → IsLevel names (IsKey keys) (level_from_parts p) result }
    {
        let Part {
            leaves,
            membranes,
            contexts,
            rule_contexts,
            rules,
        } = self;
        Level {
            leaves,
            membranes,
            contexts,
            rule_contexts,
            rules,
        }
    }

    /// Adds an atom.
    pub(crate) fn add_atom(
        &mut self,
        label: Label,
        links: Rows<Occ>,
        pos: Pos,
    ) -> Result<(), NoMemory>
        ensures { OnOk result ((names : List Name) (keys : List Link) (l : tree.Label) (us : List Use) → label ≡ numbered_label names (λ a. 0) l
            → AllZip (IsUse names (IsKey keys)) us links → AddsLeaf names (IsKey keys) (atom_leaf l us pos) self.old self.new) }
    {
        let arity = narrow_arity(links.len())?;
        self.leaves.push(Leaf::Atom {
            functor: Functor { label, arity },
            links,
            pos,
        })
    }
}
