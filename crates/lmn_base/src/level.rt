use crate::functor::Functor;
use crate::refusal::Pos;
use crate::rows::Rows;

/// One occurrence of a link.
#[derive(Clone, Copy)]
pub struct Occ {
    /// The number of the link in its rule, or in the process outside every rule, counted from 0.
    pub link: u32,
    /// The place of this occurrence in the text.
    pub pos: Pos,
}

/// An atom, a connector included, or a typed context.
#[derive(Drop)]
pub enum Leaf {
    /// An atom `p(X1,..,Xm)`.
    Atom {
        /// Its label and arity.
        functor: Functor,
        /// Its links, as many as the arity, by index of the argument.
        links: Rows<Occ>,
        /// Its place in the text.
        pos: Pos,
    },
    /// A typed context `$x[X]`.
    Typed {
        /// The number of the context's name.
        name: u32,
        /// The link that holds the context.
        link: Occ,
        /// Its place in the text.
        pos: Pos,
    },
}

/// One use of a context or of a rule context.
#[derive(Clone, Copy)]
pub struct CtxUse {
    /// The number of its name.
    pub name: u32,
    /// Whether it is a closed context `$p[]`. A typed context, one of a guard and a rule context aren't.
    pub closed: bool,
    /// Its place in the text.
    pub pos: Pos,
}

/// What stands in one membrane, or at the top, of a process or of a rule's head or body. The lists
/// have the order of the text once every abbreviation is expanded.
#[derive(Drop)]
pub struct Level {
    /// The atoms, connectors included, and the typed contexts.
    pub leaves: Rows<Leaf>,
    /// What stands in each of its membranes.
    pub membranes: Rows<Level>,
    /// The untyped contexts, open `$p` and closed `$p[]`.
    pub contexts: Rows<CtxUse>,
    /// The rule contexts `@r`.
    pub rule_contexts: Rows<CtxUse>,
    /// The rules, by their numbers in the table of their plain.
    pub rules: Rows<u32>,
}
