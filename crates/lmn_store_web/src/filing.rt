//! Whether integers are worth filing by their values. Any answer is right: it is a matter of speed alone.
ghost use Rattle.std.specs.Prelude.{◌<◌, length};

use lmn_base::{Label, Leaf, Level, Occ, RuleTree};

/// Whether the head of one of some rules looks for an integer among the atoms of a membrane.
pub(crate) fn seek_integers(rules: &[RuleTree]) -> bool {
    for rule in rules {
        if seeks_integer(&rule.head) {
            return true;
        }
    }
    false
}

/// Whether an integer of a level of a head, at any depth, is looked for and not come to by a link.
fn seeks_integer(level: &Level) -> bool {
    let leaves = level.leaves.as_slice();
    for place in 0..leaves.len() {
        if is_sought_integer(leaves, place) {
            return true;
        }
    }
    for inner in level.membranes.as_slice() {
        if seeks_integer(inner) {
            return true;
        }
    }
    false
}

/// Whether what stands at a place is an integer, and no atom before it holds its first link.
fn is_sought_integer(leaves: &[Leaf], place: usize) -> bool
    requires { place < length leaves.now }
{
    match &leaves[place] {
        Leaf::Atom { functor, links, .. } => {
            is_integer(functor.label) && !is_entered(&leaves[..place], links.as_slice())
        }
        Leaf::Typed { .. } => false,
    }
}

/// Whether a label is an integer.
fn is_integer(label: Label) -> bool {
    match label {
        Label::Int(_) => true,
        Label::Name(_) => false,
    }
}

/// Whether one of some atoms holds the first of some links.
fn is_entered(atoms: &[Leaf], links: &[Occ]) -> bool {
    match links {
        [] => false,
        [first, ..] => {
            for leaf in atoms {
                if holds(leaf, first.link) {
                    return true;
                }
            }
            false
        }
    }
}

/// Whether an atom holds a link.
fn holds(leaf: &Leaf, link: u32) -> bool {
    match leaf {
        Leaf::Atom { links, .. } => {
            for other in links.as_slice() {
                if other.link == link {
                    return true;
                }
            }
            false
        }
        Leaf::Typed { .. } => false,
    }
}
