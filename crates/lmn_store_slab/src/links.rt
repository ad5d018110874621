ghost use Rattle.std.specs.Prelude.{◌≡◌, ◌<◌, length, IfSome};
ghost use Rattle.lmn_store_slab.specs.Lines.{with_next, with_prev, with_first, with_last};

use crate::node::{Ends, Node};

/// What follows a number, or begins the list, becomes `next`.
pub fn set_next(nodes: &mut Vec<Node>, ends: &mut Ends, at: Option<usize>, next: Option<usize>)
    requires { IfSome at (λ q. q < length nodes.old.items) }
    ensures nodes { nodes.new.items ≡ with_next nodes.old.items at next }
    ensures ends { ends.new ≡ with_first ends.old at next }
{
    match at {
        None => ends.first = next,
        Some(q) => {
            let node = nodes[q];
            nodes[q] = Node { next, ..node };
        }
    }
}

/// What precedes a number, or ends the list, becomes `prev`.
pub fn set_prev(nodes: &mut Vec<Node>, ends: &mut Ends, at: Option<usize>, prev: Option<usize>)
    requires { IfSome at (λ q. q < length nodes.old.items) }
    ensures nodes { nodes.new.items ≡ with_prev nodes.old.items at prev }
    ensures ends { ends.new ≡ with_last ends.old at prev }
{
    match at {
        None => ends.last = prev,
        Some(q) => {
            let node = nodes[q];
            nodes[q] = Node { prev, ..node };
        }
    }
}
