//! What each kind of atom weighs.
ghost use Rattle.std.specs.Prelude.{◌≡◌, ◌↔◌, IfSome, IsTrue, length};
ghost use Rattle.lmn_store_heap.specs.Functors as functors;
ghost use Rattle.lmn_weight.specs.Index.{IsIndexOf};
ghost use Rattle.lmn_weight.specs.Plains.{listed_weight, is_integer, functor_weight};

use crate::index::indexed_weight;
use lmn_base::{Functor, Label, Rows};

/// What WEIGHTS tells. What it doesn't name weighs nothing.
#[derive(Drop)]
pub struct Weights {
    /// The functors that it names, in the order of their lines.
    pub functors: Rows<Functor>,
    /// The weight of each of them.
    pub values: Rows<u64>,
    /// The weight of an integer with one link.
    pub int: u64,
    /// The weight of a membrane, without what stands in it.
    pub membrane: u64,
}

/// Whether two functors are one.
pub(crate) fn same_functor(f: Functor, g: Functor) -> bool
    ensures { result ≡ functors.same_functor f g }
{
    let same_label = match (f.label, g.label) {
        (Label::Name(m), Label::Name(n)) => m == n,
        (Label::Int(y), Label::Int(z)) => y == z,
        (Label::Name(_), Label::Int(_)) => false,
        (Label::Int(_), Label::Name(_)) => false,
    };
    same_label && f.arity == g.arity
}

/// The weight of a functor by the list.
fn listed_weight(functors: &[Functor], values: &[u64], functor: Functor) -> u64
    requires { length functors.now ≡ length values.now }
    ensures { result ≡ listed_weight functors.now values.now functor }
{
    for i in 0..functors.len() {
        if same_functor(functors[i], functor) {
            return values[i];
        }
    }
    0
}

/// Whether an atom with this functor is an integer with one link.
pub(crate) fn is_integer(functor: Functor) -> bool
    ensures { result ≡ is_integer functor }
{
    match functor.label {
        Label::Name(_) => false,
        Label::Int(_) => functor.arity == 1,
    }
}

/// The weight of an atom, by the index of the functors where there is one.
pub(crate) fn functor_weight(weights: &Weights, index: Option<&[u16]>, functor: Functor) -> u64
    requires lists { length weights.now.functors ≡ length weights.now.values }
    requires index { IfSome index (λ places. IsIndexOf weights.now.functors places.now) }
    ensures { result ≡ functor_weight weights.now functor }
{
    if functor.is_connector() {
        return 0;
    }
    if is_integer(functor) {
        return weights.int;
    }
    let functors = weights.functors.as_slice();
    let values = weights.values.as_slice();
    match index {
        Some(places) => indexed_weight(places, functors, values, functor),
        None => listed_weight(functors, values, functor),
    }
}
