//! How many atoms in membranes have a functor, kept while they come and go.
ghost use Rattle.std.specs.Prelude.{◌≡◌, IfSome, Some};
ghost use Rattle.lmn_store_heap.specs.Heap.{IsAtom, functor_of};
ghost use Rattle.lmn_debug_counting.specs.Tallies.{Gains, GainsOne, Loses, LosesOne};

use lmn_base::Functor;
use lmn_store_trait::LinkStore;

/// A functor, and how many atoms in membranes have it.
#[derive(Clone, Copy)]
pub(crate) struct Tally {
    /// The functor.
    pub(crate) functor: Functor,
    /// How many atoms have it.
    pub(crate) count: u64,
}

impl Tally {
    /// The tally behind an atom of a functor that came. None where the count doesn't fit.
    fn with_one(self, functor: Functor) -> Option<Tally>
        ensures { IfSome result (GainsOne functor self) }
    {
        if functor == self.functor {
            match self.count.checked_add(1) {
                Some(count) => Some(Tally { functor, count }),
                None => None,
            }
        } else {
            Some(self)
        }
    }

    /// The tally behind an atom of a functor that went.
    fn without_one(self, functor: Functor) -> Option<Tally>
        ensures { IfSome result (LosesOne functor self) }
    {
        if functor == self.functor {
            match self.count.checked_sub(1) {
                Some(count) => Some(Tally { functor, count }),
                None => None,
            }
        } else {
            Some(self)
        }
    }
}

/// The count of a functor, where it is kept.
pub(crate) fn count_of(tally: Option<Tally>, functor: Functor) -> Option<u64>
    ensures { IfSome result (λ n. tally ≡ Some (record { functor = functor; count = n })) }
{
    match tally {
        Some(tally) => {
            if tally.functor == functor {
                Some(tally.count)
            } else {
                None
            }
        }
        None => None,
    }
}

/// What is kept behind an atom that came into a membrane.
pub(crate) fn with_atom<S: LinkStore>(tally: Option<Tally>, store: &S, a: S::Atom) -> Option<Tally>
    requires { IsAtom (S.heap store.now) (S.atom_id a) }
    ensures { Gains (functor_of (S.heap store.now) (S.atom_id a)) tally result }
{
    match tally {
        Some(tally) => tally.with_one(store.functor(a)),
        None => None,
    }
}

/// What is kept behind an atom that leaves its membrane.
pub(crate) fn without_atom<S: LinkStore>(
    tally: Option<Tally>,
    store: &S,
    a: S::Atom,
) -> Option<Tally>
    requires { IsAtom (S.heap store.now) (S.atom_id a) }
    ensures { Loses (functor_of (S.heap store.now) (S.atom_id a)) tally result }
{
    match tally {
        Some(tally) => tally.without_one(store.functor(a)),
        None => None,
    }
}
