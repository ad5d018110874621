//! How many atoms of a store have a functor. Nothing here takes memory.
ghost use Rattle.std.specs.Prelude.{◌≡◌, length};
ghost use Rattle.lmn_store_heap.specs.Heap.{IsMem, atoms_in};
ghost use Rattle.lmn_store_heap.specs.Functors.{with_functor};
ghost use Rattle.lmn_store_heap.specs.Sound.{Forest, IsTree, Valid, flat};
ghost use Rattle.lmn_debug_counting.specs.Counts.{count_in};

use lmn_base::Functor;
use lmn_store_trait::LinkStore;

/// How many atoms of a membrane have the functor.
fn count_of_membrane<S: LinkStore>(store: &S, membrane: S::Mem, functor: Functor) -> u64
    requires { IsMem (S.heap store.now) (S.mem_id membrane) }
    ensures { result ≡ length (with_functor (S.heap store.now) functor (atoms_in (S.heap store.now) (S.mem_id membrane))) }
{
    // There are no more atoms in it, so the loop ends at a return, or all of them were counted.
    let most = store.atoms(membrane);
    let mut at = store.first_with(membrane, functor);
    for counted in 0..most {
        match at {
            Some(atom) => at = store.next_with(atom),
            None => return counted,
        }
    }
    most
}

/// How many atoms of a store have the functor, at every depth.
pub(crate) fn count_atoms<S: LinkStore>(store: &S, functor: Functor) -> u64
    requires { Valid (S.heap store.now) }
    ensures { (f : Forest) → IsTree (S.heap store.now) f → result ≡ count_in (S.heap store.now) functor (flat f) }
{
    // There are fewer membranes than that, so the loop ends at a return, and fewer atoms than items.
    let _items = store.items();
    let mut at = store.root();
    let mut total = 0;
    for _ in 0..u64::MAX {
        total += count_of_membrane(store, at, functor);
        match store.next_membrane(at) {
            Some(next) => at = next,
            None => return total,
        }
    }
    0
}
