//! How the atoms of a membrane are written.
ghost use Rattle.std.specs.Prelude.{◌≡◌, ℕ, List, Bool, false};
ghost use Rattle.lmn_congruence.specs.Rules.{Name};
ghost use Rattle.lmn_store_heap.specs.Heap.{Heap, IsMem, atoms_in};
ghost use Rattle.lmn_io.specs.Gathering.{Adds, output};
ghost use Rattle.lmn_print_plain.specs.Rows.{any_behind, in_row};
ghost use Rattle.lmn_print_plain.specs.Stored.{atom_texts};

use crate::leaves::add_between;
use crate::stored::add_atom;
use lmn_base::Names;
use lmn_io::{LineBuffer, Sink};
use lmn_store_trait::LinkStore;

/// A way in which the atoms of a membrane are written.
pub trait AtomWriter<S: LinkStore, O: Sink> {
    /// With these names, and what a store holds, the atoms of a membrane have these texts.
    ghost are_texts: { List Name → Heap → ℕ → List (List ℕ) → Type 0 };

    /// Adds the texts of a membrane's atoms.
    fn add_atoms(
        &self,
        buffer: &mut LineBuffer,
        out: &mut O,
        names: &Names,
        store: &S,
        mem: S::Mem,
        between: &[u8],
    )
        requires mem { IsMem (S.heap store.now) (S.mem_id mem) }
        requires texts { (texts : List (List ℕ)) × are_texts names.now (S.heap store.now) (S.mem_id mem) texts }
        ensures { (texts : List (List ℕ)) → are_texts names.now (S.heap store.now) (S.mem_id mem) texts → Adds (in_row between.now false texts) (output buffer.old (O.told out.old) (O.faults out.old)) (output buffer.new (O.told out.new) (O.faults out.new)) };

    /// Whether there is one.
    fn has_atoms(&self, store: &S, mem: S::Mem) -> bool
        requires { IsMem (S.heap store.now) (S.mem_id mem) }
        ensures { (names : List Name) (texts : List (List ℕ)) → are_texts names (S.heap store.now) (S.mem_id mem) texts → result ≡ any_behind false texts };
}

/// The plain form: one atom after the other. The marks of their ports tell the numbers of links.
pub(crate) struct PlainAtoms;

impl<S: LinkStore, O: Sink> AtomWriter<S, O> for PlainAtoms {
    ghost are_texts = { λ names s m texts. texts ≡ atom_texts names s m };

    fn add_atoms(
        &self,
        buffer: &mut LineBuffer,
        out: &mut O,
        names: &Names,
        store: &S,
        mem: S::Mem,
        between: &[u8],
    ) {
        let mut any = false;
        let mut next = store.first_atom(mem);
        while let Some(atom) = next {
            add_between(buffer, out, any, between);
            add_atom(buffer, out, names, store, atom);
            any = true;
            next = store.next_atom(atom);
        }
    }

    fn has_atoms(&self, store: &S, mem: S::Mem) -> bool {
        store.atoms(mem) > 0
    }
}
