//! Membranes that are told by a link into them.
ghost use Rattle.std.specs.Prelude.{◌≡◌, ◌<◌, ◌≤◌, ℕ, Some, IfSome, length};
ghost use Rattle.std.specs.Option.{option_map};
ghost use Rattle.lmn_base.specs.Lists.{In};
ghost use Rattle.lmn_store_heap.specs.Heap.{IsAtom, IsMem, link_of, parent_of, atoms_in, mems_in};
ghost use Rattle.lmn_machine.specs.Jumping.{HangsBy};

use crate::{ahead, checks};
use lmn_instr_code::{AtomPort, Instr};
use lmn_instr_pool::Instrs;
use lmn_store_trait::LinkStore;

/// The port of an atom that is set from which the instruction at a place goes to an atom of which the code asks whether it stands
/// in the membrane of a register.
fn hangs_at(code: &Instrs<'_>, at: usize, register: usize, atoms: usize) -> Option<AtomPort>
    requires at { at < length code.now }
    ensures set { IfSome result (λ p. p.atom < atoms) }
    ensures hangs { IfSome result (λ p. (k : ℕ) → k ≤ at → HangsBy code.now k register p) }
{
    let _code = code.len();
    match code.at(at) {
        Instr::Deref { atom, from, .. } => {
            if from.atom as usize >= atoms {
                return None;
            }
            if !ahead::asks_home(code, at + 2, *atom, register) {
                return None;
            }
            Some(*from)
        }
        _ => None,
    }
}

/// A port of an atom that is set from which the code ahead goes to an atom of which it asks whether it stands in the membrane of a
/// register.
pub fn hangs_by(code: &Instrs<'_>, at: usize, register: usize, atoms: usize) -> Option<AtomPort>
    ensures set { IfSome result (λ p. p.atom < atoms) }
    ensures hangs { IfSome result (λ p. HangsBy code.now at register p) }
{
    for i in at..code.len() {
        if let Some(port) = hangs_at(code, i, register, atoms) {
            return Some(port);
        }
    }
    None
}

/// The membrane in which the atom stands to which a port leads, where it is in the given one.
pub fn home_behind<S: LinkStore>(
    store: &S,
    from: S::Atom,
    port: u8,
    place: S::Mem,
) -> Option<S::Mem>
    requires atom { IsAtom (S.heap store.now) (S.atom_id from) }
    requires place { IsMem (S.heap store.now) (S.mem_id place) }
    ensures parent { IfSome result (λ m. parent_of (S.heap store.now) (S.mem_id m) ≡ Some (S.mem_id place)) }
    ensures only { (q : ℕ × ℕ) (n : ℕ) → link_of (S.heap store.now) (S.atom_id from) port ≡ Some q → In q.0 (atoms_in (S.heap store.now) n) → In n (mems_in (S.heap store.now) (S.mem_id place)) →
        option_map S.mem_id result ≡ Some n }
{
    match checks::end(store, from, port) {
        Some((a, _)) => ahead::home_within(store, a, place),
        None => None,
    }
}
