//! A part is copied.
ghost use Rattle.std.specs.Prelude.{◌≡◌, ◌≢◌, ◌<◌, ℕ, List, [], None, IfOk, IfSome, IsTrue, OnErr, OnOk, false, length, map, slice_get};
ghost use Rattle.lmn_store_heap.specs.Conditions.{Alone};
ghost use Rattle.lmn_store_heap.specs.Heap.{IsAtom, arity_of, PortsUnmarked};
ghost use Rattle.lmn_store_heap.specs.Splice.{IsPort};
ghost use Rattle.lmn_ground.specs.Listed.{IsListed};
ghost use Rattle.lmn_ground.specs.Marks.{first_marks};
ghost use Rattle.lmn_ground.specs.Spread.{CleanPart, IsWhole, Numbered};
ghost use Rattle.lmn_ground.specs.Copies.{Copying, Made, Remains, unmarked_all};
ghost use Rattle.lmn_ground_parts.specs.Copies.{AllAtoms, Copied, LeadsOut, all_joined, joined_like, ports_of, answer};
ghost use Rattle.lmn_ground_parts.specs.Walks.{IsPartInDepth, is_port, port_range};
ghost use Rattle.lmn_base.specs.Lists.{In};

use crate::equality::is_same_port;
use crate::found::Found;
use crate::gather::{clear, list_part};
use crate::listing::{PartList, is_listed};
use crate::marks::{FIRST_NUMBER, PORTS};
use crate::seek::arity;
use lmn_base::NoMemory;
use lmn_store_trait::LinkStore;
use std::alloc::Global;

/// Makes an atom for each of the part, with its functor.
pub fn make_copies<S: LinkStore>(
    alloc: Global,
    store: &mut S,
    atoms: &Found<S::Atom>,
    copies: &mut Found<S::Atom>,
) -> Result<(), NoMemory>
    requires there { AllAtoms (S.heap store.old) (map S.atom_id atoms.now) }
    requires empty { copies.old ≡ [] }
    ensures some { (ys : List ℕ) × Made (S.heap store.old) (S.heap store.new) (map S.atom_id atoms.now) ys }
    ensures all { OnOk result (Made (S.heap store.old) (S.heap store.new) (map S.atom_id atoms.now) (map S.atom_id copies.new)) }
    ensures long { OnOk result (length copies.new ≡ length atoms.now) }
{
    copies.reserve(atoms.len());
    for i in 0..atoms.len() {
        let copy = store.make_like(alloc, *atoms.at(i))?;
        copies.push(copy)?;
    }
    Ok(())
}

/// The copy of an atom, by the number in its mark.
fn copy_of<S: LinkStore>(
    store: &S,
    atoms: &Found<S::Atom>,
    copies: &Found<S::Atom>,
    a: S::Atom,
) -> S::Atom
    requires atom { IsAtom (S.heap store.now) (S.atom_id a) }
    requires numbers { Numbered (first_marks (S.heap store.now)) 2 (map S.atom_id atoms.now) }
    requires among { In (S.atom_id a) (map S.atom_id atoms.now) }
    requires long { length copies.now ≡ length atoms.now }
    ensures { S.atom_id result ≡ answer (map S.atom_id atoms.now) (map S.atom_id copies.now) (S.atom_id a) }
{
    let number = store.mark(a, 0) / PORTS - FIRST_NUMBER;
    *copies.at(number as usize)
}

/// Joins the copy `c` of an atom at a port, which isn't the root, to the copy of the port's partner.
#[inline(always)]
fn join_inner_port<S: LinkStore>(
    store: &mut S,
    root: (S::Atom, u8),
    atoms: &Found<S::Atom>,
    copies: &Found<S::Atom>,
    a: S::Atom,
    c: S::Atom,
    i: u8,
)
    requires copying { Copying (S.heap store.old) (S.atom_id root.0, root.1) (map S.atom_id atoms.now) (map S.atom_id copies.now) }
    requires numbers { Numbered (first_marks (S.heap store.old)) 2 (map S.atom_id atoms.now) }
    requires among { In (S.atom_id a) (map S.atom_id atoms.now) }
    requires copy { S.atom_id c ≡ answer (map S.atom_id atoms.now) (map S.atom_id copies.now) (S.atom_id a) }
    requires port { i < arity_of (S.heap store.old) (S.atom_id a) }
    requires inner { is_port (S.atom_id a, i) (S.atom_id root.0, root.1) ≡ false }
    ensures { S.heap store.new ≡ joined_like (answer (map S.atom_id atoms.now) (map S.atom_id copies.now)) (S.atom_id root.0, root.1) (S.heap store.old) (S.atom_id a, i) }
{
    // The copy of a port is joined when the first of the two ports is met.
    if store.partner(c, i).is_some() {
        return;
    }
    if let Some((b, j)) = store.partner(a, i) {
        let d = copy_of(store, atoms, copies, b);
        store.join(c, i, d, j);
    }
}

/// Joins the copy `c` of an atom at a port to the copy of the port's partner.
fn join_port<S: LinkStore>(
    store: &mut S,
    root: (S::Atom, u8),
    atoms: &Found<S::Atom>,
    copies: &Found<S::Atom>,
    a: S::Atom,
    c: S::Atom,
    i: u8,
)
    requires copying { Copying (S.heap store.old) (S.atom_id root.0, root.1) (map S.atom_id atoms.now) (map S.atom_id copies.now) }
    requires numbers { Numbered (first_marks (S.heap store.old)) 2 (map S.atom_id atoms.now) }
    requires among { In (S.atom_id a) (map S.atom_id atoms.now) }
    requires copy { S.atom_id c ≡ answer (map S.atom_id atoms.now) (map S.atom_id copies.now) (S.atom_id a) }
    requires port { i < arity_of (S.heap store.old) (S.atom_id a) }
    ensures { S.heap store.new ≡ joined_like (answer (map S.atom_id atoms.now) (map S.atom_id copies.now)) (S.atom_id root.0, root.1) (S.heap store.old) (S.atom_id a, i) }
{
    if is_same_port(store, (a, i), root) {
        return;
    }
    join_inner_port(store, root, atoms, copies, a, c, i);
}

/// Joins the copies of the ports of the root's atom, which are those of its copy `c`.
fn join_first_ports<S: LinkStore>(
    store: &mut S,
    root: (S::Atom, u8),
    atoms: &Found<S::Atom>,
    copies: &Found<S::Atom>,
    a: S::Atom,
    c: S::Atom,
)
    requires copying { Copying (S.heap store.old) (S.atom_id root.0, root.1) (map S.atom_id atoms.now) (map S.atom_id copies.now) }
    requires numbers { Numbered (first_marks (S.heap store.old)) 2 (map S.atom_id atoms.now) }
    requires among { In (S.atom_id a) (map S.atom_id atoms.now) }
    requires copy { S.atom_id c ≡ answer (map S.atom_id atoms.now) (map S.atom_id copies.now) (S.atom_id a) }
    ensures { S.heap store.new ≡ all_joined (answer (map S.atom_id atoms.now) (map S.atom_id copies.now)) (S.atom_id root.0, root.1) (S.heap store.old) (port_range (S.atom_id a) 0 (arity_of (S.heap store.old) (S.atom_id a))) }
{
    for i in 0..arity(store, a) {
        join_port(store, root, atoms, copies, a, c, i);
    }
}

/// Joins the copies of the ports of another atom, which are those of its copy `c`.
#[inline(always)]
fn join_ports<S: LinkStore>(
    store: &mut S,
    root: (S::Atom, u8),
    atoms: &Found<S::Atom>,
    copies: &Found<S::Atom>,
    a: S::Atom,
    c: S::Atom,
)
    requires copying { Copying (S.heap store.old) (S.atom_id root.0, root.1) (map S.atom_id atoms.now) (map S.atom_id copies.now) }
    requires numbers { Numbered (first_marks (S.heap store.old)) 2 (map S.atom_id atoms.now) }
    requires among { In (S.atom_id a) (map S.atom_id atoms.now) }
    requires copy { S.atom_id c ≡ answer (map S.atom_id atoms.now) (map S.atom_id copies.now) (S.atom_id a) }
    requires other { S.atom_id a ≢ S.atom_id root.0 }
    ensures { S.heap store.new ≡ all_joined (answer (map S.atom_id atoms.now) (map S.atom_id copies.now)) (S.atom_id root.0, root.1) (S.heap store.old) (port_range (S.atom_id a) 0 (arity_of (S.heap store.old) (S.atom_id a))) }
{
    for i in 0..arity(store, a) {
        join_inner_port(store, root, atoms, copies, a, c, i);
    }
}

/// Joins the copies as the atoms of the part, of which that of the root is the first.
pub fn join_copies<S: LinkStore>(
    store: &mut S,
    root: (S::Atom, u8),
    atoms: &Found<S::Atom>,
    copies: &Found<S::Atom>,
)
    requires copying { Copying (S.heap store.old) (S.atom_id root.0, root.1) (map S.atom_id atoms.now) (map S.atom_id copies.now) }
    requires numbers { Numbered (first_marks (S.heap store.old)) 2 (map S.atom_id atoms.now) }
    requires first { IfSome (slice_get atoms.now 0) (λ a. S.atom_id a ≡ S.atom_id root.0) }
    ensures { S.heap store.new ≡ all_joined (answer (map S.atom_id atoms.now) (map S.atom_id copies.now)) (S.atom_id root.0, root.1) (S.heap store.old) (ports_of (S.heap store.old) (map S.atom_id atoms.now)) }
{
    join_first_ports(store, root, atoms, copies, *atoms.at(0), *copies.at(0));
    for k in 1..atoms.len() {
        join_ports(store, root, atoms, copies, *atoms.at(k), *copies.at(k));
    }
}

/// Copies a part, and leaves the marks of its atoms, which are listed. Answers the copy of the root's atom.
fn copy_marked<S: LinkStore>(
    alloc: Global,
    store: &mut S,
    root: (S::Atom, u8),
    atoms: &mut Found<S::Atom>,
    listed: bool,
) -> Result<S::Atom, NoMemory>
    requires root { IsPort (S.heap store.old) (S.atom_id root.0) root.1 }
    requires clean { CleanPart (S.heap store.old) (S.atom_id root.0, root.1) }
    requires ground { IsWhole (S.heap store.old) (S.atom_id root.0, root.1) None }
    requires outside { LeadsOut (S.heap store.old) (S.atom_id root.0, root.1) }
    requires listed { IsTrue listed → IsPartInDepth (S.heap store.old) (S.atom_id root.0, root.1) (map S.atom_id atoms.old) }
    ensures there { AllAtoms (S.heap store.new) (map S.atom_id atoms.new) }
    ensures ok { IfOk result (λ c. Copied (S.heap store.old) (unmarked_all (S.heap store.new) (map S.atom_id atoms.new)) (S.atom_id root.0, root.1) (S.atom_id c, root.1)) }
    ensures err { OnErr result (Remains (S.heap store.old) (unmarked_all (S.heap store.new) (map S.atom_id atoms.new))) }
    ensures part { OnOk result (IsPartInDepth (S.heap store.old) (S.atom_id root.0, root.1) (map S.atom_id atoms.new)) }
{
    let _arity = arity(store, root.0);
    list_part(store, root, atoms, listed)?;
    let mut copies = Found::new(alloc);
    let _sound = store.root();
    make_copies(alloc, store, atoms, &mut copies)?;
    let _joined = store.root();
    join_copies(store, root, atoms, &copies);
    Ok(*copies.at(0))
}

/// A copy of a part.
#[derive(Clone, Copy, Drop)]
pub struct CountedCopy<A> {
    /// The port at which the copy is entered.
    pub root: (A, u8),
    /// How many atoms it has.
    pub atoms: u64,
}

/// Copies a part of one atom, which has one port, and lists it.
fn copy_lone<S: LinkStore>(
    alloc: Global,
    store: &mut S,
    root: (S::Atom, u8),
    trail: &mut Found<S::Atom>,
) -> Result<CountedCopy<S::Atom>, NoMemory>
    requires root { IsPort (S.heap store.old) (S.atom_id root.0) root.1 }
    requires ground { IsWhole (S.heap store.old) (S.atom_id root.0, root.1) None }
    requires outside { LeadsOut (S.heap store.old) (S.atom_id root.0, root.1) }
    requires lone { arity_of (S.heap store.old) (S.atom_id root.0) ≡ 1 }
    ensures ok { IfOk result (λ c. Copied (S.heap store.old) (S.heap store.new) (S.atom_id root.0, root.1) (S.atom_id c.root.0, c.root.1)
        × IsPartInDepth (S.heap store.old) (S.atom_id root.0, root.1) (map S.atom_id trail.new) × (c.atoms ≡ length trail.new)) }
    ensures err { OnErr result (Remains (S.heap store.old) (S.heap store.new)) }
    ensures alone { Alone (S.heap store.old) → Alone (S.heap store.new) }
{
    let _sound = store.root();
    trail.clear();
    trail.push(root.0)?;
    let functor = store.functor(root.0);
    let copy = store.make_atom(alloc, functor)?;
    Ok(CountedCopy {
        root: (copy, root.1),
        atoms: 1,
    })
}

/// Copies a part and lists it; where it is listed before, it is not walked.
fn copy_listed<S: LinkStore>(
    alloc: Global,
    store: &mut S,
    root: (S::Atom, u8),
    list: &mut PartList<S::Atom>,
) -> Result<CountedCopy<S::Atom>, NoMemory>
    requires root { IsPort (S.heap store.old) (S.atom_id root.0) root.1 }
    requires clean { PortsUnmarked (S.heap store.old) }
    requires ground { IsWhole (S.heap store.old) (S.atom_id root.0, root.1) None }
    requires outside { LeadsOut (S.heap store.old) (S.atom_id root.0, root.1) }
    requires listed { IsListed S.atom_id (S.heap store.old) list.old }
    ensures ok { IfOk result (λ c. Copied (S.heap store.old) (S.heap store.new) (S.atom_id root.0, root.1) (S.atom_id c.root.0, c.root.1)
        × IsPartInDepth (S.heap store.old) (S.atom_id root.0, root.1) (map S.atom_id list.new.atoms) × (c.atoms ≡ length list.new.atoms)) }
    ensures err { OnErr result (Remains (S.heap store.old) (S.heap store.new)) }
    ensures alone { Alone (S.heap store.old) → Alone (S.heap store.new) }
{
    let ports = arity(store, root.0);
    if ports == 1 {
        return copy_lone(alloc, store, root, &mut list.atoms);
    }
    let listed = is_listed(store, list, root);
    let copied = copy_marked(alloc, store, root, &mut list.atoms, listed);
    clear(store, &list.atoms);
    match copied {
        Ok(copy) => Ok(CountedCopy {
            root: (copy, root.1),
            atoms: list.atoms.len() as u64,
        }),
        Err(NoMemory) => Err(NoMemory),
    }
}

/// Copies a part, as `copy` does, and tells how many atoms it has. Its atoms are listed then; where they are listed before, the part is not
/// walked.
pub fn copy_counted<S: LinkStore>(
    alloc: Global,
    store: &mut S,
    root: (S::Atom, u8),
    list: &mut PartList<S::Atom>,
) -> Result<CountedCopy<S::Atom>, NoMemory>
    requires root { IsPort (S.heap store.old) (S.atom_id root.0) root.1 }
    requires clean { PortsUnmarked (S.heap store.old) }
    requires ground { IsWhole (S.heap store.old) (S.atom_id root.0, root.1) None }
    requires outside { LeadsOut (S.heap store.old) (S.atom_id root.0, root.1) }
    requires listed { IsListed S.atom_id (S.heap store.old) list.old }
    ensures ok { IfOk result (λ c. Copied (S.heap store.old) (S.heap store.new) (S.atom_id root.0, root.1) (S.atom_id c.root.0, c.root.1)
        × IsPartInDepth (S.heap store.old) (S.atom_id root.0, root.1) (map S.atom_id list.new.atoms) × (c.atoms ≡ length list.new.atoms)) }
    ensures err { OnErr result (Remains (S.heap store.old) (S.heap store.new)) }
    ensures listed { IsListed S.atom_id (S.heap store.old) list.new }
    ensures alone { Alone (S.heap store.old) → Alone (S.heap store.new) }
{
    let _arity = arity(store, root.0);
    match copy_listed(alloc, store, root, list) {
        Ok(copy) => {
            list.port = root.1;
            Ok(copy)
        }
        Err(NoMemory) => {
            list.forget();
            Err(NoMemory)
        }
    }
}

/// For how many atoms of a part room is asked at first.
const FEW: usize = 64;

/// Copies a part whose root has no partner in it. The copy's atoms are detached, in the order in which the part's are
/// found, and its root has no partner. At want of memory some detached atoms may have been made, which `discard` gives back.
/// Two lists of handles stand while it runs, so the copy of an atom is found by the number in its mark, in one step.
/// All atoms are made before any is joined, so after want of memory nothing is joined; each link is joined once, at the
/// first of its two ports that is met.
pub fn copy<S: LinkStore>(
    alloc: Global,
    store: &mut S,
    root: (S::Atom, u8),
) -> Result<(S::Atom, u8), NoMemory>
    requires root { IsPort (S.heap store.old) (S.atom_id root.0) root.1 }
    requires clean { PortsUnmarked (S.heap store.old) }
    requires ground { IsWhole (S.heap store.old) (S.atom_id root.0, root.1) None }
    requires outside { LeadsOut (S.heap store.old) (S.atom_id root.0, root.1) }
    ensures ok { IfOk result (λ c. Copied (S.heap store.old) (S.heap store.new) (S.atom_id root.0, root.1) (S.atom_id c.0, c.1)) }
    ensures err { OnErr result (Remains (S.heap store.old) (S.heap store.new)) }
    ensures alone { Alone (S.heap store.old) → Alone (S.heap store.new) }
{
    let mut list = PartList {
        port: 0,
        atoms: Found::new(alloc),
    };
    list.atoms.reserve(FEW);
    match copy_counted(alloc, store, root, &mut list) {
        Ok(copied) => Ok(copied.root),
        Err(NoMemory) => Err(NoMemory),
    }
}
