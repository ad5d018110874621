//! Rests are copied, placed and taken.
ghost use Rattle.std.specs.Prelude.{◌≡◌, ◌≢◌, ◌<◌, ◌≤◌, ℕ, List, [], ◌∷◌, ◌++◌, Some, OnOk, OnErr, IfOk, IfSome, length, map};
ghost use Rattle.std.specs.Option.{option_map};
ghost use Rattle.lmn_base.specs.Lists.{In};
ghost use Rattle.lmn_store_heap.specs.Conditions.{Alone};
ghost use Rattle.lmn_store_heap.specs.Heap.{IsMem, IsMemInPlace, Distinct, PortsUnmarked, after, atoms_in, from, gone, mem_place_of, mems_in, own_mark, parent_of, placed_mem, rules_copied, rules_in, spare_of, taken_all};
ghost use Rattle.lmn_ground_parts.specs.Copies.{AllAtoms, AreNew, made_like};
ghost use Rattle.lmn_ground_parts.specs.Rests.{AreNewMembranes, AreRoomsFor, CopyWaits, IsContent, NoneLeaves, RestCopied, RestRemains, atoms_placed, joined_copies, made_roomy, rest_placed, rest_taken};
ghost use Rattle.lmn_ground.specs.Copies.{Made};
ghost use Rattle.lmn_ground.specs.Marks.{first_marks};
ghost use Rattle.lmn_ground.specs.Rests.{AreMembranes, AreTwins, IsLeft};
ghost use Rattle.lmn_ground.specs.Spread.{Numbered};

use crate::copying::{join_copies, make_copies};
use crate::found::Found;
use crate::gather::{clear, number};
use crate::rest::{first_membrane, first_rest, next_membrane, next_rest};
use crate::seek::arity;
use lmn_base::NoMemory;
use lmn_store_trait::LinkStore;
use std::alloc::Global;

/// Lists the membranes of a rest.
fn gather_membranes<S: LinkStore>(
    store: &S,
    mem: S::Mem,
    out: &[S::Mem],
    membranes: &mut Found<S::Mem>,
) -> Result<(), NoMemory>
    requires mem { IsMem (S.heap store.now) (S.mem_id mem) }
    requires out { AreMembranes (S.heap store.now) (map S.mem_id out.now) }
    requires rest { (atoms all : List ℕ) × IsLeft (S.heap store.now) (S.mem_id mem) (map S.mem_id out.now) atoms all }
    requires empty { membranes.old ≡ [] }
    ensures all { OnOk result ((atoms all : List ℕ) → IsLeft (S.heap store.now) (S.mem_id mem) (map S.mem_id out.now) atoms all → map S.mem_id membranes.new ≡ all) }
{
    let _root = store.root();
    let mut next = first_membrane(store, mem, out);
    while let Some(m) = next {
        membranes.push(m)?;
        next = next_membrane(store, mem, out, m);
    }
    Ok(())
}

/// Lists the atoms of a rest.
fn gather_atoms<S: LinkStore>(
    store: &S,
    mem: S::Mem,
    out: &[S::Mem],
    atoms: &mut Found<S::Atom>,
) -> Result<(), NoMemory>
    requires mem { IsMem (S.heap store.now) (S.mem_id mem) }
    requires out { AreMembranes (S.heap store.now) (map S.mem_id out.now) }
    requires rest { (all membranes : List ℕ) × IsLeft (S.heap store.now) (S.mem_id mem) (map S.mem_id out.now) all membranes }
    requires empty { atoms.old ≡ [] }
    ensures all { OnOk result ((all membranes : List ℕ) → IsLeft (S.heap store.now) (S.mem_id mem) (map S.mem_id out.now) all membranes → map S.atom_id atoms.new ≡ all) }
{
    let _root = store.root();
    let mut next = first_rest(store, mem, out);
    while let Some(a) = next {
        atoms.push(a)?;
        next = next_rest(store, mem, out, a);
    }
    Ok(())
}

/// Makes a membrane for each of these, with room for its rules.
fn make_membranes<S: LinkStore>(
    alloc: Global,
    store: &mut S,
    membranes: &Found<S::Mem>,
) -> Result<(), NoMemory>
    requires there { AreMembranes (S.heap store.old) (map S.mem_id membranes.now) }
    ensures some { (rooms : List (ℕ × ℕ)) × AreNewMembranes (S.heap store.old) (map (λ e. e.0) rooms) × (S.heap store.new ≡ made_roomy (S.heap store.old) rooms) }
    ensures ok { OnOk result ((rooms : List (ℕ × ℕ)) × AreNewMembranes (S.heap store.old) (map (λ e. e.0) rooms)
        × AreRoomsFor (S.heap store.old) (map S.mem_id membranes.now) rooms × (S.heap store.new ≡ made_roomy (S.heap store.old) rooms)) }
{
    for i in 0..membranes.len() {
        let rules = store.rules(*membranes.at(i));
        let copy = store.make_mem(alloc)?;
        store.reserve_rules(alloc, copy, rules)?;
    }
    Ok(())
}

/// Makes copies of numbered atoms, which no link leaves, and joins them as these.
fn copy_numbered<S: LinkStore>(
    alloc: Global,
    store: &mut S,
    atoms: &Found<S::Atom>,
) -> Result<(), NoMemory>
    requires there { AllAtoms (S.heap store.old) (map S.atom_id atoms.now) }
    requires once { Distinct (map S.atom_id atoms.now) }
    requires some { 0 < length atoms.now }
    requires numbers { Numbered (first_marks (S.heap store.old)) 2 (map S.atom_id atoms.now) }
    requires stays { NoneLeaves (S.heap store.old) (map S.atom_id atoms.now) }
    ensures there { AllAtoms (S.heap store.new) (map S.atom_id atoms.now) }
    ensures ok { OnOk result ((ys : List ℕ) × Made (S.heap store.old) (made_like (S.heap store.old) (map S.atom_id atoms.now) ys) (map S.atom_id atoms.now) ys
        × (length ys ≡ length atoms.now) × (S.heap store.new ≡ joined_copies (S.heap store.old) (map S.atom_id atoms.now) ys)) }
    ensures err { OnErr result ((ys : List ℕ) × Made (S.heap store.old) (S.heap store.new) (map S.atom_id atoms.now) ys) }
{
    let _sound = store.root();
    let mut copies = Found::new(alloc);
    make_copies(alloc, store, atoms, &mut copies)?;
    let _made = store.root();
    // No port is this one, so the copy of each port is joined.
    let first = *atoms.at(0);
    let none = (first, arity(store, first));
    join_copies(store, none, atoms, &copies);
    Ok(())
}

/// Copies atoms that no link leaves.
fn copy_atoms<S: LinkStore>(
    alloc: Global,
    store: &mut S,
    atoms: &Found<S::Atom>,
) -> Result<(), NoMemory>
    requires there { AllAtoms (S.heap store.old) (map S.atom_id atoms.now) }
    requires once { Distinct (map S.atom_id atoms.now) }
    requires some { 0 < length atoms.now }
    requires clean { (x : ℕ) → In x (map S.atom_id atoms.now) → first_marks (S.heap store.old) x ≡ 0 }
    requires stays { NoneLeaves (S.heap store.old) (map S.atom_id atoms.now) }
    ensures ok { OnOk result ((ys : List ℕ) × AreNew (S.heap store.old) ys × (length ys ≡ length atoms.now) × (S.heap store.new ≡ joined_copies (S.heap store.old) (map S.atom_id atoms.now) ys)) }
    ensures err { OnErr result ((ys : List ℕ) × AreNew (S.heap store.old) ys × (S.heap store.new ≡ made_like (S.heap store.old) (map S.atom_id atoms.now) ys)) }
{
    let _sound = store.root();
    number(store, atoms);
    let copied = copy_numbered(alloc, store, atoms);
    clear(store, atoms);
    copied
}

/// Copies the rest of a membrane: its atoms whose own mark is 0, and its membranes but those of `out`, with all that is in
/// them. No link leaves it. The copies are detached, in the order of the rest, and each membrane has room for the rules of its
/// original. At want of memory some may have been made, which `discard` gives back.
pub fn copy_cells<S: LinkStore>(
    alloc: Global,
    store: &mut S,
    mem: S::Mem,
    out: &[S::Mem],
) -> Result<(), NoMemory>
    requires mem { IsMem (S.heap store.old) (S.mem_id mem) }
    requires out { AreMembranes (S.heap store.old) (map S.mem_id out.now) }
    requires rest { (atoms membranes : List ℕ) × IsLeft (S.heap store.old) (S.mem_id mem) (map S.mem_id out.now) atoms membranes }
    requires clean { PortsUnmarked (S.heap store.old) }
    requires unmatched { (atoms membranes : List ℕ) → IsLeft (S.heap store.old) (S.mem_id mem) (map S.mem_id out.now) atoms membranes → (a : ℕ) → In a atoms → own_mark (S.heap store.old) a ≡ 0 }
    requires closed { (atoms membranes : List ℕ) → IsLeft (S.heap store.old) (S.mem_id mem) (map S.mem_id out.now) atoms membranes → NoneLeaves (S.heap store.old) atoms }
    ensures ok { OnOk result ((atoms membranes : List ℕ) → IsLeft (S.heap store.old) (S.mem_id mem) (map S.mem_id out.now) atoms membranes →
        (copies : List ℕ) × (rooms : List (ℕ × ℕ)) × RestCopied (S.heap store.old) (S.heap store.new) atoms membranes copies rooms) }
    ensures err { OnErr result ((atoms membranes : List ℕ) → IsLeft (S.heap store.old) (S.mem_id mem) (map S.mem_id out.now) atoms membranes → RestRemains (S.heap store.old) (S.heap store.new) atoms) }
{
    let _root = store.root();
    let mut membranes = Found::new(alloc);
    gather_membranes(store, mem, out, &mut membranes)?;
    let mut atoms = Found::new(alloc);
    gather_atoms(store, mem, out, &mut atoms)?;
    make_membranes(alloc, store, &membranes)?;
    if atoms.len() == 0 {
        return Ok(());
    }
    copy_atoms(alloc, store, &atoms)
}

/// The first detached atoms go to a membrane, as many as stand in another.
fn place_atoms<S: LinkStore>(store: &mut S, from: S::Mem, to: S::Mem)
    requires from { IsMem (S.heap store.old) (S.mem_id from) }
    requires to { IsMemInPlace (S.heap store.old) (S.mem_id to) }
    requires line { (ys behind : List ℕ) × (length ys ≡ length (atoms_in (S.heap store.old) (S.mem_id from))) × ((S.heap store.old).new_atoms ≡ ys ++ behind) }
    ensures { (ys behind : List ℕ) → length ys ≡ length (atoms_in (S.heap store.old) (S.mem_id from)) → (S.heap store.old).new_atoms ≡ ys ++ behind →
        S.heap store.new ≡ atoms_placed (λ a. a) (S.heap store.old) (S.mem_id to) ys }
{
    for _ in 0..store.atoms(from) {
        let _atom = store.place_atom(to);
    }
}

/// The first detached membrane, which is the copy of one, goes to a membrane, with the rules and the copies of the atoms.
fn place_copy<S: LinkStore>(store: &mut S, of: S::Mem, to: S::Mem) -> S::Mem
    requires of { IsMem (S.heap store.old) (S.mem_id of) }
    requires to { IsMemInPlace (S.heap store.old) (S.mem_id to) }
    requires first { (k : ℕ) × (ks : List ℕ) × ((S.heap store.old).new_mems ≡ k ∷ ks) × (S.mem_id of ≢ k) × (length (rules_in (S.heap store.old) (S.mem_id of)) ≤ spare_of (S.heap store.old) k) }
    requires line { (ys behind : List ℕ) × (length ys ≡ length (atoms_in (S.heap store.old) (S.mem_id of))) × ((S.heap store.old).new_atoms ≡ ys ++ behind) }
    ensures first { from (Some (S.mem_id result)) (S.heap store.old).new_mems ≡ (S.heap store.old).new_mems }
    ensures placed { (ys behind : List ℕ) → length ys ≡ length (atoms_in (S.heap store.old) (S.mem_id of)) → (S.heap store.old).new_atoms ≡ ys ++ behind →
        S.heap store.new ≡ atoms_placed (λ a. a) (rules_copied (placed_mem (S.heap store.old) (S.mem_id to) (S.mem_id result)) (S.mem_id of) (S.mem_id result)) (S.mem_id result) ys }
{
    let _root = store.root();
    let copy = store.place_mem(to);
    store.copy_rules(of, copy);
    place_atoms(store, of, copy);
    copy
}

/// A membrane, and its copy or the place for it.
#[derive(Clone, Copy)]
struct Twin<M> {
    mem: M,
    copy: M,
}

/// The membrane behind an empty one in preorder, with the copy of the membrane round it.
fn twin_behind<S: LinkStore>(store: &S, mem: S::Mem, start: Twin<S::Mem>) -> Option<Twin<S::Mem>>
    requires mem { IsMem (S.heap store.now) (S.mem_id mem) }
    requires at { (atoms membranes : List ℕ) × IsContent (S.heap store.now) (S.mem_id mem) atoms membranes × In (S.mem_id start.mem) (S.mem_id mem ∷ membranes) }
    requires empty { mems_in (S.heap store.now) (S.mem_id start.mem) ≡ [] }
    requires twin { (twin : ℕ → ℕ) × (placed : List ℕ) × AreTwins (S.heap store.now) (S.mem_id mem) twin placed × In (S.mem_id start.mem) (S.mem_id mem ∷ placed) × (twin (S.mem_id start.mem) ≡ S.mem_id start.copy) }
    requires there { IsMem (S.heap store.now) (S.mem_id start.copy) }
    ensures list { (atoms membranes : List ℕ) → IsContent (S.heap store.now) (S.mem_id mem) atoms membranes →
        from (option_map (λ t. S.mem_id t.mem) result) (S.mem_id mem ∷ membranes) ≡ after (S.mem_id start.mem) (S.mem_id mem ∷ membranes) }
    ensures round { (twin : ℕ → ℕ) (placed : List ℕ) → AreTwins (S.heap store.now) (S.mem_id mem) twin placed → In (S.mem_id start.mem) (S.mem_id mem ∷ placed) → twin (S.mem_id start.mem) ≡ S.mem_id start.copy →
        IfSome result (λ t. (p : ℕ) × (parent_of (S.heap store.now) (S.mem_id t.mem) ≡ Some p) × In p (S.mem_id mem ∷ placed) × (twin p ≡ S.mem_id t.copy)) }
{
    let _root = store.root();
    let mut at = start;
    loop {
        if store.same_mem(at.mem, mem) {
            return None;
        }
        match store.parent(at.mem) {
            Some(round) => match store.parent(at.copy) {
                Some(copy) => match store.next_mem(at.mem) {
                    Some(next) => return Some(Twin { mem: next, copy }),
                    None => at = Twin { mem: round, copy },
                },
                None => return None,
            },
            None => return None,
        }
    }
}

/// The membrane behind one in preorder, with the copy of the membrane round it.
fn next_twin<S: LinkStore>(store: &S, mem: S::Mem, at: Twin<S::Mem>) -> Option<Twin<S::Mem>>
    requires mem { IsMem (S.heap store.now) (S.mem_id mem) }
    requires at { (atoms membranes : List ℕ) × IsContent (S.heap store.now) (S.mem_id mem) atoms membranes × In (S.mem_id at.mem) (S.mem_id mem ∷ membranes) }
    requires twin { (twin : ℕ → ℕ) × (placed : List ℕ) × AreTwins (S.heap store.now) (S.mem_id mem) twin placed × In (S.mem_id at.mem) (S.mem_id mem ∷ placed) × (twin (S.mem_id at.mem) ≡ S.mem_id at.copy) }
    requires there { IsMem (S.heap store.now) (S.mem_id at.copy) }
    ensures list { (atoms membranes : List ℕ) → IsContent (S.heap store.now) (S.mem_id mem) atoms membranes →
        from (option_map (λ t. S.mem_id t.mem) result) (S.mem_id mem ∷ membranes) ≡ after (S.mem_id at.mem) (S.mem_id mem ∷ membranes) }
    ensures round { (twin : ℕ → ℕ) (placed : List ℕ) → AreTwins (S.heap store.now) (S.mem_id mem) twin placed → In (S.mem_id at.mem) (S.mem_id mem ∷ placed) → twin (S.mem_id at.mem) ≡ S.mem_id at.copy →
        IfSome result (λ t. (p : ℕ) × (parent_of (S.heap store.now) (S.mem_id t.mem) ≡ Some p) × In p (S.mem_id mem ∷ placed) × (twin p ≡ S.mem_id t.copy)) }
{
    let _root = store.root();
    match store.first_mem(at.mem) {
        Some(inner) => Some(Twin {
            mem: inner,
            copy: at.copy,
        }),
        None => twin_behind(store, mem, at),
    }
}

/// The first detached items, which are the copy of what is in a membrane, go to the ends of the lists of another one, with
/// the rules of the membranes in it.
pub fn place_cells<S: LinkStore>(store: &mut S, from: S::Mem, to: S::Mem)
    requires from { IsMem (S.heap store.old) (S.mem_id from) }
    requires to { IsMemInPlace (S.heap store.old) (S.mem_id to) }
    requires waits { (atoms membranes copies new_membranes : List ℕ) × CopyWaits (S.heap store.old) (S.mem_id from) (S.mem_id to) atoms membranes copies new_membranes }
    ensures { (atoms membranes copies new_membranes : List ℕ) → CopyWaits (S.heap store.old) (S.mem_id from) (S.mem_id to) atoms membranes copies new_membranes →
        S.heap store.new ≡ rest_placed (S.heap store.old) (S.mem_id from) (S.mem_id to) atoms membranes copies new_membranes }
{
    let _root = store.root();
    place_atoms(store, from, to);
    let mut at = Twin {
        mem: from,
        copy: to,
    };
    while let Some(next) = next_twin(store, from, at) {
        at = Twin {
            mem: next.mem,
            copy: place_copy(store, next.mem, next.copy),
        };
    }
}

/// Takes the atoms in a membrane.
fn take_atoms<S: LinkStore>(store: &mut S, m: S::Mem)
    requires { IsMem (S.heap store.old) (S.mem_id m) }
    ensures { S.heap store.new ≡ taken_all (S.heap store.old) (atoms_in (S.heap store.old) (S.mem_id m)) }
{
    let _root = store.root();
    let mut next = store.first_atom(m);
    while let Some(a) = next {
        next = store.next_atom(a);
        store.take_atom(a);
    }
}

/// Takes everything that is in a membrane.
pub fn drop_cells<S: LinkStore>(store: &mut S, mem: S::Mem)
    requires gone { mem_place_of (S.heap store.old) (S.mem_id mem) ≡ Some gone }
    requires content { (atoms membranes : List ℕ) × IsContent (S.heap store.old) (S.mem_id mem) atoms membranes }
    ensures { (atoms membranes : List ℕ) → IsContent (S.heap store.old) (S.mem_id mem) atoms membranes → S.heap store.new ≡ rest_taken (S.heap store.old) atoms membranes }
{
    let _root = store.root();
    let mut at = mem;
    loop {
        take_atoms(store, at);
        match store.first_mem(at) {
            Some(inner) => at = inner,
            None => {
                if store.same_mem(at, mem) {
                    return;
                }
                match store.parent(at) {
                    Some(round) => {
                        store.take_mem(at);
                        at = round;
                    }
                    None => return,
                }
            }
        }
    }
}
