//! The search that jumps back: where a failure doesn't rest on a choice, no other candidate of it is tried.
ghost use Rattle.std.specs.Prelude.{◌≡◌, ◌≤◌, ◌<◌, ◌+◌, ℕ, length, drop, slice_get, Some};
ghost use Rattle.lmn_store_heap.specs.Sound.{Valid};
ghost use Rattle.lmn_store_heap.specs.Heap.{Unmarked, functor_of, parent_of};
ghost use Rattle.lmn_instr_code.specs.declared.instr.Instr.TheVariants.{FindAtom, AnyMem};
ghost use Rattle.lmn_machine.specs.Searching.{AreHeldWhole, HeadInOrder, ListsNone};
ghost use Rattle.lmn_machine.specs.Outcomes.{ChoosesAtoms, ChoosesMembranes};
ghost use Rattle.lmn_machine.specs.Jumping.{AllRestWell, Ended, HangsBy, Tried, with_atom, with_membrane};

use crate::choices::Choices;
use crate::reasons::Reasons;
use crate::steps::Outcome;
use crate::{alone, enough, hanging, steps};
use lmn_base::Functor;
use lmn_ground::Found;
use lmn_instr_code::{AtomPort, Instr};
use lmn_instr_pool::Instrs;
use lmn_machine_registers::SetRegisters;
use lmn_store_trait::LinkStore;

/// Runs code from an instruction on, and tries the candidates of its first choice in order. A failure names the choices on
/// which it rests.
#[cycle(search)]
pub fn search<S: LinkStore>(
    store: &mut S,
    code: &Instrs<'_>,
    reasons: &Reasons,
    at: usize,
    set: &mut SetRegisters<S::Atom, S::Mem>,
    trail: &mut Found<S::Atom>,
) -> Result<(), Choices>
    requires valid { Valid (S.heap store.old) }
    requires unmarked { Unmarked (S.heap store.old) }
    requires held { AreHeldWhole S.atom_id S.mem_id (S.heap store.old) set.old }
    requires at { at ≤ length code.now }
    requires order { HeadInOrder (length set.old.atoms) (length set.old.membranes) (length set.old.parts) (length set.old.integers) (drop at code.now) }
    requires rest { AllRestWell reasons.now code.now }
    ensures same { S.heap store.new ≡ S.heap store.old }
    ensures ended { Ended S.atom_id S.mem_id (S.heap store.old) reasons.now set.old set.new result (drop at code.now) }
{
    for i in at..code.len() {
        let instr = code.at(i);
        match steps::step(store, set, instr, trail) {
            Outcome::Holds => {}
            Outcome::Fails => return Err(reasons.read_by(instr)),
            Outcome::ChoosesAtom => {
                set.listed.forget();
                return choose_atom(store, code, reasons, i, instr, set, trail);
            }
            Outcome::ChoosesMembrane => {
                set.listed.forget();
                return choose_membrane(store, code, reasons, i, instr, set, trail);
            }
        }
    }
    Ok(())
}

/// Tries the candidates of a FINDATOM.
#[cycle(search)]
fn choose_atom<S: LinkStore>(
    store: &mut S,
    code: &Instrs<'_>,
    reasons: &Reasons,
    at: usize,
    instr: &Instr,
    set: &mut SetRegisters<S::Atom, S::Mem>,
    trail: &mut Found<S::Atom>,
) -> Result<(), Choices>
    requires valid { Valid (S.heap store.old) }
    requires unmarked { Unmarked (S.heap store.old) }
    requires held { AreHeldWhole S.atom_id S.mem_id (S.heap store.old) set.old }
    requires at { slice_get code.now at ≡ Some instr.now }
    requires choice { ChoosesAtoms instr.now }
    requires order { HeadInOrder (length set.old.atoms) (length set.old.membranes) (length set.old.parts) (length set.old.integers) (drop at code.now) }
    requires rest { AllRestWell reasons.now code.now }
    requires unlisted { ListsNone set.old }
    ensures same { S.heap store.new ≡ S.heap store.old }
    ensures ended { Ended S.atom_id S.mem_id (S.heap store.old) reasons.now set.old set.new result (drop at code.now) }
{
    match instr {
        Instr::FindAtom {
            membrane,
            functor,
            ..
        } => {
            let place = set.membranes.at(*membrane as usize);
            search_atoms(
                store, code, reasons, at, *membrane, place, *functor, set, trail,
            )
        }
        _ => Err(Choices::All),
    }
}

/// Tries the candidates of an ANYMEM. Where a link leads from what is set into the membrane that is looked for, it is the only
/// candidate.
#[cycle(search)]
fn choose_membrane<S: LinkStore>(
    store: &mut S,
    code: &Instrs<'_>,
    reasons: &Reasons,
    at: usize,
    instr: &Instr,
    set: &mut SetRegisters<S::Atom, S::Mem>,
    trail: &mut Found<S::Atom>,
) -> Result<(), Choices>
    requires valid { Valid (S.heap store.old) }
    requires unmarked { Unmarked (S.heap store.old) }
    requires held { AreHeldWhole S.atom_id S.mem_id (S.heap store.old) set.old }
    requires at { slice_get code.now at ≡ Some instr.now }
    requires choice { ChoosesMembranes instr.now }
    requires order { HeadInOrder (length set.old.atoms) (length set.old.membranes) (length set.old.parts) (length set.old.integers) (drop at code.now) }
    requires rest { AllRestWell reasons.now code.now }
    requires unlisted { ListsNone set.old }
    ensures same { S.heap store.new ≡ S.heap store.old }
    ensures ended { Ended S.atom_id S.mem_id (S.heap store.old) reasons.now set.old set.new result (drop at code.now) }
{
    match instr {
        Instr::AnyMem { inside, .. } => {
            let _code = code.len();
            let place = set.membranes.at(*inside as usize);
            let (atoms, membranes) = (set.atoms.len(), set.membranes.len());
            match hanging::hangs_by(code, at + 1, membranes, atoms) {
                Some(port) => search_home(
                    store, code, reasons, at, *inside, place, port, set, trail,
                ),
                None => try_membranes(store, code, reasons, at, *inside, place, set, trail),
            }
        }
        _ => Err(Choices::All),
    }
}

/// Tries the atoms of a membrane with a functor for the next register.
#[cycle(search)]
fn search_atoms<S: LinkStore>(
    store: &mut S,
    code: &Instrs<'_>,
    reasons: &Reasons,
    at: usize,
    inside: u16,
    place: S::Mem,
    functor: Functor,
    set: &mut SetRegisters<S::Atom, S::Mem>,
    trail: &mut Found<S::Atom>,
) -> Result<(), Choices>
    requires valid { Valid (S.heap store.old) }
    requires unmarked { Unmarked (S.heap store.old) }
    requires held { AreHeldWhole S.atom_id S.mem_id (S.heap store.old) set.old }
    requires at { slice_get code.now at ≡ Some (FindAtom (length set.old.atoms) inside functor) }
    requires place { slice_get set.old.membranes inside ≡ Some place }
    requires order { HeadInOrder (length set.old.atoms) (length set.old.membranes) (length set.old.parts) (length set.old.integers) (drop at code.now) }
    requires rest { AllRestWell reasons.now code.now }
    requires unlisted { ListsNone set.old }
    ensures same { S.heap store.new ≡ S.heap store.old }
    ensures ended { Ended S.atom_id S.mem_id (S.heap store.old) reasons.now set.old set.new result (drop at code.now) }
{
    let own = reasons.of_atom(set.atoms.len());
    let mut named = reasons.of_membrane(inside as usize);
    let mut candidate = store.first_with(place, functor);
    while let Some(atom) = candidate {
        match try_atom(store, code, reasons, at, atom, set, trail) {
            Ok(()) => return Ok(()),
            Err(failed) => {
                if !own.is_within(failed) {
                    return Err(failed);
                }
                named = named.with(failed);
                candidate = store.next_with(atom);
            }
        }
    }
    Err(named)
}

/// Tries an atom for the next register. Where it fails, the registers are as they were.
#[cycle(search)]
fn try_atom<S: LinkStore>(
    store: &mut S,
    code: &Instrs<'_>,
    reasons: &Reasons,
    at: usize,
    atom: S::Atom,
    set: &mut SetRegisters<S::Atom, S::Mem>,
    trail: &mut Found<S::Atom>,
) -> Result<(), Choices>
    requires valid { Valid (S.heap store.old) }
    requires unmarked { Unmarked (S.heap store.old) }
    requires held { AreHeldWhole S.atom_id S.mem_id (S.heap store.old) set.old }
    requires at { (y : ℕ) × (f : Functor) × (slice_get code.now at ≡ Some (FindAtom (length set.old.atoms) y f)) × (functor_of (S.heap store.old) (S.atom_id atom) ≡ Some f) }
    requires order { HeadInOrder (length set.old.atoms) (length set.old.membranes) (length set.old.parts) (length set.old.integers) (drop at code.now) }
    requires rest { AllRestWell reasons.now code.now }
    requires unlisted { ListsNone set.old }
    ensures same { S.heap store.new ≡ S.heap store.old }
    ensures tried { Tried S.atom_id S.mem_id (S.heap store.old) reasons.now set.old (with_atom set.old atom) set.new result (drop (at + 1) code.now) }
{
    let _code = code.len();
    let rest = at + 1;
    let (atoms, membranes) = (set.atoms.len(), set.membranes.len());
    let (parts, integers) = (set.parts.len(), set.integers.len());
    if !alone::may_stand(store, code, rest, atoms, atom) {
        return Err(reasons.of_atom(atoms));
    }
    set.atoms.push(atom);
    match search(store, code, reasons, rest, set, trail) {
        Ok(()) => Ok(()),
        Err(failed) => {
            set.keep(atoms, membranes, parts, integers);
            Err(failed)
        }
    }
}

/// Tries the membrane in which an atom stands, to which a port leads, for the next register, where it is in the given one.
#[cycle(search)]
fn search_home<S: LinkStore>(
    store: &mut S,
    code: &Instrs<'_>,
    reasons: &Reasons,
    at: usize,
    inside: u16,
    place: S::Mem,
    port: AtomPort,
    set: &mut SetRegisters<S::Atom, S::Mem>,
    trail: &mut Found<S::Atom>,
) -> Result<(), Choices>
    requires valid { Valid (S.heap store.old) }
    requires unmarked { Unmarked (S.heap store.old) }
    requires held { AreHeldWhole S.atom_id S.mem_id (S.heap store.old) set.old }
    requires at { slice_get code.now at ≡ Some (AnyMem (length set.old.membranes) inside) }
    requires place { slice_get set.old.membranes inside ≡ Some place }
    requires port { port.atom < length set.old.atoms }
    requires hangs { HangsBy code.now (at + 1) (length set.old.membranes) port }
    requires order { HeadInOrder (length set.old.atoms) (length set.old.membranes) (length set.old.parts) (length set.old.integers) (drop at code.now) }
    requires rest { AllRestWell reasons.now code.now }
    requires unlisted { ListsNone set.old }
    ensures same { S.heap store.new ≡ S.heap store.old }
    ensures ended { Ended S.atom_id S.mem_id (S.heap store.old) reasons.now set.old set.new result (drop at code.now) }
{
    let from = set.atoms.at(port.atom as usize);
    let named = reasons.of_both(port.atom, inside);
    match hanging::home_behind(store, from, port.port, place) {
        Some(membrane) => match try_membrane(store, code, reasons, at, membrane, set, trail) {
            Ok(()) => Ok(()),
            Err(failed) => Err(named.with(failed)),
        },
        None => Err(named),
    }
}

/// Tries all membranes in a membrane for the next register.
#[cycle(search)]
fn try_membranes<S: LinkStore>(
    store: &mut S,
    code: &Instrs<'_>,
    reasons: &Reasons,
    at: usize,
    inside: u16,
    place: S::Mem,
    set: &mut SetRegisters<S::Atom, S::Mem>,
    trail: &mut Found<S::Atom>,
) -> Result<(), Choices>
    requires valid { Valid (S.heap store.old) }
    requires unmarked { Unmarked (S.heap store.old) }
    requires held { AreHeldWhole S.atom_id S.mem_id (S.heap store.old) set.old }
    requires at { slice_get code.now at ≡ Some (AnyMem (length set.old.membranes) inside) }
    requires place { slice_get set.old.membranes inside ≡ Some place }
    requires order { HeadInOrder (length set.old.atoms) (length set.old.membranes) (length set.old.parts) (length set.old.integers) (drop at code.now) }
    requires rest { AllRestWell reasons.now code.now }
    requires unlisted { ListsNone set.old }
    ensures same { S.heap store.new ≡ S.heap store.old }
    ensures ended { Ended S.atom_id S.mem_id (S.heap store.old) reasons.now set.old set.new result (drop at code.now) }
{
    let own = reasons.of_membrane(set.membranes.len());
    let mut named = reasons.of_membrane(inside as usize);
    let mut candidate = store.first_mem(place);
    while let Some(membrane) = candidate {
        match try_membrane(store, code, reasons, at, membrane, set, trail) {
            Ok(()) => return Ok(()),
            Err(failed) => {
                if !own.is_within(failed) {
                    return Err(failed);
                }
                named = named.with(failed);
                candidate = store.next_mem(membrane);
            }
        }
    }
    Err(named)
}

/// Tries a membrane for the next register. Where it fails, the registers are as they were.
#[cycle(search)]
fn try_membrane<S: LinkStore>(
    store: &mut S,
    code: &Instrs<'_>,
    reasons: &Reasons,
    at: usize,
    membrane: S::Mem,
    set: &mut SetRegisters<S::Atom, S::Mem>,
    trail: &mut Found<S::Atom>,
) -> Result<(), Choices>
    requires valid { Valid (S.heap store.old) }
    requires unmarked { Unmarked (S.heap store.old) }
    requires held { AreHeldWhole S.atom_id S.mem_id (S.heap store.old) set.old }
    requires at { (y : ℕ) × (n : ℕ) × (slice_get code.now at ≡ Some (AnyMem (length set.old.membranes) y)) × (parent_of (S.heap store.old) (S.mem_id membrane) ≡ Some n) }
    requires order { HeadInOrder (length set.old.atoms) (length set.old.membranes) (length set.old.parts) (length set.old.integers) (drop at code.now) }
    requires rest { AllRestWell reasons.now code.now }
    requires unlisted { ListsNone set.old }
    ensures same { S.heap store.new ≡ S.heap store.old }
    ensures tried { Tried S.atom_id S.mem_id (S.heap store.old) reasons.now set.old (with_membrane set.old membrane) set.new result (drop (at + 1) code.now) }
{
    let _code = code.len();
    let rest = at + 1;
    let (atoms, membranes) = (set.atoms.len(), set.membranes.len());
    let (parts, integers) = (set.parts.len(), set.integers.len());
    if !enough::holds_enough(store, code, rest, membranes, membrane) {
        return Err(reasons.of_membrane(membranes));
    }
    set.membranes.push(membrane);
    match search(store, code, reasons, rest, set, trail) {
        Ok(()) => Ok(()),
        Err(failed) => {
            set.keep(atoms, membranes, parts, integers);
            Err(failed)
        }
    }
}
