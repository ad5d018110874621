ghost use Rattle.std.specs.Prelude.{◌≡◌, ◌≤◌, ◌+◌, ℕ, length, drop, slice_get, Some};
ghost use Rattle.lmn_store_heap.specs.Lists.{from};
ghost use Rattle.lmn_store_heap.specs.Sound.{Valid};
ghost use Rattle.lmn_instr_code.specs.declared.instr.Instr.TheVariants.{FindAtom, AnyMem};
ghost use Rattle.lmn_machine.specs.Searching.{AreHeldWhole, HeadInOrder, ListsNone};
ghost use Rattle.lmn_machine.specs.Jumping.{Lasted};
ghost use Rattle.lmn_machine.specs.Outcomes.{ChoosesAtoms, ChoosesMembranes};
ghost use Rattle.lmn_machine.specs.Asking.{HoldsUpTo, IsGuest};
ghost use Rattle.lmn_store_heap.specs.Heap.{IsAtom, Unmarked, atoms_in, functor_of, home_of};
ghost use Rattle.lmn_store_heap.specs.Functors.{with_functor};

use crate::patience::Patience;
use crate::steps::Outcome;
use crate::{ahead, steps};
use lmn_base::Functor;
use lmn_ground::Found;
use lmn_instr_code::Instr;
use lmn_instr_pool::Instrs;
use lmn_machine_registers::SetRegisters;
use lmn_store_trait::LinkStore;

/// Runs code from an instruction on. Where it begins there with a FINDATOM, as most heads do, and most code behind an ANYMEM, the
/// candidates of this are tried at once: where the first atom is missing, it is left after one look-up.
#[cycle(search)]
#[inline(always)]
pub fn begin<S: LinkStore>(
    store: &mut S,
    code: &Instrs<'_>,
    at: usize,
    set: &mut SetRegisters<S::Atom, S::Mem>,
    patience: &mut Patience,
    trail: &mut Found<S::Atom>,
) -> bool
    requires valid { Valid (S.heap store.old) }
    requires unmarked { Unmarked (S.heap store.old) }
    requires held { AreHeldWhole S.atom_id S.mem_id (S.heap store.old) set.old }
    requires at { at ≤ length code.now }
    requires order { HeadInOrder (length set.old.atoms) (length set.old.membranes) (length set.old.parts) (length set.old.integers) (drop at code.now) }
    requires unlisted { ListsNone set.old }
    ensures same { S.heap store.new ≡ S.heap store.old }
    ensures searched { Lasted patience.new.left S.atom_id S.mem_id (S.heap store.old) set.old set.new result (drop at code.now) }
{
    if at < code.len() {
        let first = code.at(at);
        if let Instr::FindAtom { .. } = first {
            // The first atom that is looked for in a membrane has none there to be told apart from.
            return choose_atom(store, code, at, first, false, set, patience, trail);
        }
    }
    search_apart(store, code, at, set, patience, trail)
}

/// Runs code from an instruction on, and tries the candidates of its first choice in order. Where patience is gone, it gives up.
/// It is a part of each function that tries candidates: one call leads from a choice to the next. Before `start` nothing has to be run.
#[cycle(search)]
#[inline(always)]
fn search<S: LinkStore>(
    store: &mut S,
    code: &Instrs<'_>,
    at: usize,
    start: usize,
    set: &mut SetRegisters<S::Atom, S::Mem>,
    patience: &mut Patience,
    trail: &mut Found<S::Atom>,
) -> bool
    requires valid { Valid (S.heap store.old) }
    requires unmarked { Unmarked (S.heap store.old) }
    requires held { AreHeldWhole S.atom_id S.mem_id (S.heap store.old) set.old }
    requires at { at ≤ length code.now }
    requires start { HoldsUpTo S.atom_id set.old.atoms code.now at start }
    requires order { HeadInOrder (length set.old.atoms) (length set.old.membranes) (length set.old.parts) (length set.old.integers) (drop at code.now) }
    ensures same { S.heap store.new ≡ S.heap store.old }
    ensures searched { Lasted patience.new.left S.atom_id S.mem_id (S.heap store.old) set.old set.new result (drop at code.now) }
{
    // Behind these places all are COMMIT.
    for i in start..code.acts() {
        let instr = code.at(i);
        match steps::step(store, set, instr, trail) {
            Outcome::Holds => {}
            Outcome::Fails => return false,
            Outcome::ChoosesAtom => {
                set.listed.forget();
                return choose_atom_apart(store, code, i, instr, set, patience, trail);
            }
            Outcome::ChoosesMembrane => {
                set.listed.forget();
                return choose_membrane_apart(store, code, i, instr, set, patience, trail);
            }
        }
    }
    true
}

/// Runs code from an instruction on. It is no part of its caller.
#[cycle(search)]
#[inline(never)]
fn search_apart<S: LinkStore>(
    store: &mut S,
    code: &Instrs<'_>,
    at: usize,
    set: &mut SetRegisters<S::Atom, S::Mem>,
    patience: &mut Patience,
    trail: &mut Found<S::Atom>,
) -> bool
    requires valid { Valid (S.heap store.old) }
    requires unmarked { Unmarked (S.heap store.old) }
    requires held { AreHeldWhole S.atom_id S.mem_id (S.heap store.old) set.old }
    requires at { at ≤ length code.now }
    requires order { HeadInOrder (length set.old.atoms) (length set.old.membranes) (length set.old.parts) (length set.old.integers) (drop at code.now) }
    ensures same { S.heap store.new ≡ S.heap store.old }
    ensures searched { Lasted patience.new.left S.atom_id S.mem_id (S.heap store.old) set.old set.new result (drop at code.now) }
{
    search(store, code, at, at, set, patience, trail)
}

/// Tries the candidates of a FINDATOM. It is no part of its caller.
#[cycle(search)]
#[inline(never)]
fn choose_atom_apart<S: LinkStore>(
    store: &mut S,
    code: &Instrs<'_>,
    at: usize,
    instr: &Instr,
    set: &mut SetRegisters<S::Atom, S::Mem>,
    patience: &mut Patience,
    trail: &mut Found<S::Atom>,
) -> bool
    requires valid { Valid (S.heap store.old) }
    requires unmarked { Unmarked (S.heap store.old) }
    requires held { AreHeldWhole S.atom_id S.mem_id (S.heap store.old) set.old }
    requires at { slice_get code.now at ≡ Some instr.now }
    requires choice { ChoosesAtoms instr.now }
    requires order { HeadInOrder (length set.old.atoms) (length set.old.membranes) (length set.old.parts) (length set.old.integers) (drop at code.now) }
    requires unlisted { ListsNone set.old }
    ensures same { S.heap store.new ≡ S.heap store.old }
    ensures searched { Lasted patience.new.left S.atom_id S.mem_id (S.heap store.old) set.old set.new result (drop at code.now) }
{
    choose_atom(store, code, at, instr, true, set, patience, trail)
}

/// Tries the candidates of an ANYMEM. It is no part of its caller.
#[cycle(search)]
#[inline(never)]
fn choose_membrane_apart<S: LinkStore>(
    store: &mut S,
    code: &Instrs<'_>,
    at: usize,
    instr: &Instr,
    set: &mut SetRegisters<S::Atom, S::Mem>,
    patience: &mut Patience,
    trail: &mut Found<S::Atom>,
) -> bool
    requires valid { Valid (S.heap store.old) }
    requires unmarked { Unmarked (S.heap store.old) }
    requires held { AreHeldWhole S.atom_id S.mem_id (S.heap store.old) set.old }
    requires at { slice_get code.now at ≡ Some instr.now }
    requires choice { ChoosesMembranes instr.now }
    requires order { HeadInOrder (length set.old.atoms) (length set.old.membranes) (length set.old.parts) (length set.old.integers) (drop at code.now) }
    requires unlisted { ListsNone set.old }
    ensures same { S.heap store.new ≡ S.heap store.old }
    ensures searched { Lasted patience.new.left S.atom_id S.mem_id (S.heap store.old) set.old set.new result (drop at code.now) }
{
    choose_membrane(store, code, at, instr, set, patience, trail)
}

/// Tries the candidates of a FINDATOM. With `another` the code behind it may tell the atom apart from one that is set.
#[cycle(search)]
#[inline(always)]
fn choose_atom<S: LinkStore>(
    store: &mut S,
    code: &Instrs<'_>,
    at: usize,
    instr: &Instr,
    another: bool,
    set: &mut SetRegisters<S::Atom, S::Mem>,
    patience: &mut Patience,
    trail: &mut Found<S::Atom>,
) -> bool
    requires valid { Valid (S.heap store.old) }
    requires unmarked { Unmarked (S.heap store.old) }
    requires held { AreHeldWhole S.atom_id S.mem_id (S.heap store.old) set.old }
    requires at { slice_get code.now at ≡ Some instr.now }
    requires choice { ChoosesAtoms instr.now }
    requires order { HeadInOrder (length set.old.atoms) (length set.old.membranes) (length set.old.parts) (length set.old.integers) (drop at code.now) }
    requires unlisted { ListsNone set.old }
    ensures same { S.heap store.new ≡ S.heap store.old }
    ensures searched { Lasted patience.new.left S.atom_id S.mem_id (S.heap store.old) set.old set.new result (drop at code.now) }
{
    match instr {
        Instr::FindAtom {
            membrane,
            functor,
            ..
        } => {
            let place = set.membranes.at(*membrane as usize);
            match store.first_with(place, *functor) {
                Some(first) => search_atoms(
                    store, code, at, place, first, *functor, another, set, patience, trail,
                ),
                None => false,
            }
        }
        _ => false,
    }
}

/// Tries the candidates of an ANYMEM.
#[cycle(search)]
#[inline(always)]
fn choose_membrane<S: LinkStore>(
    store: &mut S,
    code: &Instrs<'_>,
    at: usize,
    instr: &Instr,
    set: &mut SetRegisters<S::Atom, S::Mem>,
    patience: &mut Patience,
    trail: &mut Found<S::Atom>,
) -> bool
    requires valid { Valid (S.heap store.old) }
    requires unmarked { Unmarked (S.heap store.old) }
    requires held { AreHeldWhole S.atom_id S.mem_id (S.heap store.old) set.old }
    requires at { slice_get code.now at ≡ Some instr.now }
    requires choice { ChoosesMembranes instr.now }
    requires order { HeadInOrder (length set.old.atoms) (length set.old.membranes) (length set.old.parts) (length set.old.integers) (drop at code.now) }
    requires unlisted { ListsNone set.old }
    ensures same { S.heap store.new ≡ S.heap store.old }
    ensures searched { Lasted patience.new.left S.atom_id S.mem_id (S.heap store.old) set.old set.new result (drop at code.now) }
{
    match instr {
        Instr::AnyMem { inside, .. } => {
            let _code = code.len();
            let place = set.membranes.at(*inside as usize);
            let register = set.membranes.len();
            match ahead::guest(store, code, at + 1, register, set) {
                Some(guest) => search_home(store, code, at, place, guest, set, patience, trail),
                None => search_membranes(store, code, at, place, set, patience, trail),
            }
        }
        _ => false,
    }
}

/// Tries the atoms of a membrane with a functor for the next register, of which one is the first. With `another` the code ahead may tell
/// it apart from one that is set.
#[cycle(search)]
#[inline(always)]
fn search_atoms<S: LinkStore>(
    store: &mut S,
    code: &Instrs<'_>,
    at: usize,
    place: S::Mem,
    first: S::Atom,
    functor: Functor,
    another: bool,
    set: &mut SetRegisters<S::Atom, S::Mem>,
    patience: &mut Patience,
    trail: &mut Found<S::Atom>,
) -> bool
    requires valid { Valid (S.heap store.old) }
    requires unmarked { Unmarked (S.heap store.old) }
    requires held { AreHeldWhole S.atom_id S.mem_id (S.heap store.old) set.old }
    requires at { (y : ℕ) × (slice_get code.now at ≡ Some (FindAtom (length set.old.atoms) y functor)) × (slice_get set.old.membranes y ≡ Some place) }
    requires functor { functor_of (S.heap store.old) (S.atom_id first) ≡ Some functor }
    requires home { home_of (S.heap store.old) (S.atom_id first) ≡ Some (S.mem_id place) }
    requires list { let all = with_functor (S.heap store.old) functor (atoms_in (S.heap store.old) (S.mem_id place)) in from (Some (S.atom_id first)) all ≡ all }
    requires order { HeadInOrder (length set.old.atoms) (length set.old.membranes) (length set.old.parts) (length set.old.integers) (drop at code.now) }
    requires unlisted { ListsNone set.old }
    ensures same { S.heap store.new ≡ S.heap store.old }
    ensures searched { Lasted patience.new.left S.atom_id S.mem_id (S.heap store.old) set.old set.new result (drop at code.now) }
{
    let _code = code.len();
    let rest = at + 1;
    let (atoms, membranes) = (set.atoms.len(), set.membranes.len());
    let integers = set.integers.len();
    let instr = ahead::instr_at(code, rest);
    let other = ahead::told_apart(code, rest, instr, another, set);
    let mut start = ahead::start_behind(rest, other);
    let mut candidate = ahead::first_candidate(
        store, code, rest, instr, place, functor, first, other, set,
    );
    let mut ask = true;
    while let Some(atom) = candidate {
        set.atoms.push(atom);
        if search(store, code, rest, start, set, patience, trail) {
            return true;
        }
        let next = store.next_with(atom);
        // Behind the last candidate nothing is tried, so neither is it counted nor are registers taken back.
        if next.is_none() {
            return false;
        }
        if !patience.lasts() {
            return false;
        }
        // No typed context is set before an atom is looked for.
        set.keep(atoms, membranes, 0, integers);
        let other = ahead::told_apart(code, rest, ahead::instr_at(code, rest), another, set);
        start = ahead::start_behind(rest, other);
        candidate = ahead::further_candidate(
            store, code, rest, place, functor, next, other, ask, set,
        );
        ask = false;
    }
    false
}

/// Tries the membrane in which an atom stands for the next register, where it is in the given one.
#[cycle(search)]
fn search_home<S: LinkStore>(
    store: &mut S,
    code: &Instrs<'_>,
    at: usize,
    place: S::Mem,
    guest: S::Atom,
    set: &mut SetRegisters<S::Atom, S::Mem>,
    patience: &mut Patience,
    trail: &mut Found<S::Atom>,
) -> bool
    requires valid { Valid (S.heap store.old) }
    requires unmarked { Unmarked (S.heap store.old) }
    requires held { AreHeldWhole S.atom_id S.mem_id (S.heap store.old) set.old }
    requires at { (y : ℕ) × (slice_get code.now at ≡ Some (AnyMem (length set.old.membranes) y)) × (slice_get set.old.membranes y ≡ Some place) }
    requires there { IsAtom (S.heap store.old) (S.atom_id guest) }
    requires guest { IsGuest S.atom_id S.mem_id (S.heap store.old) set.old (drop (at + 1) code.now) (length set.old.membranes) (S.atom_id guest) }
    requires order { HeadInOrder (length set.old.atoms) (length set.old.membranes) (length set.old.parts) (length set.old.integers) (drop at code.now) }
    requires unlisted { ListsNone set.old }
    ensures same { S.heap store.new ≡ S.heap store.old }
    ensures searched { Lasted patience.new.left S.atom_id S.mem_id (S.heap store.old) set.old set.new result (drop at code.now) }
{
    let _code = code.len();
    let rest = at + 1;
    match ahead::home_within(store, guest, place) {
        Some(membrane) => {
            let (atoms, membranes) = (set.atoms.len(), set.membranes.len());
            let (parts, integers) = (set.parts.len(), set.integers.len());
            set.membranes.push(membrane);
            if begin(store, code, rest, set, patience, trail) {
                return true;
            }
            set.keep(atoms, membranes, parts, integers);
            false
        }
        None => false,
    }
}

/// Tries the membranes in a membrane for the next register.
#[cycle(search)]
fn search_membranes<S: LinkStore>(
    store: &mut S,
    code: &Instrs<'_>,
    at: usize,
    place: S::Mem,
    set: &mut SetRegisters<S::Atom, S::Mem>,
    patience: &mut Patience,
    trail: &mut Found<S::Atom>,
) -> bool
    requires valid { Valid (S.heap store.old) }
    requires unmarked { Unmarked (S.heap store.old) }
    requires held { AreHeldWhole S.atom_id S.mem_id (S.heap store.old) set.old }
    requires at { (y : ℕ) × (slice_get code.now at ≡ Some (AnyMem (length set.old.membranes) y)) × (slice_get set.old.membranes y ≡ Some place) }
    requires order { HeadInOrder (length set.old.atoms) (length set.old.membranes) (length set.old.parts) (length set.old.integers) (drop at code.now) }
    requires unlisted { ListsNone set.old }
    ensures same { S.heap store.new ≡ S.heap store.old }
    ensures searched { Lasted patience.new.left S.atom_id S.mem_id (S.heap store.old) set.old set.new result (drop at code.now) }
{
    let _code = code.len();
    let rest = at + 1;
    let (atoms, membranes) = (set.atoms.len(), set.membranes.len());
    let (parts, integers) = (set.parts.len(), set.integers.len());
    let asked = ahead::asked(code, rest, membranes);
    let first = store.first_mem(place);
    let mut candidate = ahead::fitting_membrane(store, place, first, asked);
    while let Some(membrane) = candidate {
        set.membranes.push(membrane);
        if begin(store, code, rest, set, patience, trail) {
            return true;
        }
        if !patience.lasts() {
            return false;
        }
        set.keep(atoms, membranes, parts, integers);
        let next = store.next_mem(membrane);
        candidate = ahead::fitting_membrane(store, place, next, asked);
    }
    false
}
