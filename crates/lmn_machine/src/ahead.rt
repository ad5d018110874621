//! Candidates are tested before they are tried, by what the code ahead asks of them.
ghost use Rattle.std.specs.Prelude.{◌≡◌, ◌≢◌, ◌≤◌, ◌<◌, ◌+◌, ◌^◌, ℕ, Some, IfSome, MatchOption, IsTrue, IsFalse, length, drop, slice_get};
ghost use Rattle.std.specs.Option.{option_map};
ghost use Rattle.lmn_store_heap.specs.Lists.{from};
ghost use Rattle.lmn_store_heap.specs.Heap.{IsAtom, IsMem, functor_of, home_of, parent_of, atoms_in, mems_in};
ghost use Rattle.lmn_instr_code.specs.declared.instr.Instr.TheVariants.{Deref, InMem};
ghost use Rattle.lmn_instr_code.specs.Running.{HeadRegisters, HeadSize, InstructionHolds, AllHold};
ghost use Rattle.lmn_machine_registers.specs.Agreeing.{Agrees};
ghost use Rattle.lmn_machine.specs.Searching.{AreHeldWhole};
ghost use Rattle.lmn_machine.specs.Asking.{HoldsAsked, AsksFor, IsFitting, IsGuest, TellsApart};
ghost use Rattle.lmn_base.specs.Lists.{In};

use crate::checks;
use lmn_base::Functor;
use lmn_instr_code::{AtomPort, Instr};
use lmn_instr_pool::Instrs;
use lmn_machine_registers::SetRegisters;
use lmn_store_trait::LinkStore;

/// Whether an instruction tests one atom register, and fails with an atom in it.
#[inline(always)]
fn refutes<S: LinkStore>(
    store: &S,
    instr: &Instr,
    register: usize,
    a: S::Atom,
    set: &SetRegisters<S::Atom, S::Mem>,
) -> bool
    requires held { AreHeldWhole S.atom_id S.mem_id (S.heap store.now) set.now }
    requires atom { IsAtom (S.heap store.now) (S.atom_id a) }
    ensures { IsTrue result → (c : HeadSize) (s : HeadRegisters) → Agrees S.atom_id S.mem_id set.now s → s.images.atom register ≡ S.atom_id a → InstructionHolds (S.heap store.now) c s instr.now → ⊥ }
{
    match instr {
        Instr::Func { atom, functor } => {
            if *atom as usize != register {
                return false;
            }
            !checks::has_functor(store, a, *functor)
        }
        Instr::InMem { atom, membrane } => {
            if *atom as usize != register {
                return false;
            }
            if *membrane as usize >= set.membranes.len() {
                return false;
            }
            !checks::stands_in(store, a, set.membranes.at(*membrane as usize))
        }
        Instr::NeqAtom { atom, other } => {
            if *atom as usize != register {
                return false;
            }
            if *other as usize >= set.atoms.len() {
                return false;
            }
            !checks::atoms_differ(store, a, set.atoms.at(*other as usize))
        }
        _ => false,
    }
}

/// Whether an instruction of code, where there is one, fails with an atom in the register that it tests.
#[inline(always)]
fn is_refuted<S: LinkStore>(
    store: &S,
    code: &Instrs<'_>,
    at: usize,
    register: usize,
    a: S::Atom,
    set: &SetRegisters<S::Atom, S::Mem>,
) -> bool
    requires held { AreHeldWhole S.atom_id S.mem_id (S.heap store.now) set.now }
    requires atom { IsAtom (S.heap store.now) (S.atom_id a) }
    ensures { IsTrue result → (c : HeadSize) (k : ℕ) (s : HeadRegisters) → k ≤ at → Agrees S.atom_id S.mem_id set.now s → s.images.atom register ≡ S.atom_id a → AllHold (S.heap store.now) c s (drop k code.now) → ⊥ }
{
    if at < code.len() {
        refutes(store, code.at(at), register, a, set)
    } else {
        false
    }
}

/// Whether a port leads to the given port of an atom with which the two instructions ahead may hold.
#[inline(always)]
fn may_lead<S: LinkStore>(
    store: &S,
    code: &Instrs<'_>,
    at: usize,
    a: S::Atom,
    from: AtomPort,
    register: u16,
    port: u8,
    set: &SetRegisters<S::Atom, S::Mem>,
) -> bool
    requires held { AreHeldWhole S.atom_id S.mem_id (S.heap store.now) set.now }
    requires atom { IsAtom (S.heap store.now) (S.atom_id a) }
    requires at { at ≤ length code.now }
    ensures { IsFalse result → (c : HeadSize) (k : ℕ) (s : HeadRegisters) → k ≤ at → Agrees S.atom_id S.mem_id set.now s → s.images.atom from.atom ≡ S.atom_id a → InstructionHolds (S.heap store.now) c s (Deref register from port) →
        AllHold (S.heap store.now) c s (drop k code.now) → ⊥ }
{
    let _code = code.len();
    match checks::end(store, a, from.port) {
        Some((b, entered)) => {
            if entered != port {
                return false;
            }
            // The home is looked at first, which costs less than the functor.
            if is_refuted(store, code, at + 1, register as usize, b, set) {
                return false;
            }
            !is_refuted(store, code, at, register as usize, b, set)
        }
        None => false,
    }
}

/// The instruction at a place of code, where one stands there.
#[inline(always)]
pub fn instr_at<'a>(code: &'a Instrs<'_>, at: usize) -> Option<&'a Instr>
    ensures { IfSome result (λ i. slice_get code.now at ≡ Some i.now) }
{
    if at < code.len() {
        Some(code.at(at))
    } else {
        None
    }
}

/// Whether the code ahead may succeed with an atom in the next register, by its first instructions. The very first is handed over, since
/// it is the same for all candidates.
#[inline(always)]
fn atom_fits<S: LinkStore>(
    store: &S,
    code: &Instrs<'_>,
    at: usize,
    ahead: Option<&Instr>,
    a: S::Atom,
    set: &SetRegisters<S::Atom, S::Mem>,
) -> bool
    requires held { AreHeldWhole S.atom_id S.mem_id (S.heap store.now) set.now }
    requires atom { IsAtom (S.heap store.now) (S.atom_id a) }
    requires ahead { IfSome ahead (λ i. slice_get code.now at ≡ Some i.now) }
    ensures { IsFalse result → (c : HeadSize) (s : HeadRegisters) → Agrees S.atom_id S.mem_id set.now s → s.images.atom (length set.now.atoms) ≡ S.atom_id a → AllHold (S.heap store.now) c s (drop at code.now) → ⊥ }
{
    let _code = code.len();
    let Some(instr) = ahead else {
        return true;
    };
    match instr {
        Instr::Deref { atom, from, port } => {
            if from.atom as usize != set.atoms.len() {
                return true;
            }
            may_lead(store, code, at + 1, a, *from, *atom, *port, set)
        }
        _ => !refutes(store, instr, set.atoms.len(), a, set),
    }
}

/// The first of the atoms with a functor in a membrane, from one on, with which the code ahead may succeed, by its first
/// instructions.
#[inline(always)]
fn fitting_atom<S: LinkStore>(
    store: &S,
    code: &Instrs<'_>,
    at: usize,
    ahead: Option<&Instr>,
    place: S::Mem,
    functor: Functor,
    start: Option<S::Atom>,
    set: &SetRegisters<S::Atom, S::Mem>,
) -> Option<S::Atom>
    requires held { AreHeldWhole S.atom_id S.mem_id (S.heap store.now) set.now }
    requires ahead { IfSome ahead (λ i. slice_get code.now at ≡ Some i.now) }
    requires functor { IfSome start (λ a. functor_of (S.heap store.now) (S.atom_id a) ≡ Some functor) }
    requires home { IfSome start (λ a. home_of (S.heap store.now) (S.atom_id a) ≡ Some (S.mem_id place)) }
    ensures { IsFitting S.atom_id S.mem_id (S.heap store.now) set.now (drop at code.now) functor (S.mem_id place) start result }
{
    let mut candidate = start;
    while let Some(a) = candidate {
        if atom_fits(store, code, at, ahead, a, set) {
            return Some(a);
        }
        candidate = store.next_with(a);
    }
    None
}

/// The atom from which code tells the next atom register apart at a place, where it does so and is to be asked.
#[inline(always)]
pub fn told_apart<A: Copy, M: Copy>(
    code: &Instrs<'_>,
    at: usize,
    ahead: Option<&Instr>,
    ask: bool,
    set: &SetRegisters<A, M>,
) -> Option<A>
    requires { IfSome ahead (λ i. slice_get code.now at ≡ Some i.now) }
    ensures { IfSome result (λ b. TellsApart set.now code.now at b) }
{
    if !ask {
        return None;
    }
    match ahead {
        Some(Instr::NeqAtom { atom, other }) => {
            if *atom as usize != set.atoms.len() {
                return None;
            }
            if *other as usize >= set.atoms.len() {
                return None;
            }
            Some(set.atoms.at(*other as usize))
        }
        _ => None,
    }
}

/// The place from which on code is to be run, where the next atom register holds another atom than the one from which it is told apart.
#[inline(always)]
pub fn start_behind<A: Copy>(at: usize, other: Option<A>) -> usize
    requires { at < 2 ^ 63 }
    ensures { MatchOption other (result ≡ at) (λ _. result ≡ at + 1) }
{
    match other {
        Some(_) => at + 1,
        None => at,
    }
}

/// The first of the atoms with a functor in a membrane, from one on, that isn't the one from which the code ahead tells it apart.
#[inline(always)]
fn other_atom<S: LinkStore>(
    store: &S,
    code: &Instrs<'_>,
    at: usize,
    place: S::Mem,
    functor: Functor,
    start: Option<S::Atom>,
    other: S::Atom,
    set: &SetRegisters<S::Atom, S::Mem>,
) -> Option<S::Atom>
    requires held { AreHeldWhole S.atom_id S.mem_id (S.heap store.now) set.now }
    requires functor { IfSome start (λ a. functor_of (S.heap store.now) (S.atom_id a) ≡ Some functor) }
    requires home { IfSome start (λ a. home_of (S.heap store.now) (S.atom_id a) ≡ Some (S.mem_id place)) }
    requires other { TellsApart set.now code.now at other }
    ensures fits { IsFitting S.atom_id S.mem_id (S.heap store.now) set.now (drop at code.now) functor (S.mem_id place) start result }
    ensures apart { IfSome result (λ a. S.atom_id a ≢ S.atom_id other) }
{
    let mut candidate = start;
    while let Some(a) = candidate {
        if checks::atoms_differ(store, a, other) {
            return Some(a);
        }
        candidate = store.next_with(a);
    }
    None
}

/// The candidate of the FINDATOM before a place that is tried first, where an atom is the first in a membrane with the functor. Where
/// a head begins with the FINDATOM it is this atom, untested: most rules that have their first atom succeed with it.
#[inline(always)]
pub fn first_candidate<S: LinkStore>(
    store: &S,
    code: &Instrs<'_>,
    at: usize,
    ahead: Option<&Instr>,
    place: S::Mem,
    functor: Functor,
    first: S::Atom,
    other: Option<S::Atom>,
    set: &SetRegisters<S::Atom, S::Mem>,
) -> Option<S::Atom>
    requires held { AreHeldWhole S.atom_id S.mem_id (S.heap store.now) set.now }
    requires ahead { IfSome ahead (λ i. slice_get code.now at ≡ Some i.now) }
    requires functor { functor_of (S.heap store.now) (S.atom_id first) ≡ Some functor }
    requires home { home_of (S.heap store.now) (S.atom_id first) ≡ Some (S.mem_id place) }
    requires other { IfSome other (λ b. TellsApart set.now code.now at b) }
    ensures fits { IsFitting S.atom_id S.mem_id (S.heap store.now) set.now (drop at code.now) functor (S.mem_id place) (Some first) result }
    ensures apart { IfSome result (λ a. IfSome other (λ b. S.atom_id a ≢ S.atom_id b)) }
{
    match other {
        Some(b) => other_atom(store, code, at, place, functor, Some(first), b, set),
        None => {
            if at == 1 {
                return Some(first);
            }
            fitting_atom(store, code, at, ahead, place, functor, Some(first), set)
        }
    }
}

/// Whether an instruction looks for an atom in a membrane that is set and holds none with the functor.
#[inline(always)]
fn looks_in_vain<S: LinkStore>(
    store: &S,
    instr: &Instr,
    set: &SetRegisters<S::Atom, S::Mem>,
) -> bool
    requires held { AreHeldWhole S.atom_id S.mem_id (S.heap store.now) set.now }
    ensures { IsTrue result → (c : HeadSize) (s : HeadRegisters) → Agrees S.atom_id S.mem_id set.now s → InstructionHolds (S.heap store.now) c s instr.now → ⊥ }
{
    match instr {
        Instr::FindAtom {
            membrane,
            functor,
            ..
        } => {
            if *membrane as usize >= set.membranes.len() {
                return false;
            }
            match store.first_with(set.membranes.at(*membrane as usize), *functor) {
                Some(_) => false,
                None => true,
            }
        }
        _ => false,
    }
}

/// Whether the code ahead looks for an atom in a membrane that is set and holds none with the functor: then it fails, whatever
/// is chosen before.
/// It is asked once for each choice, behind the first candidate that failed, so a search that succeeds at its first
/// candidates pays nothing. Too few atoms of a functor that is there aren't seen: they are
/// counted where the search gives up.
#[inline(always)]
fn is_hopeless<S: LinkStore>(
    store: &S,
    code: &Instrs<'_>,
    at: usize,
    set: &SetRegisters<S::Atom, S::Mem>,
) -> bool
    requires held { AreHeldWhole S.atom_id S.mem_id (S.heap store.now) set.now }
    ensures { IsTrue result → (c : HeadSize) (s : HeadRegisters) → Agrees S.atom_id S.mem_id set.now s → AllHold (S.heap store.now) c s (drop at code.now) → ⊥ }
{
    for i in at..code.len() {
        if looks_in_vain(store, code.at(i), set) {
            return true;
        }
    }
    false
}

/// The first of the atoms with a functor in a membrane, from one on, with which the code ahead may succeed, behind one with
/// which it failed. Where the code is to be asked whether it is hopeless and is, there is none.
fn further_atom<S: LinkStore>(
    store: &S,
    code: &Instrs<'_>,
    at: usize,
    place: S::Mem,
    functor: Functor,
    start: Option<S::Atom>,
    ask: bool,
    set: &SetRegisters<S::Atom, S::Mem>,
) -> Option<S::Atom>
    requires held { AreHeldWhole S.atom_id S.mem_id (S.heap store.now) set.now }
    requires functor { IfSome start (λ a. functor_of (S.heap store.now) (S.atom_id a) ≡ Some functor) }
    requires home { IfSome start (λ a. home_of (S.heap store.now) (S.atom_id a) ≡ Some (S.mem_id place)) }
    ensures { IsFitting S.atom_id S.mem_id (S.heap store.now) set.now (drop at code.now) functor (S.mem_id place) start result }
{
    if ask && start.is_some() {
        if is_hopeless(store, code, at, set) {
            return None;
        }
    }
    fitting_atom(
        store,
        code,
        at,
        instr_at(code, at),
        place,
        functor,
        start,
        set,
    )
}

/// Likewise one that isn't the atom from which the code ahead tells it apart.
fn further_other<S: LinkStore>(
    store: &S,
    code: &Instrs<'_>,
    at: usize,
    place: S::Mem,
    functor: Functor,
    start: Option<S::Atom>,
    other: S::Atom,
    ask: bool,
    set: &SetRegisters<S::Atom, S::Mem>,
) -> Option<S::Atom>
    requires held { AreHeldWhole S.atom_id S.mem_id (S.heap store.now) set.now }
    requires functor { IfSome start (λ a. functor_of (S.heap store.now) (S.atom_id a) ≡ Some functor) }
    requires home { IfSome start (λ a. home_of (S.heap store.now) (S.atom_id a) ≡ Some (S.mem_id place)) }
    requires other { TellsApart set.now code.now at other }
    ensures fits { IsFitting S.atom_id S.mem_id (S.heap store.now) set.now (drop at code.now) functor (S.mem_id place) start result }
    ensures apart { IfSome result (λ a. S.atom_id a ≢ S.atom_id other) }
{
    if ask && start.is_some() {
        if is_hopeless(store, code, at, set) {
            return None;
        }
    }
    other_atom(store, code, at, place, functor, start, other, set)
}

/// The candidate that is tried behind one with which the code ahead failed.
#[inline(always)]
pub fn further_candidate<S: LinkStore>(
    store: &S,
    code: &Instrs<'_>,
    at: usize,
    place: S::Mem,
    functor: Functor,
    start: Option<S::Atom>,
    other: Option<S::Atom>,
    ask: bool,
    set: &SetRegisters<S::Atom, S::Mem>,
) -> Option<S::Atom>
    requires held { AreHeldWhole S.atom_id S.mem_id (S.heap store.now) set.now }
    requires functor { IfSome start (λ a. functor_of (S.heap store.now) (S.atom_id a) ≡ Some functor) }
    requires home { IfSome start (λ a. home_of (S.heap store.now) (S.atom_id a) ≡ Some (S.mem_id place)) }
    requires other { IfSome other (λ b. TellsApart set.now code.now at b) }
    ensures fits { IsFitting S.atom_id S.mem_id (S.heap store.now) set.now (drop at code.now) functor (S.mem_id place) start result }
    ensures apart { IfSome result (λ a. IfSome other (λ b. S.atom_id a ≢ S.atom_id b)) }
{
    match start {
        // Mostly there is none, and nothing is to be called.
        None => None,
        Some(_) => match other {
            Some(b) => further_other(store, code, at, place, functor, start, b, ask, set),
            None => further_atom(store, code, at, place, functor, start, ask, set),
        },
    }
}

/// The functor of the first atom that code looks for in the membrane of a register.
pub fn asked(code: &Instrs<'_>, at: usize, register: usize) -> Option<Functor>
    ensures { IfSome result (λ f. AsksFor code.now at register f) }
{
    for i in at..code.len() {
        if let Instr::FindAtom {
            membrane,
            functor,
            ..
        } = code.at(i)
        {
            if *membrane as usize == register {
                return Some(*functor);
            }
        }
    }
    None
}

/// Whether a membrane holds an atom with the functor that is asked, if one is.
#[inline(always)]
fn holds<S: LinkStore>(store: &S, m: S::Mem, asked: Option<Functor>) -> bool
    requires { IsMem (S.heap store.now) (S.mem_id m) }
    ensures { IsFalse result → HoldsAsked (S.heap store.now) asked (S.mem_id m) → ⊥ }
{
    match asked {
        Some(functor) => match store.first_with(m, functor) {
            Some(_) => true,
            None => false,
        },
        None => true,
    }
}

/// The first of the membranes in a membrane, from one on, that holds an atom with the functor that is asked, if one is.
#[inline(always)]
pub fn fitting_membrane<S: LinkStore>(
    store: &S,
    place: S::Mem,
    start: Option<S::Mem>,
    asked: Option<Functor>,
) -> Option<S::Mem>
    requires parent { IfSome start (λ m. parent_of (S.heap store.now) (S.mem_id m) ≡ Some (S.mem_id place)) }
    ensures parent { IfSome result (λ m. parent_of (S.heap store.now) (S.mem_id m) ≡ Some (S.mem_id place)) }
    ensures further { length (from (option_map S.mem_id result) (mems_in (S.heap store.now) (S.mem_id place))) ≤ length (from (option_map S.mem_id start) (mems_in (S.heap store.now) (S.mem_id place))) }
    ensures left { (n : ℕ) → HoldsAsked (S.heap store.now) asked n →
        In n (from (option_map S.mem_id start) (mems_in (S.heap store.now) (S.mem_id place))) → In n (from (option_map S.mem_id result) (mems_in (S.heap store.now) (S.mem_id place))) }
{
    let mut candidate = start;
    while let Some(m) = candidate {
        if holds(store, m, asked) {
            return Some(m);
        }
        candidate = store.next_mem(m);
    }
    None
}

/// Whether code asks at a place whether an atom register stands in a membrane register.
pub fn asks_home(code: &Instrs<'_>, at: usize, atom: u16, register: usize) -> bool
    ensures { IsTrue result → slice_get code.now at ≡ Some (InMem atom register) }
{
    if at >= code.len() {
        return false;
    }
    match code.at(at) {
        Instr::InMem {
            atom: tested,
            membrane,
        } => *tested == atom && *membrane as usize == register,
        _ => false,
    }
}

/// The atom to which an instruction goes from an atom that is set, where the code asks whether it stands in the membrane of
/// a register.
fn guest_at<S: LinkStore>(
    store: &S,
    code: &Instrs<'_>,
    at: usize,
    register: usize,
    set: &SetRegisters<S::Atom, S::Mem>,
) -> Option<S::Atom>
    requires held { AreHeldWhole S.atom_id S.mem_id (S.heap store.now) set.now }
    requires at { at < length code.now }
    ensures there { IfSome result (λ a. IsAtom (S.heap store.now) (S.atom_id a)) }
    ensures guest { IfSome result (λ a. (k : ℕ) → k ≤ at → IsGuest S.atom_id S.mem_id (S.heap store.now) set.now (drop k code.now) register (S.atom_id a)) }
{
    let _code = code.len();
    match code.at(at) {
        Instr::Deref { atom, from, .. } => {
            if from.atom as usize >= set.atoms.len() {
                return None;
            }
            if !asks_home(code, at + 2, *atom, register) {
                return None;
            }
            match checks::end(store, set.atoms.at(from.atom as usize), from.port) {
                Some((a, _)) => Some(a),
                None => None,
            }
        }
        _ => None,
    }
}

/// An atom that stands in the membrane of a register whenever the code ahead succeeds: a link leads to it from an atom that
/// is set.
pub fn guest<S: LinkStore>(
    store: &S,
    code: &Instrs<'_>,
    at: usize,
    register: usize,
    set: &SetRegisters<S::Atom, S::Mem>,
) -> Option<S::Atom>
    requires held { AreHeldWhole S.atom_id S.mem_id (S.heap store.now) set.now }
    ensures there { IfSome result (λ a. IsAtom (S.heap store.now) (S.atom_id a)) }
    ensures guest { IfSome result (λ a. IsGuest S.atom_id S.mem_id (S.heap store.now) set.now (drop at code.now) register (S.atom_id a)) }
{
    for i in at..code.len() {
        if let Some(a) = guest_at(store, code, i, register, set) {
            return Some(a);
        }
    }
    None
}

/// The membrane in which an atom stands, where that stands in the given one.
pub fn home_within<S: LinkStore>(store: &S, a: S::Atom, place: S::Mem) -> Option<S::Mem>
    requires atom { IsAtom (S.heap store.now) (S.atom_id a) }
    requires place { IsMem (S.heap store.now) (S.mem_id place) }
    ensures parent { IfSome result (λ m. parent_of (S.heap store.now) (S.mem_id m) ≡ Some (S.mem_id place)) }
    ensures only { (n : ℕ) → In (S.atom_id a) (atoms_in (S.heap store.now) n) → In n (mems_in (S.heap store.now) (S.mem_id place)) → option_map S.mem_id result ≡ Some n }
{
    let _root = store.root();
    match store.home(a) {
        Some(home) => match store.parent(home) {
            Some(parent) => {
                if store.same_mem(parent, place) {
                    Some(home)
                } else {
                    None
                }
            }
            None => None,
        },
        None => None,
    }
}
