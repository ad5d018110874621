//! Whether a membrane holds as many atoms and membranes as code takes from it.
ghost use Rattle.std.specs.Prelude.{◌≡◌, ◌↔◌, ◌≤◌, ◌<◌, ◌+◌, ℕ, IfSome, IsTrue, IsFalse, Some, [], ◌∷◌, length, drop, slice_get};
ghost use Rattle.lmn_store_heap.specs.Heap.{IsMem, mems_in};
ghost use Rattle.lmn_instr_code.specs.Running.{HeadRegisters, HeadSize, AllHold};
ghost use Rattle.lmn_machine.specs.Enough.{IsApartFrom, IsWanted, Takes, TakesApart, TakesMore, TellsApart, holding, there_are};
ghost use Rattle.lmn_machine.specs.declared.enough.Kind.TheVariants.{Atoms, Membranes};

use crate::ahead;
use lmn_base::Functor;
use lmn_instr_code::Instr;
use lmn_instr_pool::Instrs;
use lmn_store_trait::LinkStore;

/// What is taken from a membrane.
#[derive(Clone, Copy)]
pub enum Kind {
    /// Atoms with a functor.
    Atoms,
    /// Membranes that hold an atom with a functor.
    Membranes,
}

/// Items of a kind, which are taken from the membrane of a register.
#[derive(Clone, Copy)]
pub struct Want {
    kind: Kind,
    membrane: usize,
    functor: Functor,
}

/// Whether an instruction of code tells two registers of a kind apart.
fn is_apart(code: &Instrs<'_>, at: usize, kind: Kind, register: u16, from: u16) -> bool
    requires at { at < length code.now }
    ensures { IsTrue result → TellsApart kind code.now at register from }
{
    match kind {
        Kind::Atoms => match code.at(at) {
            Instr::NeqAtom { atom, other } => *atom == register && *other == from,
            _ => false,
        },
        Kind::Membranes => match code.at(at) {
            Instr::NeqMem { membrane, other } => *membrane == register && *other == from,
            _ => false,
        },
    }
}

/// Whether code tells two registers of a kind apart, from a place on.
fn is_told_apart(code: &Instrs<'_>, at: usize, kind: Kind, register: u16, from: u16) -> bool
    ensures { IsTrue result → (j : ℕ) × (at ≤ j) × TellsApart kind code.now j register from }
{
    for i in at..code.len() {
        if is_apart(code, i, kind, register, from) {
            return true;
        }
    }
    false
}

/// The register for which an instruction of code takes an item likewise; whether it is wanted isn't asked.
fn taken(code: &Instrs<'_>, at: usize, want: Want) -> Option<u16>
    requires at { at < length code.now }
    ensures found { IfSome result (λ x. Takes want.kind code.now at want.membrane want.functor x) }
    ensures only { (x : ℕ) → Takes want.kind code.now at want.membrane want.functor x → result ≡ Some x }
{
    match want.kind {
        Kind::Atoms => match code.at(at) {
            Instr::FindAtom {
                atom,
                membrane,
                functor,
            } => {
                if *membrane as usize != want.membrane {
                    return None;
                }
                if *functor != want.functor {
                    return None;
                }
                Some(*atom)
            }
            _ => None,
        },
        Kind::Membranes => match code.at(at) {
            Instr::AnyMem { membrane, inside } => {
                if *inside as usize != want.membrane {
                    return None;
                }
                Some(*membrane)
            }
            _ => None,
        },
    }
}

/// Whether what is taken for a register at a place is wanted.
fn is_wanted(code: &Instrs<'_>, at: usize, want: Want, register: u16) -> bool
    ensures { IsTrue result → IsWanted want.kind code.now at want.functor register }
{
    match want.kind {
        Kind::Atoms => true,
        Kind::Membranes => match ahead::asked(code, at, register as usize) {
            Some(functor) => functor == want.functor,
            None => false,
        },
    }
}

/// Whether code tells a register, behind a place, apart from the one for which it takes an item likewise at a place.
fn is_apart_at(code: &Instrs<'_>, at: usize, want: Want, behind: usize, register: u16) -> bool
    requires at { at < length code.now }
    ensures { IsTrue result → (y : ℕ) → Takes want.kind code.now at want.membrane want.functor y → (j : ℕ) × (behind ≤ j) × TellsApart want.kind code.now j register y }
{
    match taken(code, at, want) {
        Some(other) => is_told_apart(code, behind, want.kind, register, other),
        None => true,
    }
}

/// Whether code tells a register, behind a place, apart from each for which it takes an item likewise before this place.
fn is_apart_from_all(code: &Instrs<'_>, at: usize, want: Want, behind: usize, register: u16) -> bool
    requires behind { behind < length code.now }
    ensures { IsTrue result → IsApartFrom code.now at behind want register }
{
    let _code = code.len();
    for i in at..behind {
        if !is_apart_at(code, i, want, behind, register) {
            return false;
        }
    }
    true
}

/// How many more that are wanted code takes at a place, 1 or 0, which it tells apart from all that it took likewise before.
fn more_at(code: &Instrs<'_>, at: usize, want: Want, place: usize) -> usize
    requires place { place < length code.now }
    ensures few { result ≤ 1 }
    ensures more { TakesMore code.now at place want result }
{
    let _code = code.len();
    match taken(code, place, want) {
        Some(register) => {
            if !is_wanted(code, place, want, register) {
                return 0;
            }
            if !is_apart_from_all(code, at, want, place, register) {
                return 0;
            }
            1
        }
        None => 0,
    }
}

/// How many different items code takes, from a place on, whenever it succeeds.
fn wanted(code: &Instrs<'_>, at: usize, want: Want) -> usize
    requires at { at ≤ length code.now }
    ensures { TakesApart code.now at (length code.now) want result }
{
    let _code = code.len();
    let mut count: usize = 0;
    for i in at..code.len() {
        count += more_at(code, at, want, i);
    }
    count
}

/// How often code takes an item, different or not.
fn takes(code: &Instrs<'_>, at: usize, want: Want) -> usize {
    let mut count: usize = 0;
    for i in at..code.len() {
        if taken(code, i, want).is_some() {
            count = count.saturating_add(1);
        }
    }
    count
}

/// Whether a membrane holds fewer atoms with a functor.
fn holds_fewer_atoms<S: LinkStore>(store: &S, m: S::Mem, functor: Functor, count: usize) -> bool
    requires { IsMem (S.heap store.now) (S.mem_id m) }
    ensures { IsTrue result → length (there_are (S.heap store.now) Atoms functor (S.mem_id m)) < count }
{
    let _root = store.root();
    let mut candidate = store.first_with(m, functor);
    for step in 0..count {
        match candidate {
            Some(a) => candidate = store.next_with(a),
            None => return true,
        }
    }
    false
}

/// How many of one membrane hold an atom with a functor.
fn one_holding<S: LinkStore>(store: &S, m: S::Mem, functor: Functor) -> usize
    requires { IsMem (S.heap store.now) (S.mem_id m) }
    ensures few { result ≤ 1 }
    ensures count { result ≡ length (holding (S.heap store.now) functor (S.mem_id m ∷ [])) }
{
    match store.first_with(m, functor) {
        Some(_) => 1,
        None => 0,
    }
}

/// Whether a count is below another.
fn is_below(count: usize, other: usize) -> bool
    ensures { IsTrue result ↔ (count < other) }
{
    count < other
}

/// Whether a membrane holds fewer membranes that hold an atom with a functor.
fn holds_fewer_membranes<S: LinkStore>(store: &S, m: S::Mem, functor: Functor, count: usize) -> bool
    requires { IsMem (S.heap store.now) (S.mem_id m) }
    ensures { IsTrue result → length (there_are (S.heap store.now) Membranes functor (S.mem_id m)) < count }
{
    let _root = store.root();
    let mut found: usize = 0;
    let mut candidate = store.first_mem(m);
    while let Some(n) = candidate {
        if found >= count {
            return false;
        }
        found += one_holding(store, n, functor);
        candidate = store.next_mem(n);
    }
    is_below(found, count)
}

/// Whether a membrane holds fewer items of a kind.
fn holds_fewer<S: LinkStore>(store: &S, m: S::Mem, want: Want, count: usize) -> bool
    requires { IsMem (S.heap store.now) (S.mem_id m) }
    ensures { IsTrue result → length (there_are (S.heap store.now) want.kind want.functor (S.mem_id m)) < count }
{
    match want.kind {
        Kind::Atoms => holds_fewer_atoms(store, m, want.functor, count),
        Kind::Membranes => holds_fewer_membranes(store, m, want.functor, count),
    }
}

/// Whether a membrane may hold as many items as the code ahead takes from it, where it is in a register. Only where they are fewer
/// than its instructions is it asked which of these it tells apart.
fn holds_enough_of<S: LinkStore>(
    store: &S,
    code: &Instrs<'_>,
    at: usize,
    want: Want,
    m: S::Mem,
) -> bool
    requires at { at ≤ length code.now }
    requires there { IsMem (S.heap store.now) (S.mem_id m) }
    ensures { IsFalse result → (c : HeadSize) (s : HeadRegisters) → s.images.membrane want.membrane ≡ S.mem_id m → AllHold (S.heap store.now) c s (drop at code.now) → ⊥ }
{
    if !holds_fewer(store, m, want, takes(code, at, want)) {
        return true;
    }
    let count = wanted(code, at, want);
    !holds_fewer(store, m, want, count)
}

/// What an instruction at a place of code takes from the membrane of a register.
fn want_at(code: &Instrs<'_>, at: usize, register: usize) -> Option<Want>
    requires at { at < length code.now }
    ensures { IfSome result (λ w. w.membrane ≡ register) }
{
    match code.at(at) {
        Instr::FindAtom { functor, .. } => Some(Want {
            kind: Kind::Atoms,
            membrane: register,
            functor: *functor,
        }),
        Instr::AnyMem { membrane, .. } => match ahead::asked(code, at, *membrane as usize) {
            Some(functor) => Some(Want {
                kind: Kind::Membranes,
                membrane: register,
                functor,
            }),
            None => None,
        },
        _ => None,
    }
}

/// The same, for what is taken at a place.
fn holds_enough_at<S: LinkStore>(
    store: &S,
    code: &Instrs<'_>,
    at: usize,
    place: usize,
    register: usize,
    m: S::Mem,
) -> bool
    requires at { at ≤ length code.now }
    requires place { place < length code.now }
    requires there { IsMem (S.heap store.now) (S.mem_id m) }
    ensures { IsFalse result → (c : HeadSize) (s : HeadRegisters) → s.images.membrane register ≡ S.mem_id m → AllHold (S.heap store.now) c s (drop at code.now) → ⊥ }
{
    match want_at(code, place, register) {
        Some(want) => holds_enough_of(store, code, at, want, m),
        None => true,
    }
}

/// Whether a membrane may hold as much of each kind as the code ahead takes from it, where it is in a register.
pub fn holds_enough<S: LinkStore>(
    store: &S,
    code: &Instrs<'_>,
    at: usize,
    register: usize,
    m: S::Mem,
) -> bool
    requires at { at ≤ length code.now }
    requires there { IsMem (S.heap store.now) (S.mem_id m) }
    ensures { IsFalse result → (c : HeadSize) (s : HeadRegisters) → s.images.membrane register ≡ S.mem_id m → AllHold (S.heap store.now) c s (drop at code.now) → ⊥ }
{
    for i in at..code.len() {
        if !holds_enough_at(store, code, at, i, register, m) {
            return false;
        }
    }
    true
}
