ghost use Rattle.std.specs.Prelude.{◌≡◌, ◌<◌, ◌↔◌, ℕ, [], ◌∷◌, length, IsTrue};
ghost use Rattle.lmn_store_heap.specs.Sound.{Valid};
ghost use Rattle.lmn_instr_code.specs.Running.{HeadRegisters, HeadSize, InstructionHolds};
ghost use Rattle.lmn_store_heap.specs.Heap.{Heap};
ghost use Rattle.lmn_machine_registers.specs.Agreeing.{Agrees};
ghost use Rattle.lmn_machine.specs.Searching.{AreHeldWhole, Compares, HeadInOrder, HasGiven, HasGivenPart, Stepped};
ghost use Rattle.lmn_machine.specs.Outcomes.{CanStep, ComparesIntegers, HasOutcome, Tells};
ghost use Rattle.lmn_instr_code.specs.declared.instr.Instr.TheVariants.{Add, Const, Deref, Div, EqGround, Func, GetInt, InMem, IsClosed, IsGround, IsInt, IsUnary, Joined, Mod, Mul, NAtoms, NMems, NeqAtom, NeqGround, NeqMem, NoRules, NotIn, Sub};

use crate::{checks, integers, others, parts, rests, whole};
use lmn_base::{Functor, Rows};
use lmn_ground::Found;
use lmn_instr_code::{AtomPort, Instr};
use lmn_machine_registers::{ROOM, SetRegisters};
use lmn_store_trait::LinkStore;

/// Whether a comparison holds of the integers that are set; COMMIT holds.
#[inline(always)]
fn compare<A: Copy, M: Copy>(set: &SetRegisters<A, M>, instr: &Instr) -> bool
    requires { Compares (length set.now.integers) instr.now }
    ensures { (atom : A → ℕ) (membrane : M → ℕ) (h : Heap) (c : HeadSize) (s : HeadRegisters) → Agrees atom membrane set.now s → (IsTrue result ↔ InstructionHolds h c s instr.now) }
{
    match instr {
        Instr::Lt { left, right } => integers::is_less(
            set.integers.at(*left as usize),
            set.integers.at(*right as usize),
        ),
        Instr::Le { left, right } => integers::is_at_most(
            set.integers.at(*left as usize),
            set.integers.at(*right as usize),
        ),
        Instr::Gt { left, right } => integers::is_greater(
            set.integers.at(*left as usize),
            set.integers.at(*right as usize),
        ),
        Instr::Ge { left, right } => integers::is_at_least(
            set.integers.at(*left as usize),
            set.integers.at(*right as usize),
        ),
        Instr::Eq { left, right } => integers::are_equal(
            set.integers.at(*left as usize),
            set.integers.at(*right as usize),
        ),
        Instr::Ne { left, right } => integers::are_different(
            set.integers.at(*left as usize),
            set.integers.at(*right as usize),
        ),
        Instr::Commit => true,
        _ => false,
    }
}

/// Follows the link of a port: it must lead to the given port of an atom, which goes into the next register.
pub fn follow<S: LinkStore>(
    store: &S,
    set: &mut SetRegisters<S::Atom, S::Mem>,
    from: AtomPort,
    port: u8,
) -> bool
    requires held { AreHeldWhole S.atom_id S.mem_id (S.heap store.now) set.old }
    requires order { HeadInOrder (length set.old.atoms) (length set.old.membranes) (length set.old.parts) (length set.old.integers) (Deref (length set.old.atoms) from port ∷ []) }
    ensures { Stepped S.atom_id S.mem_id (S.heap store.now) set.old set.new result (Deref (length set.old.atoms) from port) }
{
    match checks::end(store, set.atoms.at(from.atom as usize), from.port) {
        Some(end) => {
            if end.1 == port {
                set.atoms.push(end.0);
                true
            } else {
                false
            }
        }
        None => false,
    }
}

/// Puts an integer into the next register, if there is one.
pub fn set_integer<A: Copy, M: Copy>(set: &mut SetRegisters<A, M>, value: Option<i64>) -> bool
    requires room { length set.old.integers < ROOM }
    ensures { HasGiven set.old set.new result value }
{
    match value {
        Some(z) => {
            set.integers.push(z);
            true
        }
        None => false,
    }
}

/// Puts the root of a part into the next register, if there is one.
pub fn set_part<A: Copy, M: Copy>(set: &mut SetRegisters<A, M>, root: Option<(A, u8)>) -> bool
    requires room { length set.old.parts < ROOM }
    ensures { HasGivenPart set.old set.new result root }
{
    match root {
        Some(p) => {
            set.parts.push(p);
            true
        }
        None => false,
    }
}

/// What became of an instruction.
#[derive(Clone, Copy)]
pub enum Outcome {
    /// It holds, and what it sets is set.
    Holds,
    /// It doesn't hold.
    Fails,
    /// It chooses an atom: it wasn't run.
    ChoosesAtom,
    /// It chooses a membrane: it wasn't run.
    ChoosesMembrane,
}

/// The outcome of an instruction without a choice.
#[inline(always)]
fn outcome_of(holds: bool) -> Outcome
    ensures { Tells result holds }
{
    if holds {
        Outcome::Holds
    } else {
        Outcome::Fails
    }
}

/// FUNC: whether an atom has a functor.
#[inline(always)]
fn ask_functor<S: LinkStore>(
    store: &S,
    set: &SetRegisters<S::Atom, S::Mem>,
    atom: u16,
    functor: Functor,
) -> Outcome
    requires { CanStep S.atom_id S.mem_id (S.heap store.now) set.now (Func atom functor) }
    ensures { HasOutcome S.atom_id S.mem_id (S.heap store.now) set.now set.now result (Func atom functor) }
{
    let asked = set.atoms.at(atom as usize);
    outcome_of(checks::has_functor(store, asked, functor))
}

/// INMEM: whether an atom stands in a membrane.
#[inline(always)]
fn ask_home<S: LinkStore>(
    store: &S,
    set: &SetRegisters<S::Atom, S::Mem>,
    atom: u16,
    membrane: u16,
) -> Outcome
    requires { CanStep S.atom_id S.mem_id (S.heap store.now) set.now (InMem atom membrane) }
    ensures { HasOutcome S.atom_id S.mem_id (S.heap store.now) set.now set.now result (InMem atom membrane) }
{
    let asked = set.atoms.at(atom as usize);
    let place = set.membranes.at(membrane as usize);
    outcome_of(checks::stands_in(store, asked, place))
}

/// NEQATOM: whether two atoms differ.
#[inline(always)]
fn ask_other_atom<S: LinkStore>(
    store: &S,
    set: &SetRegisters<S::Atom, S::Mem>,
    atom: u16,
    other: u16,
) -> Outcome
    requires { CanStep S.atom_id S.mem_id (S.heap store.now) set.now (NeqAtom atom other) }
    ensures { HasOutcome S.atom_id S.mem_id (S.heap store.now) set.now set.now result (NeqAtom atom other) }
{
    let asked = set.atoms.at(atom as usize);
    let another = set.atoms.at(other as usize);
    outcome_of(checks::atoms_differ(store, asked, another))
}

/// JOINED: whether two ports are partners. It is no part of its caller.
#[inline(never)]
fn ask_joined<S: LinkStore>(
    store: &S,
    set: &SetRegisters<S::Atom, S::Mem>,
    port: AtomPort,
    other: AtomPort,
) -> Outcome
    requires { CanStep S.atom_id S.mem_id (S.heap store.now) set.now (Joined port other) }
    ensures { HasOutcome S.atom_id S.mem_id (S.heap store.now) set.now set.now result (Joined port other) }
{
    let asked = set.atoms.at(port.atom as usize);
    let another = set.atoms.at(other.atom as usize);
    outcome_of(checks::are_joined(store, asked, port.port, another, other.port))
}

/// NEQMEM: whether two membranes differ.
#[inline(always)]
fn ask_other_membrane<S: LinkStore>(
    store: &S,
    set: &SetRegisters<S::Atom, S::Mem>,
    membrane: u16,
    other: u16,
) -> Outcome
    requires { CanStep S.atom_id S.mem_id (S.heap store.now) set.now (NeqMem membrane other) }
    ensures { HasOutcome S.atom_id S.mem_id (S.heap store.now) set.now set.now result (NeqMem membrane other) }
{
    let asked = set.membranes.at(membrane as usize);
    let another = set.membranes.at(other as usize);
    outcome_of(checks::membranes_differ(store, asked, another))
}

/// NMEMS: whether a membrane holds so many membranes. It is no part of its caller.
#[inline(never)]
fn ask_membranes<S: LinkStore>(
    store: &S,
    set: &SetRegisters<S::Atom, S::Mem>,
    membrane: u16,
    count: u64,
) -> Outcome
    requires { CanStep S.atom_id S.mem_id (S.heap store.now) set.now (NMems membrane count) }
    ensures { HasOutcome S.atom_id S.mem_id (S.heap store.now) set.now set.now result (NMems membrane count) }
{
    let asked = set.membranes.at(membrane as usize);
    outcome_of(checks::has_membranes(store, asked, count))
}

/// NORULES: whether a membrane holds no rule.
#[inline(always)]
fn ask_no_rule<S: LinkStore>(
    store: &S,
    set: &SetRegisters<S::Atom, S::Mem>,
    membrane: u16,
) -> Outcome
    requires { CanStep S.atom_id S.mem_id (S.heap store.now) set.now (NoRules membrane) }
    ensures { HasOutcome S.atom_id S.mem_id (S.heap store.now) set.now set.now result (NoRules membrane) }
{
    let asked = set.membranes.at(membrane as usize);
    outcome_of(checks::has_no_rule(store, asked))
}

/// NOTIN: whether a link leads out of a membrane. It is no part of its caller.
#[inline(never)]
fn ask_outside<S: LinkStore>(
    store: &S,
    set: &SetRegisters<S::Atom, S::Mem>,
    port: AtomPort,
    membrane: u16,
) -> Outcome
    requires { CanStep S.atom_id S.mem_id (S.heap store.now) set.now (NotIn port membrane) }
    ensures { HasOutcome S.atom_id S.mem_id (S.heap store.now) set.now set.now result (NotIn port membrane) }
{
    let asked = set.atoms.at(port.atom as usize);
    let place = set.membranes.at(membrane as usize);
    outcome_of(checks::is_outside(store, asked, port.port, place))
}

/// Runs a comparison of integers, or COMMIT.
#[inline(always)]
fn run_comparison<S: LinkStore>(
    store: &S,
    set: &SetRegisters<S::Atom, S::Mem>,
    instr: &Instr,
) -> Outcome
    requires ready { CanStep S.atom_id S.mem_id (S.heap store.now) set.now instr.now }
    requires compares { ComparesIntegers instr.now }
    ensures { HasOutcome S.atom_id S.mem_id (S.heap store.now) set.now set.now result instr.now }
{
    outcome_of(compare(set, instr))
}

/// ISINT: an integer at the other end of a port goes into the next register.
#[inline(always)]
fn find_integer<S: LinkStore>(
    store: &S,
    set: &mut SetRegisters<S::Atom, S::Mem>,
    port: AtomPort,
    membrane: u16,
) -> Outcome
    requires { CanStep S.atom_id S.mem_id (S.heap store.now) set.old (IsInt (length set.old.parts) port membrane) }
    ensures { HasOutcome S.atom_id S.mem_id (S.heap store.now) set.old set.new result (IsInt (length set.old.parts) port membrane) }
{
    let from = set.atoms.at(port.atom as usize);
    let place = set.membranes.at(membrane as usize);
    let root = parts::integer_end(store, from, port.port, place, &set.atoms);
    outcome_of(set_part(set, root))
}

/// ISUNARY: likewise an atom of arity 1. It is no part of its caller.
#[inline(never)]
fn find_unary<S: LinkStore>(
    store: &S,
    set: &mut SetRegisters<S::Atom, S::Mem>,
    port: AtomPort,
    membrane: u16,
) -> Outcome
    requires { CanStep S.atom_id S.mem_id (S.heap store.now) set.old (IsUnary (length set.old.parts) port membrane) }
    ensures { HasOutcome S.atom_id S.mem_id (S.heap store.now) set.old set.new result (IsUnary (length set.old.parts) port membrane) }
{
    let from = set.atoms.at(port.atom as usize);
    let place = set.membranes.at(membrane as usize);
    let root = parts::lone_end(store, from, port.port, place, &set.atoms);
    outcome_of(set_part(set, root))
}

/// ISGROUND: likewise a part of any size. It is no part of its caller.
#[inline(never)]
fn find_ground<S: LinkStore>(
    store: &mut S,
    set: &mut SetRegisters<S::Atom, S::Mem>,
    port: AtomPort,
    membrane: u16,
) -> Outcome
    requires { CanStep S.atom_id S.mem_id (S.heap store.old) set.old (IsGround (length set.old.parts) port membrane) }
    ensures same { S.heap store.new ≡ S.heap store.old }
    ensures stepped { HasOutcome S.atom_id S.mem_id (S.heap store.old) set.old set.new result (IsGround (length set.old.parts) port membrane) }
{
    let from = set.atoms.at(port.atom as usize);
    let place = set.membranes.at(membrane as usize);
    let root = whole::whole_end(store, from, port.port, place, &set.atoms, &mut set.listed);
    outcome_of(set_part(set, root))
}

/// EQGROUND: whether two typed contexts are equal. It is no part of its caller.
#[inline(never)]
fn ask_equal<S: LinkStore>(
    store: &mut S,
    set: &SetRegisters<S::Atom, S::Mem>,
    part: u16,
    other: u16,
    trail: &mut Found<S::Atom>,
) -> Outcome
    requires { CanStep S.atom_id S.mem_id (S.heap store.old) set.now (EqGround part other) }
    ensures same { S.heap store.new ≡ S.heap store.old }
    ensures stepped { HasOutcome S.atom_id S.mem_id (S.heap store.old) set.now set.now result (EqGround part other) }
{
    let root = set.parts.at(part as usize);
    let other_root = set.parts.at(other as usize);
    outcome_of(whole::are_equal(store, root, other_root, trail))
}

/// NEQGROUND: whether two typed contexts differ. It is no part of its caller.
#[inline(never)]
fn ask_different<S: LinkStore>(
    store: &mut S,
    set: &SetRegisters<S::Atom, S::Mem>,
    part: u16,
    other: u16,
    trail: &mut Found<S::Atom>,
) -> Outcome
    requires { CanStep S.atom_id S.mem_id (S.heap store.old) set.now (NeqGround part other) }
    ensures same { S.heap store.new ≡ S.heap store.old }
    ensures stepped { HasOutcome S.atom_id S.mem_id (S.heap store.old) set.now set.now result (NeqGround part other) }
{
    let root = set.parts.at(part as usize);
    let other_root = set.parts.at(other as usize);
    outcome_of(whole::are_different(store, root, other_root, trail))
}

/// NATOMS: whether a membrane holds so many atoms besides those of typed contexts. It is no part of its caller.
#[inline(never)]
fn ask_others<S: LinkStore>(
    store: &mut S,
    set: &SetRegisters<S::Atom, S::Mem>,
    membrane: u16,
    count: u64,
    parts: &Rows<u16>,
    trail: &mut Found<S::Atom>,
) -> Outcome
    requires { CanStep S.atom_id S.mem_id (S.heap store.old) set.now (NAtoms membrane count parts.now) }
    ensures same { S.heap store.new ≡ S.heap store.old }
    ensures stepped { HasOutcome S.atom_id S.mem_id (S.heap store.old) set.now set.now result (NAtoms membrane count parts.now) }
{
    let place = set.membranes.at(membrane as usize);
    outcome_of(others::has_others(store, set, place, parts.as_slice(), count, trail))
}

/// ISCLOSED: whether no link leaves the rest of a membrane. It is no part of its caller.
#[inline(never)]
fn ask_closed<S: LinkStore>(
    store: &mut S,
    set: &SetRegisters<S::Atom, S::Mem>,
    membrane: u16,
    parts: &Rows<u16>,
    trail: &mut Found<S::Atom>,
) -> Outcome
    requires { CanStep S.atom_id S.mem_id (S.heap store.old) set.now (IsClosed membrane parts.now) }
    ensures same { S.heap store.new ≡ S.heap store.old }
    ensures stepped { HasOutcome S.atom_id S.mem_id (S.heap store.old) set.now set.now result (IsClosed membrane parts.now) }
{
    let place = set.membranes.at(membrane as usize);
    outcome_of(rests::is_closed(store, set, place, parts.as_slice(), trail))
}

/// GETINT: the integer of a typed context goes into the next register.
#[inline(always)]
fn get_integer<S: LinkStore>(
    store: &S,
    set: &mut SetRegisters<S::Atom, S::Mem>,
    part: u16,
) -> Outcome
    requires { CanStep S.atom_id S.mem_id (S.heap store.now) set.old (GetInt (length set.old.integers) part) }
    ensures { HasOutcome S.atom_id S.mem_id (S.heap store.now) set.old set.new result (GetInt (length set.old.integers) part) }
{
    let root = set.parts.at(part as usize);
    let value = parts::integer_of(store, root.0);
    outcome_of(set_integer(set, value))
}

/// CONST: a number goes into the next register.
#[inline(always)]
fn set_constant<A: Copy, M: Copy>(set: &mut SetRegisters<A, M>, value: &i64) -> Outcome
    requires { HeadInOrder (length set.old.atoms) (length set.old.membranes) (length set.old.parts) (length set.old.integers) (Const (length set.old.integers) value.now ∷ []) }
    ensures { (atom : A → ℕ) (membrane : M → ℕ) (h : Heap) → AreHeldWhole atom membrane h set.old → HasOutcome atom membrane h set.old set.new result (Const (length set.old.integers) value.now) }
{
    let number = integers::constant(value);
    outcome_of(set_integer(set, number))
}

/// ADD: the sum of two integers goes into the next register.
#[inline(always)]
fn add<A: Copy, M: Copy>(set: &mut SetRegisters<A, M>, left: u16, right: u16) -> Outcome
    requires { HeadInOrder (length set.old.atoms) (length set.old.membranes) (length set.old.parts) (length set.old.integers) (Add (length set.old.integers) left right ∷ []) }
    ensures { (atom : A → ℕ) (membrane : M → ℕ) (h : Heap) → AreHeldWhole atom membrane h set.old → HasOutcome atom membrane h set.old set.new result (Add (length set.old.integers) left right) }
{
    let m = set.integers.at(left as usize);
    let n = set.integers.at(right as usize);
    let value = integers::sum(m, n);
    outcome_of(set_integer(set, value))
}

/// SUB: likewise the difference. It is no part of its caller.
#[inline(never)]
fn subtract<A: Copy, M: Copy>(set: &mut SetRegisters<A, M>, left: u16, right: u16) -> Outcome
    requires { HeadInOrder (length set.old.atoms) (length set.old.membranes) (length set.old.parts) (length set.old.integers) (Sub (length set.old.integers) left right ∷ []) }
    ensures { (atom : A → ℕ) (membrane : M → ℕ) (h : Heap) → AreHeldWhole atom membrane h set.old → HasOutcome atom membrane h set.old set.new result (Sub (length set.old.integers) left right) }
{
    let m = set.integers.at(left as usize);
    let n = set.integers.at(right as usize);
    let value = integers::difference(m, n);
    outcome_of(set_integer(set, value))
}

/// MUL: likewise the product. It is no part of its caller.
#[inline(never)]
fn multiply<A: Copy, M: Copy>(set: &mut SetRegisters<A, M>, left: u16, right: u16) -> Outcome
    requires { HeadInOrder (length set.old.atoms) (length set.old.membranes) (length set.old.parts) (length set.old.integers) (Mul (length set.old.integers) left right ∷ []) }
    ensures { (atom : A → ℕ) (membrane : M → ℕ) (h : Heap) → AreHeldWhole atom membrane h set.old → HasOutcome atom membrane h set.old set.new result (Mul (length set.old.integers) left right) }
{
    let m = set.integers.at(left as usize);
    let n = set.integers.at(right as usize);
    let value = integers::product(m, n);
    outcome_of(set_integer(set, value))
}

/// DIV: likewise the quotient. It is no part of its caller.
#[inline(never)]
fn divide<A: Copy, M: Copy>(set: &mut SetRegisters<A, M>, left: u16, right: u16) -> Outcome
    requires { HeadInOrder (length set.old.atoms) (length set.old.membranes) (length set.old.parts) (length set.old.integers) (Div (length set.old.integers) left right ∷ []) }
    ensures { (atom : A → ℕ) (membrane : M → ℕ) (h : Heap) → AreHeldWhole atom membrane h set.old → HasOutcome atom membrane h set.old set.new result (Div (length set.old.integers) left right) }
{
    let m = set.integers.at(left as usize);
    let n = set.integers.at(right as usize);
    let value = integers::quotient(m, n);
    outcome_of(set_integer(set, value))
}

/// MOD: likewise the remainder. It is no part of its caller.
#[inline(never)]
fn take_remainder<A: Copy, M: Copy>(set: &mut SetRegisters<A, M>, left: u16, right: u16) -> Outcome
    requires { HeadInOrder (length set.old.atoms) (length set.old.membranes) (length set.old.parts) (length set.old.integers) (Mod (length set.old.integers) left right ∷ []) }
    ensures { (atom : A → ℕ) (membrane : M → ℕ) (h : Heap) → AreHeldWhole atom membrane h set.old → HasOutcome atom membrane h set.old set.new result (Mod (length set.old.integers) left right) }
{
    let m = set.integers.at(left as usize);
    let n = set.integers.at(right as usize);
    let value = integers::remainder(m, n);
    outcome_of(set_integer(set, value))
}

/// Runs an instruction, unless it makes a choice.
#[inline(always)]
pub fn step<S: LinkStore>(
    store: &mut S,
    set: &mut SetRegisters<S::Atom, S::Mem>,
    instr: &Instr,
    trail: &mut Found<S::Atom>,
) -> Outcome
    requires { CanStep S.atom_id S.mem_id (S.heap store.old) set.old instr.now }
    ensures same { S.heap store.new ≡ S.heap store.old }
    ensures stepped { HasOutcome S.atom_id S.mem_id (S.heap store.old) set.old set.new result instr.now }
{
    match instr {
        Instr::FindAtom { .. } => Outcome::ChoosesAtom,
        Instr::AnyMem { .. } => Outcome::ChoosesMembrane,
        Instr::Deref { from, port, .. } => outcome_of(follow(store, set, *from, *port)),
        // What most heads ask is a part of `step`, and all else is called: `step` is to be small enough to be a part of both searches.
        Instr::IsInt { port, membrane, .. } => find_integer(store, set, *port, *membrane),
        Instr::IsUnary { port, membrane, .. } => find_unary(store, set, *port, *membrane),
        Instr::IsGround { port, membrane, .. } => find_ground(store, set, *port, *membrane),
        Instr::EqGround { part, other } => ask_equal(store, set, *part, *other, trail),
        Instr::NeqGround { part, other } => ask_different(store, set, *part, *other, trail),
        Instr::NAtoms {
            membrane,
            count,
            parts,
        } => ask_others(store, set, *membrane, *count, parts, trail),
        Instr::IsClosed { membrane, parts } => ask_closed(store, set, *membrane, parts, trail),
        Instr::GetInt { part, .. } => get_integer(store, set, *part),
        Instr::Const { value, .. } => set_constant(set, value),
        Instr::Add { left, right, .. } => add(set, *left, *right),
        Instr::Sub { left, right, .. } => subtract(set, *left, *right),
        Instr::Mul { left, right, .. } => multiply(set, *left, *right),
        Instr::Div { left, right, .. } => divide(set, *left, *right),
        Instr::Mod { left, right, .. } => take_remainder(set, *left, *right),
        Instr::Func { atom, functor } => ask_functor(store, set, *atom, *functor),
        Instr::InMem { atom, membrane } => ask_home(store, set, *atom, *membrane),
        Instr::NeqAtom { atom, other } => ask_other_atom(store, set, *atom, *other),
        Instr::Joined { port, other } => ask_joined(store, set, *port, *other),
        Instr::NeqMem { membrane, other } => ask_other_membrane(store, set, *membrane, *other),
        Instr::NMems { membrane, count } => ask_membranes(store, set, *membrane, *count),
        Instr::NoRules { membrane } => ask_no_rule(store, set, *membrane),
        Instr::NotIn { port, membrane } => ask_outside(store, set, *port, *membrane),
        Instr::Commit => Outcome::Holds,
        _ => run_comparison(store, set, instr),
    }
}
