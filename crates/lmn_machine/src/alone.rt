//! What conditions say of one atom alone.
ghost use Rattle.std.specs.Prelude.{◌≡◌, ◌↔◌, ℕ, ℤ, IfSome, IsFalse, IsTrue, drop};
ghost use Rattle.lmn_guards.specs.Values.{Stand};
ghost use Rattle.lmn_store_heap.specs.Heap.{IsAtom};
ghost use Rattle.lmn_instr_code.specs.Running.{HeadRegisters, HeadSize, AllHold, InstructionHolds};
ghost use Rattle.lmn_solid_heads.specs.Guards.{integer_at};
ghost use Rattle.lmn_solid_heads.specs.Embeddings.{partner};

use crate::{checks, integers, parts};
use lmn_base::Cmp;
use lmn_instr_code::Instr;
use lmn_instr_pool::Instrs;
use lmn_store_trait::LinkStore;

/// The integer at the other end of a port, where an integer is there.
fn integer_behind<S: LinkStore>(store: &S, a: S::Atom, port: u8) -> Option<i64>
    requires { IsAtom (S.heap store.now) (S.atom_id a) }
    ensures { (q : ℕ × ℕ) → partner (S.heap store.now) (S.atom_id a, port) ≡ Some q → integer_at (S.heap store.now) q ≡ result }
{
    match checks::end(store, a, port) {
        Some((b, _)) => parts::integer_of(store, b),
        None => None,
    }
}

/// The integer that a typed context is whenever the code ahead succeeds, by an atom in the register from which it is entered.
fn part_integer<S: LinkStore>(
    store: &S,
    code: &Instrs<'_>,
    at: usize,
    part: u16,
    register: usize,
    a: S::Atom,
) -> Option<i64>
    requires atom { IsAtom (S.heap store.now) (S.atom_id a) }
    ensures { IfSome result (λ z. (c : HeadSize) (s : HeadRegisters) → s.images.atom register ≡ S.atom_id a → AllHold (S.heap store.now) c s (drop at code.now) → integer_at (S.heap store.now) (s.images.part part) ≡ Some z) }
{
    for i in at..code.len() {
        if let Instr::IsInt {
            part: tested,
            port,
            ..
        } = code.at(i)
        {
            if *tested == part && port.atom as usize == register {
                return integer_behind(store, a, port.port);
            }
        }
    }
    None
}

/// The value that an integer register has whenever the code ahead succeeds, by an atom in a register and constants alone.
fn value<S: LinkStore>(
    store: &S,
    code: &Instrs<'_>,
    at: usize,
    integer: u16,
    register: usize,
    a: S::Atom,
) -> Option<i64>
    requires atom { IsAtom (S.heap store.now) (S.atom_id a) }
    ensures { IfSome result (λ z. (c : HeadSize) (s : HeadRegisters) → s.images.atom register ≡ S.atom_id a → AllHold (S.heap store.now) c s (drop at code.now) → s.integer integer ≡ z) }
{
    for i in at..code.len() {
        match code.at(i) {
            Instr::Const {
                integer: set,
                value,
            } => {
                if *set == integer {
                    return integers::constant(value);
                }
            }
            Instr::GetInt {
                integer: given,
                part,
            } => {
                if *given == integer {
                    return part_integer(store, code, at, *part, register, a);
                }
            }
            _ => {}
        }
    }
    None
}

/// The values of two integer registers.
#[derive(Clone, Copy)]
struct Values {
    left: i64,
    right: i64,
}

/// The values of two integer registers, where `value` tells both.
fn both<S: LinkStore>(
    store: &S,
    code: &Instrs<'_>,
    at: usize,
    left: u16,
    right: u16,
    register: usize,
    a: S::Atom,
) -> Option<Values>
    requires atom { IsAtom (S.heap store.now) (S.atom_id a) }
    ensures { IfSome result (λ v. (c : HeadSize) (s : HeadRegisters) → s.images.atom register ≡ S.atom_id a → AllHold (S.heap store.now) c s (drop at code.now) → (s.integer left ≡ v.left) × (s.integer right ≡ v.right)) }
{
    match value(store, code, at, left, register, a) {
        Some(m) => match value(store, code, at, right, register, a) {
            Some(n) => Some(Values { left: m, right: n }),
            None => None,
        },
        None => None,
    }
}

/// Whether a comparison stands of the values of two registers.
fn stands(comparison: Cmp, v: Values) -> bool
    ensures { IsTrue result ↔ Stand comparison v.left v.right }
{
    match comparison {
        Cmp::Lt => integers::is_less(v.left, v.right),
        Cmp::Le => integers::is_at_most(v.left, v.right),
        Cmp::Gt => integers::is_greater(v.left, v.right),
        Cmp::Ge => integers::is_at_least(v.left, v.right),
        Cmp::Eq => integers::are_equal(v.left, v.right),
        Cmp::Ne => integers::are_different(v.left, v.right),
    }
}

/// Whether a comparison of two integer registers may stand with an atom in a register: where `both` doesn't tell them, it may.
fn may_compare<S: LinkStore>(
    store: &S,
    code: &Instrs<'_>,
    at: usize,
    comparison: Cmp,
    left: u16,
    right: u16,
    register: usize,
    a: S::Atom,
) -> bool
    requires atom { IsAtom (S.heap store.now) (S.atom_id a) }
    ensures { IsFalse result → (c : HeadSize) (s : HeadRegisters) → s.images.atom register ≡ S.atom_id a → AllHold (S.heap store.now) c s (drop at code.now) → Stand comparison (s.integer left) (s.integer right) → ⊥ }
{
    match both(store, code, at, left, right, register, a) {
        Some(v) => stands(comparison, v),
        None => true,
    }
}

/// Whether a condition ahead may hold with an atom in a register, by what it says of that atom alone.
fn may_hold<S: LinkStore>(
    store: &S,
    code: &Instrs<'_>,
    at: usize,
    instr: &Instr,
    register: usize,
    a: S::Atom,
) -> bool
    requires atom { IsAtom (S.heap store.now) (S.atom_id a) }
    ensures { IsFalse result → (c : HeadSize) (s : HeadRegisters) → s.images.atom register ≡ S.atom_id a → AllHold (S.heap store.now) c s (drop at code.now) → InstructionHolds (S.heap store.now) c s instr.now → ⊥ }
{
    match instr {
        Instr::IsInt { port, .. } => {
            if port.atom as usize != register {
                return true;
            }
            match integer_behind(store, a, port.port) {
                Some(_) => true,
                None => false,
            }
        }
        Instr::Lt { left, right } => {
            may_compare(store, code, at, Cmp::Lt, *left, *right, register, a)
        }
        Instr::Le { left, right } => {
            may_compare(store, code, at, Cmp::Le, *left, *right, register, a)
        }
        Instr::Gt { left, right } => {
            may_compare(store, code, at, Cmp::Gt, *left, *right, register, a)
        }
        Instr::Ge { left, right } => {
            may_compare(store, code, at, Cmp::Ge, *left, *right, register, a)
        }
        Instr::Eq { left, right } => {
            may_compare(store, code, at, Cmp::Eq, *left, *right, register, a)
        }
        Instr::Ne { left, right } => {
            may_compare(store, code, at, Cmp::Ne, *left, *right, register, a)
        }
        _ => true,
    }
}

/// Whether the code ahead may succeed with an atom in a register, by the conditions that say something of that atom alone: they
/// are asked as soon as it is chosen, however far behind they stand.
pub fn may_stand<S: LinkStore>(
    store: &S,
    code: &Instrs<'_>,
    at: usize,
    register: usize,
    a: S::Atom,
) -> bool
    requires { IsAtom (S.heap store.now) (S.atom_id a) }
    ensures { IsFalse result → (c : HeadSize) (s : HeadRegisters) → s.images.atom register ≡ S.atom_id a → AllHold (S.heap store.now) c s (drop at code.now) → ⊥ }
{
    for i in at..code.len() {
        if !may_hold(store, code, at, code.at(i), register, a) {
            return false;
        }
    }
    true
}
