//! What the names of a rule stand for, and whether its guard holds.
ghost use Rattle.std.specs.Prelude.{◌≡◌, ◌<◌, ◌↔◌, ◌==◌, ℕ, ℤ, Bool, true, [], ◌∷◌, IfOk, OnOk, IsTrue, None, Some, length, if◌then◌else◌};
ghost use Rattle.std.specs.Prelude.{option_and_then};
ghost use Rattle.std.specs.Option.{option_map};
ghost use Rattle.lmn_base.specs.Graphs.{SameGraph};
ghost use Rattle.lmn_guards.specs.Values.{Stand, value, value_beside};
ghost use Rattle.lmn_store_heap.specs.Graphs.{atom_map};
ghost use Rattle.lmn_store_heap.specs.Heap.{IsAtom, functor_of};
ghost use Rattle.lmn_store_heap.specs.Sound.{Valid};
ghost use Rattle.lmn_solid_heads.specs.Guards.{EqualHolds, HoldsOnHeap, integer_named, part_alone, IsOfKindAt, KindHolds, Meaning, TypeHolds, bind, context_alone, integer_of_functor, kind_named, with_part};
ghost use Rattle.lmn_solid_tables.specs.Flats.{heap_of, port_by};
ghost use Rattle.lmn_solid_search.specs.Binding.{after, after_all, bound_unless};
ghost use Rattle.lmn_solid_search.specs.Knowing.{AreParts, Compares, Holds, Knows, KnowsIntegers, or_else, part_named};
ghost use Rattle.lmn_solid_search.specs.Pairing.{HavePlaces, SameLengths};

use crate::pairs::{Pairs, are_equal};
use lmn_base::{Cmp, Cond, CtxUse, Expr, GROUND_NAME, INT_NAME, NoMemory, Rows, UNARY_NAME};
use lmn_guards::{TypeKind, eval};
use lmn_solid_heads::integer_with;
use lmn_solid_tables::{Flat, Port};
use std::alloc::Global;

/// A typed context, and the port at which its part is entered.
#[derive(Clone, Copy)]
pub(crate) struct Named {
    /// The number of its name.
    pub name: u32,
    /// The port.
    pub entry: Port,
}

/// What names stand for: parts, and integers.
#[derive(Drop)]
pub(crate) struct Known {
    pub parts: Rows<Named>,
    /// The names of integers. The first place of a name counts.
    pub names: Vec<u32>,
    /// The integer of each.
    pub values: Vec<i64>,
}

impl Known {
    /// Nothing is known.
    pub(crate) fn new(alloc: Global) -> Known
        ensures parts { result.parts ≡ [] }
        ensures names { result.names.items ≡ [] }
        ensures values { result.values.items ≡ [] }
    {
        Known {
            parts: Rows::new(alloc),
            names: Vec::new(alloc),
            values: Vec::new(alloc),
        }
    }

    /// The port at which the part of a name is entered.
    pub(crate) fn part(&self, name: u32) -> Option<Port>
        ensures { option_map port_by result ≡ part_named self.now.parts name }
    {
        find_part(self.parts.as_slice(), name)
    }

    /// The value of an expression.
    fn value(&self, expr: &Expr) -> Option<i64>
        ensures { result ≡ value (value_beside self.now.names.items self.now.values.items) expr.now }
    {
        eval(expr, self.names.as_slice(), self.values.as_slice())
    }

    /// Adds the part of a name, unless it has one.
    pub(crate) fn add(&mut self, flat: &Flat, name: u32, entry: Port) -> Result<(), NoMemory>
        requires { IsAtom (heap_of flat.now) entry.atom }
        ensures parts { OnOk result ((x : ℕ) → part_named self.new.parts x ≡ or_else (part_named self.old.parts x) (if name == x then Some (port_by entry) else None)) }
        ensures integers { OnOk result (KnowsIntegers (heap_of flat.now) self.old → KnowsIntegers (heap_of flat.now) self.new) }
    {
        if self.part(name).is_some() {
            return Ok(());
        }
        self.parts.push(Named { name, entry })?;
        match integer_of(flat, entry.atom) {
            Some(integer) => self.bind(name, integer),
            None => Ok(()),
        }
    }

    /// Binds a name to an integer, in the place of what it was bound to.
    pub(crate) fn bind(&mut self, name: u32, integer: i64) -> Result<(), NoMemory>
        ensures parts { self.new.parts ≡ self.old.parts }
        ensures names { OnOk result (self.new.names.items ≡ name ∷ self.old.names.items) }
        ensures values { OnOk result (self.new.values.items ≡ integer ∷ self.old.values.items) }
    {
        self.names.insert(0, name)?;
        self.values.insert(0, integer)?;
        Ok(())
    }
}

/// The first part with a name.
fn find_part(parts: &[Named], name: u32) -> Option<Port>
    ensures { option_map port_by result ≡ part_named parts.now name }
{
    for part in parts {
        if part.name == name {
            return Some(part.entry);
        }
    }
    None
}

/// The integer that an atom is, if it is one.
pub(crate) fn integer_of(flat: &Flat, atom: usize) -> Option<i64>
    requires { IsAtom (heap_of flat.now) atom }
    ensures { result ≡ integer_of_functor (functor_of (heap_of flat.now) atom) }
{
    integer_with(flat.functor(atom))
}

/// Whether a part is of a kind.
pub(crate) fn is_of_kind(flat: &Flat, kind: TypeKind, entry: Port) -> bool
    requires { IsAtom (heap_of flat.now) entry.atom }
    ensures { IsTrue result ↔ IsOfKindAt (heap_of flat.now) kind (port_by entry) }
{
    match kind {
        TypeKind::Int => integer_of(flat, entry.atom).is_some(),
        TypeKind::Unary => flat.functor(entry.atom).arity == 1,
        TypeKind::Ground => true,
    }
}

/// The kind that the name of a condition asks.
fn kind_of(name: u32) -> Option<TypeKind>
    ensures { result ≡ kind_named name }
{
    if name == INT_NAME {
        Some(TypeKind::Int)
    } else if name == UNARY_NAME {
        Some(TypeKind::Unary)
    } else if name == GROUND_NAME {
        Some(TypeKind::Ground)
    } else {
        None
    }
}

/// Whether the part of a context is of the kind that a name asks.
fn has_kind(flat: &Flat, known: &Known, name: u32, context: u32) -> bool
    requires { AreParts (heap_of flat.now) known.now.parts }
    ensures { IsTrue result ↔ with_part (part_named known.now.parts context) (KindHolds (heap_of flat.now) (kind_named name)) }
{
    match known.part(context) {
        Some(entry) => match kind_of(name) {
            Some(kind) => is_of_kind(flat, kind, entry),
            None => false,
        },
        None => false,
    }
}

/// Whether two integers stand in an order.
pub(crate) fn stand_so(op: Cmp, left: i64, right: i64) -> bool
    ensures { IsTrue result ↔ Stand op left right }
{
    match op {
        Cmp::Lt => left < right,
        Cmp::Le => left <= right,
        Cmp::Gt => left > right,
        Cmp::Ge => left >= right,
        Cmp::Eq => left == right,
        Cmp::Ne => left != right,
    }
}

/// Whether a condition on a type holds.
fn type_holds(flat: &Flat, known: &Known, name: u32, args: &[CtxUse]) -> bool
    requires { AreParts (heap_of flat.now) known.now.parts }
    ensures { (s : Meaning) → Knows (heap_of flat.now) known.now s → (IsTrue result ↔ TypeHolds (heap_of flat.now) s name args.now) }
{
    match args {
        [] => false,
        [only] => has_kind(flat, known, name, only.name),
        [_, _, ..] => false,
    }
}

/// Whether a comparison holds.
fn compares(known: &Known, op: Cmp, left: &Expr, right: &Expr) -> bool
    ensures { IsTrue result ↔ Compares (value_beside known.now.names.items known.now.values.items) op left.now right.now }
{
    match known.value(left) {
        Some(m) => match known.value(right) {
            Some(n) => stand_so(op, m, n),
            None => false,
        },
        None => false,
    }
}

/// The context that an expression is.
fn context_of(expr: &Expr) -> Option<u32>
    ensures { result ≡ context_alone expr.now }
{
    match expr {
        Expr::Int(_) => None,
        Expr::Ctx(context) => Some(context.name),
        Expr::Op { .. } => None,
    }
}

/// The part that an expression stands for.
fn part_of(known: &Known, expr: &Expr) -> Option<Port>
    ensures { option_map port_by result ≡ option_and_then (part_named known.now.parts) (context_alone expr.now) }
{
    match context_of(expr) {
        Some(context) => known.part(context),
        None => None,
    }
}

/// Whether a part is equal to another one, if there is one.
fn is_equal(
    alloc: Global,
    flat: &Flat,
    left: Port,
    right: Option<Port>,
    pairs: &mut Pairs,
) -> Result<bool, NoMemory>
    requires valid { Valid (heap_of flat.now) }
    requires left { IsAtom (heap_of flat.now) left.atom }
    requires right { (p : ℕ × ℕ) → option_map port_by right ≡ Some p → IsAtom (heap_of flat.now) p.0 }
    requires places { HavePlaces (heap_of flat.now) pairs.old }
    ensures lengths { SameLengths pairs.old pairs.new }
    ensures equal { IfOk result (λ equal. IsTrue equal ↔ with_part (option_map port_by right) (SameGraph (atom_map (heap_of flat.now)) (port_by left) (atom_map (heap_of flat.now)))) }
{
    match right {
        Some(other) => are_equal(alloc, flat, left, other, pairs),
        None => Ok(false),
    }
}

/// Whether `$x = E` holds. It may bind the name.
fn equal_holds(
    alloc: Global,
    flat: &Flat,
    left: u32,
    right: &Expr,
    known: &mut Known,
    pairs: &mut Pairs,
) -> Result<bool, NoMemory>
    requires valid { Valid (heap_of flat.now) }
    requires parts { AreParts (heap_of flat.now) known.old.parts }
    requires places { HavePlaces (heap_of flat.now) pairs.old }
    ensures lengths { SameLengths pairs.old pairs.new }
    ensures parts { known.new.parts ≡ known.old.parts }
    ensures holds { IfOk result (λ holds. (s : Meaning) → Knows (heap_of flat.now) known.old s → (IsTrue holds ↔ EqualHolds (heap_of flat.now) s (s.part_of left) (part_alone s (context_alone right.now)) left (value (integer_named (heap_of flat.now) s) right.now) (λ s'. Unit {0}))) }
    ensures after { IfOk result (λ holds. holds ≡ true → (s : Meaning) → Knows (heap_of flat.now) known.old s → Knows (heap_of flat.now) known.new (bound_unless s (s.part_of left) left (value (integer_named (heap_of flat.now) s) right.now))) }
{
    match known.part(left) {
        Some(entry) => is_equal(alloc, flat, entry, part_of(known, right), pairs),
        None => match known.value(right) {
            Some(integer) => {
                known.bind(left, integer)?;
                Ok(true)
            }
            None => Ok(false),
        },
    }
}

/// Whether `$x \= $y` holds.
fn differ_holds(
    alloc: Global,
    flat: &Flat,
    left: u32,
    right: u32,
    known: &Known,
    pairs: &mut Pairs,
) -> Result<bool, NoMemory>
    requires valid { Valid (heap_of flat.now) }
    requires parts { AreParts (heap_of flat.now) known.now.parts }
    requires places { HavePlaces (heap_of flat.now) pairs.old }
    ensures lengths { SameLengths pairs.old pairs.new }
    ensures holds { IfOk result (λ holds. IsTrue holds ↔ with_part (part_named known.now.parts left) (λ p. with_part (part_named known.now.parts right) (λ q. SameGraph (atom_map (heap_of flat.now)) p (atom_map (heap_of flat.now)) q → ⊥))) }
{
    match known.part(left) {
        Some(entry) => match known.part(right) {
            Some(other) => Ok(!are_equal(alloc, flat, entry, other, pairs)?),
            None => Ok(false),
        },
        None => Ok(false),
    }
}

/// Whether a condition holds. It may bind a name.
fn holds(
    alloc: Global,
    flat: &Flat,
    condition: &Cond,
    known: &mut Known,
    pairs: &mut Pairs,
) -> Result<bool, NoMemory>
    requires valid { Valid (heap_of flat.now) }
    requires parts { AreParts (heap_of flat.now) known.old.parts }
    requires places { HavePlaces (heap_of flat.now) pairs.old }
    ensures lengths { SameLengths pairs.old pairs.new }
    ensures parts { known.new.parts ≡ known.old.parts }
    ensures holds { IfOk result (λ holds. (s : Meaning) → Knows (heap_of flat.now) known.old s → (IsTrue holds ↔ Holds (heap_of flat.now) s condition.now)) }
    ensures after { IfOk result (λ holds. holds ≡ true → (s : Meaning) → Knows (heap_of flat.now) known.old s → Knows (heap_of flat.now) known.new (after (heap_of flat.now) s condition.now)) }
{
    match condition {
        Cond::Kind { name, args, .. } => Ok(type_holds(flat, known, *name, args.as_slice())),
        Cond::Compare {
            op,
            left,
            right,
            ..
        } => Ok(compares(known, *op, left, right)),
        Cond::Equal { left, right, .. } => {
            equal_holds(alloc, flat, left.name, right, known, pairs)
        }
        Cond::Differ { left, right, .. } => {
            differ_holds(alloc, flat, left.name, right.name, known, pairs)
        }
    }
}

/// Whether each condition of a guard holds, from left to right. What it binds is known behind it.
pub(crate) fn guard_holds(
    alloc: Global,
    flat: &Flat,
    guard: &[Cond],
    known: &mut Known,
    pairs: &mut Pairs,
) -> Result<bool, NoMemory>
    requires valid { Valid (heap_of flat.now) }
    requires parts { AreParts (heap_of flat.now) known.old.parts }
    requires places { HavePlaces (heap_of flat.now) pairs.old }
    ensures lengths { SameLengths pairs.old pairs.new }
    ensures parts { known.new.parts ≡ known.old.parts }
    ensures holds { IfOk result (λ holds. (s : Meaning) → Knows (heap_of flat.now) known.old s → (IsTrue holds ↔ HoldsOnHeap (heap_of flat.now) s guard.now)) }
    ensures after { IfOk result (λ holds. holds ≡ true → (s : Meaning) → Knows (heap_of flat.now) known.old s → Knows (heap_of flat.now) known.new (after_all (heap_of flat.now) s guard.now)) }
{
    for condition in guard {
        if !holds(alloc, flat, condition, known, pairs)? {
            return Ok(false);
        }
    }
    Ok(true)
}
