//! Whether the atoms and the membranes that a head finds are told apart.
ghost use Rattle.std.specs.Prelude.{◌≡◌, ◌<◌, ◌&&◌, length, IfOk, IfSome};
ghost use Rattle.std.specs.List.{list_all, list_any};
ghost use Rattle.lmn_store_heap.specs.Functors.{same_label, same_functor};
ghost use Rattle.lmn_verify_code.specs.Verified.{is_neq_atom, is_neq_membrane, are_apart, are_apart_membranes, each_two};
ghost use Rattle.lmn_verify_code.specs.Counted.{told_all, place_of, marked, both_marked, atoms_marked, membranes_marked, TellsPairs};

use crate::found::{FoundAtom, FoundMembrane};
use lmn_base::{Functor, Label, NoMemory, Rows};
use lmn_instr_code::Instr;
use std::alloc::Global;

/// Whether an instruction is NEQATOM of two registers.
fn is_neq_atom(atom: u16, other: u16, instr: &Instr) -> bool
    ensures { result ≡ is_neq_atom atom other instr.now }
{
    match instr {
        Instr::NeqAtom { atom: x, other: y } => {
            *x == atom && *y == other || *x == other && *y == atom
        }
        _ => false,
    }
}

/// Whether an instruction is NEQMEM of two registers.
fn is_neq_membrane(membrane: u16, other: u16, instr: &Instr) -> bool
    ensures { result ≡ is_neq_membrane membrane other instr.now }
{
    match instr {
        Instr::NeqMem {
            membrane: x,
            other: y,
        } => *x == membrane && *y == other || *x == other && *y == membrane,
        _ => false,
    }
}

/// Whether two labels are the same.
fn same_label(one: Label, other: Label) -> bool
    ensures { result ≡ same_label one other }
{
    match one {
        Label::Name(name) => match other {
            Label::Name(named) => name == named,
            Label::Int(_) => false,
        },
        Label::Int(value) => match other {
            Label::Name(_) => false,
            Label::Int(integer) => value == integer,
        },
    }
}

/// Whether two functors are the same.
pub(crate) fn same_functor(one: Functor, other: Functor) -> bool
    ensures { result ≡ same_functor one other }
{
    same_label(one.label, other.label) && one.arity == other.arity
}

/// Marks two registers in a table, if it has their place.
fn mark(pairs: &mut Rows<bool>, one: u16, other: u16)
    ensures { pairs.new ≡ marked pairs.old one other }
{
    if other < 256 {
        let place = one as usize * 256 + other as usize;
        if place < pairs.len() {
            pairs.set(place, true);
        }
    }
}

/// Marks them in both orders.
fn mark_both(pairs: &mut Rows<bool>, one: u16, other: u16)
    ensures { pairs.new ≡ both_marked pairs.old one other }
{
    mark(pairs, one, other);
    mark(pairs, other, one);
}

/// Marks the two registers of a NEQATOM.
fn mark_atoms(pairs: &mut Rows<bool>, instr: &Instr)
    ensures { pairs.new ≡ atoms_marked pairs.old instr.now }
{
    match instr {
        Instr::NeqAtom { atom, other } => mark_both(pairs, *atom, *other),
        _ => (),
    }
}

/// Marks the two registers of a NEQMEM.
fn mark_membranes(pairs: &mut Rows<bool>, instr: &Instr)
    ensures { pairs.new ≡ membranes_marked pairs.old instr.now }
{
    match instr {
        Instr::NeqMem { membrane, other } => mark_both(pairs, *membrane, *other),
        _ => (),
    }
}

/// Marks those of each NEQATOM.
fn mark_all_atoms(pairs: &mut Rows<bool>, code: &[Instr])
    ensures { pairs.new ≡ told_all atoms_marked pairs.old code.now }
{
    for instr in code {
        mark_atoms(pairs, instr);
    }
}

/// Marks those of each NEQMEM.
fn mark_all_membranes(pairs: &mut Rows<bool>, code: &[Instr])
    ensures { pairs.new ≡ told_all membranes_marked pairs.old code.now }
{
    for instr in code {
        mark_membranes(pairs, instr);
    }
}

/// A table of so many atom registers: of which two a head has NEQATOM.
fn atoms_told(alloc: Global, head: &[Instr], atoms: usize) -> Result<Rows<bool>, NoMemory>
    ensures { IfOk result (λ pairs. TellsPairs is_neq_atom head.now pairs) }
{
    let mut pairs = Rows::from_vec(vec![in alloc; false; atoms.min(256) * 256]?);
    mark_all_atoms(&mut pairs, head);
    Ok(pairs)
}

/// A table of so many membrane registers besides that of the rule: of which two a head has NEQMEM.
fn membranes_told(alloc: Global, head: &[Instr], membranes: usize) -> Result<Rows<bool>, NoMemory>
    ensures { IfOk result (λ pairs. TellsPairs is_neq_membrane head.now pairs) }
{
    let mut pairs = Rows::from_vec(vec![in alloc; false; (membranes.min(255) + 1) * 256]?);
    mark_all_membranes(&mut pairs, head);
    Ok(pairs)
}

/// The place of two registers in a table, if it has one.
fn place_in(pairs: &Rows<bool>, one: u16, other: u16) -> Option<usize>
    ensures { IfSome result (λ place. (place ≡ place_of one other) × (other < 256) × (place < length pairs.now)) }
{
    if other < 256 {
        let place = one as usize * 256 + other as usize;
        if place < pairs.len() {
            return Some(place);
        }
    }
    None
}

/// Whether a head has NEQATOM of two registers, by a table, if that has their place.
fn has_neq_atom(pairs: &Rows<bool>, head: &[Instr], atom: u16, other: u16) -> bool
    requires { TellsPairs is_neq_atom head.now pairs.now }
    ensures { result ≡ list_any (is_neq_atom atom other) head.now }
{
    match place_in(pairs, atom, other) {
        Some(place) => *pairs.at(place),
        None => some_neq_atom(head, atom, other),
    }
}

/// Whether some instruction is NEQATOM of two registers.
fn some_neq_atom(code: &[Instr], atom: u16, other: u16) -> bool
    ensures { result ≡ list_any (is_neq_atom atom other) code.now }
{
    code.iter().any(|instr| is_neq_atom(atom, other, instr))
}

/// Whether a head has NEQMEM of two registers, by a table, if that has their place.
fn has_neq_membrane(pairs: &Rows<bool>, head: &[Instr], membrane: u16, other: u16) -> bool
    requires { TellsPairs is_neq_membrane head.now pairs.now }
    ensures { result ≡ list_any (is_neq_membrane membrane other) head.now }
{
    match place_in(pairs, membrane, other) {
        Some(place) => *pairs.at(place),
        None => some_neq_membrane(head, membrane, other),
    }
}

/// Whether some instruction is NEQMEM of two registers.
fn some_neq_membrane(code: &[Instr], membrane: u16, other: u16) -> bool
    ensures { result ≡ list_any (is_neq_membrane membrane other) code.now }
{
    code.iter()
        .any(|instr| is_neq_membrane(membrane, other, instr))
}

/// Whether two atoms of one functor in one membrane are told apart.
fn are_apart(pairs: &Rows<bool>, head: &[Instr], one: &FoundAtom, other: &FoundAtom) -> bool
    requires { TellsPairs is_neq_atom head.now pairs.now }
    ensures { result ≡ are_apart head.now one.now other.now }
{
    !(same_functor(one.functor, other.functor) && one.membrane == other.membrane)
        || has_neq_atom(pairs, head, one.atom, other.atom)
}

/// Whether two membranes in one are told apart.
fn are_apart_membranes(
    pairs: &Rows<bool>,
    head: &[Instr],
    one: &FoundMembrane,
    other: &FoundMembrane,
) -> bool
    requires { TellsPairs is_neq_membrane head.now pairs.now }
    ensures { result ≡ are_apart_membranes head.now one.now other.now }
{
    !(one.inside == other.inside) || has_neq_membrane(pairs, head, one.membrane, other.membrane)
}

/// Whether an atom is told apart from each of some others.
fn is_apart(pairs: &Rows<bool>, head: &[Instr], one: &FoundAtom, others: &[FoundAtom]) -> bool
    requires { TellsPairs is_neq_atom head.now pairs.now }
    ensures { result ≡ list_all (are_apart head.now one.now) others.now }
{
    others
        .iter()
        .all(|other| are_apart(pairs, head, one, other))
}

/// Whether all atoms are told apart.
fn all_apart(pairs: &Rows<bool>, head: &[Instr], atoms: &[FoundAtom]) -> bool
    requires { TellsPairs is_neq_atom head.now pairs.now }
    ensures { result ≡ each_two (are_apart head.now) atoms.now }
{
    for at in 0..atoms.len() {
        if !is_apart(pairs, head, &atoms[at], &atoms[at + 1..]) {
            return false;
        }
    }
    true
}

/// Whether a membrane is told apart from each of some others.
fn is_membrane_apart(
    pairs: &Rows<bool>,
    head: &[Instr],
    one: &FoundMembrane,
    others: &[FoundMembrane],
) -> bool
    requires { TellsPairs is_neq_membrane head.now pairs.now }
    ensures { result ≡ list_all (are_apart_membranes head.now one.now) others.now }
{
    others
        .iter()
        .all(|other| are_apart_membranes(pairs, head, one, other))
}

/// Whether all membranes are told apart.
fn all_apart_membranes(pairs: &Rows<bool>, head: &[Instr], membranes: &[FoundMembrane]) -> bool
    requires { TellsPairs is_neq_membrane head.now pairs.now }
    ensures { result ≡ each_two (are_apart_membranes head.now) membranes.now }
{
    for at in 0..membranes.len() {
        if !is_membrane_apart(pairs, head, &membranes[at], &membranes[at + 1..]) {
            return false;
        }
    }
    true
}

/// Whether all atoms and all membranes that a head has found are told apart.
pub(crate) fn are_told_apart(
    alloc: Global,
    head: &[Instr],
    atoms: &[FoundAtom],
    membranes: &[FoundMembrane],
) -> Result<bool, NoMemory>
    ensures { IfOk result (λ b. b ≡ (each_two (are_apart head.now) atoms.now && each_two (are_apart_membranes head.now) membranes.now)) }
{
    let apart = atoms_told(alloc, head, atoms.len())?;
    let apart_membranes = membranes_told(alloc, head, membranes.len())?;
    Ok(all_apart(&apart, head, atoms) && all_apart_membranes(&apart_membranes, head, membranes))
}
