//! What the head of a code finds, and the ports of its atoms.
ghost use Rattle.std.specs.Prelude.{◌≡◌, ◌≤◌, ◌^◌, ◌++◌, ◌∷◌, [], map, filter_map, option_to_list, IfOk, OnOk, length};
ghost use Rattle.std.specs.List.{flat_map};
ghost use Rattle.lmn_verify_code.specs.Verified.{found_behind, found_first, atoms_found, membrane_found, membranes_found, part_found, parts_found, arity_made, is_copy, places};

use crate::found::{FoundAtom, FoundMembrane, FoundPart};
use lmn_base::{NoMemory, Rows};
use lmn_guards::TypeKind;
use lmn_instr_code::{AtomPort, Instr, NewPort};
use std::alloc::Global;

/// What DEREF into a register finds is told by the FUNC and the INMEM behind it.
fn found_behind(atom: u16, code: &[Instr]) -> Option<FoundAtom>
    ensures { option_to_list result ≡ found_behind atom code.now }
{
    match code {
        [first, more @ ..] => match first {
            Instr::Func { functor, .. } => match more {
                [second, ..] => match second {
                    Instr::InMem { membrane, .. } => Some(FoundAtom {
                        atom,
                        functor: *functor,
                        membrane: *membrane,
                    }),
                    _ => None,
                },
                [] => None,
            },
            _ => None,
        },
        [] => None,
    }
}

/// The atom that an instruction finds, with these behind it.
fn found_first(instr: &Instr, behind: &[Instr]) -> Option<FoundAtom>
    ensures { option_to_list result ≡ found_first instr.now behind.now }
{
    match instr {
        Instr::FindAtom {
            atom,
            membrane,
            functor,
        } => Some(FoundAtom {
            atom: *atom,
            functor: *functor,
            membrane: *membrane,
        }),
        Instr::Deref { atom, .. } => found_behind(*atom, behind),
        _ => None,
    }
}

/// The atoms that a head finds.
pub(crate) fn atoms_found(alloc: Global, head: &[Instr]) -> Result<Rows<FoundAtom>, NoMemory>
    ensures { IfOk result (λ atoms. atoms ≡ atoms_found head.now) }
{
    let mut atoms = Rows::new(alloc);
    for at in 0..head.len() {
        push_some(&mut atoms, found_first(&head[at], &head[at + 1..]))?;
    }
    Ok(atoms)
}

/// Adds an atom, if there is one.
fn push_some(atoms: &mut Rows<FoundAtom>, atom: Option<FoundAtom>) -> Result<(), NoMemory>
    ensures { OnOk result (atoms.new ≡ atoms.old ++ option_to_list atom) }
{
    match atom {
        Some(atom) => atoms.push(atom),
        None => Ok(()),
    }
}

/// The membrane that an instruction finds.
fn membrane_found(instr: &Instr) -> Option<FoundMembrane>
    ensures { result ≡ membrane_found instr.now }
{
    match instr {
        Instr::AnyMem { membrane, inside } => Some(FoundMembrane {
            membrane: *membrane,
            inside: *inside,
        }),
        _ => None,
    }
}

/// The membranes that a head finds.
pub(crate) fn membranes_found(alloc: Global, head: &[Instr]) -> Result<Vec<FoundMembrane>, NoMemory>
    ensures { IfOk result (λ membranes. membranes.items ≡ membranes_found head.now) }
{
    Ok(
        head.iter()
            .filter_map(|instr| membrane_found(instr))
            .collect(alloc)?,
    )
}

/// The typed context at which an instruction looks.
fn part_found(instr: &Instr) -> Option<FoundPart>
    ensures { result ≡ part_found instr.now }
{
    match instr {
        Instr::IsInt {
            part,
            port,
            membrane,
        } => Some(part_of(*part, TypeKind::Int, *port, *membrane)),
        Instr::IsUnary {
            part,
            port,
            membrane,
        } => Some(part_of(*part, TypeKind::Unary, *port, *membrane)),
        Instr::IsGround {
            part,
            port,
            membrane,
        } => Some(part_of(*part, TypeKind::Ground, *port, *membrane)),
        _ => None,
    }
}

fn part_of(part: u16, kind: TypeKind, port: AtomPort, membrane: u16) -> FoundPart
    ensures { result ≡ record { part = part; kind = kind; port = port; membrane = membrane } }
{
    FoundPart {
        part,
        kind,
        port,
        membrane,
    }
}

/// The typed contexts at which a head looks.
pub(crate) fn parts_found(alloc: Global, head: &[Instr]) -> Result<Vec<FoundPart>, NoMemory>
    ensures { IfOk result (λ parts. parts.items ≡ parts_found head.now) }
{
    Ok(
        head.iter()
            .filter_map(|instr| part_found(instr))
            .collect(alloc)?,
    )
}

/// The number of ports of the atom that an instruction makes.
fn arity_made(instr: &Instr) -> Option<u8>
    ensures { result ≡ arity_made instr.now }
{
    match instr {
        Instr::NewAtom { functor, .. } => Some(functor.arity),
        Instr::NewInt { .. } => Some(1),
        _ => None,
    }
}

/// How many ports the atoms have that a body makes.
fn arities_made(alloc: Global, body: &[Instr]) -> Result<Vec<u8>, NoMemory>
    ensures { IfOk result (λ arities. arities.items ≡ filter_map arity_made body.now) }
{
    Ok(
        body.iter()
            .filter_map(|instr| arity_made(instr))
            .collect(alloc)?,
    )
}

/// How many ports the atoms have that a head finds.
fn arities_found(alloc: Global, atoms: &[FoundAtom]) -> Result<Vec<u8>, NoMemory>
    ensures { IfOk result (λ arities. arities.items ≡ map (λ a. a.functor.arity) atoms.now) }
{
    Ok(atoms.iter().map(|atom| atom.functor.arity).collect(alloc)?)
}

/// How many ports the atom in each register has.
pub(crate) fn arities(
    alloc: Global,
    atoms: &[FoundAtom],
    body: &[Instr],
) -> Result<Vec<u8>, NoMemory>
    ensures { IfOk result (λ arities. arities.items ≡ map (λ a. a.functor.arity) atoms.now ++ filter_map arity_made body.now) }
{
    let mut arities = arities_found(alloc, atoms)?;
    let made = arities_made(alloc, body)?;
    arities.extend_from_slice(made.as_slice())?;
    Ok(arities)
}

/// Whether an instruction makes a copy.
pub(crate) fn is_copy(instr: &Instr) -> bool
    ensures { result ≡ is_copy instr.now }
{
    match instr {
        Instr::CopyGround { .. } => true,
        _ => false,
    }
}

/// Adds the places of ports and copies at which an instruction says where they lead.
pub(crate) fn add_places(stands: &mut Rows<NewPort>, instr: &Instr) -> Result<(), NoMemory>
    ensures { OnOk result (stands.new ≡ stands.old ++ places instr.now) }
{
    match instr {
        Instr::Deref { atom, from, port } => push_two(
            stands,
            NewPort::Atom(*from),
            NewPort::Atom(AtomPort {
                atom: *atom,
                port: *port,
            }),
        ),
        Instr::Joined { port, other } => {
            push_two(stands, NewPort::Atom(*port), NewPort::Atom(*other))
        }
        Instr::IsInt { port, .. } => stands.push(NewPort::Atom(*port)),
        Instr::IsUnary { port, .. } => stands.push(NewPort::Atom(*port)),
        Instr::IsGround { port, .. } => stands.push(NewPort::Atom(*port)),
        Instr::NewLink { port, other } => push_two(stands, *port, *other),
        Instr::Relink { port, to } => push_two(stands, *port, NewPort::Atom(*to)),
        Instr::Unify { port, other } => {
            push_two(stands, NewPort::Atom(*port), NewPort::Atom(*other))
        }
        _ => Ok(()),
    }
}

/// Adds two places.
fn push_two(stands: &mut Rows<NewPort>, first: NewPort, second: NewPort) -> Result<(), NoMemory>
    ensures { OnOk result (stands.new ≡ stands.old ++ (first ∷ (second ∷ []))) }
{
    stands.push(first)?;
    stands.push(second)
}

/// Adds the places of all instructions of some code.
pub(crate) fn add_all_places(stands: &mut Rows<NewPort>, code: &[Instr]) -> Result<(), NoMemory>
    ensures { OnOk result (stands.new ≡ stands.old ++ flat_map places code.now) }
{
    for instr in code {
        add_places(stands, instr)?;
    }
    Ok(())
}
