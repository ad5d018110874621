//! Whether each register is set before it is read, and how many are set.
ghost use Rattle.std.specs.Prelude.{◌≡◌, ◌+◌, ◌++◌, map, take, drop, true, false, if◌then◌else◌, option_to_list, IfSome, IfNone};
ghost use Rattle.std.specs.List.{list_all};
ghost use Rattle.lmn_instr_code.specs.declared.words.Operand.TheVariants as ops;
ghost use Rattle.lmn_instr_code.specs.Words.{operands};
ghost use Rattle.lmn_verify_code.specs.Verified.{is_next, is_set, with_one, uses_in_order, after, in_order, after_all, at_first, sets_register, after_one};

use crate::found::RegisterCounts;
use lmn_base::Functor;
use lmn_base::limits::{
    MOST_ATOM_REGISTERS, MOST_COPY_REGISTERS, MOST_INTEGER_REGISTERS, MOST_MEMBRANE_REGISTERS,
    MOST_PART_REGISTERS,
};
use lmn_instr_code::{Instr, Operand, Operands, operands_of};

/// Whether a register is the next of its kind, and there is one.
fn is_next(counts: RegisterCounts, operand: Operand) -> bool
    ensures { result ≡ is_next counts operand }
{
    match operand {
        Operand::Atom(atom) => atom == counts.atoms && atom < MOST_ATOM_REGISTERS,
        Operand::Membrane(membrane) => membrane == counts.membranes
            && membrane < MOST_MEMBRANE_REGISTERS,
        Operand::Part(part) => part == counts.parts && part < MOST_PART_REGISTERS,
        Operand::Integer(integer) => integer == counts.integers && integer < MOST_INTEGER_REGISTERS,
        Operand::Copy(copy) => copy == counts.copies && copy < MOST_COPY_REGISTERS,
        Operand::Port(_) => false,
        Operand::Functor(_) => false,
        Operand::Number(_) => false,
        Operand::Constant(_) => false,
    }
}

/// Whether the register of an operand is set.
fn is_set(counts: RegisterCounts, operand: Operand) -> bool
    ensures { result ≡ is_set counts operand }
{
    match operand {
        Operand::Atom(atom) => atom < counts.atoms,
        Operand::Membrane(membrane) => membrane < counts.membranes,
        Operand::Part(part) => part < counts.parts,
        Operand::Integer(integer) => integer < counts.integers,
        Operand::Copy(copy) => copy < counts.copies,
        Operand::Port(port) => port.atom < counts.atoms,
        Operand::Functor(_) => true,
        Operand::Number(_) => true,
        Operand::Constant(_) => true,
    }
}

/// Whether a register is the next, where the instruction sets it, or else is set.
fn is_next_or_set(sets: bool, counts: RegisterCounts, operand: Operand) -> bool
    ensures { result ≡ (if sets then is_next counts operand else is_set counts operand) }
{
    if sets {
        is_next(counts, operand)
    } else {
        is_set(counts, operand)
    }
}

/// Whether the register of an operand is set, where there is an operand.
fn is_some_set(counts: RegisterCounts, operand: Option<Operand>) -> bool
    ensures { result ≡ list_all (is_set counts) (option_to_list operand) }
{
    match operand {
        Some(operand) => is_set(counts, operand),
        None => true,
    }
}

/// Whether the registers of typed contexts are set.
fn are_parts_set(counts: RegisterCounts, parts: &[u16]) -> bool
    ensures { result ≡ list_all (is_set counts) (map ops.Part parts.now) }
{
    for part in parts {
        if !is_set(counts, Operand::Part(*part)) {
            return false;
        }
    }
    true
}

/// The first of some operands, if there is one.
fn first_of(
    first: Option<Operand>,
    second: Option<Operand>,
    third: Option<Operand>,
    parts: &[u16],
) -> Option<Operand>
    ensures { option_to_list result ≡ take 1 (option_to_list first ++ (option_to_list second ++ (option_to_list third ++ map ops.Part parts.now))) }
{
    match first {
        Some(operand) => Some(operand),
        None => match second {
            Some(operand) => Some(operand),
            None => match third {
                Some(operand) => Some(operand),
                None => match parts {
                    [part, ..] => Some(Operand::Part(*part)),
                    [] => None,
                },
            },
        },
    }
}

/// Whether the registers of all but the first of some operands are set.
fn are_others_set(
    counts: RegisterCounts,
    first: Option<Operand>,
    second: Option<Operand>,
    third: Option<Operand>,
    parts: &[u16],
) -> bool
    ensures { result ≡ list_all (is_set counts) (drop 1 (option_to_list first ++ (option_to_list second ++ (option_to_list third ++ map ops.Part parts.now)))) }
{
    match first {
        Some(_) => {
            is_some_set(counts, second)
                && is_some_set(counts, third)
                && are_parts_set(counts, parts)
        }
        None => match second {
            Some(_) => is_some_set(counts, third) && are_parts_set(counts, parts),
            None => match third {
                Some(_) => are_parts_set(counts, parts),
                None => match parts {
                    [_, more @ ..] => are_parts_set(counts, more),
                    [] => true,
                },
            },
        },
    }
}

/// Whether an operand is the next, where the instruction sets it, or else is set, where there is an operand.
fn is_some_next_or_set(sets: bool, counts: RegisterCounts, operand: Option<Operand>) -> bool
    ensures { result ≡ list_all (λ o. if sets then is_next counts o else is_set counts o) (option_to_list operand) }
{
    match operand {
        Some(operand) => is_next_or_set(sets, counts, operand),
        None => true,
    }
}

/// Whether an instruction sets a register, that of its first operand.
fn sets_register(instr: &Instr) -> bool
    ensures { result ≡ sets_register instr.now }
{
    operands_of(instr).opcode.form().sets
}

/// Whether an instruction sets the next register or none, and reads none that isn't set.
fn uses_in_order(counts: RegisterCounts, instr: &Instr) -> bool
    ensures { result ≡ uses_in_order (sets_register instr.now) counts (operands instr.now) }
{
    let Operands {
        first,
        second,
        third,
        parts,
        ..
    } = operands_of(instr);
    is_some_next_or_set(
        sets_register(instr),
        counts,
        first_of(first, second, third, parts),
    ) && are_others_set(counts, first, second, third, parts)
}

/// With one register more, which is the next.
fn with_one(counts: RegisterCounts, operand: Operand) -> RegisterCounts
    requires { is_next counts operand ≡ true }
    ensures { result ≡ with_one counts operand }
{
    let RegisterCounts {
        atoms,
        membranes,
        parts,
        integers,
        copies,
    } = counts;
    match operand {
        Operand::Atom(_) => of_counts(atoms + 1, membranes, parts, integers, copies),
        Operand::Membrane(_) => of_counts(atoms, membranes + 1, parts, integers, copies),
        Operand::Part(_) => of_counts(atoms, membranes, parts + 1, integers, copies),
        Operand::Integer(_) => of_counts(atoms, membranes, parts, integers + 1, copies),
        Operand::Copy(_) => of_counts(atoms, membranes, parts, integers, copies + 1),
        Operand::Port(_) => counts,
        Operand::Functor(_) => counts,
        Operand::Number(_) => counts,
        Operand::Constant(_) => counts,
    }
}

/// So many registers.
fn of_counts(atoms: u16, membranes: u16, parts: u16, integers: u16, copies: u16) -> RegisterCounts
    ensures { result ≡ record { atoms = atoms; membranes = membranes; parts = parts; integers = integers; copies = copies } }
{
    RegisterCounts {
        atoms,
        membranes,
        parts,
        integers,
        copies,
    }
}

/// With the register of an operand, where there is one and the instruction sets it.
fn with_some(sets: bool, counts: RegisterCounts, operand: Option<Operand>) -> RegisterCounts
    requires { list_all (λ o. if sets then is_next counts o else is_set counts o) (option_to_list operand) ≡ true }
    ensures { result ≡ after_one sets counts (option_to_list operand) }
{
    match operand {
        Some(operand) => {
            if sets {
                with_one(counts, operand)
            } else {
                counts
            }
        }
        None => counts,
    }
}

/// The registers that are set behind an instruction.
fn after(counts: RegisterCounts, instr: &Instr) -> RegisterCounts
    requires { uses_in_order (sets_register instr.now) counts (operands instr.now) ≡ true }
    ensures { result ≡ after counts instr.now }
{
    let Operands {
        first,
        second,
        third,
        parts,
        ..
    } = operands_of(instr);
    with_some(
        sets_register(instr),
        counts,
        first_of(first, second, third, parts),
    )
}

/// The registers that are set behind code that sets them in order and reads none that isn't set, or `None` for other code.
fn in_order(counts: RegisterCounts, code: &[Instr]) -> Option<RegisterCounts>
    ensures some { IfSome result (λ c. (in_order counts code.now ≡ true) × (c ≡ after_all counts code.now)) }
    ensures none { IfNone result (in_order counts code.now ≡ false) }
{
    let mut now = counts;
    for instr in code {
        if !uses_in_order(now, instr) {
            return None;
        }
        now = after(now, instr);
    }
    Some(now)
}

/// Whether the code of a rule sets registers in order, and reads none that isn't set.
pub(crate) fn is_in_order(head: &[Instr], body: &[Instr]) -> bool
    ensures { result ≡ in_order at_first (head.now ++ body.now) }
{
    match in_order(of_counts(0, 1, 0, 0, 0), head) {
        Some(counts) => in_order(counts, body).is_some(),
        None => false,
    }
}
