//! Makes an instruction of its name and its operands.
ghost use Rattle.std.specs.Prelude.{◌≡◌, ◌++◌, map, List};
ghost use Rattle.lmn_instr_code.specs.Words.{operands, port_operand, opcode_of};
ghost use Rattle.lmn_instr_code.specs.declared.words.Operand.TheVariants as ops;
ghost use Rattle.lmn_instr_code.specs.declared.opcode.Kind.TheVariants as kinds;
ghost use Rattle.lmn_instr_code.specs.Opcodes.{form_of};
ghost use Rattle.lmn_verify_listing.specs.Forms.{FitsKind, FitsForm, in_form};

use lmn_base::{Functor, Rows};
use lmn_instr_code::{AtomPort, Instr, NewPort, Opcode, Operand};

/// The operand as the register of an atom.
fn atom(operand: Operand) -> u16
    requires { FitsKind kinds.Atom operand }
    ensures { ops.Atom result ≡ operand }
{
    match operand {
        Operand::Atom(value) => value,
        _ => unreachable!(),
    }
}

/// The operand as the register of a membrane.
fn membrane(operand: Operand) -> u16
    requires { FitsKind kinds.Membrane operand }
    ensures { ops.Membrane result ≡ operand }
{
    match operand {
        Operand::Membrane(value) => value,
        _ => unreachable!(),
    }
}

/// The operand as the register of a typed context.
fn part(operand: Operand) -> u16
    requires { FitsKind kinds.Part operand }
    ensures { ops.Part result ≡ operand }
{
    match operand {
        Operand::Part(value) => value,
        _ => unreachable!(),
    }
}

/// The operand as the register of an integer.
fn integer(operand: Operand) -> u16
    requires { FitsKind kinds.Integer operand }
    ensures { ops.Integer result ≡ operand }
{
    match operand {
        Operand::Integer(value) => value,
        _ => unreachable!(),
    }
}

/// The operand as the register of a copy.
fn copy(operand: Operand) -> u16
    requires { FitsKind kinds.Copy operand }
    ensures { ops.Copy result ≡ operand }
{
    match operand {
        Operand::Copy(value) => value,
        _ => unreachable!(),
    }
}

/// The operand as a port.
fn port(operand: Operand) -> AtomPort
    requires { FitsKind kinds.Port operand }
    ensures { ops.Port result ≡ operand }
{
    match operand {
        Operand::Port(value) => value,
        _ => unreachable!(),
    }
}

/// The operand as a functor.
fn functor(operand: Operand) -> Functor
    requires { FitsKind kinds.Functor operand }
    ensures { ops.Functor result ≡ operand }
{
    match operand {
        Operand::Functor(value) => value,
        _ => unreachable!(),
    }
}

/// The operand as a number of items.
fn count(operand: Operand) -> u64
    requires { FitsKind kinds.Count operand }
    ensures { ops.Number result ≡ operand }
{
    match operand {
        Operand::Number(value) => value,
        _ => unreachable!(),
    }
}

/// The operand as an integer.
fn constant(operand: Operand) -> i64
    requires { FitsKind kinds.Constant operand }
    ensures { ops.Constant result ≡ operand }
{
    match operand {
        Operand::Constant(value) => value,
        _ => unreachable!(),
    }
}

/// The operand as the index of a port.
fn index(operand: Operand) -> u8
    requires { FitsKind kinds.Index operand }
    ensures { ops.Number result ≡ operand }
{
    match operand {
        Operand::Number(value) => value as u8,
        _ => unreachable!(),
    }
}

/// The operand as the number of a rule.
fn rule(operand: Operand) -> u32
    requires { FitsKind kinds.Rule operand }
    ensures { ops.Number result ≡ operand }
{
    match operand {
        Operand::Number(value) => value as u32,
        _ => unreachable!(),
    }
}

/// The operand as a port that a body makes.
fn new_port(operand: Operand) -> NewPort
    requires { FitsKind kinds.NewPort operand }
    ensures { port_operand result ≡ operand }
{
    match operand {
        Operand::Port(port) => NewPort::Atom(port),
        Operand::Copy(copy) => NewPort::Copy(copy),
        _ => unreachable!(),
    }
}

/// The instruction with this name and these operands. Where it has fewer than three, what is left over isn't looked at.
pub fn build(
    opcode: Opcode,
    first: Operand,
    second: Operand,
    third: Operand,
    parts: Rows<u16>,
) -> Instr
    requires { FitsForm (form_of opcode) first second third parts }
    ensures opcode { opcode_of result ≡ opcode }
    ensures operands { operands result ≡ in_form (form_of opcode) first second third parts }
{
    match opcode {
        Opcode::FindAtom => Instr::FindAtom {
            atom: atom(first),
            membrane: membrane(second),
            functor: functor(third),
        },
        Opcode::Deref => Instr::Deref {
            atom: atom(first),
            from: port(second),
            port: index(third),
        },
        Opcode::Func => Instr::Func {
            atom: atom(first),
            functor: functor(second),
        },
        Opcode::InMem => Instr::InMem {
            atom: atom(first),
            membrane: membrane(second),
        },
        Opcode::NeqAtom => Instr::NeqAtom {
            atom: atom(first),
            other: atom(second),
        },
        Opcode::Joined => Instr::Joined {
            port: port(first),
            other: port(second),
        },
        Opcode::NotIn => Instr::NotIn {
            port: port(first),
            membrane: membrane(second),
        },
        Opcode::AnyMem => Instr::AnyMem {
            membrane: membrane(first),
            inside: membrane(second),
        },
        Opcode::NeqMem => Instr::NeqMem {
            membrane: membrane(first),
            other: membrane(second),
        },
        Opcode::IsInt => Instr::IsInt {
            part: part(first),
            port: port(second),
            membrane: membrane(third),
        },
        Opcode::IsUnary => Instr::IsUnary {
            part: part(first),
            port: port(second),
            membrane: membrane(third),
        },
        Opcode::IsGround => Instr::IsGround {
            part: part(first),
            port: port(second),
            membrane: membrane(third),
        },
        Opcode::NAtoms => Instr::NAtoms {
            membrane: membrane(first),
            count: count(second),
            parts,
        },
        Opcode::NMems => Instr::NMems {
            membrane: membrane(first),
            count: count(second),
        },
        Opcode::NoRules => Instr::NoRules {
            membrane: membrane(first),
        },
        Opcode::IsClosed => Instr::IsClosed {
            membrane: membrane(first),
            parts,
        },
        Opcode::EqGround => Instr::EqGround {
            part: part(first),
            other: part(second),
        },
        Opcode::NeqGround => Instr::NeqGround {
            part: part(first),
            other: part(second),
        },
        Opcode::GetInt => Instr::GetInt {
            integer: integer(first),
            part: part(second),
        },
        Opcode::Const => Instr::Const {
            integer: integer(first),
            value: constant(second),
        },
        Opcode::Add => Instr::Add {
            integer: integer(first),
            left: integer(second),
            right: integer(third),
        },
        Opcode::Sub => Instr::Sub {
            integer: integer(first),
            left: integer(second),
            right: integer(third),
        },
        Opcode::Mul => Instr::Mul {
            integer: integer(first),
            left: integer(second),
            right: integer(third),
        },
        Opcode::Div => Instr::Div {
            integer: integer(first),
            left: integer(second),
            right: integer(third),
        },
        Opcode::Mod => Instr::Mod {
            integer: integer(first),
            left: integer(second),
            right: integer(third),
        },
        Opcode::Lt => Instr::Lt {
            left: integer(first),
            right: integer(second),
        },
        Opcode::Le => Instr::Le {
            left: integer(first),
            right: integer(second),
        },
        Opcode::Gt => Instr::Gt {
            left: integer(first),
            right: integer(second),
        },
        Opcode::Ge => Instr::Ge {
            left: integer(first),
            right: integer(second),
        },
        Opcode::Eq => Instr::Eq {
            left: integer(first),
            right: integer(second),
        },
        Opcode::Ne => Instr::Ne {
            left: integer(first),
            right: integer(second),
        },
        Opcode::Commit => Instr::Commit,
        Opcode::RemoveAtom => Instr::RemoveAtom { atom: atom(first) },
        Opcode::RemovePart => Instr::RemovePart { part: part(first) },
        Opcode::RemoveMem => Instr::RemoveMem {
            membrane: membrane(first),
        },
        Opcode::NewAtom => Instr::NewAtom {
            atom: atom(first),
            membrane: membrane(second),
            functor: functor(third),
        },
        Opcode::NewInt => Instr::NewInt {
            atom: atom(first),
            membrane: membrane(second),
            integer: integer(third),
        },
        Opcode::NewMem => Instr::NewMem {
            membrane: membrane(first),
            inside: membrane(second),
        },
        Opcode::CopyGround => Instr::CopyGround {
            copy: copy(first),
            membrane: membrane(second),
            part: part(third),
        },
        Opcode::MoveCells => Instr::MoveCells {
            from: membrane(first),
            to: membrane(second),
        },
        Opcode::CopyCells => Instr::CopyCells {
            from: membrane(first),
            to: membrane(second),
        },
        Opcode::LoadRule => Instr::LoadRule {
            membrane: membrane(first),
            rule: rule(second),
        },
        Opcode::CopyRules => Instr::CopyRules {
            from: membrane(first),
            to: membrane(second),
        },
        Opcode::DropCells => Instr::DropCells {
            membrane: membrane(first),
        },
        Opcode::NewLink => Instr::NewLink {
            port: new_port(first),
            other: new_port(second),
        },
        Opcode::Relink => Instr::Relink {
            port: new_port(first),
            to: port(second),
        },
        Opcode::Unify => Instr::Unify {
            port: port(first),
            other: port(second),
        },
        Opcode::Proceed => Instr::Proceed,
    }
}
