//! The words of an instruction: its opcode and its operands.
ghost use Rattle.std.specs.Prelude.{◌≡◌, [], ◌∷◌};
ghost use Rattle.lmn_instr_code.specs.Words.{opcode_of, port_operand, operands, all_operands};
ghost use Rattle.lmn_instr_code.specs.Kept.{words_kept};

use crate::instr::{AtomPort, Instr, NewPort};
use crate::opcode::Opcode;
use lmn_base::Functor;

/// An operand of an instruction.
#[derive(Clone, Copy)]
pub enum Operand {
    /// The register of an atom.
    Atom(u16),
    /// The register of a membrane.
    Membrane(u16),
    /// The register of a typed context.
    Part(u16),
    /// The register of an integer.
    Integer(u16),
    /// The register of a copy.
    Copy(u16),
    /// A port of the atom in a register.
    Port(AtomPort),
    /// A functor.
    Functor(Functor),
    /// A number of items, a port of its own or the number of a rule.
    Number(u64),
    /// An integer of the guard.
    Constant(i64),
}

/// The words of an instruction: its opcode, at most three operands, and then any number of typed contexts.
#[derive(Clone, Copy)]
pub struct Operands<'a> {
    pub opcode: Opcode,
    pub first: Option<Operand>,
    pub second: Option<Operand>,
    pub third: Option<Operand>,
    /// The registers of the typed contexts.
    pub parts: &'a [u16],
}

/// No operand.
fn none<'a>(opcode: Opcode) -> Operands<'a>
    ensures { words_kept result ≡ (opcode, []) }
{
    Operands {
        opcode,
        first: None,
        second: None,
        third: None,
        parts: &[],
    }
}

/// One operand.
fn one<'a>(opcode: Opcode, first: Operand) -> Operands<'a>
    ensures { words_kept result ≡ (opcode, first ∷ []) }
{
    Operands {
        opcode,
        first: Some(first),
        second: None,
        third: None,
        parts: &[],
    }
}

/// Two operands.
fn two<'a>(opcode: Opcode, first: Operand, second: Operand) -> Operands<'a>
    ensures { words_kept result ≡ (opcode, first ∷ (second ∷ [])) }
{
    Operands {
        opcode,
        first: Some(first),
        second: Some(second),
        third: None,
        parts: &[],
    }
}

/// Three operands.
fn three<'a>(opcode: Opcode, first: Operand, second: Operand, third: Operand) -> Operands<'a>
    ensures { words_kept result ≡ (opcode, first ∷ (second ∷ (third ∷ []))) }
{
    Operands {
        opcode,
        first: Some(first),
        second: Some(second),
        third: Some(third),
        parts: &[],
    }
}

/// The operand of a port that a body makes.
fn new_port(port: NewPort) -> Operand
    ensures { result ≡ port_operand port }
{
    match port {
        NewPort::Atom(port) => Operand::Port(port),
        NewPort::Copy(copy) => Operand::Copy(copy),
    }
}

/// The opcode of an instruction, and its operands in their order.
pub fn operands_of(instr: &Instr) -> Operands
    ensures opcode { result.opcode ≡ opcode_of instr.now }
    ensures operands { all_operands result ≡ operands instr.now }
{
    with_opcode(instr, opcode_of(instr))
}

/// The opcode of an instruction.
fn opcode_of(instr: &Instr) -> Opcode
    ensures { result ≡ opcode_of instr.now }
{
    match instr {
        Instr::FindAtom { .. } => Opcode::FindAtom,
        Instr::Deref { .. } => Opcode::Deref,
        Instr::Func { .. } => Opcode::Func,
        Instr::InMem { .. } => Opcode::InMem,
        Instr::NeqAtom { .. } => Opcode::NeqAtom,
        Instr::Joined { .. } => Opcode::Joined,
        Instr::NotIn { .. } => Opcode::NotIn,
        Instr::AnyMem { .. } => Opcode::AnyMem,
        Instr::NeqMem { .. } => Opcode::NeqMem,
        Instr::IsInt { .. } => Opcode::IsInt,
        Instr::IsUnary { .. } => Opcode::IsUnary,
        Instr::IsGround { .. } => Opcode::IsGround,
        Instr::NAtoms { .. } => Opcode::NAtoms,
        Instr::NMems { .. } => Opcode::NMems,
        Instr::NoRules { .. } => Opcode::NoRules,
        Instr::IsClosed { .. } => Opcode::IsClosed,
        Instr::EqGround { .. } => Opcode::EqGround,
        Instr::NeqGround { .. } => Opcode::NeqGround,
        Instr::GetInt { .. } => Opcode::GetInt,
        Instr::Const { .. } => Opcode::Const,
        Instr::Add { .. } => Opcode::Add,
        Instr::Sub { .. } => Opcode::Sub,
        Instr::Mul { .. } => Opcode::Mul,
        Instr::Div { .. } => Opcode::Div,
        Instr::Mod { .. } => Opcode::Mod,
        Instr::Lt { .. } => Opcode::Lt,
        Instr::Le { .. } => Opcode::Le,
        Instr::Gt { .. } => Opcode::Gt,
        Instr::Ge { .. } => Opcode::Ge,
        Instr::Eq { .. } => Opcode::Eq,
        Instr::Ne { .. } => Opcode::Ne,
        Instr::Commit => Opcode::Commit,
        Instr::RemoveAtom { .. } => Opcode::RemoveAtom,
        Instr::RemovePart { .. } => Opcode::RemovePart,
        Instr::RemoveMem { .. } => Opcode::RemoveMem,
        Instr::NewAtom { .. } => Opcode::NewAtom,
        Instr::NewInt { .. } => Opcode::NewInt,
        Instr::NewMem { .. } => Opcode::NewMem,
        Instr::CopyGround { .. } => Opcode::CopyGround,
        Instr::MoveCells { .. } => Opcode::MoveCells,
        Instr::CopyCells { .. } => Opcode::CopyCells,
        Instr::LoadRule { .. } => Opcode::LoadRule,
        Instr::CopyRules { .. } => Opcode::CopyRules,
        Instr::DropCells { .. } => Opcode::DropCells,
        Instr::NewLink { .. } => Opcode::NewLink,
        Instr::Relink { .. } => Opcode::Relink,
        Instr::Unify { .. } => Opcode::Unify,
        Instr::Proceed => Opcode::Proceed,
    }
}

/// An opcode, with the operands of an instruction.
fn with_opcode(instr: &Instr, opcode: Opcode) -> Operands
    ensures { words_kept result ≡ (opcode, operands instr.now) }
{
    match instr {
        Instr::Commit | Instr::Proceed => none(opcode),
        Instr::RemoveAtom { atom } => one(opcode, Operand::Atom(*atom)),
        Instr::RemovePart { part } => one(opcode, Operand::Part(*part)),
        Instr::NoRules { membrane }
        | Instr::RemoveMem { membrane }
        | Instr::DropCells { membrane } => one(opcode, Operand::Membrane(*membrane)),
        Instr::Func { atom, functor } => two(
            opcode,
            Operand::Atom(*atom),
            Operand::Functor(*functor),
        ),
        Instr::InMem { atom, membrane } => two(
            opcode,
            Operand::Atom(*atom),
            Operand::Membrane(*membrane),
        ),
        Instr::NeqAtom { atom, other } => two(opcode, Operand::Atom(*atom), Operand::Atom(*other)),
        Instr::Joined { port, other } | Instr::Unify { port, other } => two(
            opcode,
            Operand::Port(*port),
            Operand::Port(*other),
        ),
        Instr::NotIn { port, membrane } => two(
            opcode,
            Operand::Port(*port),
            Operand::Membrane(*membrane),
        ),
        Instr::AnyMem {
            membrane: first,
            inside: second,
        }
        | Instr::NeqMem {
            membrane: first,
            other: second,
        }
        | Instr::NewMem {
            membrane: first,
            inside: second,
        }
        | Instr::MoveCells {
            from: first,
            to: second,
        }
        | Instr::CopyCells {
            from: first,
            to: second,
        }
        | Instr::CopyRules {
            from: first,
            to: second,
        } => two(
            opcode,
            Operand::Membrane(*first),
            Operand::Membrane(*second),
        ),
        Instr::NMems { membrane, count } => two(
            opcode,
            Operand::Membrane(*membrane),
            Operand::Number(*count),
        ),
        Instr::LoadRule { membrane, rule } => two(
            opcode,
            Operand::Membrane(*membrane),
            Operand::Number(*rule as u64),
        ),
        Instr::EqGround { part, other } | Instr::NeqGround { part, other } => two(
            opcode,
            Operand::Part(*part),
            Operand::Part(*other),
        ),
        Instr::GetInt { integer, part } => two(
            opcode,
            Operand::Integer(*integer),
            Operand::Part(*part),
        ),
        Instr::Const { integer, value } => two(
            opcode,
            Operand::Integer(*integer),
            Operand::Constant(*value),
        ),
        Instr::Lt { left, right }
        | Instr::Le { left, right }
        | Instr::Gt { left, right }
        | Instr::Ge { left, right }
        | Instr::Eq { left, right }
        | Instr::Ne { left, right } => two(
            opcode,
            Operand::Integer(*left),
            Operand::Integer(*right),
        ),
        Instr::NewLink { port, other } => two(opcode, new_port(*port), new_port(*other)),
        Instr::Relink { port, to } => two(opcode, new_port(*port), Operand::Port(*to)),
        Instr::FindAtom {
            atom,
            membrane,
            functor,
        }
        | Instr::NewAtom {
            atom,
            membrane,
            functor,
        } => three(
            opcode,
            Operand::Atom(*atom),
            Operand::Membrane(*membrane),
            Operand::Functor(*functor),
        ),
        Instr::Deref { atom, from, port } => three(
            opcode,
            Operand::Atom(*atom),
            Operand::Port(*from),
            Operand::Number(*port as u64),
        ),
        Instr::IsInt {
            part,
            port,
            membrane,
        }
        | Instr::IsUnary {
            part,
            port,
            membrane,
        }
        | Instr::IsGround {
            part,
            port,
            membrane,
        } => three(
            opcode,
            Operand::Part(*part),
            Operand::Port(*port),
            Operand::Membrane(*membrane),
        ),
        Instr::Add {
            integer,
            left,
            right,
        }
        | Instr::Sub {
            integer,
            left,
            right,
        }
        | Instr::Mul {
            integer,
            left,
            right,
        }
        | Instr::Div {
            integer,
            left,
            right,
        }
        | Instr::Mod {
            integer,
            left,
            right,
        } => three(
            opcode,
            Operand::Integer(*integer),
            Operand::Integer(*left),
            Operand::Integer(*right),
        ),
        Instr::NewInt {
            atom,
            membrane,
            integer,
        } => three(
            opcode,
            Operand::Atom(*atom),
            Operand::Membrane(*membrane),
            Operand::Integer(*integer),
        ),
        Instr::CopyGround {
            copy,
            membrane,
            part,
        } => three(
            opcode,
            Operand::Copy(*copy),
            Operand::Membrane(*membrane),
            Operand::Part(*part),
        ),
        Instr::NAtoms {
            membrane,
            count,
            parts,
        } => Operands {
            opcode,
            first: Some(Operand::Membrane(*membrane)),
            second: Some(Operand::Number(*count)),
            third: None,
            parts: parts.as_slice(),
        },
        Instr::IsClosed { membrane, parts } => Operands {
            opcode,
            first: Some(Operand::Membrane(*membrane)),
            second: None,
            third: None,
            parts: parts.as_slice(),
        },
    }
}
