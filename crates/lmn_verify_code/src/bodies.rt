//! Whether a body takes out what the head holds, and then makes, moves, drops and ties.
ghost use Rattle.std.specs.Prelude.{◌≡◌, ◌<◌, ◌≤◌, ◌+◌, ◌^◌, ◌++◌, map, length, drop};
ghost use Rattle.lmn_instr_code.specs.declared.words.Operand.TheVariants as ops;
ghost use Rattle.lmn_congruence_splice.specs.Classes.{rising};
ghost use Rattle.lmn_verify_code.specs.Verified.{is_open, is_removed, makes, is_made, ties, ties_and_ends, makes_and_ties, drops, drops_and_ties, removes, takes_out, registers_held};

use crate::apart::same_functor;
use crate::heads::is_proceed;
use lmn_base::{CONNECTOR_NAME, Functor, Label};
use lmn_instr_code::{Instr, NewPort};

/// Whether a membrane is that of the rule, or one that the body makes.
fn is_open(head_membranes: usize, membrane: u16) -> bool
    ensures { result ≡ is_open head_membranes membrane }
{
    membrane == 0 || head_membranes <= membrane as usize
}

/// Whether a membrane is one that the head has found.
fn is_removed(head_membranes: usize, membrane: u16) -> bool
    ensures { result ≡ is_removed head_membranes membrane }
{
    0 < membrane && (membrane as usize) < head_membranes
}

/// Whether an instruction makes, moves or copies something, from and to where it may.
fn makes(head_membranes: usize, rules: u32, instr: &Instr) -> bool
    ensures { result ≡ makes head_membranes rules instr.now }
{
    match instr {
        Instr::NewAtom {
            membrane,
            functor,
            ..
        } => is_open(head_membranes, *membrane) && !same_functor(*functor, CONNECTOR),
        Instr::NewInt { membrane, .. } => is_open(head_membranes, *membrane),
        Instr::NewMem { inside, .. } => is_open(head_membranes, *inside),
        Instr::CopyGround { membrane, .. } => is_open(head_membranes, *membrane),
        Instr::MoveCells { from, to } => {
            is_removed(head_membranes, *from) && is_open(head_membranes, *to)
        }
        Instr::CopyCells { from, to } => {
            is_removed(head_membranes, *from) && is_open(head_membranes, *to)
        }
        Instr::LoadRule { membrane, rule } => is_open(head_membranes, *membrane) && *rule < rules,
        Instr::CopyRules { from, to } => {
            is_removed(head_membranes, *from) && is_open(head_membranes, *to)
        }
        _ => false,
    }
}

/// The functor of a connector.
const CONNECTOR: Functor = Functor {
    label: Label::Name(CONNECTOR_NAME),
    arity: 2,
};

/// Whether a body makes a port, where the head finds so many atoms.
fn is_made(head_atoms: usize, port: NewPort) -> bool
    ensures { result ≡ is_made head_atoms port }
{
    match port {
        NewPort::Atom(port) => head_atoms <= port.atom as usize,
        NewPort::Copy(_) => true,
    }
}

/// Whether an instruction ties ports that are made and ports of the head.
fn ties(head_atoms: usize, instr: &Instr) -> bool
    ensures { result ≡ ties head_atoms instr.now }
{
    match instr {
        Instr::NewLink { port, other } => is_made(head_atoms, *port) && is_made(head_atoms, *other),
        Instr::Relink { port, to } => {
            is_made(head_atoms, *port) && (to.atom as usize) < head_atoms
        }
        Instr::Unify { port, other } => {
            (port.atom as usize) < head_atoms && (other.atom as usize) < head_atoms
        }
        _ => false,
    }
}

/// Whether from a place on a body ties, and PROCEED ends it and stands once.
fn ties_and_ends(head_atoms: usize, body: &[Instr], from: usize) -> bool
    requires { from ≤ length body.now }
    ensures { result ≡ ties_and_ends head_atoms (drop from body.now) }
{
    for at in from..body.len() {
        if is_proceed(&body[at]) {
            return at + 1 == body.len();
        }
        if !ties(head_atoms, &body[at]) {
            return false;
        }
    }
    false
}

/// Whether an instruction is DROPCELLS of what is left in a removed membrane.
fn drops(head_membranes: usize, instr: &Instr) -> bool
    ensures { result ≡ drops head_membranes instr.now }
{
    match instr {
        Instr::DropCells { membrane } => is_removed(head_membranes, *membrane),
        _ => false,
    }
}

/// Whether from a place on a body drops, and then ties and ends.
fn drops_and_ties(head_membranes: usize, head_atoms: usize, body: &[Instr], from: usize) -> bool
    requires { from ≤ length body.now }
    ensures { result ≡ drops_and_ties head_membranes head_atoms (drop from body.now) }
{
    for at in from..body.len() {
        if !drops(head_membranes, &body[at]) {
            return ties_and_ends(head_atoms, body, at);
        }
    }
    false
}

/// Whether from a place on a body makes, moves and copies, and then drops, ties and ends.
pub(crate) fn makes_and_ties(
    head_membranes: usize,
    rules: u32,
    head_atoms: usize,
    body: &[Instr],
    from: usize,
) -> bool
    requires { from ≤ length body.now }
    ensures { result ≡ makes_and_ties head_membranes rules head_atoms (drop from body.now) }
{
    for at in from..body.len() {
        if !makes(head_membranes, rules, &body[at]) {
            return drops_and_ties(head_membranes, head_atoms, body, at);
        }
    }
    false
}

/// Whether an instruction takes out an atom.
fn removes_atom(instr: &Instr, number: usize) -> bool
    ensures { result ≡ removes instr.now (ops.Atom number) }
{
    match instr {
        Instr::RemoveAtom { atom } => *atom as usize == number,
        _ => false,
    }
}

/// Whether an instruction takes out a typed context.
fn removes_part(instr: &Instr, number: usize) -> bool
    ensures { result ≡ removes instr.now (ops.Part number) }
{
    match instr {
        Instr::RemovePart { part } => *part as usize == number,
        _ => false,
    }
}

/// Whether an instruction takes out a membrane.
fn removes_membrane(instr: &Instr, number: usize) -> bool
    ensures { result ≡ removes instr.now (ops.Membrane number) }
{
    match instr {
        Instr::RemoveMem { membrane } => *membrane as usize == number,
        _ => false,
    }
}

/// Whether code begins by taking out so many membranes.
fn takes_membranes(code: &[Instr], membranes: usize) -> bool
    requires { membranes < 2 ^ 32 }
    ensures { result ≡ takes_out (map ops.Membrane (rising 1 membranes)) code.now }
{
    for at in 0..membranes {
        if at >= code.len() {
            return false;
        }
        if !removes_membrane(&code[at], at + 1) {
            return false;
        }
    }
    true
}

/// Whether code begins by taking out so many typed contexts, and then membranes.
fn takes_parts(code: &[Instr], parts: usize, membranes: usize) -> bool
    requires { membranes < 2 ^ 32 }
    ensures { result ≡ takes_out (map ops.Part (rising 0 parts) ++ map ops.Membrane (rising 1 membranes)) code.now }
{
    for at in 0..parts {
        if at >= code.len() {
            return false;
        }
        if !removes_part(&code[at], at) {
            return false;
        }
    }
    takes_membranes(behind(code, parts), membranes)
}

/// Whether code begins by taking out so many atoms, and then typed contexts and membranes.
pub(crate) fn takes_atoms(code: &[Instr], atoms: usize, parts: usize, membranes: usize) -> bool
    requires { membranes < 2 ^ 32 }
    ensures { result ≡ takes_out (registers_held atoms parts membranes) code.now }
{
    for at in 0..atoms {
        if at >= code.len() {
            return false;
        }
        if !removes_atom(&code[at], at) {
            return false;
        }
    }
    takes_parts(behind(code, atoms), parts, membranes)
}

/// What stands behind so many instructions.
pub(crate) fn behind(code: &[Instr], count: usize) -> &[Instr]
    ensures { result.now ≡ drop count code.now }
{
    if count < code.len() {
        &code[count..]
    } else {
        &code[code.len()..]
    }
}
