ghost use Rattle.std.specs.Prelude.{◌++◌, map, option_to_list};
ghost use Rattle.std.specs.Fmt.{decimal};
ghost use Rattle.std.specs.List.{flat_map, AllByRecursion};
ghost use Rattle.lmn_io.specs.Gathering.{Adds, output};
ghost use Rattle.lmn_io.specs.Writing.{WritesText};
ghost use Rattle.lmn_instr_code.specs.Labels.{HasLabel};
ghost use Rattle.lmn_instr_code.specs.Listings.{port_text, functor_text, operand_text, operands_text, line, code_listing, HasOperand, HasInstr, HasCode};
ghost use Rattle.lmn_instr_code.specs.declared.words.Operand.TheVariants as operand;

use crate::instr::{AtomPort, Code, Instr};
use crate::labels::add_label;
use crate::words::{Operand, Operands, operands_of};
use lmn_base::{Functor, Names};
use lmn_io::{Failed, LineBuffer, Sink};
use lmn_print_labels::{add_integer, add_number};

/// Writes the listing of a rule's code: a line with the number of the rule, and then a line for each instruction. The
/// list of names has those of all functors. It takes no memory.
///
/// # Errors
///
/// `Failed` where the sink failed; it then took a prefix of the listing.
pub fn list<O: Sink>(code: &Code, number: u32, names: &Names, sink: &mut O) -> Result<(), Failed>
    requires { HasCode names.now code.now }
    ensures { WritesText (code_listing names.now code.now number) result (O.told sink.old) (O.faults sink.old) (O.told sink.new) (O.faults sink.new) }
{
    let mut buffer = LineBuffer::new();
    add_code(&mut buffer, sink, names, code, number);
    buffer.finish(sink)
}

/// Adds the listing of a rule's code.
fn add_code<O: Sink>(buffer: &mut LineBuffer, out: &mut O, names: &Names, code: &Code, number: u32)
    requires { HasCode names.now code.now }
    ensures { Adds (code_listing names.now code.now number) (output buffer.old (O.told out.old) (O.faults out.old)) (output buffer.new (O.told out.new) (O.faults out.new)) }
{
    buffer.add(out, b"rule ");
    add_number(buffer, out, number as u64);
    buffer.add(out, b"\n");
    add_lines(buffer, out, names, code.head.as_slice());
    add_lines(buffer, out, names, code.body.as_slice());
}

/// Adds the lines of instructions.
fn add_lines<O: Sink>(buffer: &mut LineBuffer, out: &mut O, names: &Names, code: &[Instr])
    requires { AllByRecursion (HasInstr names.now) code.now }
    ensures { Adds (flat_map (line names.now) code.now) (output buffer.old (O.told out.old) (O.faults out.old)) (output buffer.new (O.told out.new) (O.faults out.new)) }
{
    for instr in code {
        add_line(buffer, out, names, instr);
    }
}

/// Adds the line of an instruction. The list of names has those of its functors. It takes no memory.
pub fn add_line<O: Sink>(buffer: &mut LineBuffer, out: &mut O, names: &Names, instr: &Instr)
    requires { HasInstr names.now instr.now }
    ensures { Adds (line names.now instr.now) (output buffer.old (O.told out.old) (O.faults out.old)) (output buffer.new (O.told out.new) (O.faults out.new)) }
{
    let Operands {
        opcode,
        first,
        second,
        third,
        parts,
    } = operands_of(instr);
    buffer.add(out, b"  ");
    buffer.add(out, opcode.name());
    add_some_operand(buffer, out, names, first);
    add_some_operand(buffer, out, names, second);
    add_some_operand(buffer, out, names, third);
    add_parts(buffer, out, names, parts);
    buffer.add(out, b"\n");
}

/// Adds an operand, if there is one, behind a space.
fn add_some_operand<O: Sink>(
    buffer: &mut LineBuffer,
    out: &mut O,
    names: &Names,
    operand: Option<Operand>,
)
    requires { AllByRecursion (HasOperand names.now) (option_to_list operand) }
    ensures { Adds (operands_text names.now (option_to_list operand)) (output buffer.old (O.told out.old) (O.faults out.old)) (output buffer.new (O.told out.new) (O.faults out.new)) }
{
    if let Some(operand) = operand {
        buffer.add(out, b" ");
        add_operand(buffer, out, names, operand);
    }
}

/// Adds the registers of typed contexts, each behind a space.
fn add_parts<O: Sink>(buffer: &mut LineBuffer, out: &mut O, names: &Names, parts: &[u16])
    ensures { Adds (operands_text names.now (map operand.Part parts.now)) (output buffer.old (O.told out.old) (O.faults out.old)) (output buffer.new (O.told out.new) (O.faults out.new)) }
{
    for part in parts {
        buffer.add(out, b" ");
        add_operand(buffer, out, names, Operand::Part(*part));
    }
}

/// Adds an operand.
fn add_operand<O: Sink>(buffer: &mut LineBuffer, out: &mut O, names: &Names, operand: Operand)
    requires { HasOperand names.now operand }
    ensures { Adds (operand_text names.now operand) (output buffer.old (O.told out.old) (O.faults out.old)) (output buffer.new (O.told out.new) (O.faults out.new)) }
{
    match operand {
        Operand::Atom(register) => add_register(buffer, out, b"A", register),
        Operand::Membrane(register) => add_register(buffer, out, b"M", register),
        Operand::Part(register) => add_register(buffer, out, b"G", register),
        Operand::Integer(register) => add_register(buffer, out, b"V", register),
        Operand::Copy(register) => add_register(buffer, out, b"C", register),
        Operand::Port(port) => add_port(buffer, out, port),
        Operand::Functor(functor) => add_functor(buffer, out, names, functor),
        Operand::Number(number) => add_number(buffer, out, number),
        Operand::Constant(value) => add_integer(buffer, out, value),
    }
}

/// Adds a register by its letter and its number.
fn add_register<O: Sink>(buffer: &mut LineBuffer, out: &mut O, letter: &[u8], register: u16)
    ensures { Adds (letter.now ++ decimal register) (output buffer.old (O.told out.old) (O.faults out.old)) (output buffer.new (O.told out.new) (O.faults out.new)) }
{
    buffer.add(out, letter);
    add_number(buffer, out, register as u64);
}

/// Adds a port of the atom in a register.
fn add_port<O: Sink>(buffer: &mut LineBuffer, out: &mut O, port: AtomPort)
    ensures { Adds (port_text port) (output buffer.old (O.told out.old) (O.faults out.old)) (output buffer.new (O.told out.new) (O.faults out.new)) }
{
    buffer.add(out, b"A");
    add_number(buffer, out, port.atom as u64);
    buffer.add(out, b".");
    add_number(buffer, out, port.port as u64);
}

/// Adds a functor.
fn add_functor<O: Sink>(buffer: &mut LineBuffer, out: &mut O, names: &Names, functor: Functor)
    requires { HasLabel names.now functor.label }
    ensures { Adds (functor_text names.now functor) (output buffer.old (O.told out.old) (O.faults out.old)) (output buffer.new (O.told out.new) (O.faults out.new)) }
{
    add_label(buffer, out, names, functor.label);
    buffer.add(out, b"/");
    add_number(buffer, out, functor.arity as u64);
}
