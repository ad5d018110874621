//! Compiles all rules, and writes the listings of codes.
ghost use Rattle.std.specs.Prelude.{◌≡◌, ◌<◌, ◌^◌, ℕ, List, length, All, IfOk};
ghost use Rattle.std.specs.List.{flat_map, AllByRecursion};
ghost use Rattle.lmn_base.specs.Names.{HasNames, plain_names};
ghost use Rattle.lmn_io.specs.Gathering.{Adds, output};
ghost use Rattle.lmn_io.specs.Writing.{WritesText};
ghost use Rattle.lmn_instr_code.specs.Listings.{HasCode, HasInstr, code_listing, line};
ghost use Rattle.lmn_compile_rules.specs.Compiled.{AreWhole};
ghost use Rattle.lmn_compile_listing.specs.Listings.{code_listings, rule_codes};

use crate::laws::codes_have_names;
use lmn_base::{Names, NoMemory, Plain};
use lmn_compile_rules::stored;
use lmn_guards::GuardPlan;
use lmn_instr_code::add_line;
use lmn_instr_pool::{Body, CodeView, Codes, Instrs};
use lmn_io::{Failed, LineBuffer, Sink};
use lmn_print_labels::add_number;
use std::alloc::Global;

/// The code of each rule of a plain, which has the number of its rule. `plans` has the plan of each rule, by its number.
/// A list that has the names of the plain has those of the codes.
///
/// # Errors
///
/// `NoMemory` at want of memory.
/// It has no sink, so that nothing is written before all is compiled shows in its type.
pub fn compile_rules(alloc: Global, plain: &Plain, plans: &[GuardPlan]) -> Result<Codes, NoMemory>
    requires { AreWhole plain.now.rules plans.now }
    ensures codes { IfOk result (λ codes. codes ≡ rule_codes plain.now.rules plans.now) }
    ensures named { IfOk result (λ codes. (names : List (List ℕ)) → HasNames names (plain_names plain.now) → All (HasCode names) codes) }
{
    codes_have_names();
    stored(alloc, plain, plans)
}

/// Adds the lines of a head.
fn add_head_lines<O: Sink>(buffer: &mut LineBuffer, out: &mut O, names: &Names, code: &Instrs<'_>)
    requires { AllByRecursion (HasInstr names.now) code.now }
    ensures { Adds (flat_map (line names.now) code.now) (output buffer.old (O.told out.old) (O.faults out.old)) (output buffer.new (O.told out.new) (O.faults out.new)) }
{
    for i in 0..code.len() {
        add_line(buffer, out, names, code.at(i));
    }
}

/// Adds the lines of a body.
fn add_body_lines<O: Sink>(buffer: &mut LineBuffer, out: &mut O, names: &Names, code: &Body<'_>)
    requires { AllByRecursion (HasInstr names.now) code.now }
    ensures { Adds (flat_map (line names.now) code.now) (output buffer.old (O.told out.old) (O.faults out.old)) (output buffer.new (O.told out.new) (O.faults out.new)) }
{
    for i in 0..code.len() {
        add_line(buffer, out, names, code.at(i));
    }
}

/// Adds the listing of the code of a rule.
fn add_code<O: Sink>(
    buffer: &mut LineBuffer,
    out: &mut O,
    names: &Names,
    code: &CodeView<'_>,
    number: u32,
)
    requires { HasCode names.now code.now }
    ensures { Adds (code_listing names.now code.now number) (output buffer.old (O.told out.old) (O.faults out.old)) (output buffer.new (O.told out.new) (O.faults out.new)) }
{
    buffer.add(out, b"rule ");
    add_number(buffer, out, number as u64);
    buffer.add(out, b"\n");
    add_head_lines(buffer, out, names, code.head());
    add_body_lines(buffer, out, names, code.body());
}

/// Writes the listing of the code of a rule.
fn list<O: Sink>(
    code: &CodeView<'_>,
    number: u32,
    names: &Names,
    sink: &mut O,
) -> Result<(), Failed>
    requires { HasCode names.now code.now }
    ensures { WritesText (code_listing names.now code.now number) result (O.told sink.old) (O.faults sink.old) (O.told sink.new) (O.faults sink.new) }
{
    let mut buffer = LineBuffer::new();
    add_code(&mut buffer, sink, names, code, number);
    buffer.finish(sink)
}

/// Writes the listing of each code, in the order of their numbers, from 0 on. `names` has those of the codes. It takes no memory.
///
/// # Errors
///
/// `Failed` where the sink failed; it then took a prefix of the listings.
pub fn list_codes<O: Sink>(codes: &Codes, names: &Names, out: &mut O) -> Result<(), Failed>
    requires named { All (HasCode names.now) codes.now }
    requires few { length codes.now < 2 ^ 32 }
    ensures { WritesText (code_listings names.now 0 codes.now) result (O.told out.old) (O.faults out.old) (O.told out.new) (O.faults out.new) }
{
    for k in 0..codes.len() {
        let code = codes.code(k as u32);
        list(&code, k as u32, names, out)?;
    }
    Ok(())
}
