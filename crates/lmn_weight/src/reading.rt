//! Reads WEIGHTS.
ghost use Rattle.std.specs.Prelude.{ℕ, List, true, false, ◌≡◌, ◌≤◌, ◌<◌, ◌+◌, ◌-◌, ◌^◌, length, take, drop, slice_index, IfSome, IfNone, IfOk, IfErr};
ghost use Rattle.std.specs.List.{list_all};
ghost use Rattle.std.specs.Char.{is_ascii_digit};
ghost use Rattle.lmn_base.specs.Refusals.{IfRefused};
ghost use Rattle.lmn_instr_reading.specs.Reading.{AddsNames, IsIn64Bits};
ghost use Rattle.lmn_base.specs.declared.refusal.TextFault.TheVariants.{Refused};
ghost use Rattle.lmn_weight.specs.Lines.{IsNarrow, is_listed, or_nothing};
ghost use Rattle.lmn_weight.specs.Lines.{AreWeightsOf, IsFirstWrongWeightLine, TakesFunctor, TakesInt, TakesItem, TakesLine, TakesMembrane};
ghost use Rattle.lmn_weight.specs.Plains.{AreSmall};

use crate::told::Told;
use crate::weights::{Weights, is_integer, same_functor};
use lmn_base::{Functor, Label, Names, NoMemory, Pos, RefusalCode, Rows, TextFault};
use lmn_instr_reading::{last_space, next_feed, number_written, read_functor};
use std::alloc::Global;

/// Whether a functor is among these.
fn is_listed(functor: Functor, functors: &[Functor]) -> bool
    ensures { result ≡ is_listed functor functors.now }
{
    for other in functors {
        if same_functor(*other, functor) {
            return true;
        }
    }
    false
}

/// Whether these are the bytes of a word.
fn is_text(item: &[u8], word: &[u8]) -> bool
    ensures yes { result ≡ true → item.now ≡ word.now }
    ensures no { result ≡ false → item.now ≡ word.now → ⊥ }
{
    item == word
}

/// An integer has 64 bits.
fn integer_is_narrow(integer: i64)
    ensures { IsIn64Bits integer }
{}

/// The integer of a functor has 64 bits, and its arity is at most 255.
fn functor_is_narrow(functor: Functor)
    ensures { IsNarrow functor }
{
    match functor.label {
        Label::Name(_) => {}
        Label::Int(integer) => integer_is_narrow(integer),
    }
}

/// Tells the weight of a functor, unless it is an integer with one link or is told already.
fn take_functor(told: &mut Told, functor: Functor, weight: u64) -> Result<bool, NoMemory>
    ensures { IfOk result (λ taken. TakesFunctor functor weight told.old told.new taken) }
{
    if is_integer(functor) || is_listed(functor, told.functors.as_slice()) {
        return Ok(false);
    }
    told.functors.push(functor)?;
    told.values.push(weight)?;
    Ok(true)
}

/// Tells the weight of integers with one link, unless it is told already.
fn take_int(told: &mut Told, weight: u64) -> bool
    ensures { TakesInt weight told.old told.new result }
{
    match told.int {
        Some(_) => false,
        None => {
            told.int = Some(weight);
            true
        }
    }
}

/// Tells the weight of membranes, unless it is told already.
fn take_membrane(told: &mut Told, weight: u64) -> bool
    ensures { TakesMembrane weight told.old told.new result }
{
    match told.membrane {
        Some(_) => false,
        None => {
            told.membrane = Some(weight);
            true
        }
    }
}

/// Tells the weight of what a line names, where it may be named and isn't told already.
fn take_item(told: &mut Told, item: &[u8], weight: u64, names: &mut Names) -> Result<bool, NoMemory>
    requires { length names.old < 2 ^ 32 }
    ensures told { IfOk result (λ taken. TakesItem names.new item.now weight told.old told.new taken) }
    ensures names { AddsNames 1 names.old names.new }
{
    if is_text(item, b"int") {
        return Ok(take_int(told, weight));
    }
    if is_text(item, b"{}") {
        return Ok(take_membrane(told, weight));
    }
    match read_functor(item, names)? {
        Some(functor) => {
            functor_is_narrow(functor);
            take_functor(told, functor, weight)
        }
        None => Ok(false),
    }
}

/// Tells what a line says, where it is of the form and names nothing that is told already.
fn take_line(told: &mut Told, line: &[u8], names: &mut Names) -> Result<bool, NoMemory>
    requires { length names.old < 2 ^ 32 }
    ensures told { IfOk result (λ taken. TakesLine names.new line.now told.old told.new taken) }
    ensures names { AddsNames 1 names.old names.new }
{
    match last_space(line) {
        Some(at) => match number_written(&line[at + 1..]) {
            Some(weight) => take_item(told, &line[..at], weight, names),
            None => Ok(false),
        },
        None => Ok(false),
    }
}

/// The line with this number is refused.
fn wrong(line: u64) -> TextFault
    ensures { result ≡ Refused (record { code = 85; pos = record { line = line; column = 1 } }) }
{
    TextFault::Refused(RefusalCode::BadWeight.at(Pos { line, column: 1 }))
}

/// The weights that were told. What wasn't weighs nothing.
fn weights_of(told: Told) -> Weights
    ensures functors { result.functors ≡ told.functors }
    ensures values { result.values ≡ told.values }
    ensures int { result.int ≡ or_nothing told.int }
    ensures membrane { result.membrane ≡ or_nothing told.membrane }
{
    let Told {
        functors,
        values,
        int,
        membrane,
    } = told;
    Weights {
        functors,
        values,
        int: int.unwrap_or(0),
        membrane: membrane.unwrap_or(0),
    }
}

/// The weights that lines tell. The first line that isn't of the form, or that names what an earlier one names, is refused.
///
/// # Errors
///
/// `Refused` by 85 at such a line, and `NoMemory` at want of memory.
pub fn read(alloc: Global, weights: &[u8], names: &mut Names) -> Result<Weights, TextFault>
    requires room { length names.old + length weights.now < 2 ^ 32 }
    ensures ok { IfOk result (λ w. AreWeightsOf names.new weights.now w) }
    ensures lists { IfOk result (λ w. length w.functors ≡ length w.values) }
    ensures small { IfOk result (λ w. AreSmall w) }
    ensures refused { IfErr result (λ fault. IfRefused fault (IsFirstWrongWeightLine names.new weights.now)) }
    ensures names { AddsNames (length weights.now) names.old names.new }
{
    let mut told = Told {
        functors: Rows::new(alloc),
        values: Rows::new(alloc),
        int: None,
        membrane: None,
    };
    let mut at = 0;
    let mut line = 1u64;
    while at < weights.len() {
        let end = match next_feed(weights, at) {
            Some(end) => end,
            None => return Err(wrong(line)),
        };
        if !take_line(&mut told, &weights[at..end], names)? {
            return Err(wrong(line));
        }
        at = end + 1;
        line += 1;
    }
    Ok(weights_of(told))
}
