//! Instructions through `lmn_instr`, listings and verified codes through `lmn_verify`.
ghost use Rattle.std.specs.Prelude.{◌≡◌, ◌≤◌, ◌<◌, ◌^◌, length, slice_get, Decides, IfOk, IfSome};
ghost use Rattle.std.specs.Option.{option_copied};
ghost use Rattle.std.specs.List.{AllByRecursion};
ghost use Rattle.lmn_io.specs.Writing.{WritesText};
ghost use Rattle.lmn_instr.specs.Labels.{HasLabel};
ghost use Rattle.lmn_instr.specs.Listings.{HasCode, code_listing, functor_text};
ghost use Rattle.lmn_verify.specs.Verified.{IsVerified};
ghost use Rattle.lmn_verify.specs.Turning.{CodedCanTurn};

use lmn_base::{Functor, Names, NoMemory, Rows, TextFault};
use lmn_instr::{AtomPort, Code, Instr, NewPort, list, read_functor};
use lmn_io::{Failed, Sink};
use lmn_store::LinkStore;
use lmn_verify::{Coded, is_verified, read};
use std::alloc::Global;

/// The functor that a text spells.
pub fn read_name(text: &[u8], names: &mut Names) -> Result<Option<Functor>, NoMemory>
    requires { length names.old < 2 ^ 32 }
    ensures { IfOk result (λ found. IfSome found (λ functor. HasLabel names.new functor.label × (functor_text names.new functor ≡ text.now))) }
{
    read_functor(text, names)
}

/// Writes the listing of a rule's code.
pub fn listed<O: Sink>(code: &Code, number: u32, names: &Names, sink: &mut O) -> Result<(), Failed>
    requires { HasCode names.now code.now }
    ensures { WritesText (code_listing names.now code.now number) result (O.told sink.old) (O.faults sink.old) (O.told sink.new) (O.faults sink.new) }
{
    list(code, number, names, sink)
}

/// The first of some instructions, if there is one.
pub fn first_instruction(code: &[Instr]) -> Option<&Instr>
    ensures { option_copied result ≡ slice_get code.now 0 }
{
    code.first()
}

/// Two ports as instructions have them: of an atom's register, and of any that a body joins.
pub fn ports(atom: AtomPort, made: NewPort) -> (AtomPort, NewPort)
    ensures { result ≡ (atom, made) }
{
    (atom, made)
}

/// Whether the first code of a table is verified.
pub fn first_code(alloc: Global, code: &Code, rules: u32) -> Result<bool, NoMemory>
    ensures { IfOk result (λ b. Decides b (IsVerified code.now rules)) }
{
    is_verified(alloc, code, rules)
}

/// The codes of a listing.
pub fn read_codes(
    alloc: Global,
    listing: &[u8],
    rules: u32,
    names: &mut Names,
) -> Result<Rows<Code>, TextFault>
    requires short { length listing.now ≤ 67108864 }
    requires room { length names.old ≤ 2 ^ 31 }
    ensures { IfOk result (λ codes. AllByRecursion (λ c. IsVerified c rules) codes) }
{
    read(alloc, listing, rules, names)
}

/// Codes that can be run, over a store.
pub fn coded<S: LinkStore + Drop>(
    alloc: Global,
    store: S,
    codes: Rows<Code>,
    size: u64,
) -> Result<Coded<S>, NoMemory>
    requires { CodedCanTurn (S.heap store) codes size }
    ensures { IfOk result (λ c. c.size ≡ size) }
{
    Coded::new(alloc, store, codes, size)
}
