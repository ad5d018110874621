//! Labels, links and contexts.
ghost use Rattle.std.specs.Prelude.{◌≡◌, ◌++◌};
ghost use Rattle.lmn_io.specs.Gathering.{Adds, output};
ghost use Rattle.lmn_congruence.specs.Translation.{label_of, name_of};
ghost use Rattle.lmn_base.specs.Names.{IsNames};
ghost use Rattle.lmn_flatten_plain.specs.Words.{link_name};
ghost use Rattle.lmn_flatten_plain.specs.Labels.{label_text};

use lmn_base::{Label, Names};
use lmn_io::{LineBuffer, Sink};
use lmn_print_labels::{add_integer, add_name, add_number};

/// The bytes of a name, and none where no name has the number.
pub fn name_of(names: &Names, number: u32) -> &[u8]
    ensures text { result.now ≡ name_of names.now number }
    ensures names { IsNames names.now }
{
    if (number as usize) < names.len() {
        names.text(number)
    } else {
        b""
    }
}

/// Adds a label: a name, bare or in quotes, or an integer in decimal.
pub fn add_label<O: Sink>(buffer: &mut LineBuffer, out: &mut O, names: &Names, label: Label)
    ensures { Adds (label_text (label_of names.now label)) (output buffer.old (O.told out.old) (O.faults out.old)) (output buffer.new (O.told out.new) (O.faults out.new)) }
{
    match label {
        Label::Name(number) => add_name(buffer, out, name_of(names, number)),
        Label::Int(value) => add_integer(buffer, out, value),
    }
}

/// Adds a link by its number: `L0`, `L1` and so on.
pub fn add_link<O: Sink>(buffer: &mut LineBuffer, out: &mut O, link: u64)
    ensures { Adds (link_name link) (output buffer.old (O.told out.old) (O.faults out.old)) (output buffer.new (O.told out.new) (O.faults out.new)) }
{
    buffer.add(out, b"L");
    add_number(buffer, out, link);
}

/// Adds a context, or a rule context, by the sign that stands before its name.
pub(crate) fn add_context<O: Sink>(
    buffer: &mut LineBuffer,
    out: &mut O,
    names: &Names,
    sign: &[u8],
    name: u32,
)
    ensures { Adds (sign.now ++ name_of names.now name) (output buffer.old (O.told out.old) (O.faults out.old)) (output buffer.new (O.told out.new) (O.faults out.new)) }
{
    buffer.add(out, sign);
    buffer.add(out, name_of(names, name));
}
