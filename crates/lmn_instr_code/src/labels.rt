ghost use Rattle.lmn_io.specs.Gathering.{Adds, output};
ghost use Rattle.lmn_instr_code.specs.Labels.{HasLabel, listed_label_text};

use lmn_base::{Label, Names};
use lmn_io::{LineBuffer, Sink};
use lmn_print_labels::{add_integer, add_name};

/// Adds a label: a name, or an integer in decimal.
pub(crate) fn add_label<O: Sink>(buffer: &mut LineBuffer, out: &mut O, names: &Names, label: Label)
    requires { HasLabel names.now label }
    ensures { Adds (listed_label_text names.now label) (output buffer.old (O.told out.old) (O.faults out.old)) (output buffer.new (O.told out.new) (O.faults out.new)) }
{
    match label {
        Label::Name(number) => add_name(buffer, out, names.text(number)),
        Label::Int(value) => add_integer(buffer, out, value),
    }
}
