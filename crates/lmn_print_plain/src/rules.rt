//! Levels and rules.
ghost use Rattle.std.specs.Prelude.{◌≡◌, ◌+◌, ◌-◌, slice_get};
ghost use Rattle.std.specs.Option.{option_copied};
ghost use Rattle.lmn_io.specs.Gathering.{Adds, output};
ghost use Rattle.lmn_congruence.specs.Translation.{numbered_rule};
ghost use Rattle.lmn_flatten_plain.specs.Words.{level_pieces, rule_pieces, text_of, with_commas};
ghost use Rattle.lmn_print_plain.specs.Parts.{level_in, rule_text};

use crate::guard::add_guard;
use crate::leaves::{add_between, add_contexts, add_leaves, add_untyped};
use lmn_base::{Level, Names, RuleTree};
use lmn_io::{LineBuffer, Sink};

/// Adds the rule with a number, in parentheses, every rule in it written out. A number that no rule of the table has is
/// written as the rule of nothing, and one that no name has as the empty name. It takes no memory.
pub fn add_rule<O: Sink>(
    buffer: &mut LineBuffer,
    out: &mut O,
    names: &Names,
    table: &[RuleTree],
    number: u32,
)
    ensures { Adds (text_of (rule_pieces (numbered_rule names.now table.now number))) (output buffer.old (O.told out.old) (O.faults out.old)) (output buffer.new (O.told out.new) (O.faults out.new)) }
{
    add_rule_from(buffer, out, names, table, 0, number);
}

/// Adds the rule with a number, where rules below `first` are left out.
#[cycle(rules)]
fn add_rule_from<O: Sink>(
    buffer: &mut LineBuffer,
    out: &mut O,
    names: &Names,
    table: &[RuleTree],
    first: usize,
    number: u32,
)
    ensures { Adds (rule_text names.now first table.now number) (output buffer.old (O.told out.old) (O.faults out.old)) (output buffer.new (O.told out.new) (O.faults out.new)) }
{
    let number = at_least(first, number as usize);
    match rule_at(table, number) {
        Some(rule) => {
            buffer.add(out, b"(");
            add_level(buffer, out, names, table, number + 1, &rule.head);
            buffer.add(out, b" :- ");
            add_guard(buffer, out, names, rule.guard.as_slice());
            add_level(buffer, out, names, table, number + 1, &rule.body);
            buffer.add(out, b")");
        }
        None => buffer.add(out, b"( :- )"),
    }
}

/// The rule with a number, where the table has one.
fn rule_at(table: &[RuleTree], number: usize) -> Option<&RuleTree>
    ensures { option_copied result ≡ slice_get table.now number }
{
    match table.get(number) {
        Some(rule) => Some(rule),
        None => None,
    }
}

/// The number, or `first` where that is greater.
fn at_least(first: usize, number: usize) -> usize
    ensures { result ≡ first + (number - first) }
{
    if number < first { first } else { number }
}

/// Adds the items of a level, with commas between them. The rules in it have numbers from `first` on.
#[cycle(rules)]
fn add_level<O: Sink>(
    buffer: &mut LineBuffer,
    out: &mut O,
    names: &Names,
    table: &[RuleTree],
    first: usize,
    level: &Level,
)
    ensures { Adds (text_of (with_commas (level_pieces (level_in names.now first table.now level.now)))) (output buffer.old (O.told out.old) (O.faults out.old)) (output buffer.new (O.told out.new) (O.faults out.new)) }
{
    let mut any = add_leaves(buffer, out, names, level.leaves.as_slice());
    for inner in level.membranes.as_slice() {
        add_between(buffer, out, any, b", ");
        buffer.add(out, b"{");
        add_level(buffer, out, names, table, first, inner);
        buffer.add(out, b"}");
        any = true;
    }
    let contexts = add_untyped(buffer, out, names, any, level.contexts.as_slice());
    let before = add_contexts(
        buffer,
        out,
        names,
        contexts,
        b"@",
        level.rule_contexts.as_slice(),
    );
    let mut any = before;
    for rule in level.rules.as_slice() {
        add_between(buffer, out, any, b", ");
        add_rule_from(buffer, out, names, table, first, *rule);
        any = true;
    }
}
