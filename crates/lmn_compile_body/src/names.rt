ghost use Rattle.std.specs.Prelude.{◌≡◌, ◌+◌, ◌<◌, ◌++◌, ◌^◌, length, IfOk, OnOk};
ghost use Rattle.lmn_solid_bodies.specs.Flattening.{names_inside, membrane_named};
ghost use Rattle.lmn_compile_body.specs.Naming.{numbered_contexts, numbered_rule_contexts};
ghost use Rattle.lmn_compile_head.specs.Bindings.{part_numbers};

use lmn_base::{CtxUse, Level, NoMemory, Rows};
use lmn_solid_heads::HeadItem;

/// The number that stands beside a name first, or 0.
pub fn number_of(names: &[(u32, u16)], name: u32) -> u16
    ensures { result ≡ membrane_named names.now name }
{
    for entry in names {
        let (other, number) = *entry;
        if other == name {
            return number;
        }
    }
    0
}

/// The number of the typed context of a head with this name.
pub fn part_of(items: &[HeadItem], name: u32) -> Option<u16>
    requires { length items.now < 2 ^ 15 }
    ensures { result ≡ part_numbers items.now name }
{
    let mut part = 0;
    for item in items {
        match item {
            HeadItem::Typed { name: other, .. } => {
                if *other == name {
                    return Some(part);
                }
                part += 1;
            }
            HeadItem::Atom { .. } => {}
            HeadItem::Membrane { .. } => {}
        }
    }
    None
}

/// Adds the names of contexts that stand in a membrane.
fn add_names(names: &mut Rows<(u32, u16)>, uses: &[CtxUse], inside: u16) -> Result<(), NoMemory>
    ensures { OnOk result (names.new ≡ names.old ++ names_inside inside uses.now) }
{
    for context in uses {
        names.push((context.name, inside))?;
    }
    Ok(())
}

/// Adds the untyped contexts of a level that stands in membrane `inside`, where the membranes in it are numbered from `next` on.
/// Answers the number behind them.
pub fn add_contexts(
    names: &mut Rows<(u32, u16)>,
    level: &Level,
    inside: u16,
    next: u16,
) -> Result<u16, NoMemory>
    requires { next + (numbered_contexts level.now).size < 2 ^ 16 }
    ensures { IfOk result (λ behind. (names.new ≡ names.old ++ (numbered_contexts level.now).names inside next) × (behind ≡ next + (numbered_contexts level.now).size)) }
{
    add_names(names, level.contexts.as_slice(), inside)?;
    let mut behind = next;
    for membrane in level.membranes.as_slice() {
        behind = add_contexts(names, membrane, behind, behind + 1)?;
    }
    Ok(behind)
}

/// Adds the rule contexts of a level likewise.
pub fn add_rule_contexts(
    names: &mut Rows<(u32, u16)>,
    level: &Level,
    inside: u16,
    next: u16,
) -> Result<u16, NoMemory>
    requires { next + (numbered_rule_contexts level.now).size < 2 ^ 16 }
    ensures { IfOk result (λ behind. (names.new ≡ names.old ++ (numbered_rule_contexts level.now).names inside next) × (behind ≡ next + (numbered_rule_contexts level.now).size)) }
{
    add_names(names, level.rule_contexts.as_slice(), inside)?;
    let mut behind = next;
    for membrane in level.membranes.as_slice() {
        behind = add_rule_contexts(names, membrane, behind, behind + 1)?;
    }
    Ok(behind)
}
