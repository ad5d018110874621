//! What names of a rule stand for.
ghost use Rattle.std.specs.Prelude.{◌≡◌, ◌+◌, ◌++◌, IfOk, OnOk, map};
ghost use Rattle.std.specs.List.{zip};
ghost use Rattle.lmn_solid_heads.specs.Heads.{typed_contexts_of};
ghost use Rattle.lmn_solid_bodies.specs.Flattening.{membrane_named, names_inside, numbering};
ghost use Rattle.lmn_solid_search.specs.Placing.{membrane_at};
ghost use Rattle.lmn_solid_firing.specs.Pieces.{imaged};

use crate::images::membrane_image;
use crate::numbers::after;
use lmn_base::{CtxUse, Level, NoMemory, Rows};
use lmn_solid_heads::HeadItem;
use std::alloc::Global;

/// Names beside their integers.
pub(crate) fn integers_of(
    alloc: Global,
    names: &[u32],
    values: &[i64],
) -> Result<Rows<(u32, i64)>, NoMemory>
    ensures { IfOk result (λ integers. integers ≡ zip names.now values.now) }
{
    let mut integers = Rows::new(alloc);
    for place in 0..names.len() {
        if place >= values.len() {
            return Ok(integers);
        }
        integers.push((names[place], values[place]))?;
    }
    Ok(integers)
}

/// The names of the typed contexts of a head.
pub(crate) fn typed_names(alloc: Global, items: &[HeadItem]) -> Result<Rows<u32>, NoMemory>
    ensures { IfOk result (λ names. names ≡ map (λ t. t.name) (typed_contexts_of items.now)) }
{
    let mut names = Rows::new(alloc);
    for item in items {
        match item {
            HeadItem::Atom { .. } => {}
            HeadItem::Typed { name, .. } => names.push(*name)?,
            HeadItem::Membrane { .. } => {}
        }
    }
    Ok(names)
}

/// Adds the names of contexts that stand in a membrane.
fn add_names(names: &mut Rows<(u32, usize)>, uses: &[CtxUse], inside: usize) -> Result<(), NoMemory>
    ensures { OnOk result (names.new ≡ names.old ++ names_inside inside uses.now) }
{
    for context in uses {
        names.push((context.name, inside))?;
    }
    Ok(())
}

/// Adds the untyped contexts of a level that stands in membrane `inside`, where the membranes in it are numbered from `next` on.
/// Answers the number behind them.
fn add_contexts(
    names: &mut Rows<(u32, usize)>,
    level: &Level,
    inside: usize,
    next: usize,
) -> Result<usize, NoMemory>
    ensures { IfOk result (λ behind. (names.new ≡ names.old ++ (numbering (λ l. l.contexts) level.now).names inside next) × (behind ≡ next + (numbering (λ l. l.contexts) level.now).size)) }
{
    add_names(names, level.contexts.as_slice(), inside)?;
    let mut behind = next;
    for membrane in level.membranes.as_slice() {
        behind = add_contexts(names, membrane, behind, after(behind)?)?;
    }
    Ok(behind)
}

/// Adds the rule contexts of a level likewise.
fn add_rule_contexts(
    names: &mut Rows<(u32, usize)>,
    level: &Level,
    inside: usize,
    next: usize,
) -> Result<usize, NoMemory>
    ensures { IfOk result (λ behind. (names.new ≡ names.old ++ (numbering (λ l. l.rule_contexts) level.now).names inside next) × (behind ≡ next + (numbering (λ l. l.rule_contexts) level.now).size)) }
{
    add_names(names, level.rule_contexts.as_slice(), inside)?;
    let mut behind = next;
    for membrane in level.membranes.as_slice() {
        behind = add_rule_contexts(names, membrane, behind, after(behind)?)?;
    }
    Ok(behind)
}

/// The number that stands beside a name first, or 0.
fn number_of(names: &[(u32, usize)], name: u32) -> usize
    ensures { result ≡ membrane_named names.now name }
{
    for entry in names {
        let (other, number) = *entry;
        if other == name {
            return number;
        }
    }
    0
}

/// Names with the images of the membranes in which they stand.
fn images_of(
    alloc: Global,
    names: &[(u32, usize)],
    home: usize,
    membranes: &[usize],
) -> Result<Rows<(u32, usize)>, NoMemory>
    ensures { IfOk result (λ images. images ≡ imaged (membrane_at home membranes.now) names.now names.now) }
{
    let mut images = Rows::new(alloc);
    for entry in names {
        let (name, _) = *entry;
        images.push((
            name,
            membrane_image(home, membranes, number_of(names, name)),
        ))?;
    }
    Ok(images)
}

/// The untyped contexts of a head, with the images of the membranes in which they stand.
pub(crate) fn context_images(
    alloc: Global,
    head: &Level,
    home: usize,
    membranes: &[usize],
) -> Result<Rows<(u32, usize)>, NoMemory>
    ensures { IfOk result (λ contexts. contexts ≡ imaged (membrane_at home membranes.now) ((numbering (λ l. l.contexts) head.now).names 0 1) ((numbering (λ l. l.contexts) head.now).names 0 1)) }
{
    let mut names = Rows::new(alloc);
    add_contexts(&mut names, head, 0, 1)?;
    images_of(alloc, names.as_slice(), home, membranes)
}

/// The same of its rule contexts.
pub(crate) fn rule_context_images(
    alloc: Global,
    head: &Level,
    home: usize,
    membranes: &[usize],
) -> Result<Rows<(u32, usize)>, NoMemory>
    ensures { IfOk result (λ contexts. contexts ≡ imaged (membrane_at home membranes.now) ((numbering (λ l. l.rule_contexts) head.now).names 0 1) ((numbering (λ l. l.rule_contexts) head.now).names 0 1)) }
{
    let mut names = Rows::new(alloc);
    add_rule_contexts(&mut names, head, 0, 1)?;
    images_of(alloc, names.as_slice(), home, membranes)
}
