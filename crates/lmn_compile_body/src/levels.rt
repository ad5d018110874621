ghost use Rattle.std.specs.Prelude.{◌≡◌, ◌+◌, ◌<◌, ◌++◌, ◌^◌, ℕ, List, length, IfOk, OnOk};
ghost use Rattle.lmn_base.specs.Solids.{connector};
ghost use Rattle.lmn_store_heap.specs.Functors.{same_functor};
ghost use Rattle.lmn_solid_bodies.specs.Flattening.{body_leaf_items, context_items, body_rule_items, rule_context_items};
ghost use Rattle.lmn_solid_bodies.specs.Flattening as flattening;
ghost use Rattle.lmn_solid_heads.specs.declared.items.HeadItem.{HeadItem};
ghost use Rattle.lmn_compile_body.specs.Naming.{names_by, unnumbered_body, tail_items};

use crate::integers::register_of;
use crate::names::{number_of, part_of};
use lmn_base::{CONNECTOR_NAME, CtxUse, Functor, Label, Leaf, Level, NoMemory, Rows};
use lmn_compile_head::numbers;
use lmn_solid_bodies::BodyItem;
use lmn_solid_heads::HeadItem;
use std::alloc::Global;

/// Whether a functor is that of connectors.
fn is_connector(functor: Functor) -> bool
    ensures { result ≡ same_functor functor connector }
{
    match functor.label {
        Label::Name(n) => n == CONNECTOR_NAME && functor.arity == 2,
        Label::Int(z) => false,
    }
}

/// The item of an atom or of a connector.
fn atom_item(functor: Functor, links: Rows<u32>, inside: u16) -> BodyItem
    ensures { result ≡ flattening.atom_item (same_functor functor connector) functor links inside }
{
    if is_connector(functor) && links.len() == 2 {
        BodyItem::Connector {
            left: *links.at(0),
            right: *links.at(1),
        }
    } else {
        BodyItem::Atom {
            functor,
            links,
            inside,
        }
    }
}

/// The item of a typed context.
fn typed_item(part: Option<u16>, integer: u16, link: u32, inside: u16) -> BodyItem
    ensures { result ≡ flattening.typed_item part integer link inside }
{
    match part {
        Some(part) => BodyItem::Copy { part, link, inside },
        None => BodyItem::Bound {
            integer,
            link,
            inside,
        },
    }
}

/// Adds the leaves of a level.
fn add_leaves(
    alloc: Global,
    leaves: &[Leaf],
    inside: u16,
    head: &[HeadItem],
    integers: &[(u32, u16)],
    items: &mut Rows<BodyItem>,
) -> Result<(), NoMemory>
    requires { length head.now < 2 ^ 15 }
    ensures { (contexts rule_contexts : List (ℕ × ℕ)) → OnOk result (items.new ≡ items.old ++ body_leaf_items (names_by head.now integers.now contexts rule_contexts) inside leaves.now) }
{
    for leaf in leaves {
        match leaf {
            Leaf::Atom { functor, links, .. } => {
                let links = numbers(alloc, links.as_slice())?;
                items.push(atom_item(*functor, links, inside))?;
            }
            Leaf::Typed { name, link, .. } => {
                let part = part_of(head, *name);
                let integer = register_of(integers, *name);
                items.push(typed_item(part, integer, link.link, inside))?;
            }
        }
    }
    Ok(())
}

/// Adds the untyped contexts of a level.
fn add_rests(
    uses: &[CtxUse],
    inside: u16,
    contexts: &[(u32, u16)],
    items: &mut Rows<BodyItem>,
) -> Result<(), NoMemory>
    ensures { (head : List HeadItem) (integers rule_contexts : List (ℕ × ℕ)) → OnOk result (items.new ≡ items.old ++ context_items (names_by head integers contexts.now rule_contexts) inside uses.now) }
{
    for context in uses {
        items.push(BodyItem::Rest {
            of: number_of(contexts, context.name),
            closed: context.closed,
            inside,
        })?;
    }
    Ok(())
}

/// Adds the rules of a level.
fn add_rules(rules: &[u32], inside: u16, items: &mut Rows<BodyItem>) -> Result<(), NoMemory>
    ensures { OnOk result (items.new ≡ items.old ++ body_rule_items inside rules.now) }
{
    for rule in rules {
        items.push(BodyItem::Rule {
            rule: *rule,
            inside,
        })?;
    }
    Ok(())
}

/// Adds the rule contexts of a level.
fn add_rule_rests(
    uses: &[CtxUse],
    inside: u16,
    rule_contexts: &[(u32, u16)],
    items: &mut Rows<BodyItem>,
) -> Result<(), NoMemory>
    ensures { (head : List HeadItem) (integers contexts : List (ℕ × ℕ)) → OnOk result (items.new ≡ items.old ++ rule_context_items (names_by head integers contexts rule_contexts.now) inside uses.now) }
{
    for context in uses {
        items.push(BodyItem::Rules {
            of: number_of(rule_contexts, context.name),
            inside,
        })?;
    }
    Ok(())
}

/// Adds what comes behind the membranes of a level.
fn add_tail(
    level: &Level,
    inside: u16,
    contexts: &[(u32, u16)],
    rule_contexts: &[(u32, u16)],
    items: &mut Rows<BodyItem>,
) -> Result<(), NoMemory>
    ensures { (head : List HeadItem) (integers : List (ℕ × ℕ)) → OnOk result (items.new ≡ items.old ++ tail_items (names_by head integers contexts.now rule_contexts.now) inside level.now) }
{
    add_rests(level.contexts.as_slice(), inside, contexts, items)?;
    add_rules(level.rules.as_slice(), inside, items)?;
    add_rule_rests(level.rule_contexts.as_slice(), inside, rule_contexts, items)
}

/// Adds a level that stands in membrane `inside`, where the membranes in it are numbered from `next` on. Answers the number
/// behind them.
fn add_level(
    alloc: Global,
    level: &Level,
    inside: u16,
    next: u16,
    head: &[HeadItem],
    integers: &[(u32, u16)],
    contexts: &[(u32, u16)],
    rule_contexts: &[(u32, u16)],
    items: &mut Rows<BodyItem>,
) -> Result<u16, NoMemory>
    requires few { length head.now < 2 ^ 15 }
    requires size { next + (unnumbered_body (names_by head.now integers.now contexts.now rule_contexts.now) level.now).size < 2 ^ 16 }
    ensures { IfOk result (λ behind. (items.new ≡ items.old ++ (unnumbered_body (names_by head.now integers.now contexts.now rule_contexts.now) level.now).items inside next)
        × (behind ≡ next + (unnumbered_body (names_by head.now integers.now contexts.now rule_contexts.now) level.now).size)) }
{
    add_leaves(
        alloc,
        level.leaves.as_slice(),
        inside,
        head,
        integers,
        items,
    )?;
    let mut behind = next;
    for membrane in level.membranes.as_slice() {
        items.push(BodyItem::Membrane { inside })?;
        behind = add_level(
            alloc,
            membrane,
            behind,
            behind + 1,
            head,
            integers,
            contexts,
            rule_contexts,
            items,
        )?;
    }
    add_tail(level, inside, contexts, rule_contexts, items)?;
    Ok(behind)
}

/// The body of a rule as one flat list, beside a head with these items and names and with `membranes` membranes.
///
/// # Errors
///
/// `NoMemory` where there is no memory for the list.
pub fn flatten_body(
    alloc: Global,
    body: &Level,
    membranes: u16,
    head: &[HeadItem],
    integers: &[(u32, u16)],
    contexts: &[(u32, u16)],
    rule_contexts: &[(u32, u16)],
) -> Result<Rows<BodyItem>, NoMemory>
    requires few { length head.now < 2 ^ 15 }
    requires size { 1 + membranes + (unnumbered_body (names_by head.now integers.now contexts.now rule_contexts.now) body.now).size < 2 ^ 16 }
    ensures { IfOk result (λ items. items ≡ flattening.body_items (names_by head.now integers.now contexts.now rule_contexts.now) membranes body.now) }
{
    let mut items = Rows::new(alloc);
    add_level(
        alloc,
        body,
        0,
        1 + membranes,
        head,
        integers,
        contexts,
        rule_contexts,
        &mut items,
    )?;
    Ok(items)
}
