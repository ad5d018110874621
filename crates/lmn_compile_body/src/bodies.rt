ghost use Rattle.std.specs.Prelude.{◌≡◌, ◌+◌, ◌<◌, ◌++◌, ◌^◌, length, IfOk, OnOk};
ghost use Rattle.lmn_congruence_splice.specs.Classes.{class_of, rising};
ghost use Rattle.lmn_solid_heads.specs.Heads.{atoms_of, membranes_of};
ghost use Rattle.lmn_solid_bodies.specs.Code.{body_code, links_code};
ghost use Rattle.lmn_solid_bodies.specs.Flattening.{body_items};
ghost use Rattle.lmn_solid_bodies.specs.Items.{connectors, new_ports, old_ports};
ghost use Rattle.lmn_compile_body.specs.Accepted.{HasBodyRoom, rule_body_code};
ghost use Rattle.lmn_compile_body.specs.Naming.{body_names, registers_by, guard_registers, unnumbered_body, numbered_contexts, numbered_rule_contexts};
ghost use Rattle.lmn_compile_head.specs.Tables.{HeadFits};
ghost use Rattle.lmn_compile_body.specs.Tables.{BodyFits};
ghost use Rattle.lmn_compile_head.specs.Bindings.{part_numbers};

use crate::ends::add_links;
use crate::integers::integers_of;
use crate::levels::flatten_body;
use crate::makes::{add_drops, add_making, add_removals, atoms_in, membranes_in};
use crate::names::{add_contexts, add_rule_contexts};
use crate::ports::{connectors_of, new_ports_of, old_ports_of};
use lmn_base::{NoMemory, Rows, RuleTree};
use lmn_compile_head::flatten;
use lmn_guards::GuardPlan;
use lmn_instr_code::Instr;
use lmn_solid_bodies::BodyItem;
use lmn_solid_heads::HeadItem;
use std::alloc::Global;

/// The code of a body with these items, beside a head with these items, where the links of the rule are below `links`.
///
/// # Errors
///
/// `NoMemory` where there is no memory for the code.
pub fn code_of_body(
    alloc: Global,
    head: &[HeadItem],
    body: &[BodyItem],
    links: u32,
) -> Result<Rows<Instr>, NoMemory>
    requires head { HeadFits links head.now }
    requires body { BodyFits links body.now }
    requires few { 1 + length head.now + length body.now < 2 ^ 15 }
    ensures { IfOk result (λ code. code ≡ body_code head.now body.now links) }
{
    let mut code = Rows::new(alloc);
    match add_body(alloc, &mut code, head, body, links) {
        Ok(()) => Ok(code),
        Err(NoMemory) => Err(NoMemory),
    }
}

/// Adds the code of a body.
fn add_body(
    alloc: Global,
    code: &mut Rows<Instr>,
    head: &[HeadItem],
    body: &[BodyItem],
    links: u32,
) -> Result<(), NoMemory>
    requires head { HeadFits links head.now }
    requires body { BodyFits links body.now }
    requires few { 1 + length head.now + length body.now < 2 ^ 15 }
    ensures { OnOk result (code.new ≡ code.old ++ body_code head.now body.now links) }
{
    add_removals(code, head)?;
    add_making(code, body, atoms_in(head), 1 + membranes_in(head))?;
    add_drops(code, head)?;
    add_ties(alloc, code, head, body, links)?;
    code.push(Instr::Proceed)
}

/// Adds the code of the links of a body.
fn add_ties(
    alloc: Global,
    code: &mut Rows<Instr>,
    head: &[HeadItem],
    body: &[BodyItem],
    links: u32,
) -> Result<(), NoMemory>
    requires head { HeadFits links head.now }
    requires body { BodyFits links body.now }
    requires few { 1 + length head.now + length body.now < 2 ^ 15 }
    ensures { OnOk result (code.new ≡ code.old ++ links_code (class_of (connectors body.now)) (new_ports (length (atoms_of head.now)) 0 body.now) (old_ports head.now) (rising 0 links)) }
{
    let connectors = connectors_of(alloc, body)?;
    let news = new_ports_of(alloc, body, atoms_in(head))?;
    let olds = old_ports_of(alloc, head, links)?;
    add_links(
        alloc,
        code,
        connectors.as_slice(),
        news.as_slice(),
        olds.as_slice(),
        links,
    )
}

/// The code of the body of a rule with its plan.
///
/// # Errors
///
/// `NoMemory` at want of memory: numbers of registers and links don't run out.
pub fn body(alloc: Global, rule: &RuleTree, plan: &GuardPlan) -> Result<Rows<Instr>, NoMemory>
    requires { HasBodyRoom rule.now plan.now }
    ensures { IfOk result (λ code. code ≡ rule_body_code rule.now plan.now) }
{
    let head = flatten(alloc, &rule.head, plan)?;
    let integers = integers_of(alloc, head.as_slice(), rule.guard.as_slice())?;
    let body = body_items_of(alloc, rule, head.as_slice(), integers.as_slice())?;
    code_of_body(
        alloc,
        head.as_slice(),
        body.as_slice(),
        rule.links.len() as u32,
    )
}

/// The items of the body of a rule, whose head has these items, and whose guard binds names to the integers in these registers.
fn body_items_of(
    alloc: Global,
    rule: &RuleTree,
    head: &[HeadItem],
    integers: &[(u32, u16)],
) -> Result<Rows<BodyItem>, NoMemory>
    requires contexts { 1 + (numbered_contexts rule.now.head).size < 2 ^ 16 }
    requires rule_contexts { 1 + (numbered_rule_contexts rule.now.head).size < 2 ^ 16 }
    requires integers { registers_by integers.now ≡ guard_registers (part_numbers head.now) (λ x. 0) 0 rule.now.guard }
    requires membranes { 1 + length (membranes_of head.now) + (unnumbered_body (body_names head.now rule.now.guard rule.now.head) rule.now.body).size < 2 ^ 16 }
    requires few { length head.now < 2 ^ 15 }
    ensures { IfOk result (λ items. items ≡ body_items (body_names head.now rule.now.guard rule.now.head) (length (membranes_of head.now)) rule.now.body) }
{
    let mut contexts = Rows::new(alloc);
    add_contexts(&mut contexts, &rule.head, 0, 1)?;
    let mut rule_contexts = Rows::new(alloc);
    add_rule_contexts(&mut rule_contexts, &rule.head, 0, 1)?;
    flatten_body(
        alloc,
        &rule.body,
        membranes_in(head),
        head,
        integers,
        contexts.as_slice(),
        rule_contexts.as_slice(),
    )
}
