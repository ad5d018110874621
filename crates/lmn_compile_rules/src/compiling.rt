ghost use Rattle.std.specs.Prelude.{IfOk};
ghost use Rattle.lmn_compile_rules.specs.Compiled.{AreWhole, AreCompiled, IsCompiled};
ghost use Rattle.lmn_compile_body.specs.Accepted.{HasBodyRoom};

use lmn_base::{NoMemory, Plain, RuleTree};
use lmn_compile_body::{accepted_bodies, body};
use lmn_compile_head::head;
use lmn_guards::GuardPlan;
use lmn_instr_code::Code;
use lmn_instr_pool::Codes;
use std::alloc::Global;

/// The code of a rule with its plan.
fn rule_code(alloc: Global, rule: &RuleTree, plan: &GuardPlan) -> Result<Code, NoMemory>
    requires { HasBodyRoom rule.now plan.now }
    ensures { IfOk result (λ code. IsCompiled rule.now plan.now code) }
{
    Ok(Code {
        head: head(alloc, rule, plan)?,
        body: body(alloc, rule, plan)?,
    })
}

/// The code of each rule of a plain, which has the number of its rule, in a store of codes. `plans` has the plan of each rule, by
/// its number. One code at a time stands beside the store.
///
/// # Errors
///
/// `NoMemory` at want of memory.
pub fn stored(alloc: Global, plain: &Plain, plans: &[GuardPlan]) -> Result<Codes, NoMemory>
    requires { AreWhole plain.now.rules plans.now }
    ensures { IfOk result (λ codes. AreCompiled plain.now.rules plans.now codes) }
{
    accepted_bodies();
    let mut codes = Codes::new(alloc);
    for k in 0..plain.rules.len() {
        codes.push(alloc, rule_code(alloc, plain.rules.at(k), &plans[k])?)?;
    }
    Ok(codes)
}
