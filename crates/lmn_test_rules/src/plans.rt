//! The plan of a rule that is made by hand.

use lmn_base::{
    Cond, CtxUse, Expr, Functor, Label, Leaf, Level, Names, NoMemory, Occ, Pos, Rows, RuleTree,
};
use lmn_guards::{TypeKind, TypedUse, analyse};
use std::alloc::Global;

/// The number of the name `x`.
const X: u32 = 5;

/// The number of the name `z`.
const Z: u32 = 6;

fn at(column: u64) -> Pos {
    Pos { line: 1, column }
}

fn no_items(alloc: Global) -> Level {
    Level {
        leaves: Rows::new(alloc),
        membranes: Rows::new(alloc),
        contexts: Rows::new(alloc),
        rule_contexts: Rows::new(alloc),
        rules: Rows::new(alloc),
    }
}

fn occurrence() -> Occ {
    Occ {
        link: 0,
        pos: at(1),
    }
}

/// `p($x)`
fn head(alloc: Global) -> Result<Level, NoMemory> {
    let mut links = Rows::new(alloc);
    links.push(occurrence())?;
    let mut head = no_items(alloc);
    head.leaves.push(Leaf::Atom {
        functor: Functor {
            label: Label::Name(4),
            arity: 1,
        },
        links,
        pos: at(1),
    })?;
    head.leaves.push(Leaf::Typed {
        name: X,
        link: occurrence(),
        pos: at(3),
    })?;
    Ok(head)
}

fn context(name: u32, column: u64) -> CtxUse {
    CtxUse {
        name,
        closed: false,
        pos: at(column),
    }
}

/// `$z = $x`
fn guard(alloc: Global) -> Result<Rows<Cond>, NoMemory> {
    let mut guard = Rows::new(alloc);
    guard.push(Cond::Equal {
        left: context(Z, 10),
        right: Expr::Ctx(context(X, 15)),
        pos: at(13),
    })?;
    Ok(guard)
}

/// The rule of `p($x) :- $z = $x | .`
fn rule(alloc: Global) -> Result<RuleTree, NoMemory> {
    let guard = guard(alloc)?;
    let head = head(alloc)?;
    Ok(RuleTree {
        head,
        guard,
        body: no_items(alloc),
        links: Rows::new(alloc),
        pos: at(1),
    })
}

/// Whether the plan of the rule is one integer context at the top, and one bound name.
fn has_its_plan(alloc: Global) -> bool {
    let Ok(rule) = rule(alloc) else {
        return false;
    };
    match analyse(alloc, &rule, &Names::new(alloc)) {
        Ok(plan) => {
            is_one_integer(plan.kinds.as_slice()) && plan.bound.as_slice() == [Z].as_slice()
        }
        Err(_) => false,
    }
}

fn is_one_integer(kinds: &[TypedUse]) -> bool {
    match kinds {
        [one] => one.name == X && one.kind == TypeKind::Int && one.depth == 0,
        _ => false,
    }
}

#[test]
fn a_rule_has_its_plan_with_ample_memory(rt: HostRuntime) {
    assert!(rt; has_its_plan(rt.alloc()));
}
