//! How a rule that is made by hand is printed: items and conditions of every form, also of forms that no text has.
use crate::numbered::nothing;
use lmn_base::{
    Arith, CONNECTOR_NAME, Cmp, Cond, CtxUse, Expr, Functor, GROUND_NAME, INT_NAME, Label, Leaf,
    Level, Names, NoMemory, Occ, Pos, Rows, RuleTree, UNARY_NAME,
};
use lmn_io::{LineBuffer, MemSink};
use lmn_print_plain::add_rule;
use std::alloc::Global;
use std::test::Fail;

const POS: Pos = Pos { line: 1, column: 1 };

fn context(name: u32) -> CtxUse {
    CtxUse {
        name,
        closed: false,
        pos: POS,
    }
}

fn contexts(alloc: Global, names: &[u32]) -> Result<Rows<CtxUse>, NoMemory> {
    let mut row = Rows::new(alloc);
    for name in names {
        row.push(context(*name))?;
    }
    Ok(row)
}

fn atom(alloc: Global, label: Label, arity: u8, links: &[u32]) -> Result<Leaf, NoMemory> {
    let mut row = Rows::new(alloc);
    for link in links {
        row.push(Occ {
            link: *link,
            pos: POS,
        })?;
    }
    Ok(Leaf::Atom {
        functor: Functor { label, arity },
        links: row,
        pos: POS,
    })
}

fn operation(alloc: Global, op: Arith, left: Expr, right: Expr) -> Result<Expr, NoMemory> {
    Ok(Expr::Op {
        op,
        left: Box::new(alloc, left)?,
        right: Box::new(alloc, right)?,
    })
}

/// `{$ground, @int}`, without its walls
fn inner(alloc: Global) -> Result<Level, NoMemory> {
    let mut inner = nothing(alloc);
    inner.contexts.push(context(GROUND_NAME))?;
    inner.rule_contexts.push(context(INT_NAME))?;
    Ok(inner)
}

/// `'='(X), $unary[X], {$ground, @int}`
fn head(alloc: Global) -> Result<Level, NoMemory> {
    let mut head = nothing(alloc);
    let atom = atom(alloc, Label::Name(CONNECTOR_NAME), 1, &[0])?;
    head.leaves.push(atom)?;
    head.leaves.push(Leaf::Typed {
        name: UNARY_NAME,
        link: Occ { link: 0, pos: POS },
        pos: POS,
    })?;
    let inner = inner(alloc)?;
    head.membranes.push(inner)?;
    Ok(head)
}

fn kind(alloc: Global, name: u32, names: &[u32]) -> Result<Cond, NoMemory> {
    Ok(Cond::Kind {
        name,
        args: contexts(alloc, names)?,
        pos: POS,
    })
}

/// `($unary + 1) * 2 =< -3`
fn comparison(alloc: Global) -> Result<Cond, NoMemory> {
    let unary = Expr::Ctx(context(UNARY_NAME));
    let sum = operation(alloc, Arith::Add, unary, Expr::Int(1))?;
    Ok(Cond::Compare {
        op: Cmp::Le,
        left: operation(alloc, Arith::Mul, sum, Expr::Int(2))?,
        right: Expr::Int(-3),
        pos: POS,
    })
}

/// `$ground = $unary`
fn equation() -> Cond {
    Cond::Equal {
        left: context(GROUND_NAME),
        right: Expr::Ctx(context(UNARY_NAME)),
        pos: POS,
    }
}

/// `$unary \= $ground`
fn difference() -> Cond {
    Cond::Differ {
        left: context(UNARY_NAME),
        right: context(GROUND_NAME),
        pos: POS,
    }
}

/// Each form of condition, one of them with an operation in another.
fn guard(alloc: Global) -> Result<Rows<Cond>, NoMemory> {
    let mut guard = Rows::new(alloc);
    guard.push(kind(alloc, INT_NAME, &[UNARY_NAME])?)?;
    guard.push(comparison(alloc)?)?;
    guard.push(equation())?;
    guard.push(difference())?;
    guard.push(kind(alloc, GROUND_NAME, &[UNARY_NAME, GROUND_NAME])?)?;
    Ok(guard)
}

/// `L1 = L2, 5(L1, L2)`, and the rule with the number 1
fn body(alloc: Global) -> Result<Level, NoMemory> {
    let mut body = nothing(alloc);
    body.leaves
        .push(atom(alloc, Label::Name(CONNECTOR_NAME), 2, &[1, 2])?)?;
    body.leaves.push(atom(alloc, Label::Int(5), 2, &[1, 2])?)?;
    body.rules.push(1)?;
    Ok(body)
}

/// A rule with every form of item and condition.
fn outer_rule(alloc: Global) -> Result<RuleTree, NoMemory> {
    let guard = guard(alloc)?;
    let head = head(alloc)?;
    let body = body(alloc)?;
    Ok(RuleTree {
        head,
        guard,
        body,
        links: Rows::new(alloc),
        pos: POS,
    })
}

/// A rule with an empty body.
fn inner_rule(alloc: Global) -> Result<RuleTree, NoMemory> {
    let mut head = nothing(alloc);
    head.leaves
        .push(atom(alloc, Label::Name(GROUND_NAME), 0, &[])?)?;
    Ok(RuleTree {
        head,
        guard: Rows::new(alloc),
        body: nothing(alloc),
        links: Rows::new(alloc),
        pos: POS,
    })
}

/// A rule in whose body the other one stands.
fn table(alloc: Global) -> Result<Rows<RuleTree>, NoMemory> {
    let mut table = Rows::new(alloc);
    table.push(outer_rule(alloc)?)?;
    table.push(inner_rule(alloc)?)?;
    Ok(table)
}

#[test]
fn rules_of_every_form_are_written(rt: HostRuntime) -> Result<(), Fail> {
    let alloc = rt.alloc();
    let names = Names::new(alloc);
    let table = table(alloc)?;
    let mut out = MemSink::new(alloc, 1000, Rows::new(alloc))?;
    let mut buffer = LineBuffer::new();
    add_rule(&mut buffer, &mut out, &names, table.as_slice(), 0);
    let _ = buffer.finish(&mut out);
    assert_eq!(rt;
        out.taken(),
        b"('='(L0), $unary[L0], {$ground, @int} :- int($unary), ($unary + 1) * 2 =< -3, $ground = $unary, $unary \\= $ground, ground($unary, $ground) | L1 = L2, 5(L1, L2), (ground :- ))".as_slice()
    );
    Ok(())
}
