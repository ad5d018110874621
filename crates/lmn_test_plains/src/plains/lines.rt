//! A plain as a text, in the notation of the texts with their plains.

use lmn_base::{
    Arith, Cmp, Cond, CtxUse, Expr, Label, Leaf, Level, LinkUse, Names, NoMemory, Occ, Plain, Pos,
    RuleTree,
};
use std::alloc::Global;

/// A text that is written piece by piece. Where memory is wanting a piece is lost, which is told at the end.
#[derive(Drop)]
struct Pieces {
    text: String,
    lacks: bool,
}

impl Pieces {
    fn new(alloc: Global) -> Pieces {
        Pieces {
            text: String::new(alloc),
            lacks: false,
        }
    }

    fn put(&mut self, piece: &str) {
        if self.text.push_str(piece).is_err() {
            self.lacks = true;
        }
    }

    fn put_byte(&mut self, byte: u8) {
        if self.text.push(byte as char).is_err() {
            self.lacks = true;
        }
    }

    fn put_number(&mut self, number: u64) {
        if write!(self.text, "{number}").is_err() {
            self.lacks = true;
        }
    }

    fn put_integer(&mut self, integer: i64) {
        if write!(self.text, "{integer}").is_err() {
            self.lacks = true;
        }
    }

    fn put_operation(&mut self, op: Arith) {
        if write!(self.text, " {op:?} ").is_err() {
            self.lacks = true;
        }
    }

    fn put_comparison(&mut self, op: Cmp) {
        if write!(self.text, " {op:?}").is_err() {
            self.lacks = true;
        }
    }

    /// The text, if nothing of it was lost.
    fn whole(self) -> Result<String, NoMemory> {
        let Pieces { text, lacks } = self;
        if lacks { Err(NoMemory) } else { Ok(text) }
    }
}

fn put_place(out: &mut Pieces, pos: Pos) {
    out.put("^");
    if pos.line != 1 {
        out.put_number(pos.line);
        out.put(":");
    }
    out.put_number(pos.column);
}

fn put_name(out: &mut Pieces, names: &Names, number: u32) {
    if (number as usize) < names.len() {
        for byte in names.text(number) {
            out.put_byte(*byte);
        }
    }
}

fn put_link(out: &mut Pieces, occ: Occ) {
    out.put_number(u64::from(occ.link));
    put_place(out, occ.pos);
}

/// The links of an atom in parentheses, if it has some.
fn put_links(out: &mut Pieces, links: &[Occ]) {
    for (i, link) in links.iter().enumerate() {
        out.put(if i > 0 { " " } else { "(" });
        put_link(out, *link);
    }
    if links.len() > 0 {
        out.put(")");
    }
}

fn put_label(out: &mut Pieces, names: &Names, label: Label) {
    match label {
        Label::Name(name) => put_name(out, names, name),
        Label::Int(value) => out.put_integer(value),
    }
}

fn put_leaf(out: &mut Pieces, names: &Names, leaf: &Leaf) {
    match leaf {
        Leaf::Atom {
            functor,
            links,
            pos,
        } => {
            put_label(out, names, functor.label);
            out.put("/");
            out.put_number(u64::from(functor.arity));
            put_place(out, *pos);
            put_links(out, links.as_slice());
        }
        Leaf::Typed { name, link, pos } => {
            out.put("$");
            put_name(out, names, *name);
            put_place(out, *pos);
            out.put("(");
            put_link(out, *link);
            out.put(")");
        }
    }
}

fn put_context(out: &mut Pieces, names: &Names, sign: &str, context: CtxUse) {
    out.put(sign);
    put_name(out, names, context.name);
    put_place(out, context.pos);
}

/// A blank and an item, for each item of a level.
fn put_level(out: &mut Pieces, names: &Names, level: &Level) {
    for leaf in level.leaves.as_slice() {
        out.put(" ");
        put_leaf(out, names, leaf);
    }
    for inner in level.membranes.as_slice() {
        out.put(" {");
        put_level(out, names, inner);
        out.put(" }");
    }
    for context in level.contexts.as_slice() {
        put_context(out, names, " $", *context);
    }
    for context in level.rule_contexts.as_slice() {
        put_context(out, names, " @", *context);
    }
    for number in level.rules.as_slice() {
        out.put(" #");
        out.put_number(u64::from(*number));
    }
}

/// A `;`, and behind it a blank, the count and the places for each link. The third place is left out where it is the first.
fn put_table(out: &mut Pieces, table: &[LinkUse]) {
    out.put(";");
    for link in table {
        out.put(" ");
        out.put_number(link.count);
        put_place(out, link.first);
        if link.third != link.first {
            put_place(out, link.third);
        }
    }
}

fn put_expression(out: &mut Pieces, names: &Names, expr: &Expr) {
    match expr {
        Expr::Int(value) => out.put_integer(*value),
        Expr::Ctx(context) => put_context(out, names, "$", *context),
        Expr::Op { op, left, right } => {
            out.put("(");
            put_expression(out, names, left);
            out.put_operation(*op);
            put_expression(out, names, right);
            out.put(")");
        }
    }
}

fn put_kind(out: &mut Pieces, names: &Names, name: u32, args: &[CtxUse], pos: Pos) {
    put_name(out, names, name);
    put_place(out, pos);
    for context in args {
        put_context(out, names, " $", *context);
    }
}

/// A condition without its brackets.
fn put_inside(out: &mut Pieces, names: &Names, condition: &Cond) {
    match condition {
        Cond::Kind { name, args, pos } => put_kind(out, names, *name, args.as_slice(), *pos),
        Cond::Compare {
            op,
            left,
            right,
            pos,
        } => {
            put_expression(out, names, left);
            out.put_comparison(*op);
            put_place(out, *pos);
            out.put(" ");
            put_expression(out, names, right);
        }
        Cond::Equal { left, right, pos } => {
            put_context(out, names, "$", *left);
            out.put(" =");
            put_place(out, *pos);
            out.put(" ");
            put_expression(out, names, right);
        }
        Cond::Differ { left, right, pos } => {
            put_context(out, names, "$", *left);
            out.put(" \\=");
            put_place(out, *pos);
            put_context(out, names, " $", *right);
        }
    }
}

fn put_condition(out: &mut Pieces, names: &Names, condition: &Cond) {
    out.put(" [");
    put_inside(out, names, condition);
    out.put("]");
}

fn put_rule(out: &mut Pieces, names: &Names, rule: &RuleTree) {
    put_place(out, rule.pos);
    put_level(out, names, &rule.head);
    out.put(" :-");
    for condition in rule.guard.as_slice() {
        put_condition(out, names, condition);
    }
    out.put(" |");
    put_level(out, names, &rule.body);
    put_table(out, rule.links.as_slice());
}

/// The lines of a plain: one for the top, and one for each rule.
pub(super) fn lines_of(alloc: Global, names: &Names, plain: &Plain) -> Result<String, NoMemory> {
    let mut out = Pieces::new(alloc);
    put_level(&mut out, names, &plain.top);
    put_table(&mut out, plain.links.as_slice());
    out.put("\n");
    for rule in plain.rules.as_slice() {
        put_rule(&mut out, names, rule);
        out.put("\n");
    }
    out.whole()
}
