use crate::level::CtxUse;
use crate::refusal::Pos;
use crate::rows::Rows;

/// An operator of integer expressions.
#[derive(Clone, Copy, Debug)]
pub enum Arith {
    /// `+`
    Add,
    /// `-`
    Sub,
    /// `*`
    Mul,
    /// `/`, which goes toward zero.
    Div,
    /// `mod`, the remainder of `/`.
    Mod,
}

/// An integer expression of a guard.
#[derive(Drop)]
pub enum Expr {
    /// An integer.
    Int(i64),
    /// The integer of a context.
    Ctx(CtxUse),
    /// Two expressions with an operator between them.
    Op {
        /// The operator.
        op: Arith,
        /// The expression on its left.
        left: Box<Expr>,
        /// The expression on its right.
        right: Box<Expr>,
    },
}

/// A comparison of two integers.
#[derive(Clone, Copy, Debug)]
pub enum Cmp {
    /// `<`
    Lt,
    /// `=<`
    Le,
    /// `>`
    Gt,
    /// `>=`
    Ge,
    /// `=:=`
    Eq,
    /// `=\=`
    Ne,
}

/// A condition of a guard.
#[derive(Drop)]
pub enum Cond {
    /// A condition with a name, as `int($x)`.
    Kind {
        /// The number of its name. The conditions of the language are `INT_NAME`, `UNARY_NAME` and
        /// `GROUND_NAME`, each of one context; any other stands for a condition that never holds.
        name: u32,
        /// The contexts in its parentheses.
        args: Rows<CtxUse>,
        /// The place of its name in the text.
        pos: Pos,
    },
    /// A comparison of two integer expressions.
    Compare {
        /// Which comparison.
        op: Cmp,
        /// The expression on its left.
        left: Expr,
        /// The expression on its right.
        right: Expr,
        /// The place of its sign in the text.
        pos: Pos,
    },
    /// `$x = E`. Where `$x` stands in the head, E is a context of the head too, and both are ground and
    /// equal as rooted graphs. Else `$x` is bound to the value of E.
    Equal {
        /// The context on the left.
        left: CtxUse,
        /// The expression on the right.
        right: Expr,
        /// The place of its sign in the text.
        pos: Pos,
    },
    /// `$x \= $y`: both contexts stand in the head, and they are ground and differ as rooted graphs. It
    /// doesn't hold where one isn't ground.
    Differ {
        /// The context on the left.
        left: CtxUse,
        /// The context on the right.
        right: CtxUse,
        /// The place of its sign in the text.
        pos: Pos,
    },
}
