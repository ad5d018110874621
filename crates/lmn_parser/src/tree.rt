use lmn_base::{Arith, Cmp, Pos, Rows};

/// The tree of a text. Every `usize` in a tree is the number of a token, counted from 0.
pub struct Tree {
    /// The clauses, in order.
    pub clauses: Rows<Clause>,
}

// By hand, so that no crate above proves anew how a tree is freed.
impl Drop for Tree {
    fn drop(self) {
        let Tree { clauses: _ } = self;
    }
}

/// A clause of a text or of a membrane.
#[cycle(tree)]
#[derive(Drop)]
pub enum Clause {
    /// Items side by side.
    Process(Rows<Item>),
    /// A rule.
    Rule(Box<RuleNode>),
}

/// A rule.
#[cycle(tree)]
#[derive(Drop)]
pub struct RuleNode {
    /// The items of the head before `\`, none where there is no `\`.
    pub kept: Rows<Item>,
    /// The other items of the head.
    pub taken: Rows<Item>,
    /// The conditions.
    pub guard: Rows<CondNode>,
    /// The items of the body.
    pub body: Rows<Item>,
    /// The place of its first token, the rule's name or the `:-` included.
    pub pos: Pos,
}

/// An item of a list.
#[cycle(tree)]
#[derive(Drop)]
pub enum Item {
    /// An atom.
    Atom(AtomNode),
    /// A membrane with clauses.
    Membrane(Rows<Clause>),
    /// A process context without brackets.
    Context(usize),
    /// A context whose brackets are empty.
    Closed(usize),
    /// A context, and the link in its brackets.
    Bracketed(usize, usize),
    /// A rule context.
    RuleContext(usize),
    /// The `+` before a link, which is the next token.
    Plus(usize),
    /// A clause in parentheses.
    Group(Box<Clause>),
    /// The terms left and right of a `=`, and between them the token `=`.
    Equal(Box<Term>, usize, Box<Term>),
}

/// An argument of an atom, an element of a list, or a side of `=`.
#[cycle(tree)]
#[derive(Drop)]
pub enum Term {
    /// A link.
    Link(usize),
    /// An atom.
    Atom(AtomNode),
    /// The elements of a list, and what stands behind its `|`.
    List(Rows<Term>, Option<Box<Term>>),
    /// A context.
    Context(usize),
    /// A membrane with clauses.
    Membrane(Rows<Clause>),
}

/// An atom.
#[cycle(tree)]
#[derive(Drop)]
pub struct AtomNode {
    /// Its name or integer.
    pub token: usize,
    /// What stands in its parentheses.
    pub args: Rows<Term>,
}

/// A condition of a guard.
pub enum CondNode {
    /// A condition with a name, as `int($x)`.
    Kind {
        /// Its name.
        name: usize,
        /// The contexts in its parentheses.
        args: Rows<usize>,
    },
    /// A comparison of two expressions.
    Compare {
        /// Which comparison.
        op: Cmp,
        /// The expression on its left.
        left: ExprNode,
        /// The expression on its right.
        right: ExprNode,
        /// The token of the comparison.
        sign: usize,
    },
    /// `$x = E`
    Equal {
        /// The context.
        left: usize,
        /// The expression.
        right: ExprNode,
        /// The token `=`.
        sign: usize,
    },
    /// `$x \= $y`
    Differ {
        /// The context on the left.
        left: usize,
        /// The context on the right.
        right: usize,
        /// The token `\=`.
        sign: usize,
    },
}

// By hand, so that each exit of a function that holds a condition has one call for it.
impl Drop for CondNode {
    fn drop(self) {
        match self {
            CondNode::Kind { name: _, args: _ } => {}
            CondNode::Compare {
                op: _,
                left: _,
                right: _,
                sign: _,
            } => {}
            CondNode::Equal {
                left: _,
                right: _,
                sign: _,
            } => {}
            CondNode::Differ {
                left: _,
                right: _,
                sign: _,
            } => {}
        }
    }
}

/// An integer expression of a guard. Parentheses leave no node.
#[cycle(expression)]
pub enum ExprNode {
    /// An integer.
    Int(usize),
    /// A context.
    Ctx(usize),
    /// Two expressions with an operator between them.
    Op {
        /// The operator.
        op: Arith,
        /// The expression on its left.
        left: Box<ExprNode>,
        /// The expression on its right.
        right: Box<ExprNode>,
    },
}

// By hand, so that each exit of a function that holds an expression has one call for it.
impl Drop for ExprNode {
    fn drop(self) {
        match self {
            ExprNode::Int(_) => {}
            ExprNode::Ctx(_) => {}
            ExprNode::Op {
                op: _,
                left: _,
                right: _,
            } => {}
        }
    }
}
