use crate::guard::Cond;
use crate::level::Level;
use crate::refusal::Pos;
use crate::rows::Rows;

/// How often a link occurs, and where. The occurrences in the head come before those in the body,
/// and each of the two parts is taken by rising place.
#[derive(Clone, Copy, Debug, PartialEq, Eq)]
pub struct LinkUse {
    /// The number of its occurrences, at least 1.
    pub count: u64,
    /// The place of the first occurrence.
    pub first: Pos,
    /// The place of the third occurrence, or of the first where there are fewer than three.
    pub third: Pos,
}

/// A rule `T :- G | U` with every abbreviation expanded. A rule that stands in its body or head is
/// named there by its number and has its own links.
#[derive(Drop)]
pub struct RuleTree {
    /// What the rule takes.
    pub head: Level,
    /// The conditions, all of which have to hold, from left to right.
    pub guard: Rows<Cond>,
    /// What the rule makes.
    pub body: Level,
    /// One entry for each link of head and body, by its number.
    pub links: Rows<LinkUse>,
    /// The place of the rule in the text.
    pub pos: Pos,
}

/// A program with every abbreviation expanded: the process outside every rule, and all rules.
pub struct Plain {
    /// The process outside every rule.
    pub top: Level,
    /// One entry for each link of the process, by its number.
    pub links: Rows<LinkUse>,
    /// All rules, nested ones too, in the order of their places. A rule is named by its number here.
    pub rules: Rows<RuleTree>,
}

// By hand, so that no crate above proves anew how a plain is freed.
impl Drop for Plain {
    fn drop(self) {
        let Plain {
            top: _,
            links: _,
            rules: _,
        } = self;
    }
}
