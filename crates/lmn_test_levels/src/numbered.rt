//! Levels that are made by hand: the numbers of their links, the tables of these, and the first context in them.
ghost use Rattle.std.specs.Prelude.{◌≡◌, ◌<◌, All, true};
ghost use Rattle.lmn_base.specs.Levels.{occurrences_of_leaf, links_of, link_numbers};

use lmn_base::{CtxUse, Functor, Label, Leaf, Level, LinkUse, NoMemory, Occ, Pos, Rows};
use lmn_flatten_numbers::{first_outside, number_level, number_rule};
use std::alloc::Global;

/// The place in the first line with this column.
fn at(column: u64) -> Pos {
    Pos { line: 1, column }
}

/// A level that holds nothing.
pub(crate) fn nothing(alloc: Global) -> Level {
    Level {
        leaves: Rows::new(alloc),
        membranes: Rows::new(alloc),
        contexts: Rows::new(alloc),
        rule_contexts: Rows::new(alloc),
        rules: Rows::new(alloc),
    }
}

/// A level with one atom for each of some links, each with its column.
fn level_of(alloc: Global, links: &[(u32, u64)]) -> Result<Level, NoMemory> {
    let mut level = nothing(alloc);
    for (link, column) in links {
        let pos = at(*column);
        let mut row = Rows::new(alloc);
        row.push(Occ { link: *link, pos })?;
        level.leaves.push(Leaf::Atom {
            functor: Functor {
                label: Label::Name(4),
                arity: 1,
            },
            links: row,
            pos,
        })?;
    }
    Ok(level)
}

/// Such a level, with a membrane in it.
fn level_round(alloc: Global, links: &[(u32, u64)], inner: Level) -> Result<Level, NoMemory> {
    let mut level = level_of(alloc, links)?;
    level.membranes.push(inner)?;
    Ok(level)
}

/// Adds the links of a level to a list, in printed order.
fn add_links(found: &mut Rows<u32>, level: &Level) -> Result<(), NoMemory> {
    for leaf in level.leaves.as_slice() {
        match leaf {
            Leaf::Atom { links, .. } => {
                for link in links.as_slice() {
                    found.push(link.link)?;
                }
            }
            Leaf::Typed { link, .. } => found.push(link.link)?,
        }
    }
    for inner in level.membranes.as_slice() {
        add_links(found, inner)?;
    }
    Ok(())
}

/// The links of a level, in printed order.
fn links_in(alloc: Global, level: &Level) -> Result<Rows<u32>, NoMemory> {
    let mut found = Rows::new(alloc);
    add_links(&mut found, level)?;
    Ok(found)
}

/// Whether all links of a level are below `keys`.
fn are_below(level: &Level, keys: u32) -> bool
    ensures { result ≡ true → All (λ k. k < keys) (links_of level.now) }
{
    for leaf in level.leaves.as_slice() {
        if !are_below_in_leaf(leaf, keys) {
            return false;
        }
    }
    for inner in level.membranes.as_slice() {
        if !are_below(inner, keys) {
            return false;
        }
    }
    true
}

fn are_below_in_leaf(leaf: &Leaf, keys: u32) -> bool
    ensures { result ≡ true → All (λ k. k < keys) (link_numbers (occurrences_of_leaf leaf.now)) }
{
    match leaf {
        Leaf::Atom { links, .. } => are_below_in_links(links.as_slice(), keys),
        Leaf::Typed { link, .. } => link.link < keys,
    }
}

fn are_below_in_links(links: &[Occ], keys: u32) -> bool
    ensures { result ≡ true → All (λ k. k < keys) (link_numbers links.now) }
{
    for link in links {
        if link.link >= keys {
            return false;
        }
    }
    true
}

fn link_use(count: u64, first: u64, third: u64) -> LinkUse {
    LinkUse {
        count,
        first: at(first),
        third: at(third),
    }
}

/// `{a(X),{a(Y)}}, a(Z), a(X)`, where the keys are those of the text: X 0, Y 1 and Z 2.
fn three_levels(alloc: Global) -> Result<Level, NoMemory> {
    let innermost = level_of(alloc, &[(1, 10)])?;
    let inner = level_round(alloc, &[(0, 4)], innermost)?;
    level_round(alloc, &[(2, 18), (0, 24)], inner)
}

/// The leaves outside are printed first, so the numbers are Z 0, X 1 and Y 2.
#[test]
fn leaves_come_before_membranes(rt: HostRuntime) -> Result<(), NoMemory> {
    let mut level = three_levels(rt.alloc())?;
    assert!(rt; are_below(&level, 3));
    let table = number_level(rt.alloc(), &mut level, 3)?;
    let links = links_in(rt.alloc(), &level)?;
    assert_eq!(rt; links.as_slice(), [0, 1, 1, 2].as_slice());
    assert_eq!(rt;
        table.as_slice(),
        [link_use(1, 18, 18), link_use(2, 4, 4), link_use(1, 10, 10)].as_slice()
    );
    Ok(())
}

/// `{a(X)}, a(Y), a(X)`
fn head(alloc: Global) -> Result<Level, NoMemory> {
    let inner = level_of(alloc, &[(0, 32)])?;
    level_round(alloc, &[(1, 38), (0, 44)], inner)
}

/// `{a(X)}, a(X), a(Y)`
fn body(alloc: Global) -> Result<Level, NoMemory> {
    let inner = level_of(alloc, &[(0, 8)])?;
    level_round(alloc, &[(0, 14), (1, 20)], inner)
}

/// `{a(X)}, a(Y), a(X) :- {a(X)}, a(X), a(Y)` with the body's places before the head's, and keys X 0, Y 1 and one that
/// doesn't occur. The third place of X is the first one in the body.
#[test]
fn a_head_comes_before_its_body(rt: HostRuntime) -> Result<(), NoMemory> {
    let mut head = head(rt.alloc())?;
    let mut body = body(rt.alloc())?;
    assert!(rt; are_below(&head, 3));
    assert!(rt; are_below(&body, 3));
    let table = number_rule(rt.alloc(), &mut head, &mut body, 3)?;
    let found = links_in(rt.alloc(), &head)?;
    assert_eq!(rt; found.as_slice(), [0, 1, 1].as_slice());
    let found = links_in(rt.alloc(), &body)?;
    assert_eq!(rt; found.as_slice(), [1, 0, 1].as_slice());
    assert_eq!(rt;
        table.as_slice(),
        [link_use(2, 38, 38), link_use(4, 32, 8)].as_slice()
    );
    Ok(())
}

fn context(name: u32, column: u64) -> CtxUse {
    CtxUse {
        name,
        closed: false,
        pos: at(column),
    }
}

/// `{@r}, $p`: the membrane comes last in the level, and first in the text.
fn with_contexts(alloc: Global) -> Result<Level, NoMemory> {
    let mut inner = nothing(alloc);
    inner.rule_contexts.push(context(4, 2))?;
    let mut level = level_round(alloc, &[(0, 1)], inner)?;
    level.contexts.push(context(5, 7))?;
    Ok(level)
}

#[test]
fn the_first_context_is_that_of_the_text(rt: HostRuntime) -> Result<(), NoMemory> {
    let level = level_of(rt.alloc(), &[(0, 1)])?;
    assert_eq!(rt; first_outside(&level), None);
    let level = with_contexts(rt.alloc())?;
    assert_eq!(rt; first_outside(&level), Some(at(2)));
    Ok(())
}
