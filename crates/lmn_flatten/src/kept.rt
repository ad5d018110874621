ghost use Rattle.std.specs.Prelude.{◌≡◌, List, [], ◌∷◌, map, length, All, IfOk};
ghost use Rattle.lmn_flatten_numbers.specs.Renumbered.{renumbered, renumbered_leaf, renumbered_occurrence};
ghost use Rattle.lmn_flatten_plain.specs.Keys.{IsLinkIn, IsKey};
ghost use Rattle.lmn_flatten_plain.specs.Links.{Link, fresh};
ghost use Rattle.lmn_flatten_plain.specs.Parts.{Parts};
ghost use Rattle.lmn_flatten.specs.Built.{IsPartOfLevel};
ghost use Rattle.lmn_flatten.specs.Copies.{Copies, CountsPlaces, Freshens, IsFreshOrSame, NoneFresh, links_of_leaf, links_of_levels, new_link};
ghost use Rattle.lmn_base.specs.Levels.{links_of_leaves};
ghost use Rattle.lmn_flatten.specs.Glossaries.{Reading};
ghost use Rattle.lmn_flatten.specs.Scopes.{IsScope};

use crate::number::narrow;
use crate::part::Part;
use crate::scope::Scope;
use lmn_base::{Functor, Leaf, Level, NoMemory, Occ, Rows};
use std::alloc::Global;

/// A copy of the part of a head that is kept, in which each link that stands twice in the part is new.
pub(crate) fn copied(alloc: Global, scope: &mut Scope, kept: &Part) -> Result<Part, NoMemory>
    ensures { IfOk result (λ copy. (r : Reading) (keys : List Link) (p : Parts) → IsScope r keys scope.old → NoneFresh keys
        → IsPartOfLevel r.names (IsKey keys) p kept.now → Copies r keys p copy scope.new) }
{
    let mut counts = zeros(alloc, scope.count)?;
    count_leaves(&mut counts, kept.leaves.as_slice());
    count_levels(&mut counts, kept.membranes.as_slice());
    let links = freshened(alloc, scope, counts.as_slice())?;
    copied_part(alloc, links.as_slice(), kept)
}

/// A copy of a part in which each link is the new one for it.
fn copied_part(alloc: Global, links: &[u32], part: &Part) -> Result<Part, NoMemory>
    ensures { IfOk result (λ copy. copy ≡ record {
      leaves = map (renumbered_leaf (new_link links.now)) part.now.leaves;
      membranes = map (renumbered (new_link links.now)) part.now.membranes;
      contexts = part.now.contexts;
      rule_contexts = part.now.rule_contexts;
      rules = part.now.rules;
    }) }
{
    let contexts = Rows::copied(alloc, part.contexts.as_slice())?;
    let rule_contexts = Rows::copied(alloc, part.rule_contexts.as_slice())?;
    let rules = Rows::copied(alloc, part.rules.as_slice())?;
    let leaves = copied_leaves(alloc, links, part.leaves.as_slice())?;
    let membranes = copied_levels(alloc, links, part.membranes.as_slice())?;
    Ok(Part {
        leaves,
        membranes,
        contexts,
        rule_contexts,
        rules,
    })
}

/// So many zeros.
fn zeros(alloc: Global, count: u32) -> Result<Rows<u8>, NoMemory>
    ensures { IfOk result (λ zeros. (length zeros ≡ count) × All (λ n. n ≡ 0) zeros) }
{
    let mut zeros = Rows::new(alloc);
    for _ in 0..count {
        zeros.push(0)?;
    }
    Ok(zeros)
}

fn count_links(counts: &mut Rows<u8>, links: &[Occ])
    ensures { CountsPlaces (map (λ o. o.link) links.now) counts.old counts.new }
{
    for occ in links {
        count_link(counts, occ.link);
    }
}

/// Counts a link once more, up to 3.
fn count_link(counts: &mut Rows<u8>, link: u32)
    ensures { CountsPlaces (link ∷ []) counts.old counts.new }
{
    let place = link as usize;
    if place < counts.len() {
        let count = *counts.at(place);
        if count < 3 {
            counts.set(place, count + 1);
        }
    }
}

fn count_leaves(counts: &mut Rows<u8>, leaves: &[Leaf])
    ensures { CountsPlaces (links_of_leaves leaves.now) counts.old counts.new }
{
    for leaf in leaves {
        count_leaf(counts, leaf);
    }
}

fn count_leaf(counts: &mut Rows<u8>, leaf: &Leaf)
    ensures { CountsPlaces (links_of_leaf leaf.now) counts.old counts.new }
{
    match leaf {
        Leaf::Atom { links, .. } => count_links(counts, links.as_slice()),
        Leaf::Typed { link, .. } => count_link(counts, link.link),
    }
}

fn count_levels(counts: &mut Rows<u8>, levels: &[Level])
    ensures { CountsPlaces (links_of_levels levels.now) counts.old counts.new }
{
    for level in levels {
        count_leaves(counts, level.leaves.as_slice());
        count_levels(counts, level.membranes.as_slice());
    }
}

/// For each link a new one, where it was counted twice, and else itself.
fn freshened(alloc: Global, scope: &mut Scope, counts: &[u8]) -> Result<Rows<u32>, NoMemory>
    ensures { IfOk result (λ links. (r : Reading) (keys : List Link) → IsScope r keys scope.old → NoneFresh keys → length counts.now ≡ length keys
        → Freshens r keys counts.now links scope.new) }
{
    let mut links = Rows::new(alloc);
    for number in 0..counts.len() {
        let link = fresh_or_same(scope, narrow(number)?, counts[number])?;
        links.push(link)?;
    }
    Ok(links)
}

/// A new link for one that was counted twice, and else itself.
fn fresh_or_same(scope: &mut Scope, link: u32, count: u8) -> Result<u32, NoMemory>
    ensures { IfOk result (λ new. (r : Reading) (keys : List Link) (a : Link) → IsScope r keys scope.old → IsKey keys a link → (IsLinkIn (fresh a) keys → ⊥)
        → IsFreshOrSame r keys a count new scope.new) }
{
    if count == 2 { scope.next() } else { Ok(link) }
}

fn copied_link(links: &[u32], occ: Occ) -> Occ
    ensures { result ≡ renumbered_occurrence (new_link links.now) occ }
{
    let place = occ.link as usize;
    if place < links.len() {
        Occ {
            link: links[place],
            pos: occ.pos,
        }
    } else {
        occ
    }
}

fn copied_links(alloc: Global, links: &[u32], old: &[Occ]) -> Result<Rows<Occ>, NoMemory>
    ensures { IfOk result (λ new. new ≡ map (renumbered_occurrence (new_link links.now)) old.now) }
{
    let mut new = Rows::new(alloc);
    for occ in old {
        new.push(copied_link(links, *occ))?;
    }
    Ok(new)
}

fn copied_leaf(alloc: Global, links: &[u32], leaf: &Leaf) -> Result<Leaf, NoMemory>
    ensures { IfOk result (λ new. new ≡ renumbered_leaf (new_link links.now) leaf.now) }
{
    match leaf {
        Leaf::Atom {
            functor,
            links: old,
            pos,
        } => {
            let new = copied_links(alloc, links, old.as_slice())?;
            Ok(Leaf::Atom {
                functor: *functor,
                links: new,
                pos: *pos,
            })
        }
        Leaf::Typed { name, link, pos } => Ok(Leaf::Typed {
            name: *name,
            link: copied_link(links, *link),
            pos: *pos,
        }),
    }
}

fn copied_leaves(alloc: Global, links: &[u32], leaves: &[Leaf]) -> Result<Rows<Leaf>, NoMemory>
    ensures { IfOk result (λ new. new ≡ map (renumbered_leaf (new_link links.now)) leaves.now) }
{
    let mut new = Rows::new(alloc);
    for leaf in leaves {
        let leaf = copied_leaf(alloc, links, leaf)?;
        new.push(leaf)?;
    }
    Ok(new)
}

#[cycle(copied)]
fn copied_levels(alloc: Global, links: &[u32], levels: &[Level]) -> Result<Rows<Level>, NoMemory>
    ensures { IfOk result (λ new. new ≡ map (renumbered (new_link links.now)) levels.now) }
{
    let mut new = Rows::new(alloc);
    for level in levels {
        let level = copied_level(alloc, links, level)?;
        new.push(level)?;
    }
    Ok(new)
}

#[cycle(copied)]
fn copied_level(alloc: Global, links: &[u32], level: &Level) -> Result<Level, NoMemory>
    ensures { IfOk result (λ new. new ≡ renumbered (new_link links.now) level.now) }
{
    let contexts = Rows::copied(alloc, level.contexts.as_slice())?;
    let rule_contexts = Rows::copied(alloc, level.rule_contexts.as_slice())?;
    let rules = Rows::copied(alloc, level.rules.as_slice())?;
    let leaves = copied_leaves(alloc, links, level.leaves.as_slice())?;
    let membranes = copied_levels(alloc, links, level.membranes.as_slice())?;
    Ok(Level {
        leaves,
        membranes,
        contexts,
        rule_contexts,
        rules,
    })
}
