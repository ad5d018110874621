ghost use Rattle.std.specs.Prelude.{ℕ, ◌≡◌, ◌<◌, ◌∷◌, [], length, map, flat_map, All, IfOk};
ghost use Rattle.lmn_base.specs.Levels.{occurrences_of_leaf, links_of, link_numbers};
ghost use Rattle.lmn_flatten_numbers.specs.Renumbered.{renumbered_occurrence, renumbered_leaf, renumbered};
ghost use Rattle.lmn_flatten_numbers.specs.Numberings.{IsNewNumbering, IsNumbering, FollowsNumbering, GivesNumbers};

use lmn_base::{Leaf, Level, NoMemory, Occ, Rows};
use std::alloc::Global;
use std::mem;

/// The numbers that links have got so far. A link is known by its key until it has its number.
#[derive(Drop)]
pub(crate) struct Numbering {
    /// The number of each link that has occurred, by its key.
    numbers: Rows<Option<u32>>,
    /// How many links have occurred, which is the number of the next new one.
    count: u32,
}

impl Numbering {
    /// No link with a key below `keys` has a number yet.
    pub(crate) fn new(alloc: Global, keys: u32) -> Result<Numbering, NoMemory>
        ensures { IfOk result (IsNewNumbering keys) }
    {
        let mut numbers = Rows::new(alloc);
        for _ in 0..keys {
            numbers.push(None)?;
        }
        Ok(Numbering { numbers, count: 0 })
    }

    /// How many links have a number. The numbers themselves are let go.
    pub(crate) fn count(self) -> u32
        ensures { result ≡ self.count }
    {
        self.count
    }

    /// Gives a level's links their numbers, at every depth.
    pub(crate) fn number_level(&mut self, alloc: Global, level: &mut Level)
        requires valid { IsNumbering self.old }
        requires within { All (λ k. k < length self.old.numbers) (links_of level.old) }
        ensures gives { GivesNumbers (links_of level.old) self.old self.new }
        ensures level { (to : ℕ → ℕ) → FollowsNumbering to self.new → level.new ≡ renumbered to level.old }
    {
        let Level {
            leaves,
            membranes,
            ..
        } = level;
        let mut numbered = mem::replace(leaves, Rows::new(alloc)).into_vec();
        self.number_leaves(numbered.as_mut_slice());
        *leaves = Rows::from_vec(numbered);
        let mut numbered = mem::replace(membranes, Rows::new(alloc)).into_vec();
        for i in 0..numbered.len() {
            self.number_level(alloc, &mut numbered[i]);
        }
        *membranes = Rows::from_vec(numbered);
    }

    fn number_leaves(&mut self, leaves: &mut [Leaf])
        requires valid { IsNumbering self.old }
        requires within { All (λ k. k < length self.old.numbers) (link_numbers (flat_map occurrences_of_leaf leaves.old)) }
        ensures gives { GivesNumbers (link_numbers (flat_map occurrences_of_leaf leaves.old)) self.old self.new }
        ensures leaves { (to : ℕ → ℕ) → FollowsNumbering to self.new → leaves.new ≡ map (renumbered_leaf to) leaves.old }
    {
        for leaf in leaves.iter_mut() {
            self.number_leaf(leaf);
        }
    }

    fn number_leaf(&mut self, leaf: &mut Leaf)
        requires valid { IsNumbering self.old }
        requires within { All (λ k. k < length self.old.numbers) (link_numbers (occurrences_of_leaf leaf.old)) }
        ensures gives { GivesNumbers (link_numbers (occurrences_of_leaf leaf.old)) self.old self.new }
        ensures leaf { (to : ℕ → ℕ) → FollowsNumbering to self.new → leaf.new ≡ renumbered_leaf to leaf.old }
    {
        match leaf {
            Leaf::Atom { links, .. } => self.number_links(links),
            Leaf::Typed { link, .. } => link.link = self.number(link.link),
        }
    }

    /// Links get their numbers in place, in a pass that takes no memory beside a row from provisional to final numbers; counts
    /// and places follow in a second one.
    fn number_links(&mut self, links: &mut Rows<Occ>)
        requires valid { IsNumbering self.old }
        requires within { All (λ k. k < length self.old.numbers) (link_numbers links.old) }
        ensures gives { GivesNumbers (link_numbers links.old) self.old self.new }
        ensures links { (to : ℕ → ℕ) → FollowsNumbering to self.new → links.new ≡ map (renumbered_occurrence to) links.old }
    {
        for i in 0..links.len() {
            let Occ { link, pos } = *links.at(i);
            let link = self.number(link);
            links.set(i, Occ { link, pos });
        }
    }

    /// The number of a link, which is the next one where it has none yet.
    fn number(&mut self, key: u32) -> u32
        requires valid { IsNumbering self.old }
        requires within { key < length self.old.numbers }
        ensures gives { GivesNumbers (key ∷ []) self.old self.new }
        ensures number { (to : ℕ → ℕ) → FollowsNumbering to self.new → result ≡ to key }
    {
        match self.numbers.at(key as usize) {
            Some(number) => *number,
            None => {
                let number = self.count;
                self.numbers.set(key as usize, Some(number));
                self.count = number + 1;
                number
            }
        }
    }
}
