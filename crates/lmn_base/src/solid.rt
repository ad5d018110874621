use crate::functor::Functor;
use crate::rows::Rows;
use std::mem;

/// An atom of a solid.
#[derive(Drop)]
pub struct SolidAtom {
    /// Its label and arity.
    pub functor: Functor,
    /// The numbers of its links, counted from 0, as many as the arity, by index of the argument.
    pub links: Rows<u64>,
}

/// What stands in one membrane of a solid, or at its root.
///
/// Regions may be nested deeper than a stack carries, and dropping one recurses on its depth: some
/// 40,000 levels are safe. `dismantle` lets a deeper one go. `Rows::offer` gives a region back
/// where `Rows::push` drops it.
#[derive(Drop)]
pub struct Region {
    /// The atoms, in their order.
    pub atoms: Rows<SolidAtom>,
    /// What stands in each of its membranes, in their order.
    pub membranes: Rows<Region>,
    /// The rules, by their numbers in the table of a plain, in their order.
    pub rules: Rows<u32>,
}

/// A process without free links and connectors: each atom has as many links as its arity, each link
/// stands in exactly two places, and links are numbered from 0 by first occurrence, the atoms of
/// a region before its membranes.
#[derive(Drop)]
pub struct Solid {
    /// What stands outside every membrane.
    pub root: Region,
}

impl Region {
    /// Lets a region go, however deep it is. It takes no memory, and no more stack for a deeper region.
    /// On the way down the region above is kept in the place of a region's first membrane: a list of work would want
    /// memory, and could fail with a deep rest in hand.
    pub fn dismantle(self) {
        // What is left hangs below `around`, but for `next`. On the way down a region keeps
        // `around` in the place of its first membrane, which is the last that it gives back.
        // Each round lets one region go or goes down to a new one, and fewer than 2^62 regions fit in
        // memory, so the loop ends at its `break`.
        let mut around = self;
        let mut next = around.membranes.pop();
        for _ in 0..u64::MAX {
            match next {
                None => break,
                Some(mut region) => {
                    if around.membranes.len() == 0 {
                        around = region;
                        next = around.membranes.pop();
                    } else if region.membranes.len() == 0 {
                        next = around.membranes.pop();
                    } else {
                        next = Some(region.membranes.replace(0, around));
                        around = region;
                    }
                }
            }
        }
    }
}
