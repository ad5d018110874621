ghost use Rattle.std.specs.Prelude.{◌≡◌, ◌<◌, ◌↔◌, ℕ, Bool, AllPairs, IfOk, IsTrue, Some, length, slice_get};
ghost use Rattle.lmn_store_heap.specs.Heap.{IsAtom, IsMem, arity_of, atoms_in, functor_of, home_of, link_of, mems_in, parent_of, rules_in};
ghost use Rattle.lmn_store_heap.specs.Sound.{Valid};
ghost use Rattle.lmn_base.specs.Lists.{In};
ghost use Rattle.lmn_solid_tables.specs.Flats.{IsLeft, IsWithin, heap_of, link_at, port_by};

use crate::flat::Flat;
use crate::tables::Port;
use lmn_base::{Functor, NoMemory};
use std::alloc::Global;

impl Flat {
    /// The functor of an atom.
    pub fn functor(&self, atom: usize) -> Functor
        requires { IsAtom (heap_of self.now) atom }
        ensures { functor_of (heap_of self.now) atom ≡ Some result }
    {
        self.atoms[atom].functor
    }

    /// The port to which a port is joined.
    pub fn other(&self, port: Port) -> Port
        requires { port.index < arity_of (heap_of self.now) port.atom }
        ensures { link_of (heap_of self.now) port.atom port.index ≡ Some (port_by result) }
    {
        let link = self.link(port) as usize;
        let first = self.ports[2 * link];
        if first == port {
            self.ports[2 * link + 1]
        } else {
            first
        }
    }

    /// The number of the link at a port.
    pub fn link(&self, port: Port) -> u64
        requires { port.index < arity_of (heap_of self.now) port.atom }
        ensures { result ≡ link_at self.now port.atom port.index }
    {
        *self.atoms[port.atom].links.at(port.index)
    }

    /// The membrane in which an atom stands.
    pub fn home(&self, atom: usize) -> usize
        requires { IsAtom (heap_of self.now) atom }
        ensures { home_of (heap_of self.now) atom ≡ Some result }
    {
        self.atoms[atom].home
    }

    /// The membrane round a membrane, none round the root.
    pub fn parent(&self, membrane: usize) -> Option<usize>
        requires { IsMem (heap_of self.now) membrane }
        ensures { parent_of (heap_of self.now) membrane ≡ result }
    {
        if membrane == 0 {
            None
        } else {
            Some(self.membranes[membrane].parent)
        }
    }

    /// The atoms of a membrane, in their order.
    pub fn atoms(&self, membrane: usize) -> &[usize]
        requires { IsMem (heap_of self.now) membrane }
        ensures { result.now ≡ atoms_in (heap_of self.now) membrane }
    {
        self.membranes[membrane].atoms.as_slice()
    }

    /// The membranes of a membrane, in their order.
    pub fn membranes(&self, membrane: usize) -> &[usize]
        requires { IsMem (heap_of self.now) membrane }
        ensures { result.now ≡ mems_in (heap_of self.now) membrane }
    {
        self.membranes[membrane].membranes.as_slice()
    }

    /// The rules of a membrane, by their numbers, in their order.
    pub fn rules(&self, membrane: usize) -> &[u32]
        requires { IsMem (heap_of self.now) membrane }
        ensures { result.now ≡ rules_in (heap_of self.now) membrane }
    {
        self.membranes[membrane].rules.as_slice()
    }

    /// Whether a membrane is another one or stands in it, at any depth.
    pub fn is_within(&self, membrane: usize, outer: usize) -> bool
        requires { IsMem (heap_of self.now) membrane }
        ensures { IsTrue result ↔ IsWithin (heap_of self.now) membrane outer }
    {
        // What stands in a membrane has a greater number.
        let mut at = membrane;
        while at > outer {
            at = self.membranes[at].parent;
        }
        at == outer
    }

    /// The membranes that stand in a membrane, at any depth, without the images among those that stand directly in it and
    /// without what stands in these. The outer ones come first.
    ///
    /// # Errors
    ///
    /// `NoMemory` at want of memory.
    pub fn left_in(
        &self,
        alloc: Global,
        home: usize,
        images: &[usize],
    ) -> Result<Vec<usize>, NoMemory>
        requires { Valid (heap_of self.now) }
        ensures left { IfOk result (λ left. (m : ℕ) → In m left.items ↔ IsLeft (heap_of self.now) images.now home m) }
        ensures order { IfOk result (λ left. AllPairs (λ m n. m < n) left.items) }
    {
        let mut is_left: Vec<bool> = Vec::new(alloc);
        let mut left = Vec::new(alloc);
        for number in 0..self.membranes.len() {
            let here = self.is_left(home, images, is_left.as_slice(), number);
            is_left.push(here)?;
            if here {
                left.push(number)?;
            }
        }
        Ok(left)
    }

    /// Whether a membrane is left in another one, where it is known of those before it.
    fn is_left(&self, home: usize, images: &[usize], before: &[bool], number: usize) -> bool
        requires valid { Valid (heap_of self.now) }
        requires number { (number < length self.now.membranes.items) × (length before.now ≡ number) }
        requires before { (m : ℕ) (b : Bool) → slice_get before.now m ≡ Some b → IsTrue b ↔ IsLeft (heap_of self.now) images.now home m }
        ensures { IsTrue result ↔ IsLeft (heap_of self.now) images.now home number }
    {
        if number <= home {
            return false;
        }
        let parent = self.membranes[number].parent;
        if parent == home {
            !images.contains(&number)
        } else {
            before[parent]
        }
    }

    /// How many ports an atom has.
    pub fn arity(&self, atom: usize) -> usize
        requires { IsAtom (heap_of self.now) atom }
        ensures { result ≡ arity_of (heap_of self.now) atom }
    {
        self.atoms[atom].links.len()
    }

    /// A number above those of all links.
    pub fn link_count(&self) -> usize
        ensures { (a i : ℕ) → i < arity_of (heap_of self.now) a → link_at self.now a i < result }
    {
        self.ports.len() / 2
    }

    /// How many atoms there are: their numbers are those below.
    pub fn atom_count(&self) -> usize
        ensures { (a : ℕ) → IsAtom (heap_of self.now) a ↔ (a < result) }
    {
        self.atoms.len()
    }

    /// How many membranes there are, the root too: their numbers, in preorder, are those below.
    pub fn membrane_count(&self) -> usize
        ensures count { (m : ℕ) → IsMem (heap_of self.now) m ↔ (m < result) }
    {
        self.membranes.len()
    }
}
