ghost use Rattle.std.specs.Prelude.{◌≡◌, ◌≢◌, ◌<◌, ◌≤◌, ◌+◌, ◌↔◌, ℕ, Some, IfSome, IsTrue, IfOk, MatchOption, OnOk, OnErr, length, slice_index_or, [], ◌^◌};
ghost use Rattle.std.specs.Option.{option_map};
ghost use Rattle.lmn_store_heap.specs.Lists.{from, after};
ghost use Rattle.lmn_store_heap.specs.Heap.{Heap, gone, functor_of, arity_of, link_of, mark_of, mem_mark_of, home_of, parent_of, atoms_in, mems_in, rules_in, spare_of, mem_place_of, IsMem, IsAtom, IsInPlace, IsPlacedMem, IsMemInPlace, port_id, marked, mem_marked, made_atom, made_mem, reserved, discarded, finished, placed, placed_mem, joined, taken, taken_mem, moved_all, rule_added, rules_copied};
ghost use Rattle.lmn_store_heap.specs.Functors.{with_functor};
ghost use Rattle.lmn_store_heap.specs.Sound.{Sound, AllInPlace, AtMost, Forest, IsTree, Valid, flat, item_count_in};
ghost use Rattle.lmn_store_trait.specs.Awake.{IsNextAwake, NoneAwake};
ghost use Rattle.lmn_store_heap.specs.Conditions.{Alone, Ready, IsOutside};

use crate::sleep::AWAKE;
use lmn_base::{Functor, NoMemory};
use std::alloc::Global;

/// Atoms in membranes. An item is detached (made and not yet placed), in place, or taken (out of its list and
/// not yet freed). A call changes nothing but what its name says. Calls without a `Result` take no memory and
/// can't fail.
///
/// What holds at every moment is told by `root`: partners agree both ways, each item is in the list of its home,
/// and the items that aren't freed, with the rules and the room that is kept for rules, are at most 2^48.
pub trait LinkStore {
    /// A handle of an atom.
    type Atom: Copy;

    /// A handle of a membrane.
    type Mem: Copy;

    /// The number of an atom, by which contracts name it.
    ghost atom_id: { Self.Atom → ℕ };

    /// The number of a membrane.
    ghost mem_id: { Self.Mem → ℕ };

    /// What the store holds, however it is kept.
    ghost heap: { Self → Heap };

    /// The root.
    fn root(&self) -> Self::Mem
        ensures root { mem_id result ≡ (heap self.now).root }
        ensures sound { Sound (heap self.now) }
        ensures few { AtMost (2 ^ 48) (heap self.now) };

    /// The functor of an atom, as it was made.
    fn functor(&self, a: Self::Atom) -> Functor
        requires { IsAtom (heap self.now) (atom_id a) }
        ensures { functor_of (heap self.now) (atom_id a) ≡ Some result };

    /// Whether two atoms are one.
    fn same_atom(&self, a: Self::Atom, b: Self::Atom) -> bool
        requires a { IsAtom (heap self.now) (atom_id a) }
        requires b { IsAtom (heap self.now) (atom_id b) }
        ensures { IsTrue result ↔ (atom_id a ≡ atom_id b) };

    /// Whether two membranes are one.
    fn same_mem(&self, m: Self::Mem, n: Self::Mem) -> bool
        requires m { IsMem (heap self.now) (mem_id m) }
        requires n { IsMem (heap self.now) (mem_id n) }
        ensures { IsTrue result ↔ (mem_id m ≡ mem_id n) };

    /// The port to which a port is joined. None only for a detached or taken atom, or where the port lost its partner in this commit.
    fn partner(&self, a: Self::Atom, port: u8) -> Option<(Self::Atom, u8)>
        requires atom { IsAtom (heap self.now) (atom_id a) }
        requires port { port < arity_of (heap self.now) (atom_id a) }
        ensures link { link_of (heap self.now) (atom_id a) port ≡ option_map (port_id atom_id) result }
        ensures there { IfSome result (λ p. IsAtom (heap self.now) (atom_id p.0) × (p.1 < arity_of (heap self.now) (atom_id p.0))) }
        ensures back { IfSome result (λ p. link_of (heap self.now) (atom_id p.0) p.1 ≡ Some (atom_id a, port)) };

    /// The membrane in whose list an atom stands. None for detached and taken atoms.
    fn home(&self, a: Self::Atom) -> Option<Self::Mem>
        requires { IsAtom (heap self.now) (atom_id a) }
        ensures { home_of (heap self.now) (atom_id a) ≡ option_map mem_id result };

    /// Whether an atom stands in the list of a membrane.
    fn stands_in(&self, a: Self::Atom, m: Self::Mem) -> bool
        requires atom { IsAtom (heap self.now) (atom_id a) }
        requires membrane { IsMem (heap self.now) (mem_id m) }
        ensures { IsTrue result ↔ (home_of (heap self.now) (atom_id a) ≡ Some (mem_id m)) }
    {
        let _root = self.root();
        match self.home(a) {
            Some(home) => self.same_mem(home, m),
            None => false,
        }
    }

    /// The membrane in whose list a membrane stands. None for the root, detached and taken membranes.
    fn parent(&self, m: Self::Mem) -> Option<Self::Mem>
        requires { IsMem (heap self.now) (mem_id m) }
        ensures { parent_of (heap self.now) (mem_id m) ≡ option_map mem_id result };

    /// The first atom of a membrane's list.
    fn first_atom(&self, m: Self::Mem) -> Option<Self::Atom>
        requires { IsMem (heap self.now) (mem_id m) }
        ensures list { from (option_map atom_id result) (atoms_in (heap self.now) (mem_id m)) ≡ atoms_in (heap self.now) (mem_id m) }
        ensures home { IfSome result (λ a. home_of (heap self.now) (atom_id a) ≡ Some (mem_id m)) };

    /// The next atom behind this one in its list.
    fn next_atom(&self, a: Self::Atom) -> Option<Self::Atom>
        requires { IsInPlace (heap self.now) (atom_id a) }
        ensures list { (m : ℕ) → home_of (heap self.now) (atom_id a) ≡ Some m →
            from (option_map atom_id result) (atoms_in (heap self.now) m) ≡ after (atom_id a) (atoms_in (heap self.now) m) }
        ensures home { IfSome result (λ b. home_of (heap self.now) (atom_id b) ≡ home_of (heap self.now) (atom_id a)) };

    /// The first atom of the membrane with the functor.
    fn first_with(&self, m: Self::Mem, f: Functor) -> Option<Self::Atom>
        requires { IsMem (heap self.now) (mem_id m) }
        ensures list { let all = with_functor (heap self.now) f (atoms_in (heap self.now) (mem_id m)) in from (option_map atom_id result) all ≡ all }
        ensures functor { IfSome result (λ a. functor_of (heap self.now) (atom_id a) ≡ Some f) }
        ensures home { IfSome result (λ a. home_of (heap self.now) (atom_id a) ≡ Some (mem_id m)) };

    /// The next atom behind this one in its list with its functor.
    fn next_with(&self, a: Self::Atom) -> Option<Self::Atom>
        requires { IsInPlace (heap self.now) (atom_id a) }
        ensures list { (m : ℕ) (f : Functor) → home_of (heap self.now) (atom_id a) ≡ Some m → functor_of (heap self.now) (atom_id a) ≡ Some f →
            let all = with_functor (heap self.now) f (atoms_in (heap self.now) m) in from (option_map atom_id result) all ≡ after (atom_id a) all }
        ensures functor { IfSome result (λ b. functor_of (heap self.now) (atom_id b) ≡ functor_of (heap self.now) (atom_id a)) }
        ensures home { IfSome result (λ b. home_of (heap self.now) (atom_id b) ≡ home_of (heap self.now) (atom_id a)) };

    /// The first membrane of a membrane's list.
    fn first_mem(&self, m: Self::Mem) -> Option<Self::Mem>
        requires { IsMem (heap self.now) (mem_id m) }
        ensures list { from (option_map mem_id result) (mems_in (heap self.now) (mem_id m)) ≡ mems_in (heap self.now) (mem_id m) }
        ensures parent { IfSome result (λ n. parent_of (heap self.now) (mem_id n) ≡ Some (mem_id m)) };

    /// The next membrane behind this one in its list.
    fn next_mem(&self, n: Self::Mem) -> Option<Self::Mem>
        requires { IsPlacedMem (heap self.now) (mem_id n) }
        ensures list { (m : ℕ) → parent_of (heap self.now) (mem_id n) ≡ Some m →
            from (option_map mem_id result) (mems_in (heap self.now) m) ≡ after (mem_id n) (mems_in (heap self.now) m) }
        ensures parent { IfSome result (λ k. parent_of (heap self.now) (mem_id k) ≡ parent_of (heap self.now) (mem_id n)) };

    /// How many atoms stand in a membrane.
    fn atoms(&self, m: Self::Mem) -> u64
        requires { IsMem (heap self.now) (mem_id m) }
        ensures { result ≡ length (atoms_in (heap self.now) (mem_id m)) };

    /// How many membranes stand in a membrane.
    fn mems(&self, m: Self::Mem) -> u64
        requires { IsMem (heap self.now) (mem_id m) }
        ensures { result ≡ length (mems_in (heap self.now) (mem_id m)) };

    /// How many rules a membrane has.
    fn rules(&self, m: Self::Mem) -> u64
        requires { IsMem (heap self.now) (mem_id m) }
        ensures { result ≡ length (rules_in (heap self.now) (mem_id m)) };

    /// How many membranes there are, the root among them.
    fn membranes(&self) -> u64
        ensures { (f : Forest) → IsTree (heap self.now) f → result ≡ length (flat f) };

    /// The membrane behind one in preorder: the first in it, or the first that stands behind it or behind one round it. No
    /// stack is taken for the depth of a store.
    fn next_membrane(&self, m: Self::Mem) -> Option<Self::Mem>
        requires valid { Valid (heap self.now) }
        requires membrane { IsMem (heap self.now) (mem_id m) }
        ensures { (f : Forest) → IsTree (heap self.now) f → from (option_map mem_id result) (flat f) ≡ after (mem_id m) (flat f) }
    {
        let _root = self.root();
        if let Some(inner) = self.first_mem(m) {
            return Some(inner);
        }
        // Fewer membranes than that are round one, so the loop ends at a return.
        let mut at = m;
        for step in 0..u64::MAX {
            match self.parent(at) {
                Some(parent) => match self.next_mem(at) {
                    Some(next) => return Some(next),
                    None => at = parent,
                },
                None => return None,
            }
        }
        None
    }

    /// The first membrane that is awake, with its number, of those with a number of at least `start` in preorder, in which the
    /// root has 0. A membrane is awake where its mark is `AWAKE`.
    fn awake_from(&mut self, start: u64) -> Option<(u64, Self::Mem)>
        requires { Valid (heap self.old) }
        ensures same { heap self.new ≡ heap self.old }
        ensures next { (f : Forest) → IsTree (heap self.old) f → MatchOption result
            (NoneAwake (heap self.old) (flat f) start (length (flat f)))
            (λ r. IsNextAwake (heap self.old) (flat f) start r.0 (mem_id r.1)) }
    {
        let mut at = self.root();
        for passed in 0..start {
            match self.next_membrane(at) {
                Some(next) => at = next,
                None => return None,
            }
        }
        // There are fewer membranes than that, so the loop ends at a return.
        for number in start..u64::MAX {
            if self.mem_mark(at) == AWAKE {
                return Some((number, at));
            }
            match self.next_membrane(at) {
                Some(next) => at = next,
                None => return None,
            }
        }
        None
    }

    /// The number of items of the solid, the root not counted.
    fn items(&self) -> u64
        requires { AllInPlace (heap self.now) }
        ensures { (f : Forest) → IsTree (heap self.now) f → result + 1 ≡ item_count_in (heap self.now) (flat f) };

    /// A rule of a membrane, by its place.
    fn rule(&self, m: Self::Mem, i: u64) -> u32
        requires mem { IsMem (heap self.now) (mem_id m) }
        requires below { i < length (rules_in (heap self.now) (mem_id m)) }
        ensures { slice_index_or (rules_in (heap self.now) (mem_id m)) i 0 ≡ result };

    /// A mark of an atom: of the port `slot`, or its own where `slot` is the arity. A new atom's marks are 0.
    fn mark(&self, a: Self::Atom, slot: u8) -> u64
        requires atom { IsAtom (heap self.now) (atom_id a) }
        requires slot { slot ≤ arity_of (heap self.now) (atom_id a) }
        ensures { result ≡ mark_of (heap self.now) (atom_id a) slot };

    /// Changes one mark of an atom. The mark of a slot other than 0 is below 2^56.
    fn set_mark(&mut self, a: Self::Atom, slot: u8, v: u64)
        requires atom { IsAtom (heap self.old) (atom_id a) }
        requires slot { slot ≤ arity_of (heap self.old) (atom_id a) }
        requires small { slot ≢ 0 → v < 2 ^ 56 }
        ensures { heap self.new ≡ marked (heap self.old) (atom_id a) slot v };

    /// The mark of a membrane. A new membrane's is `AWAKE`.
    fn mem_mark(&self, m: Self::Mem) -> u64
        requires { IsMem (heap self.now) (mem_id m) }
        ensures { result ≡ mem_mark_of (heap self.now) (mem_id m) };

    /// Changes the mark of a membrane.
    fn set_mem_mark(&mut self, m: Self::Mem, v: u64)
        requires { IsMem (heap self.old) (mem_id m) }
        ensures { heap self.new ≡ mem_marked (heap self.old) (mem_id m) v };

    /// A new atom, detached, last in the line of detached atoms, with no partner at any port.
    fn make_atom(&mut self, alloc: Global, f: Functor) -> Result<Self::Atom, NoMemory>
        ensures fresh { IfOk result (λ a. (heap self.old).atoms (atom_id a) ≡ None) }
        ensures ok { IfOk result (λ a. heap self.new ≡ made_atom (heap self.old) (atom_id a) f) }
        ensures err { OnErr result (heap self.new ≡ heap self.old) };

    /// A new atom with the functor of another one; else as `make_atom` makes it.
    fn make_like(&mut self, alloc: Global, a: Self::Atom) -> Result<Self::Atom, NoMemory>
        requires { IsAtom (heap self.old) (atom_id a) }
        ensures fresh { IfOk result (λ c. (heap self.old).atoms (atom_id c) ≡ None) }
        ensures ok { IfOk result (λ c. (f : Functor) × (functor_of (heap self.old) (atom_id a) ≡ Some f) × (heap self.new ≡ made_atom (heap self.old) (atom_id c) f)) }
        ensures err { OnErr result (heap self.new ≡ heap self.old) }
    {
        let functor = self.functor(a);
        self.make_atom(alloc, functor)
    }

    /// A new membrane, detached, empty, last in the line of detached membranes.
    fn make_mem(&mut self, alloc: Global) -> Result<Self::Mem, NoMemory>
        ensures fresh { IfOk result (λ m. (heap self.old).mems (mem_id m) ≡ None) }
        ensures ok { IfOk result (λ m. heap self.new ≡ made_mem (heap self.old) (mem_id m)) }
        ensures err { OnErr result (heap self.new ≡ heap self.old) };

    /// Makes room for so many more rules in a membrane, which then take no memory.
    fn reserve_rules(&mut self, alloc: Global, m: Self::Mem, n: u64) -> Result<(), NoMemory>
        requires { IsMem (heap self.old) (mem_id m) }
        ensures least { OnOk result (n ≤ spare_of (heap self.new) (mem_id m)) }
        ensures ok { OnOk result (heap self.new ≡ reserved (heap self.old) (mem_id m) (spare_of (heap self.new) (mem_id m))) }
        ensures err { OnErr result (heap self.new ≡ heap self.old) };

    /// Frees all detached items.
    fn discard(&mut self)
        requires { Alone (heap self.old) }
        ensures { heap self.new ≡ discarded (heap self.old) };

    /// The first detached atom goes to the end of the membrane's atoms.
    fn place_atom(&mut self, m: Self::Mem) -> Self::Atom
        requires mem { IsMemInPlace (heap self.old) (mem_id m) }
        requires waiting { (heap self.old).new_atoms ≢ [] }
        ensures first { from (Some (atom_id result)) (heap self.old).new_atoms ≡ (heap self.old).new_atoms }
        ensures placed { heap self.new ≡ placed (heap self.old) (mem_id m) (atom_id result) };

    /// The first detached membrane goes to the end of the membrane's membranes.
    fn place_mem(&mut self, m: Self::Mem) -> Self::Mem
        requires mem { IsMemInPlace (heap self.old) (mem_id m) }
        requires waiting { (heap self.old).new_mems ≢ [] }
        ensures first { from (Some (mem_id result)) (heap self.old).new_mems ≡ (heap self.old).new_mems }
        ensures placed { heap self.new ≡ placed_mem (heap self.old) (mem_id m) (mem_id result) };

    /// An atom leaves its list. Its ports stay joined until `finish`.
    fn take_atom(&mut self, a: Self::Atom)
        requires { IsInPlace (heap self.old) (atom_id a) }
        ensures { heap self.new ≡ taken (heap self.old) (atom_id a) };

    /// A membrane leaves its list, and keeps what stands in it.
    fn take_mem(&mut self, m: Self::Mem)
        requires { IsPlacedMem (heap self.old) (mem_id m) }
        ensures { heap self.new ≡ taken_mem (heap self.old) (mem_id m) };

    /// The atoms and membranes of the taken membrane `m` go to the ends of the lists of `n`.
    fn move_all(&mut self, m: Self::Mem, n: Self::Mem)
        requires gone { mem_place_of (heap self.old) (mem_id m) ≡ Some gone }
        requires mem { IsMemInPlace (heap self.old) (mem_id n) }
        requires outside { IsOutside (heap self.old) (mem_id n) (mem_id m) }
        ensures { heap self.new ≡ moved_all (heap self.old) (mem_id m) (mem_id n) };

    /// A rule goes to the end of the membrane's rules.
    fn add_rule(&mut self, m: Self::Mem, k: u32)
        requires mem { IsMem (heap self.old) (mem_id m) }
        requires spare { 1 ≤ spare_of (heap self.old) (mem_id m) }
        ensures { heap self.new ≡ rule_added (heap self.old) (mem_id m) k };

    /// The rules of `m` go to the end of those of `n`, too.
    fn copy_rules(&mut self, m: Self::Mem, n: Self::Mem)
        requires m { IsMem (heap self.old) (mem_id m) }
        requires n { IsMem (heap self.old) (mem_id n) }
        requires differ { mem_id m ≢ mem_id n }
        requires spare { length (rules_in (heap self.old) (mem_id m)) ≤ spare_of (heap self.old) (mem_id n) }
        ensures { heap self.new ≡ rules_copied (heap self.old) (mem_id m) (mem_id n) };

    /// Two ports become partners. A former partner that isn't the other has none.
    fn join(&mut self, a: Self::Atom, i: u8, b: Self::Atom, j: u8)
        requires a { IsAtom (heap self.old) (atom_id a) }
        requires b { IsAtom (heap self.old) (atom_id b) }
        requires i { i < arity_of (heap self.old) (atom_id a) }
        requires j { j < arity_of (heap self.old) (atom_id b) }
        requires differ { ◌≢◌ {A = ℕ × ℕ} (atom_id a, i) (atom_id b, j) }
        ensures { heap self.new ≡ joined (heap self.old) (atom_id a) i (atom_id b) j };

    /// Frees all taken items.
    fn finish(&mut self)
        requires { Ready (heap self.old) }
        ensures { heap self.new ≡ finished (heap self.old) };
}
