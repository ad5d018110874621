//! The calls of a web whose membranes may have keepers.
ghost use Rattle.std.specs.Prelude.{◌≡◌, ◌≢◌, ◌⊎◌, ◌==◌, ◌<◌, ◌≤◌, ◌^◌, ℕ, List, [], IfSome, IsSome, None, Some, MatchResult, length, slice_index_or};
ghost use Rattle.std.specs.Option.{option_map};
ghost use Rattle.lmn_base.specs.Lists.{In};
ghost use Rattle.lmn_store_heap.specs.Heap.{alter};
ghost use Rattle.lmn_store_heap.specs.Lists.{after, from};
ghost use Rattle.lmn_web_cells.specs.CellIds.{cell_id, port_id};
ghost use Rattle.lmn_web_cells.specs.Ports.{IsSamePort};
ghost use Rattle.lmn_web.specs.Webs.{web_by, partner_at, arity_at, kind_at, home_at, cells_in, marks_of, new_cell, with_mark, joined, added_last, unlinked, web_label, label_class, with_label, FilesNone, IsPaired, IsLoose, StandOnce, WithoutAtoms};
ghost use Rattle.lmn_web.specs.declared.kind.CellKind.TheVariants.{Atom, Membrane};
ghost use Rattle.lmn_web_merging.specs.Keepers.{merged_by, port_mark, LENT, MovesAll};

use crate::keeping::{free_membrane, keeper_of, may_trade, self_kept, trade};
use crate::moving::{send_all_first, send_all_last};
use lmn_web::{Cell, CellKind, Web};
use std::alloc::{AllocError, Global};
use std::marker::Model;

// So many cells go from one list to another rather than that a membrane gets a keeper.
const FEW: u64 = 16;

/// A web of cells, as `lmn_web` has it, but that the lists of a membrane may be kept by the cell to which its port is joined,
/// as those of that cell are by the membrane's. Neither ports of membranes are seen, nor cells that only keep lists.
#[derive(Drop)]
pub struct MergingWeb {
    web: Web,
}

impl Model for MergingWeb {
    ghost use Rattle.std.specs.Prelude.{List};
    ghost use Rattle.lmn_web_cells.specs.Rows.{Row};
    ghost use Rattle.lmn_web.specs.Webs.{web_by};
    ghost use Rattle.lmn_web_merging.specs.Moves.{AreKept};

    ghost Value = { List Row };

    ghost view = { λ s. s.web };

    ghost invariant = { λ s. AreKept (web_by s.web) };
}

impl MergingWeb {
    /// No cell.
    pub fn new(alloc: Global) -> MergingWeb
        ensures { merged_by result ≡ (λ _. None) }
    {
        MergingWeb {
            web: Web::new(alloc),
        }
    }

    /// A new cell: no port has a partner, it stands in no list, its lists are empty, and every mark is 0. A membrane files its
    /// atoms by class where its label has the class 0.
    #[inline(always)]
    pub fn make(&mut self, label: u128, arity: u8, kind: CellKind) -> Result<Cell, AllocError>
        requires ports { kind ≡ Membrane → arity ≡ 0 }
        requires class { label_class label < 2 ^ 16 }
        ensures { MatchResult result
            (λ c. (merged_by self.old (cell_id c) ≡ None) × (merged_by self.new ≡ alter (merged_by self.old) (cell_id c) (λ _. Some (new_cell label arity kind))))
            (λ _. merged_by self.new ≡ merged_by self.old) }
    {
        self.web.paired();
        match kind {
            CellKind::Atom => self.web.make(label, arity, CellKind::Atom),
            CellKind::Membrane => self.web.make(label, 1, CellKind::Membrane),
        }
    }

    /// The cell doesn't live any more.
    pub fn free(&mut self, c: Cell)
        requires { IsLoose (merged_by self.old) (cell_id c) }
        ensures { merged_by self.new ≡ alter (merged_by self.old) (cell_id c) (λ _. None) }
    {
        self.web.listed();
        self.web.paired();
        match self.web.kind(c) {
            CellKind::Atom => self.web.free(c),
            CellKind::Membrane => free_membrane(&mut self.web, c),
        }
    }

    /// The atoms of a membrane are freed, where each is joined to nothing but others of them.
    #[inline(always)]
    pub fn free_atoms(&mut self, home: Cell)
        requires membrane { kind_at (merged_by self.old) (cell_id home) ≡ Membrane }
        requires closed { (a i b j : ℕ) → In a (cells_in (merged_by self.old) (cell_id home) Atom) → partner_at (merged_by self.old) a i ≡ Some (b, j) → In b (cells_in (merged_by self.old) (cell_id home) Atom) }
        ensures { WithoutAtoms (merged_by self.old) (merged_by self.new) (cell_id home) }
    {
        self.web.listed();
        self.web.paired();
        let keeper = keeper_of(&self.web, home);
        self.web.free_atoms(keeper);
    }

    /// The atoms of a membrane that never had a keeper.
    #[inline(always)]
    pub fn free_atoms_plain(&mut self, home: Cell)
        requires membrane { kind_at (merged_by self.old) (cell_id home) ≡ Membrane }
        requires plain { port_mark (merged_by self.old) (cell_id home) ≡ 0 }
        requires closed { (a i b j : ℕ) → In a (cells_in (merged_by self.old) (cell_id home) Atom) → partner_at (merged_by self.old) a i ≡ Some (b, j) → In b (cells_in (merged_by self.old) (cell_id home) Atom) }
        ensures { WithoutAtoms (merged_by self.old) (merged_by self.new) (cell_id home) }
    {
        self.web.listed();
        self.web.paired();
        let keeper = self_kept(&self.web, home);
        self.web.free_atoms(keeper);
    }

    /// The label that the cell was made with.
    pub fn label(&self, c: Cell) -> u128
        requires { IsSome (merged_by self.now (cell_id c)) }
        ensures { web_label (merged_by self.now) (cell_id c) ≡ Some result }
    {
        self.web.label(c)
    }

    /// How many ports the atom has.
    pub fn arity(&self, c: Cell) -> u8
        requires there { IsSome (merged_by self.now (cell_id c)) }
        requires atom { kind_at (merged_by self.now) (cell_id c) ≡ Atom }
        ensures { result ≡ arity_at (merged_by self.now) (cell_id c) }
    {
        self.web.arity(c)
    }

    /// Whether the two are one cell.
    pub fn same(&self, a: Cell, b: Cell) -> bool
        requires first { IsSome (merged_by self.now (cell_id a)) }
        requires second { IsSome (merged_by self.now (cell_id b)) }
        ensures { result ≡ (cell_id a == cell_id b) }
    {
        self.web.same(a, b)
    }

    /// Each partner is a port whose partner is this port, and no port is its own.
    pub fn paired(&self)
        ensures { IsPaired (merged_by self.now) }
    {
        self.web.paired();
    }

    /// The other end of a port.
    pub fn partner(&self, c: Cell, port: u8) -> Option<(Cell, u8)>
        requires { port < arity_at (merged_by self.now) (cell_id c) }
        ensures { partner_at (merged_by self.now) (cell_id c) port ≡ option_map port_id result }
    {
        self.web.partner(c, port)
    }

    /// The two ports become partners. A former partner of either has none.
    pub fn join(&mut self, a: Cell, i: u8, b: Cell, j: u8)
        requires a { i < arity_at (merged_by self.old) (cell_id a) }
        requires b { j < arity_at (merged_by self.old) (cell_id b) }
        requires differ { IsSamePort (cell_id a) i (cell_id b) j → ⊥ }
        ensures { merged_by self.new ≡ joined (merged_by self.old) (cell_id a) i (cell_id b) j }
    {
        self.web.paired();
        self.web.join(a, i, b, j);
    }

    /// Each cell with a home stands once in that home's list of its kind, and in no other list.
    pub fn listed(&self)
        ensures { StandOnce (merged_by self.now) }
    {
        self.web.listed();
        self.web.paired();
    }

    /// The membrane in a list of which the cell stands.
    pub fn home(&self, c: Cell) -> Option<Cell>
        requires { IsSome (merged_by self.now (cell_id c)) }
        ensures { home_at (merged_by self.now) (cell_id c) ≡ option_map cell_id result }
    {
        self.web.listed();
        self.web.paired();
        match self.web.home(c) {
            None => None,
            Some(home) => Some(keeper_of(&self.web, home)),
        }
    }

    /// The first cell of a kind in a membrane.
    pub fn first(&self, home: Cell, kind: CellKind) -> Option<Cell>
        requires { kind_at (merged_by self.now) (cell_id home) ≡ Membrane }
        ensures list { from (option_map cell_id result) (cells_in (merged_by self.now) (cell_id home) kind) ≡ cells_in (merged_by self.now) (cell_id home) kind }
        ensures home { IfSome result (λ c. home_at (merged_by self.now) (cell_id c) ≡ Some (cell_id home)) }
    {
        self.web.listed();
        self.web.paired();
        self.web.first(keeper_of(&self.web, home), kind)
    }

    /// That of a membrane that never had a keeper.
    pub fn first_plain(&self, home: Cell, kind: CellKind) -> Option<Cell>
        requires membrane { kind_at (merged_by self.now) (cell_id home) ≡ Membrane }
        requires plain { port_mark (merged_by self.now) (cell_id home) ≡ 0 }
        ensures list { from (option_map cell_id result) (cells_in (merged_by self.now) (cell_id home) kind) ≡ cells_in (merged_by self.now) (cell_id home) kind }
        ensures home { IfSome result (λ c. home_at (merged_by self.now) (cell_id c) ≡ Some (cell_id home)) }
    {
        self.web.listed();
        self.web.paired();
        self.web.first(self_kept(&self.web, home), kind)
    }

    /// That of a membrane that never had a keeper, and in which one stands.
    pub fn known_first_plain(&self, home: Cell, kind: CellKind) -> Cell
        requires membrane { kind_at (merged_by self.now) (cell_id home) ≡ Membrane }
        requires plain { port_mark (merged_by self.now) (cell_id home) ≡ 0 }
        requires some { cells_in (merged_by self.now) (cell_id home) kind ≢ [] }
        ensures { from (Some (cell_id result)) (cells_in (merged_by self.now) (cell_id home) kind) ≡ cells_in (merged_by self.now) (cell_id home) kind }
    {
        self.web.listed();
        self.web.paired();
        self.web.known_first(self_kept(&self.web, home), kind)
    }

    /// The next cell behind this one in its list.
    pub fn next(&self, c: Cell) -> Option<Cell>
        requires { IsSome (home_at (merged_by self.now) (cell_id c)) }
        ensures list { (m : ℕ) → home_at (merged_by self.now) (cell_id c) ≡ Some m →
            from (option_map cell_id result) (cells_in (merged_by self.now) m (kind_at (merged_by self.now) (cell_id c))) ≡ after (cell_id c) (cells_in (merged_by self.now) m (kind_at (merged_by self.now) (cell_id c))) }
        ensures home { IfSome result (λ d. home_at (merged_by self.now) (cell_id d) ≡ home_at (merged_by self.now) (cell_id c)) }
    {
        self.web.paired();
        self.web.next(c)
    }

    /// The first atom of a membrane with this label and so many ports.
    #[inline(always)]
    pub fn first_with(&self, home: Cell, label: u128, arity: u8) -> Option<Cell>
        requires { kind_at (merged_by self.now) (cell_id home) ≡ Membrane }
        ensures list { let all = with_label (merged_by self.now) label arity (cells_in (merged_by self.now) (cell_id home) Atom) in from (option_map cell_id result) all ≡ all }
        ensures there { IfSome result (λ c. In (cell_id c) (cells_in (merged_by self.now) (cell_id home) Atom)) }
    {
        self.web.listed();
        self.web.paired();
        self.web
            .first_with(keeper_of(&self.web, home), label, arity)
    }

    /// The next atom behind this one in its list with its label and as many ports.
    #[inline(always)]
    pub fn next_with(&self, c: Cell) -> Option<Cell>
        requires home { IsSome (home_at (merged_by self.now) (cell_id c)) }
        requires atom { kind_at (merged_by self.now) (cell_id c) ≡ Atom }
        ensures list { let w = merged_by self.now in (m label : ℕ) → home_at w (cell_id c) ≡ Some m → web_label w (cell_id c) ≡ Some label →
            let all = with_label w label (arity_at w (cell_id c)) (cells_in w m Atom) in from (option_map cell_id result) all ≡ after (cell_id c) all }
        ensures there { (m : ℕ) → home_at (merged_by self.now) (cell_id c) ≡ Some m → IfSome result (λ d. In (cell_id d) (cells_in (merged_by self.now) m Atom)) }
    {
        self.web.listed();
        self.web.paired();
        self.web.next_with(c)
    }

    /// How many cells of a kind stand in a membrane.
    pub fn count(&self, home: Cell, kind: CellKind) -> u64
        requires { kind_at (merged_by self.now) (cell_id home) ≡ Membrane }
        ensures { result ≡ length (cells_in (merged_by self.now) (cell_id home) kind) }
    {
        self.web.listed();
        self.web.paired();
        self.web.count(keeper_of(&self.web, home), kind)
    }

    /// How many stand in one that never had a keeper.
    pub fn count_plain(&self, home: Cell, kind: CellKind) -> u64
        requires membrane { kind_at (merged_by self.now) (cell_id home) ≡ Membrane }
        requires plain { port_mark (merged_by self.now) (cell_id home) ≡ 0 }
        ensures { result ≡ length (cells_in (merged_by self.now) (cell_id home) kind) }
    {
        self.web.listed();
        self.web.paired();
        self.web.count(self_kept(&self.web, home), kind)
    }

    /// The cell, which is of this kind, goes to the end of the list of its kind. Of a membrane that comes into another one, one
    /// of the two has never had a keeper.
    #[inline(always)]
    pub fn add_last(&mut self, home: Cell, kind: CellKind, c: Cell)
        requires there { IsSome (merged_by self.old (cell_id c)) }
        requires kind { kind_at (merged_by self.old) (cell_id c) ≡ kind }
        requires homeless { home_at (merged_by self.old) (cell_id c) ≡ None }
        requires membrane { kind_at (merged_by self.old) (cell_id home) ≡ Membrane }
        requires differ { cell_id c ≢ cell_id home }
        requires own { kind ≡ Membrane → (port_mark (merged_by self.old) (cell_id c) ≡ 0) ⊎ (port_mark (merged_by self.old) (cell_id home) ≡ 0) }
        ensures { merged_by self.new ≡ added_last (merged_by self.old) (cell_id home) (cell_id c) }
    {
        self.web.listed();
        self.web.paired();
        let keeper = keeper_of(&self.web, home);
        self.web.add_last(keeper, kind, c);
    }

    /// It goes to the end of a list of a membrane that never had a keeper, and files no atoms.
    #[inline(always)]
    pub fn add_last_plain(&mut self, home: Cell, kind: CellKind, c: Cell)
        requires there { IsSome (merged_by self.old (cell_id c)) }
        requires kind { kind_at (merged_by self.old) (cell_id c) ≡ kind }
        requires homeless { home_at (merged_by self.old) (cell_id c) ≡ None }
        requires membrane { kind_at (merged_by self.old) (cell_id home) ≡ Membrane }
        requires differ { cell_id c ≢ cell_id home }
        requires plain { port_mark (merged_by self.old) (cell_id home) ≡ 0 }
        requires files { FilesNone (merged_by self.old) (cell_id home) }
        ensures { merged_by self.new ≡ added_last (merged_by self.old) (cell_id home) (cell_id c) }
    {
        self.web.listed();
        self.web.paired();
        let keeper = self_kept(&self.web, home);
        self.web.add_last_unfiled(keeper, kind, c);
    }

    /// The cell, which is of this kind, leaves its list.
    #[inline(always)]
    pub fn unlink(&mut self, kind: CellKind, c: Cell)
        requires listed { IsSome (home_at (merged_by self.old) (cell_id c)) }
        requires kind { kind_at (merged_by self.old) (cell_id c) ≡ kind }
        ensures { (m : ℕ) → home_at (merged_by self.old) (cell_id c) ≡ Some m → merged_by self.new ≡ unlinked (merged_by self.old) m (cell_id c) }
    {
        self.web.listed();
        self.web.paired();
        self.web.unlink(kind, c);
    }

    /// The first cell of a list of a membrane that never had a keeper, and files no atoms, leaves it.
    #[inline(always)]
    pub fn unlink_first_plain(&mut self, home: Cell, kind: CellKind, c: Cell)
        requires membrane { kind_at (merged_by self.old) (cell_id home) ≡ Membrane }
        requires first { from (Some (cell_id c)) (cells_in (merged_by self.old) (cell_id home) kind) ≡ cells_in (merged_by self.old) (cell_id home) kind }
        requires plain { port_mark (merged_by self.old) (cell_id home) ≡ 0 }
        requires files { FilesNone (merged_by self.old) (cell_id home) }
        ensures { merged_by self.new ≡ unlinked (merged_by self.old) (cell_id home) (cell_id c) }
    {
        self.web.listed();
        self.web.paired();
        let keeper = self_kept(&self.web, home);
        self.web.unlink_first_unfiled(keeper, kind, c);
    }

    /// The mark of a port of an atom, or behind the ports the cell's own.
    pub fn mark(&self, c: Cell, slot: u8) -> u64
        requires there { IsSome (merged_by self.now (cell_id c)) }
        requires slot { slot ≤ arity_at (merged_by self.now) (cell_id c) }
        ensures { result ≡ slice_index_or (marks_of (merged_by self.now (cell_id c))) slot 0 }
    {
        self.web.mark(c, slot)
    }

    /// A mark is another. The mark of a slot other than 0 is below 2^56.
    pub fn set_mark(&mut self, c: Cell, slot: u8, v: u64)
        requires there { IsSome (merged_by self.old (cell_id c)) }
        requires slot { slot ≤ arity_at (merged_by self.old) (cell_id c) }
        requires small { slot ≢ 0 → v < 2 ^ 56 }
        ensures { merged_by self.new ≡ alter (merged_by self.old) (cell_id c) (option_map (with_mark slot v)) }
    {
        self.web.set_mark(c, slot, v);
    }

    /// What stands in one membrane goes to the ends of the lists of another, in as many steps as the one that holds less has items.
    pub fn move_all(&mut self, m: Cell, n: Cell)
        requires source { kind_at (merged_by self.old) (cell_id m) ≡ Membrane }
        requires target { kind_at (merged_by self.old) (cell_id n) ≡ Membrane }
        requires apart { cell_id m ≢ cell_id n }
        requires inside { home_at (merged_by self.old) (cell_id m) ≢ Some (cell_id n) }
        requires outside { home_at (merged_by self.old) (cell_id n) ≢ Some (cell_id m) }
        requires own { port_mark (merged_by self.old) (cell_id n) ≢ LENT }
        requires owned { (x : ℕ) → home_at (merged_by self.old) x ≡ Some (cell_id m) → kind_at (merged_by self.old) x ≡ Membrane → port_mark (merged_by self.old) x ≢ LENT }
        ensures { MovesAll (merged_by self.old) (merged_by self.new) (cell_id m) (cell_id n) }
    {
        self.web.listed();
        self.web.paired();
        let source = keeper_of(&self.web, m);
        let target = keeper_of(&self.web, n);
        if holds_less(&self.web, target, source) && may_trade(&self.web, m, n) {
            send_all_first(&mut self.web, target, source, CellKind::Atom);
            send_all_first(&mut self.web, target, source, CellKind::Membrane);
            trade(&mut self.web, m, n);
        } else {
            send_all_last(&mut self.web, source, target, CellKind::Atom);
            send_all_last(&mut self.web, source, target, CellKind::Membrane);
        }
    }
}

// Whether fewer cells stand in one membrane than in another, by more than what is sent one by one.
fn holds_less(web: &Web, n: Cell, m: Cell) -> bool
    requires first { kind_at (web_by web.now) (cell_id n) ≡ Membrane }
    requires second { kind_at (web_by web.now) (cell_id m) ≡ Membrane }
{
    held(web, n).saturating_add(FEW) < held(web, m)
}

// How many cells stand in a membrane, or the greatest number where they are more.
fn held(web: &Web, m: Cell) -> u64
    requires { kind_at (web_by web.now) (cell_id m) ≡ Membrane }
{
    web.count(m, CellKind::Atom)
        .saturating_add(web.count(m, CellKind::Membrane))
}
