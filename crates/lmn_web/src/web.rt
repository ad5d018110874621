//! The calls of a web.
ghost use Rattle.std.specs.Prelude.{◌≡◌, ◌≢◌, ◌==◌, ℕ, ◌+◌, ◌^◌, ◌<◌, ◌≤◌, ◌∷◌, ◌++◌, [], IfSome, IsSome, List, None, Some, MatchOption, MatchResult, length, slice_index_or};
ghost use Rattle.std.specs.Option.{option_map};
ghost use Rattle.lmn_base.specs.Lists.{In};
ghost use Rattle.lmn_store_heap.specs.Heap.{alter};
ghost use Rattle.lmn_store_heap.specs.Lists.{after, from};
ghost use Rattle.lmn_web_cells.specs.Cells.{cells_by, numbers_of, ports_of, IsNewIndex};
ghost use Rattle.lmn_web_cells.specs.CellIds.{cell_id, port_id};
ghost use Rattle.lmn_web_cells.specs.Ports.{IsSamePort};
ghost use Rattle.lmn_web_cells.specs.Runs.{Line};
ghost use Rattle.lmn_web.specs.Webs.{web_by, partner_at, arity_at, kind_at, home_at, cells_in, list_in, list_link, number_in, partners_of, marks_of, new_cell, with_mark, joined, parted, added_last, added_before, unlinked, web_label, is_labelled, with_label, label_class, with_class, FilesNone, IsPaired, IsLoose, StandOnce, WithoutAtoms};
ghost use Rattle.lmn_web.specs.Kinds.{kind_by, FILED};
ghost use Rattle.lmn_web.specs.Indexes.{described, bare_atoms, AreSized, Without, blank_by, most_cells, numbers_by};
ghost use Rattle.lmn_web.specs.declared.kind.CellKind.TheVariants.{Atom, Membrane};

use crate::classes::{enter_class, first_in, is_filed, key_of, leave_class, next_in, place_from};
use crate::fronts;
use crate::kind::{CellKind, count_place, first_link, kind_of, number_of};
use lmn_web_cells::cell::Cells;
use lmn_web_cells::handle::Cell;
use lmn_web_cells::links::{HOME, LEADERS_WORD, NEXT};
use lmn_web_cells::numbers::{ARITY, FIRST_MARK, HIGH, INDEX, KIND, LOW};
use lmn_web_cells::{lists, ports};
use std::alloc::{AllocError, Global};
use std::marker::Model;

// The first number that doesn't fit into half a label.
const WHOLE: u128 = 0x1_0000_0000_0000_0000;

// Below this is the class of each label.
const CLASSES: u64 = 65_536;

/// A web of cells.
pub struct Web {
    cells: Cells,
}

impl Model for Web {
    ghost use Rattle.std.specs.Prelude.{List};
    ghost use Rattle.lmn_web_cells.specs.Rows.{Row};
    ghost use Rattle.lmn_web_cells.specs.Cells.{cells_by};
    ghost use Rattle.lmn_web.specs.Indexes.{IsClassedWeb, most_cells};

    ghost Value = { List Row };

    ghost view = { λ s. s.cells };

    ghost invariant = { λ s. IsClassedWeb (cells_by s.cells) most_cells };
}

impl Drop for Web {
    #[inline(never)]
    fn drop(self) {
        let Web { cells } = self;
        cells.end();
    }
}

impl Web {
    /// No cell.
    pub fn new(alloc: Global) -> Web
        ensures { web_by result ≡ (λ _. None) }
    {
        Web {
            cells: Cells::new(alloc),
        }
    }

    /// A new cell: no port has a partner, it stands in no list, its lists are empty, and every mark is 0. A membrane files its
    /// atoms by class where its label has the class 0; with another one they come and go in fewer steps, and those of a class
    /// are looked for along its list. An error where no memory or no index is left, and where a membrane is to have another
    /// number of ports than one.
    #[inline(always)]
    pub fn make(&mut self, label: u128, arity: u8, kind: CellKind) -> Result<Cell, AllocError>
        requires { label_class label < 2 ^ 16 }
        ensures { MatchResult result
            (λ c. (web_by self.old (cell_id c) ≡ None) × (web_by self.new ≡ alter (web_by self.old) (cell_id c) (λ _. Some (new_cell label arity kind))))
            (λ _. web_by self.new ≡ web_by self.old) }
    {
        self.make_by(label, arity, number_of(kind, (label / WHOLE) as u64))
    }

    // A new cell that tells its kind by this number.
    #[inline(always)]
    fn make_by(&mut self, label: u128, arity: u8, kind: u64) -> Result<Cell, AllocError>
        requires small { kind < 256 }
        requires class { label_class label < 2 ^ 16 }
        requires filed { kind ≡ FILED → label_class label ≡ 0 }
        ensures { MatchResult result
            (λ c. (web_by self.old (cell_id c) ≡ None) × (web_by self.new ≡ alter (web_by self.old) (cell_id c) (λ _. Some (new_cell label arity (kind_by kind)))))
            (λ _. web_by self.new ≡ web_by self.old) }
    {
        let c = make_blank(&mut self.cells, arity, kind)?;
        let high = (label / WHOLE) as u64;
        let low = (label % WHOLE) as u64;
        describe(&mut self.cells, c, arity as u64, kind, high, low);
        Ok(c)
    }

    /// The cell doesn't live any more.
    pub fn free(&mut self, c: Cell)
        requires { IsLoose (web_by self.old) (cell_id c) }
        ensures { web_by self.new ≡ alter (web_by self.old) (cell_id c) (λ _. None) }
    {
        free_cell(&mut self.cells, c);
    }

    /// The atoms of a membrane are freed, where each is joined to nothing but others of them.
    #[inline(always)]
    pub fn free_atoms(&mut self, home: Cell)
        requires membrane { kind_at (web_by self.old) (cell_id home) ≡ Membrane }
        requires closed { (a i b j : ℕ) → In a (cells_in (web_by self.old) (cell_id home) Atom) → partner_at (web_by self.old) a i ≡ Some (b, j) → In b (cells_in (web_by self.old) (cell_id home) Atom) }
        ensures { WithoutAtoms (web_by self.old) (web_by self.new) (cell_id home) }
    {
        free_list(&mut self.cells, home);
        forget_atoms(&mut self.cells, home);
    }

    /// The label that the cell was made with.
    pub fn label(&self, c: Cell) -> u128
        requires { IsSome (web_by self.now (cell_id c)) }
        ensures { web_label (web_by self.now) (cell_id c) ≡ Some result }
    {
        self.cells.number(c, HIGH) as u128 * WHOLE + self.cells.number(c, LOW) as u128
    }

    /// How many ports the cell has.
    pub fn arity(&self, c: Cell) -> u8
        requires { IsSome (web_by self.now (cell_id c)) }
        ensures { result ≡ arity_at (web_by self.now) (cell_id c) }
    {
        self.cells.number(c, ARITY) as u8
    }

    /// What the cell stands for.
    pub fn kind(&self, c: Cell) -> CellKind
        requires { IsSome (web_by self.now (cell_id c)) }
        ensures { option_map (λ x. x.kind) (web_by self.now (cell_id c)) ≡ Some result }
    {
        kind_of(self.cells.number(c, KIND))
    }

    /// Whether the two are one cell.
    /// Indices are compared and no addresses, since pointers into different blocks can't be.
    pub fn same(&self, a: Cell, b: Cell) -> bool
        requires first { IsSome (web_by self.now (cell_id a)) }
        requires second { IsSome (web_by self.now (cell_id b)) }
        ensures { result ≡ (cell_id a == cell_id b) }
    {
        self.cells.number(a, INDEX) == self.cells.number(b, INDEX)
    }

    /// Each partner is a port whose partner is this port, and no port is its own.
    pub fn paired(&self)
        ensures { IsPaired (web_by self.now) }
    {
        let _ = &self.cells;
    }

    /// The other end of a port.
    pub fn partner(&self, c: Cell, port: u8) -> Option<(Cell, u8)>
        requires { port < arity_at (web_by self.now) (cell_id c) }
        ensures { partner_at (web_by self.now) (cell_id c) port ≡ option_map port_id result }
    {
        match ports::partner(&self.cells, c, port as usize) {
            None => None,
            Some((d, j)) => Some((d, j as u8)),
        }
    }

    /// The two ports become partners. A former partner of either has none.
    pub fn join(&mut self, a: Cell, i: u8, b: Cell, j: u8)
        requires a { i < arity_at (web_by self.old) (cell_id a) }
        requires b { j < arity_at (web_by self.old) (cell_id b) }
        requires differ { IsSamePort (cell_id a) i (cell_id b) j → ⊥ }
        ensures { web_by self.new ≡ joined (web_by self.old) (cell_id a) i (cell_id b) j }
    {
        ports::join(&mut self.cells, a, i as usize, b, j as usize);
    }

    /// The port and its partner have none.
    pub fn split(&mut self, c: Cell, port: u8)
        requires { port < arity_at (web_by self.old) (cell_id c) }
        ensures { web_by self.new ≡ parted (web_by self.old) (cell_id c) port }
    {
        ports::split(&mut self.cells, c, port as usize);
    }

    /// Each cell with a home stands once in that home's list of its kind, and in no other list.
    pub fn listed(&self)
        ensures { StandOnce (web_by self.now) }
    {
        let _ = &self.cells;
    }

    /// The membrane in a list of which the cell stands.
    pub fn home(&self, c: Cell) -> Option<Cell>
        requires { IsSome (web_by self.now (cell_id c)) }
        ensures { home_at (web_by self.now) (cell_id c) ≡ option_map cell_id result }
    {
        self.cells.link(c, HOME)
    }

    // The membrane in a list of which the cell stands, where it stands in one.
    fn home_of(&self, c: Cell) -> Cell
        requires { IsSome (home_at (web_by self.now) (cell_id c)) }
        ensures { home_at (web_by self.now) (cell_id c) ≡ Some (cell_id result) }
    {
        self.cells.target(c, HOME)
    }

    /// The first cell of a kind in a membrane.
    pub fn first(&self, home: Cell, kind: CellKind) -> Option<Cell>
        requires { kind_at (web_by self.now) (cell_id home) ≡ Membrane }
        ensures list { from (option_map cell_id result) (cells_in (web_by self.now) (cell_id home) kind) ≡ cells_in (web_by self.now) (cell_id home) kind }
        ensures home { IfSome result (λ c. home_at (web_by self.now) (cell_id c) ≡ Some (cell_id home)) }
    {
        self.cells.link(home, first_link(kind))
    }

    /// The first cell of a kind in a membrane in which one stands.
    pub fn known_first(&self, home: Cell, kind: CellKind) -> Cell
        requires membrane { kind_at (web_by self.now) (cell_id home) ≡ Membrane }
        requires some { cells_in (web_by self.now) (cell_id home) kind ≢ [] }
        ensures { from (Some (cell_id result)) (cells_in (web_by self.now) (cell_id home) kind) ≡ cells_in (web_by self.now) (cell_id home) kind }
    {
        self.cells.target(home, first_link(kind))
    }

    /// The last cell of a kind in a membrane.
    pub fn last(&self, home: Cell, kind: CellKind) -> Option<Cell>
        requires { IsSome (web_by self.now (cell_id home)) }
        ensures { MatchOption result (cells_in (web_by self.now) (cell_id home) kind ≡ [])
            (λ c. (xs : List ℕ) × (cells_in (web_by self.now) (cell_id home) kind ≡ xs ++ cell_id c ∷ [])) }
    {
        match self.kind(home) {
            CellKind::Atom => None,
            CellKind::Membrane => self.cells.link(home, first_link(kind) + 1),
        }
    }

    /// The next cell behind this one in its list.
    pub fn next(&self, c: Cell) -> Option<Cell>
        requires { IsSome (home_at (web_by self.now) (cell_id c)) }
        ensures list { (m : ℕ) → home_at (web_by self.now) (cell_id c) ≡ Some m →
            from (option_map cell_id result) (cells_in (web_by self.now) m (kind_at (web_by self.now) (cell_id c))) ≡ after (cell_id c) (cells_in (web_by self.now) m (kind_at (web_by self.now) (cell_id c))) }
        ensures home { IfSome result (λ d. home_at (web_by self.now) (cell_id d) ≡ home_at (web_by self.now) (cell_id c)) }
    {
        self.cells.link(c, NEXT)
    }

    /// The first atom of a membrane whose label has this class, the upper half of a label, and that has so many ports.
    pub fn first_of_class(&self, home: Cell, class: u64, arity: u8) -> Option<Cell>
        requires { kind_at (web_by self.now) (cell_id home) ≡ Membrane }
        ensures list { let all = with_class (web_by self.now) class arity (cells_in (web_by self.now) (cell_id home) Atom) in from (option_map cell_id result) all ≡ all }
        ensures there { IfSome result (λ c. In (cell_id c) (cells_in (web_by self.now) (cell_id home) Atom)) }
    {
        self.cells.small_classes();
        if class >= CLASSES {
            return None;
        }
        first_in(&self.cells, home, key_of(class, arity))
    }

    /// The next atom behind this one in its list with a label of its class and as many ports.
    pub fn next_of_class(&self, c: Cell) -> Option<Cell>
        requires home { IsSome (home_at (web_by self.now) (cell_id c)) }
        requires atom { kind_at (web_by self.now) (cell_id c) ≡ Atom }
        ensures list { let w = web_by self.now in (m label : ℕ) → home_at w (cell_id c) ≡ Some m → web_label w (cell_id c) ≡ Some label →
            let all = with_class w (label_class label) (arity_at w (cell_id c)) (cells_in w m Atom) in from (option_map cell_id result) all ≡ after (cell_id c) all }
        ensures there { (m : ℕ) → home_at (web_by self.now) (cell_id c) ≡ Some m → IfSome result (λ d. In (cell_id d) (cells_in (web_by self.now) m Atom)) }
    {
        next_in(&self.cells, self.home_of(c), c)
    }

    /// The first atom of a membrane with this label and so many ports.
    #[inline(always)]
    pub fn first_with(&self, home: Cell, label: u128, arity: u8) -> Option<Cell>
        requires { kind_at (web_by self.now) (cell_id home) ≡ Membrane }
        ensures list { let all = with_label (web_by self.now) label arity (cells_in (web_by self.now) (cell_id home) Atom) in from (option_map cell_id result) all ≡ all }
        ensures there { IfSome result (λ c. In (cell_id c) (cells_in (web_by self.now) (cell_id home) Atom)) }
    {
        self.seek(
            home,
            self.first_of_class(home, (label / WHOLE) as u64, arity),
            label,
            arity,
        )
    }

    /// The next atom behind this one in its list with its label and as many ports.
    #[inline(always)]
    pub fn next_with(&self, c: Cell) -> Option<Cell>
        requires home { IsSome (home_at (web_by self.now) (cell_id c)) }
        requires atom { kind_at (web_by self.now) (cell_id c) ≡ Atom }
        ensures list { let w = web_by self.now in (m label : ℕ) → home_at w (cell_id c) ≡ Some m → web_label w (cell_id c) ≡ Some label →
            let all = with_label w label (arity_at w (cell_id c)) (cells_in w m Atom) in from (option_map cell_id result) all ≡ after (cell_id c) all }
        ensures there { (m : ℕ) → home_at (web_by self.now) (cell_id c) ≡ Some m → IfSome result (λ d. In (cell_id d) (cells_in (web_by self.now) m Atom)) }
    {
        let home = self.home_of(c);
        self.seek(home, self.next_of_class(c), self.label(c), self.arity(c))
    }

    // Whether the cell has a label, if it has the class of that.
    fn has_label(&self, c: Cell, label: u128) -> bool
        requires { IsSome (web_by self.now (cell_id c)) }
        ensures { (l n : ℕ) → web_label (web_by self.now) (cell_id c) ≡ Some l → label_class l ≡ label_class label → arity_at (web_by self.now) (cell_id c) ≡ n → result ≡ is_labelled (web_by self.now) label n (cell_id c) }
    {
        self.cells.number(c, LOW) == (label % WHOLE) as u64
    }

    // The first atom with this label and so many ports, from an atom of its class on.
    fn seek(&self, home: Cell, start: Option<Cell>, label: u128, arity: u8) -> Option<Cell>
        requires { IfSome start (λ c. In (cell_id c) (with_class (web_by self.now) (label_class label) arity (cells_in (web_by self.now) (cell_id home) Atom))) }
        ensures list { let all = with_class (web_by self.now) (label_class label) arity (cells_in (web_by self.now) (cell_id home) Atom) in
            from (option_map cell_id result) (with_label (web_by self.now) label arity all) ≡ with_label (web_by self.now) label arity (from (option_map cell_id start) all) }
        ensures there { IfSome result (λ c. In (cell_id c) (cells_in (web_by self.now) (cell_id home) Atom)) }
    {
        self.listed();
        let mut at = start;
        while let Some(c) = at {
            if self.has_label(c, label) {
                return Some(c);
            }
            at = self.next_of_class(c);
        }
        None
    }

    /// How many cells of a kind stand in a membrane.
    pub fn count(&self, home: Cell, kind: CellKind) -> u64
        requires { kind_at (web_by self.now) (cell_id home) ≡ Membrane }
        ensures { result ≡ length (cells_in (web_by self.now) (cell_id home) kind) }
    {
        self.cells.count(home, count_place(kind))
    }

    /// The cell, which is of this kind, goes to the end of the list of its kind.
    #[inline(always)]
    pub fn add_last(&mut self, home: Cell, kind: CellKind, c: Cell)
        requires there { IsSome (web_by self.old (cell_id c)) }
        requires kind { kind_at (web_by self.old) (cell_id c) ≡ kind }
        requires homeless { home_at (web_by self.old) (cell_id c) ≡ None }
        requires membrane { kind_at (web_by self.old) (cell_id home) ≡ Membrane }
        requires differ { cell_id c ≢ cell_id home }
        ensures { web_by self.new ≡ added_last (web_by self.old) (cell_id home) (cell_id c) }
    {
        let filed = is_filed(&self.cells, home, kind);
        lists::append(&mut self.cells, home, first_link(kind), c);
        let count = self.cells.count(home, count_place(kind));
        self.cells.set_count(home, count_place(kind), count + 1);
        enter_class(&mut self.cells, home, filed, None, c);
    }

    /// It goes to the end of a list of a membrane that files no atoms.
    #[inline(always)]
    pub fn add_last_unfiled(&mut self, home: Cell, kind: CellKind, c: Cell)
        requires there { IsSome (web_by self.old (cell_id c)) }
        requires kind { kind_at (web_by self.old) (cell_id c) ≡ kind }
        requires homeless { home_at (web_by self.old) (cell_id c) ≡ None }
        requires membrane { kind_at (web_by self.old) (cell_id home) ≡ Membrane }
        requires differ { cell_id c ≢ cell_id home }
        requires files { FilesNone (web_by self.old) (cell_id home) }
        ensures { web_by self.new ≡ added_last (web_by self.old) (cell_id home) (cell_id c) }
    {
        lists::append(&mut self.cells, home, first_link(kind), c);
        let count = self.cells.count(home, count_place(kind));
        self.cells.set_count(home, count_place(kind), count + 1);
    }

    /// The cell goes directly before another one of its kind.
    pub fn add_before(&mut self, after: Cell, c: Cell)
        requires there { IsSome (web_by self.old (cell_id c)) }
        requires homeless { home_at (web_by self.old) (cell_id c) ≡ None }
        requires home { IsSome (home_at (web_by self.old) (cell_id after)) }
        requires differ { home_at (web_by self.old) (cell_id after) ≢ Some (cell_id c) }
        requires kind { kind_at (web_by self.old) (cell_id after) ≡ kind_at (web_by self.old) (cell_id c) }
        ensures { (m : ℕ) → home_at (web_by self.old) (cell_id after) ≡ Some m → web_by self.new ≡ added_before (web_by self.old) m (cell_id after) (cell_id c) }
    {
        if let Some(home) = self.cells.link(after, HOME) {
            let kind = kind_of(self.cells.number(c, KIND));
            let filed = is_filed(&self.cells, home, kind);
            let place = place_from(&self.cells, home, filed, after, c);
            lists::insert(&mut self.cells, home, first_link(kind), after, c);
            let count = self.cells.count(home, count_place(kind));
            self.cells.set_count(home, count_place(kind), count + 1);
            enter_class(&mut self.cells, home, filed, place, c);
        }
    }

    /// The cell, which is of this kind, leaves its list.
    #[inline(always)]
    pub fn unlink(&mut self, kind: CellKind, c: Cell)
        requires listed { IsSome (home_at (web_by self.old) (cell_id c)) }
        requires kind { kind_at (web_by self.old) (cell_id c) ≡ kind }
        ensures { (m : ℕ) → home_at (web_by self.old) (cell_id c) ≡ Some m → web_by self.new ≡ unlinked (web_by self.old) m (cell_id c) }
    {
        let home = self.cells.target(c, HOME);
        let filed = is_filed(&self.cells, home, kind);
        lists::unlink(&mut self.cells, home, first_link(kind), c);
        let count = self.cells.count(home, count_place(kind));
        self.cells.set_count(home, count_place(kind), count - 1);
        leave_class(&mut self.cells, home, filed, c);
    }

    /// The first cell of a list of a membrane that files no atoms leaves it.
    #[inline(always)]
    pub fn unlink_first_unfiled(&mut self, home: Cell, kind: CellKind, c: Cell)
        requires membrane { kind_at (web_by self.old) (cell_id home) ≡ Membrane }
        requires first { from (Some (cell_id c)) (cells_in (web_by self.old) (cell_id home) kind) ≡ cells_in (web_by self.old) (cell_id home) kind }
        requires files { FilesNone (web_by self.old) (cell_id home) }
        ensures { web_by self.new ≡ unlinked (web_by self.old) (cell_id home) (cell_id c) }
    {
        fronts::unlink_first(&mut self.cells, home, first_link(kind), c);
        let count = self.cells.count(home, count_place(kind));
        self.cells.set_count(home, count_place(kind), count - 1);
    }

    /// The mark of a port, or behind the ports the cell's own.
    pub fn mark(&self, c: Cell, slot: u8) -> u64
        requires there { IsSome (web_by self.now (cell_id c)) }
        requires slot { slot ≤ arity_at (web_by self.now) (cell_id c) }
        ensures { result ≡ slice_index_or (marks_of (web_by self.now (cell_id c))) slot 0 }
    {
        if slot == 0 {
            self.cells.number(c, FIRST_MARK)
        } else {
            self.cells.mark(c, slot as usize - 1)
        }
    }

    /// A mark is another. The mark of a slot other than 0 is below 2^56.
    pub fn set_mark(&mut self, c: Cell, slot: u8, v: u64)
        requires there { IsSome (web_by self.old (cell_id c)) }
        requires slot { slot ≤ arity_at (web_by self.old) (cell_id c) }
        requires small { slot ≢ 0 → v < 2 ^ 56 }
        ensures { web_by self.new ≡ alter (web_by self.old) (cell_id c) (option_map (with_mark slot v)) }
    {
        if slot == 0 {
            self.cells.set_number(c, FIRST_MARK, v)
        } else {
            self.cells.set_mark(c, slot as usize - 1, v)
        }
    }
}

// A cell in which nothing is set but an index that no other one has, and that is to tell its kind by this number. No membrane is made but with one port.
#[inline(always)]
fn make_blank(cells: &mut Cells, arity: u8, kind: u64) -> Result<Cell, AllocError>
    ensures { MatchResult result
        (λ c. (cells_by cells.old (cell_id c) ≡ None) × (index : ℕ) × (index < most_cells) × IsNewIndex (cells_by cells.old) index × (cells_by cells.new ≡ alter (cells_by cells.old) (cell_id c) (λ _. Some (blank_by index kind arity))))
        (λ _. cells_by cells.new ≡ cells_by cells.old) }
{
    if kind == 0 {
        cells.make(arity as usize)
    } else if arity == 1 {
        cells.make_membrane()
    } else {
        Err(AllocError)
    }
}

// The numbers of a cell that was just made.
fn describe(cells: &mut Cells, c: Cell, arity: u64, kind: u64, high: u64, low: u64)
    requires there { IsSome (cells_by cells.old (cell_id c)) }
    requires small { (arity < 256) × (kind < 256) × (high < 2 ^ 16) }
    ensures { cells_by cells.new ≡ alter (cells_by cells.old) (cell_id c) (option_map (described arity kind high low)) }
{
    cells.set_number(c, ARITY, arity);
    cells.set_number(c, KIND, kind);
    cells.set_number(c, HIGH, high);
    cells.set_number(c, LOW, low);
}

// The cell is freed.
fn free_cell(cells: &mut Cells, c: Cell)
    requires there { IsSome (cells_by cells.old (cell_id c)) }
    requires arity { number_in (cells_by cells.old) (cell_id c) ARITY ≡ length (ports_of (cells_by cells.old (cell_id c))) }
    requires numbers { length (numbers_of (cells_by cells.old (cell_id c))) ≡ numbers_by (number_in (cells_by cells.old) (cell_id c) KIND) }
    ensures { cells_by cells.new ≡ alter (cells_by cells.old) (cell_id c) (λ _. None) }
{
    let kind = cells.number(c, KIND);
    if kind == 0 {
        free_atom(cells, c);
    } else {
        cells.free_membrane(c);
    }
}

// The cell of an atom is freed.
fn free_atom(cells: &mut Cells, c: Cell)
    requires there { IsSome (cells_by cells.old (cell_id c)) }
    requires arity { number_in (cells_by cells.old) (cell_id c) ARITY ≡ length (ports_of (cells_by cells.old (cell_id c))) }
    requires numbers { length (numbers_of (cells_by cells.old (cell_id c))) ≡ 6 }
    ensures { cells_by cells.new ≡ alter (cells_by cells.old) (cell_id c) (λ _. None) }
{
    let ports = cells.number(c, ARITY);
    cells.free(c, ports as usize);
}

// The atoms of a membrane are freed, and nothing else is written.
fn free_list(cells: &mut Cells, m: Cell)
    requires there { IsSome (cells_by cells.old (cell_id m)) }
    requires sized { AreSized (cells_by cells.old) }
    requires line { let f = cells_by cells.old in Line f (cell_id m) (list_link Atom) (list_in f (cell_id m) Atom) }
    requires atoms { let f = cells_by cells.old in (a : ℕ) → In a (list_in f (cell_id m) Atom) → number_in f a KIND ≡ 0 }
    ensures { Without (cells_by cells.old) (cells_by cells.new) (list_in (cells_by cells.old) (cell_id m) Atom) }
{
    let mut at = cells.link(m, first_link(CellKind::Atom));
    while let Some(c) = at {
        let next = cells.link(c, NEXT);
        free_atom(cells, c);
        at = next;
    }
}

// The list of the atoms of a membrane has no cell, nor has a class.
fn forget_atoms(cells: &mut Cells, m: Cell)
    requires there { IsSome (cells_by cells.old (cell_id m)) }
    requires numbers { length (numbers_of (cells_by cells.old (cell_id m))) ≡ 8 }
    ensures { cells_by cells.new ≡ alter (cells_by cells.old) (cell_id m) (option_map bare_atoms) }
{
    let first = first_link(CellKind::Atom);
    cells.set_link(m, first, None);
    cells.set_link(m, first + 1, None);
    cells.set_link_in(m, LEADERS_WORD, None);
    cells.set_count(m, count_place(CellKind::Atom), 0);
}
