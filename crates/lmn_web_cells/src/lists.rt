//! Lists of cells that are linked both ways. Two links of a membrane lead to the first and the last cell.
ghost use Rattle.std.specs.Prelude.{◌≡◌, ◌≢◌, ℕ, ◌+◌, ◌^◌, ◌<◌, List, ◌++◌, ◌∷◌, [], IfSome, IsSome, Some, None, length};
ghost use Rattle.std.specs.Option.{option_map};
ghost use Rattle.lmn_store_heap.specs.Lists.{without};
ghost use Rattle.lmn_base.specs.Lists.{In};
ghost use Rattle.lmn_web_cells.specs.Cells.{cells_by};
ghost use Rattle.lmn_web_cells.specs.CellIds.{cell_id};
ghost use Rattle.lmn_web_cells.specs.Runs.{Line, IsHome, Apart, with_next, with_prev, unlinked, appended, inserted, put_before};

use crate::cell::Cells;
use crate::handle::Cell;
use crate::links::{HOME, NEXT, PREV};

/// What follows a cell, or begins the list at a link of a membrane, becomes `next`.
pub fn set_next(cells: &mut Cells, m: Cell, e: usize, at: Option<Cell>, next: Option<Cell>)
    requires home { IsHome (cells_by cells.old) (cell_id m) e }
    requires there { IfSome at (λ q. IsSome (cells_by cells.old (cell_id q))) }
    ensures { cells_by cells.new ≡ with_next (cells_by cells.old) (cell_id m) e (option_map cell_id at) (option_map cell_id next) }
{
    match at {
        None => cells.set_link(m, e, next),
        Some(q) => cells.set_link(q, NEXT, next),
    }
}

/// What precedes a cell, or ends the list, becomes `prev`.
pub fn set_prev(cells: &mut Cells, m: Cell, e: usize, at: Option<Cell>, prev: Option<Cell>)
    requires home { IsHome (cells_by cells.old) (cell_id m) e }
    requires there { IfSome at (λ q. IsSome (cells_by cells.old (cell_id q))) }
    ensures { cells_by cells.new ≡ with_prev (cells_by cells.old) (cell_id m) e (option_map cell_id at) (option_map cell_id prev) }
{
    match at {
        None => cells.set_link(m, e + 1, prev),
        Some(q) => cells.set_link(q, PREV, prev),
    }
}

/// A cell goes to the end of the list that begins at a link of a membrane.
pub fn append(cells: &mut Cells, m: Cell, e: usize, c: Cell)
    requires home { IsHome (cells_by cells.old) (cell_id m) e }
    requires there { IsSome (cells_by cells.old (cell_id c)) }
    requires differ { cell_id c ≢ cell_id m }
    requires list { (xs : List ℕ) × Line (cells_by cells.old) (cell_id m) e xs × (In (cell_id c) xs → ⊥) }
    ensures appended { cells_by cells.new ≡ appended (cells_by cells.old) (cell_id m) e (cell_id c) }
    ensures list { (xs : List ℕ) → Line (cells_by cells.old) (cell_id m) e xs → (In (cell_id c) xs → ⊥) →
        Line (cells_by cells.new) (cell_id m) e (xs ++ cell_id c ∷ []) }
    ensures others { (xs : List ℕ) → Line (cells_by cells.old) (cell_id m) e xs → (In (cell_id c) xs → ⊥) → (n k : ℕ) (ys : List ℕ) → Line (cells_by cells.old) n k ys →
        Apart (cell_id m) e (cell_id c ∷ xs) n k ys → Line (cells_by cells.new) n k ys }
{
    cells.whole();
    let last = cells.link(m, e + 1);
    cells.set_link(c, HOME, Some(m));
    cells.set_link(c, PREV, last);
    cells.set_link(c, NEXT, None);
    set_next(cells, m, e, last, Some(c));
    cells.set_link(m, e + 1, Some(c));
}

/// A cell goes directly before another one, in the list that begins at a link of a membrane.
pub fn insert(cells: &mut Cells, m: Cell, e: usize, at: Cell, c: Cell)
    requires home { IsHome (cells_by cells.old) (cell_id m) e }
    requires there { IsSome (cells_by cells.old (cell_id c)) }
    requires differ { cell_id c ≢ cell_id m }
    requires list { (xs : List ℕ) × Line (cells_by cells.old) (cell_id m) e xs × In (cell_id at) xs × (In (cell_id c) xs → ⊥) }
    ensures inserted { cells_by cells.new ≡ inserted (cells_by cells.old) (cell_id m) e (cell_id at) (cell_id c) }
    ensures list { (xs : List ℕ) → Line (cells_by cells.old) (cell_id m) e xs → In (cell_id at) xs → (In (cell_id c) xs → ⊥) →
        Line (cells_by cells.new) (cell_id m) e (put_before (cell_id c) (cell_id at) xs) }
    ensures others { (xs : List ℕ) → Line (cells_by cells.old) (cell_id m) e xs → In (cell_id at) xs → (In (cell_id c) xs → ⊥) → (n k : ℕ) (ys : List ℕ) → Line (cells_by cells.old) n k ys →
        Apart (cell_id m) e (cell_id c ∷ xs) n k ys → Line (cells_by cells.new) n k ys }
{
    cells.whole();
    let prev = cells.link(at, PREV);
    cells.set_link(c, HOME, Some(m));
    cells.set_link(c, PREV, prev);
    cells.set_link(c, NEXT, Some(at));
    set_next(cells, m, e, prev, Some(c));
    cells.set_link(at, PREV, Some(c));
}

/// A cell leaves the list that begins at a link of a membrane.
pub fn unlink(cells: &mut Cells, m: Cell, e: usize, c: Cell)
    requires home { IsHome (cells_by cells.old) (cell_id m) e }
    requires list { (xs : List ℕ) × Line (cells_by cells.old) (cell_id m) e xs × In (cell_id c) xs }
    ensures unlinked { cells_by cells.new ≡ unlinked (cells_by cells.old) (cell_id m) e (cell_id c) }
    ensures list { (xs : List ℕ) → Line (cells_by cells.old) (cell_id m) e xs → In (cell_id c) xs →
        Line (cells_by cells.new) (cell_id m) e (without (cell_id c) xs) }
    ensures others { (xs : List ℕ) → Line (cells_by cells.old) (cell_id m) e xs → In (cell_id c) xs → (n k : ℕ) (ys : List ℕ) → Line (cells_by cells.old) n k ys →
        Apart (cell_id m) e xs n k ys → Line (cells_by cells.new) n k ys }
{
    cells.whole();
    let prev = cells.link(c, PREV);
    let next = cells.link(c, NEXT);
    set_next(cells, m, e, prev, next);
    set_prev(cells, m, e, next, prev);
    cells.set_link(c, HOME, None);
}
