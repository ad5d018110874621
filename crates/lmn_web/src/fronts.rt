//! The first cell of a list leaves it.
ghost use Rattle.std.specs.Prelude.{◌≡◌, ℕ, List, Some};
ghost use Rattle.lmn_store_heap.specs.Lists.{without};
ghost use Rattle.lmn_base.specs.Lists.{In};
ghost use Rattle.lmn_web_cells.specs.Cells.{cells_by};
ghost use Rattle.lmn_web_cells.specs.CellIds.{cell_id};
ghost use Rattle.lmn_web_cells.specs.Runs.{Apart, IsHome, Line, link_in, unlinked};

use lmn_web_cells::cell::Cells;
use lmn_web_cells::handle::Cell;
use lmn_web_cells::links::{HOME, NEXT};
use lmn_web_cells::lists::set_prev;

/// The first cell leaves the list that begins at a link of a membrane.
pub fn unlink_first(cells: &mut Cells, m: Cell, e: usize, c: Cell)
    requires home { IsHome (cells_by cells.old) (cell_id m) e }
    requires first { link_in (cells_by cells.old) (cell_id m) e ≡ Some (cell_id c) }
    requires list { (xs : List ℕ) × Line (cells_by cells.old) (cell_id m) e xs × In (cell_id c) xs }
    ensures unlinked { cells_by cells.new ≡ unlinked (cells_by cells.old) (cell_id m) e (cell_id c) }
    ensures list { (xs : List ℕ) → Line (cells_by cells.old) (cell_id m) e xs → In (cell_id c) xs →
        Line (cells_by cells.new) (cell_id m) e (without (cell_id c) xs) }
    ensures others { (xs : List ℕ) → Line (cells_by cells.old) (cell_id m) e xs → In (cell_id c) xs → (n k : ℕ) (ys : List ℕ) → Line (cells_by cells.old) n k ys →
        Apart (cell_id m) e xs n k ys → Line (cells_by cells.new) n k ys }
{
    cells.whole();
    let next = cells.link(c, NEXT);
    cells.set_link(m, e, next);
    set_prev(cells, m, e, next, None);
    cells.set_link(c, HOME, None);
}
