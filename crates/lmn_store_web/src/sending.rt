//! A cell goes from one list of a web to another.
ghost use Rattle.std.specs.Prelude.{◌≡◌, ◌≢◌, ◌⊎◌, ℕ, Some, IsSome};
ghost use Rattle.lmn_web_cells.specs.CellIds.{cell_id};
ghost use Rattle.lmn_store_heap.specs.Lists.{from};
ghost use Rattle.lmn_web.specs.Webs.{cells_in, home_at, kind_at, FilesNone};
ghost use Rattle.lmn_web_merging.specs.Keepers.{merged_by, port_mark};
ghost use Rattle.lmn_web.specs.declared.kind.CellKind.TheVariants.{Membrane};
ghost use Rattle.lmn_store_web.specs.Sends.{Sends};

use lmn_web_merging::{Cell, CellKind, MergingWeb};

/// The cell, which is of this kind, leaves its list and goes to the end of another membrane's list of its kind.
#[inline(always)]
pub fn send(web: &mut MergingWeb, home: Cell, kind: CellKind, c: Cell)
    requires listed { IsSome (home_at (merged_by web.old) (cell_id c)) }
    requires kind { kind_at (merged_by web.old) (cell_id c) ≡ kind }
    requires membrane { kind_at (merged_by web.old) (cell_id home) ≡ Membrane }
    requires differ { cell_id c ≢ cell_id home }
    requires elsewhere { home_at (merged_by web.old) (cell_id c) ≢ Some (cell_id home) }
    requires own { kind ≡ Membrane → (port_mark (merged_by web.old) (cell_id c) ≡ 0) ⊎ (port_mark (merged_by web.old) (cell_id home) ≡ 0) }
    ensures { (m : ℕ) → home_at (merged_by web.old) (cell_id c) ≡ Some m → Sends (merged_by web.old) (merged_by web.new) m (cell_id home) (cell_id c) }
{
    web.listed();
    web.unlink(kind, c);
    web.add_last(home, kind, c);
}

/// The first cell of a list of a membrane that never had a keeper, and files no atoms, goes to the end of another membrane's
/// list of its kind.
#[inline(always)]
pub fn send_first(web: &mut MergingWeb, line: Cell, home: Cell, kind: CellKind, c: Cell)
    requires line { kind_at (merged_by web.old) (cell_id line) ≡ Membrane }
    requires first { from (Some (cell_id c)) (cells_in (merged_by web.old) (cell_id line) kind) ≡ cells_in (merged_by web.old) (cell_id line) kind }
    requires plain { port_mark (merged_by web.old) (cell_id line) ≡ 0 }
    requires files { FilesNone (merged_by web.old) (cell_id line) }
    requires membrane { kind_at (merged_by web.old) (cell_id home) ≡ Membrane }
    requires apart { (cell_id c ≢ cell_id home) × (cell_id line ≢ cell_id home) }
    requires own { kind ≡ Membrane → (port_mark (merged_by web.old) (cell_id c) ≡ 0) ⊎ (port_mark (merged_by web.old) (cell_id home) ≡ 0) }
    ensures { Sends (merged_by web.old) (merged_by web.new) (cell_id line) (cell_id home) (cell_id c) }
{
    web.listed();
    web.unlink_first_plain(line, kind, c);
    web.add_last(home, kind, c);
}

/// It goes to the end of the list of a membrane that never had a keeper, and files no atoms.
#[inline(always)]
pub fn send_plain(web: &mut MergingWeb, home: Cell, kind: CellKind, c: Cell)
    requires listed { IsSome (home_at (merged_by web.old) (cell_id c)) }
    requires kind { kind_at (merged_by web.old) (cell_id c) ≡ kind }
    requires membrane { kind_at (merged_by web.old) (cell_id home) ≡ Membrane }
    requires differ { cell_id c ≢ cell_id home }
    requires elsewhere { home_at (merged_by web.old) (cell_id c) ≢ Some (cell_id home) }
    requires plain { port_mark (merged_by web.old) (cell_id home) ≡ 0 }
    requires files { FilesNone (merged_by web.old) (cell_id home) }
    ensures { (m : ℕ) → home_at (merged_by web.old) (cell_id c) ≡ Some m → Sends (merged_by web.old) (merged_by web.new) m (cell_id home) (cell_id c) }
{
    web.listed();
    web.unlink(kind, c);
    web.add_last_plain(home, kind, c);
}
