//! All cells of a list go to another list.
ghost use Rattle.std.specs.Prelude.{◌≡◌, ◌≢◌, ◌++◌, ◌∷◌, ℕ, [], Some, IsSome};
ghost use Rattle.lmn_web_cells.specs.CellIds.{cell_id};
ghost use Rattle.lmn_web.specs.declared.kind.CellKind.TheVariants.{Membrane};
ghost use Rattle.lmn_web.specs.Webs.{web_by, cells_in, home_at, kind_at};
ghost use Rattle.lmn_web_merging.specs.Moves.{Goes, Moves};

use lmn_web::{Cell, CellKind, Web};

// The cell, which is of this kind, leaves its list and goes to the end of another membrane's list of its kind.
#[inline(always)]
fn send_last(web: &mut Web, home: Cell, kind: CellKind, c: Cell)
    requires kind { kind_at (web_by web.old) (cell_id c) ≡ kind }
    requires membrane { kind_at (web_by web.old) (cell_id home) ≡ Membrane }
    requires differ { cell_id c ≢ cell_id home }
    requires listed { IsSome (home_at (web_by web.old) (cell_id c)) }
    requires elsewhere { home_at (web_by web.old) (cell_id c) ≢ Some (cell_id home) }
    ensures { let w = web_by web.old in (m : ℕ) → home_at w (cell_id c) ≡ Some m → Goes w (web_by web.new) m (cell_id home) (cell_id c) (cells_in w (cell_id home) kind ++ cell_id c ∷ []) }
{
    web.listed();
    web.unlink(kind, c);
    web.add_last(home, kind, c);
}

// It goes before the first one of that list.
fn send_first(web: &mut Web, home: Cell, kind: CellKind, c: Cell)
    requires kind { kind_at (web_by web.old) (cell_id c) ≡ kind }
    requires membrane { kind_at (web_by web.old) (cell_id home) ≡ Membrane }
    requires differ { cell_id c ≢ cell_id home }
    requires listed { IsSome (home_at (web_by web.old) (cell_id c)) }
    requires elsewhere { home_at (web_by web.old) (cell_id c) ≢ Some (cell_id home) }
    ensures { let w = web_by web.old in (m : ℕ) → home_at w (cell_id c) ≡ Some m → Goes w (web_by web.new) m (cell_id home) (cell_id c) (cell_id c ∷ cells_in w (cell_id home) kind) }
{
    web.listed();
    web.unlink(kind, c);
    web.listed();
    match web.first(home, kind) {
        None => web.add_last(home, kind, c),
        Some(first) => web.add_before(first, c),
    }
}

/// All cells of a kind in a membrane go to the end of another one's list, in their order.
pub fn send_all_last(web: &mut Web, source: Cell, home: Cell, kind: CellKind)
    requires source { kind_at (web_by web.old) (cell_id source) ≡ Membrane }
    requires home { kind_at (web_by web.old) (cell_id home) ≡ Membrane }
    requires apart { cell_id source ≢ cell_id home }
    requires outside { home_at (web_by web.old) (cell_id home) ≢ Some (cell_id source) }
    ensures { let w = web_by web.old in let own = cells_in w (cell_id source) kind in
        Moves w (web_by web.new) (cell_id source) (cell_id home) kind own [] (cells_in w (cell_id home) kind ++ own) }
{
    web.listed();
    while let Some(c) = web.first(source, kind) {
        web.listed();
        send_last(web, home, kind, c);
    }
}

/// They go before those of the other one.
pub fn send_all_first(web: &mut Web, source: Cell, home: Cell, kind: CellKind)
    requires source { kind_at (web_by web.old) (cell_id source) ≡ Membrane }
    requires home { kind_at (web_by web.old) (cell_id home) ≡ Membrane }
    requires apart { cell_id source ≢ cell_id home }
    requires outside { home_at (web_by web.old) (cell_id home) ≢ Some (cell_id source) }
    ensures { let w = web_by web.old in let own = cells_in w (cell_id source) kind in
        Moves w (web_by web.new) (cell_id source) (cell_id home) kind own [] (own ++ cells_in w (cell_id home) kind) }
{
    web.listed();
    while let Some(c) = web.last(source, kind) {
        web.listed();
        send_first(web, home, kind, c);
    }
}
