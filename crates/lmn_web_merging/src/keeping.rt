//! Which cell keeps the lists of a membrane: the one to which its port is joined, or itself.
ghost use Rattle.std.specs.Prelude.{◌≡◌, ◌⊎◌, true, false, ℕ, [], None, Some};
ghost use Rattle.lmn_store_heap.specs.Heap.{alter};
ghost use Rattle.lmn_web_cells.specs.CellIds.{cell_id};
ghost use Rattle.lmn_web.specs.declared.kind.CellKind.{CellKind as Kind};
ghost use Rattle.lmn_web.specs.declared.kind.CellKind.TheVariants.{Membrane};
ghost use Rattle.lmn_web.specs.Webs.{web_by, arity_at, kind_at, partner_at, cells_in, IsLoose};
ghost use Rattle.lmn_web_merging.specs.Keepers.{keeper, port_mark, is_retired, merged_by, MovesAll};
ghost use Rattle.lmn_web_merging.specs.Moves.{AreKept, LetsGo, MayTrade, Traded, Trades};

use lmn_web::{Cell, CellKind, Web};

// The mark of the port of a membrane that has a keeper, or had one.
const MERGED: u64 = 1;

// That of a membrane whose cell keeps the lists of another that is there.
const LENT: u64 = 3;

// That of a membrane that was freed while its cell kept the lists of another.
const RETIRED: u64 = 2;

/// The cell that keeps the lists of a membrane, and of a cell that keeps lists the membrane to which they belong.
#[inline(always)]
pub fn keeper_of(web: &Web, m: Cell) -> Cell
    requires membrane { kind_at (web_by web.now) (cell_id m) ≡ Membrane }
    requires ports { arity_at (web_by web.now) (cell_id m) ≡ 1 }
    ensures { cell_id result ≡ keeper (web_by web.now) (cell_id m) }
{
    match web.partner(m, 0) {
        None => m,
        Some((k, _)) => k,
    }
}

/// That is a membrane itself, if it never had a keeper.
#[inline(always)]
pub fn self_kept(web: &Web, m: Cell) -> Cell
    requires kept { AreKept (web_by web.now) }
    requires membrane { kind_at (web_by web.now) (cell_id m) ≡ Membrane }
    requires plain { port_mark (web_by web.now) (cell_id m) ≡ 0 }
    ensures { cell_id result ≡ keeper (web_by web.now) (cell_id m) }
{
    m
}

// Whether a membrane was freed while its cell kept the lists of another.
fn has_retired(web: &Web, m: Cell) -> bool
    requires membrane { kind_at (web_by web.now) (cell_id m) ≡ Membrane }
    requires ports { arity_at (web_by web.now) (cell_id m) ≡ 1 }
    ensures { result ≡ is_retired (web_by web.now (cell_id m)) }
{
    web.mark(m, 1) == RETIRED
}

// Whether a membrane keeps its own lists, or its cell keeps none.
fn keeps_no_other(web: &Web, n: Cell) -> bool
    requires membrane { kind_at (web_by web.now) (cell_id n) ≡ Membrane }
    requires ports { arity_at (web_by web.now) (cell_id n) ≡ 1 }
    ensures { result ≡ true → (keeper (web_by web.now) (cell_id n) ≡ cell_id n) ⊎ ((k : Kind) → cells_in (web_by web.now) (cell_id n) k ≡ []) }
{
    match web.partner(n, 0) {
        None => true,
        Some(_) => { web.count(n, CellKind::Atom) == 0 && web.count(n, CellKind::Membrane) == 0 }
    }
}

/// Whether the lists of one membrane, kept by a cell, may go over to another as they are: the cell of the other keeps nothing of
/// others, and where the first membrane has a keeper, that was freed.
pub fn may_trade(web: &Web, m: Cell, n: Cell) -> bool
    requires kept { AreKept (web_by web.now) }
    requires source { kind_at (web_by web.now) (cell_id m) ≡ Membrane }
    requires target { kind_at (web_by web.now) (cell_id n) ≡ Membrane }
    ensures idle { result ≡ true → (keeper (web_by web.now) (cell_id n) ≡ cell_id n) ⊎ ((k : Kind) → cells_in (web_by web.now) (cell_id n) k ≡ []) }
    ensures given { result ≡ true → (k : ℕ) → partner_at (web_by web.now) (cell_id m) 0 ≡ Some (k, 0) → is_retired (web_by web.now k) ≡ true }
{
    if !keeps_no_other(web, n) {
        return false;
    }
    match web.partner(m, 0) {
        None => true,
        Some((k, _)) => has_retired(web, k),
    }
}

// A membrane in which nothing stands keeps its own lists again, as does the one whose cell kept them, in which nothing stands
// either. Where that was freed, its cell is freed too.
fn let_go(web: &mut Web, n: Cell)
    requires kept { AreKept (web_by web.old) }
    requires membrane { kind_at (web_by web.old) (cell_id n) ≡ Membrane }
    requires there { is_retired (web_by web.old (cell_id n)) ≡ false }
    requires empty { (k : Kind) → cells_in (web_by web.old) (keeper (web_by web.old) (cell_id n)) k ≡ [] }
    requires idle { (k : Kind) → cells_in (web_by web.old) (cell_id n) k ≡ [] }
    ensures { LetsGo (web_by web.old) (web_by web.new) (cell_id n) }
{
    web.listed();
    web.paired();
    match web.partner(n, 0) {
        None => {}
        Some((d, _)) => {
            if has_retired(web, d) {
                web.split(n, 0);
                web.free(d);
            } else {
                web.split(n, 0);
            }
        }
    }
}

// The lists that a membrane keeps itself are those of another one.
fn hand_over(web: &mut Web, m: Cell, n: Cell)
    requires trades { Trades (web_by web.old) (cell_id m) (cell_id n) }
    requires own { partner_at (web_by web.old) (cell_id m) 0 ≡ None }
    ensures { Traded (web_by web.old) (web_by web.new) (cell_id m) (cell_id n) (cell_id m) }
{
    web.join(n, 0, m, 0);
    web.set_mark(m, 1, LENT);
    web.set_mark(n, 1, MERGED);
}

// The lists that another cell keeps for a membrane that was freed are those of another one.
fn pass_on(web: &mut Web, m: Cell, k: Cell, n: Cell)
    requires trades { Trades (web_by web.old) (cell_id m) (cell_id n) }
    requires kept { partner_at (web_by web.old) (cell_id m) 0 ≡ Some (cell_id k, 0) }
    ensures { Traded (web_by web.old) (web_by web.new) (cell_id m) (cell_id n) (cell_id k) }
{
    web.paired();
    web.join(n, 0, k, 0);
    web.set_mark(n, 1, MERGED);
}

/// The lists of one membrane, whichever cell keeps them, are those of another one whose lists are empty.
pub fn trade(web: &mut Web, m: Cell, n: Cell)
    requires { MayTrade (web_by web.old) (cell_id m) (cell_id n) }
    ensures kept { AreKept (web_by web.new) }
    ensures moved { MovesAll (merged_by web.old) (merged_by web.new) (cell_id m) (cell_id n) }
{
    web.paired();
    let_go(web, n);
    web.listed();
    web.paired();
    match web.partner(m, 0) {
        None => hand_over(web, m, n),
        Some((k, _)) => pass_on(web, m, k, n),
    }
}

/// A membrane is there no more. Its cell stays where it keeps the lists of another.
pub fn free_membrane(web: &mut Web, m: Cell)
    requires kept { AreKept (web_by web.old) }
    requires membrane { kind_at (web_by web.old) (cell_id m) ≡ Membrane }
    requires loose { IsLoose (merged_by web.old) (cell_id m) }
    ensures kept { AreKept (web_by web.new) }
    ensures freed { merged_by web.new ≡ alter (merged_by web.old) (cell_id m) (λ _. None) }
{
    web.listed();
    web.paired();
    match web.partner(m, 0) {
        None => web.free(m),
        Some((k, _)) => {
            if has_retired(web, k) {
                web.split(m, 0);
                web.free(k);
                web.free(m);
            } else {
                web.set_mark(m, 1, RETIRED);
            }
        }
    }
}
