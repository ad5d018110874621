//! What stands in a line is freed.
ghost use Rattle.std.specs.Prelude.{◌≡◌, ◌≢◌, ℕ, List, [], Option, Some, None, IsSome};
ghost use Rattle.lmn_store_counts.specs.RuleLists.{RuleList};
ghost use Rattle.lmn_web_cells.specs.CellIds.{cell_id};
ghost use Rattle.lmn_web.specs.Webs.{web_label, home_at, kind_at, partner_at, arity_at, cells_in};
ghost use Rattle.lmn_web_merging.specs.Keepers.{merged_by};
ghost use Rattle.lmn_web.specs.declared.kind.CellKind.{CellKind as Kind};
ghost use Rattle.lmn_web.specs.declared.kind.CellKind.TheVariants.{Atom, Membrane};
ghost use Rattle.lmn_store_web.specs.WebHeaps.{Posts};
ghost use Rattle.lmn_store_web.specs.WebStores.{HasRules};
ghost use Rattle.lmn_store_web.specs.Frees.{Drops, MayFree, Frees};

use crate::table::place_of_rules;
use lmn_store_counts::Rules;
use lmn_web_merging::{Cell, CellKind, MergingWeb};
use slab::Slab;

/// The atoms in a line are freed.
#[inline(always)]
pub fn free_atoms(web: &mut MergingWeb, line: Cell, count: &mut u64)
    requires { (p : Posts) × (t : List (Option RuleList)) × (s : ℕ) × MayFree p (cell_id line) t (merged_by web.old) count.old s }
    ensures freed { (p : Posts) (t : List (Option RuleList)) (s : ℕ) → MayFree p (cell_id line) t (merged_by web.old) count.old s →
        MayFree p (cell_id line) t (merged_by web.new) count.new s × Frees p (cell_id line) t (merged_by web.old) t (merged_by web.new) }
    ensures none { cells_in (merged_by web.new) (cell_id line) Atom ≡ [] }
{
    web.listed();
    web.paired();
    *count -= web.count_plain(line, CellKind::Atom);
    web.free_atoms_plain(line);
}

/// The membranes in a line are freed, with their rules.
#[inline(always)]
pub fn free_mems(
    web: &mut MergingWeb,
    rules: &mut Slab<Rules>,
    line: Cell,
    count: &mut u64,
    spare: &mut u64,
)
    requires { (p : Posts) × MayFree p (cell_id line) rules.old.slots (merged_by web.old) count.old spare.old }
    ensures freed { (p : Posts) → MayFree p (cell_id line) rules.old.slots (merged_by web.old) count.old spare.old →
        MayFree p (cell_id line) rules.new.slots (merged_by web.new) count.new spare.new × Frees p (cell_id line) rules.old.slots (merged_by web.old) rules.new.slots (merged_by web.new) }
    ensures none { cells_in (merged_by web.new) (cell_id line) Membrane ≡ [] }
    ensures atoms { cells_in (merged_by web.new) (cell_id line) Atom ≡ cells_in (merged_by web.old) (cell_id line) Atom }
{
    while let Some(m) = web.first_plain(line, CellKind::Membrane) {
        web.listed();
        let place = place_of_rules(web, rules, m);
        free_cell(web, CellKind::Membrane, m);
        let freed = rules.remove(place);
        *count = *count - 1 - freed.len();
        let spares = freed.spare();
        *count -= spares;
        *spare -= spares;
    }
}

// The cell, which is of this kind, leaves its list and is freed.
fn free_cell(web: &mut MergingWeb, kind: CellKind, c: Cell)
    requires listed { IsSome (home_at (merged_by web.old) (cell_id c)) }
    requires kind { kind_at (merged_by web.old) (cell_id c) ≡ kind }
    requires alone { (i : ℕ) → partner_at (merged_by web.old) (cell_id c) i ≡ None }
    requires empty { (k : Kind) → cells_in (merged_by web.old) (cell_id c) k ≡ [] }
    ensures drops { (m : ℕ) → home_at (merged_by web.old) (cell_id c) ≡ Some m → Drops (merged_by web.old) (merged_by web.new) m (cell_id c) }
    ensures strange { (a i b j : ℕ) → partner_at (merged_by web.old) a i ≡ Some (b, j) → b ≢ cell_id c }
{
    web.listed();
    web.paired();
    web.unlink(kind, c);
    web.free(c);
}
