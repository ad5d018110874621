//! The table of rules: where those of a membrane are, and changes of one row.
ghost use Rattle.std.specs.Prelude.{◌≡◌, ◌≢◌, ◌≤◌, ℕ, Some, ◌∷◌, [], length, IsSome, OnOk, OnErr};
ghost use Rattle.std.specs.Option.{option_map};
ghost use Rattle.lmn_store_heap.specs.Heap.{HeapMem, alter, rules_by, mem_with_spare, mem_with_rules};
ghost use Rattle.lmn_web_cells.specs.CellIds.{cell_id};
ghost use Rattle.lmn_web.specs.Webs.{web_label};
ghost use Rattle.lmn_web_merging.specs.Keepers.{merged_by};
ghost use Rattle.lmn_store_web.specs.WebStores.{HasRules};
ghost use Rattle.lmn_store_web.specs.Tables.{rows};

use lmn_base::NoMemory;
use lmn_store_counts::Rules;
use lmn_web_merging::{Cell, MergingWeb};
use slab::Slab;

/// The place of the rules of a membrane: its label.
pub fn place_of_rules(web: &MergingWeb, table: &Slab<Rules>, m: Cell) -> usize
    requires { (i : ℕ) × HasRules table.now.slots (merged_by web.now) (cell_id m) i }
    ensures { web_label (merged_by web.now) (cell_id m) ≡ Some result }
{
    let _room = table.capacity();
    web.label(m) as usize
}

/// Room for so many more rules at a place.
pub fn reserve(table: &mut Slab<Rules>, key: usize, spare: u64) -> Result<(), NoMemory>
    ensures ok { OnOk result (rows table.new.slots ≡ alter (rows table.old.slots) key (option_map (mem_with_spare spare))) }
    ensures err { OnErr result (table.new.slots ≡ table.old.slots) }
{
    if let Some(rules) = table.get_mut(key) {
        rules.reserve(spare)?;
    }
    Ok(())
}

/// A rule goes to the end of those at a place.
pub fn push(table: &mut Slab<Rules>, key: usize, rule: u32)
    requires { (x : HeapMem) → rows table.old.slots key ≡ Some x → 1 ≤ x.spare }
    ensures { rows table.new.slots ≡ alter (rows table.old.slots) key (option_map (mem_with_rules (rule ∷ []))) }
{
    if let Some(rules) = table.get_mut(key) {
        rules.push(rule);
    }
}

/// The rules at one place go to the end of those at another. Answers how many there are.
pub fn append(table: &mut Slab<Rules>, from: usize, to: usize) -> u64
    requires there { IsSome (rows table.old.slots from) }
    requires differ { from ≢ to }
    requires spare { (x : HeapMem) → rows table.old.slots to ≡ Some x → length (rules_by (rows table.old.slots from)) ≤ x.spare }
    ensures count { result ≡ length (rules_by (rows table.old.slots from)) }
    ensures rows { rows table.new.slots ≡ alter (rows table.old.slots) to (option_map (mem_with_rules (rules_by (rows table.old.slots from)))) }
{
    let count = table[from].len();
    for i in 0..count {
        let rule = table[from].at(i);
        push(table, to, rule);
    }
    count
}
