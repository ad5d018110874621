//! What is in the list of one membrane goes to the end of another's, and rules likewise.
ghost use Rattle.std.specs.Prelude.{◌≡◌, ◌≢◌, ◌<◌, ◌≤◌, ◌+◌, ◌^◌, ◌++◌, ℕ, Some, IsSome, length, []};
ghost use Rattle.std.specs.Option.{option_map};
ghost use Rattle.lmn_store_heap.specs.Lists.{from};
ghost use Rattle.lmn_store_heap.specs.Heap.{HeapMem, alter, rules_by, atom_sent, mem_sent, mem_with_rules};
ghost use Rattle.lmn_store_slab.specs.Lines.{SameSize, list_at};
ghost use Rattle.lmn_store_slab.specs.Cells.{atoms_in_cells, mems_in_cells};
ghost use Rattle.lmn_store_slab.specs.Kept.{Filed, place_in, mem_place_in};
ghost use Rattle.lmn_store_slab.specs.Moves.{AreTwoMembranes};

use crate::Lists;
use crate::cell::{AtomCell, MemCell};
use crate::cells::{push_rule, set_list, set_mem_list};
use slab::Slab;

// The one that leaves a list next.
fn next_out(lists: &Lists, list: usize) -> Option<usize>
    requires { list < length lists.now.lists }
    ensures { from result (list_at lists.now list) ≡ list_at lists.now list }
{
    lists.first(list)
}

/// The atoms of the membrane m go to the end of those of n.
pub fn move_atoms(atoms: &mut Slab<AtomCell>, lists: &mut Lists, m: usize, n: usize)
    requires two { AreTwoMembranes lists.old m n }
    requires files { Filed (list_at lists.old) (place_in (atoms_in_cells atoms.old.slots)) }
    requires numbers { (a : ℕ) → IsSome (atoms_in_cells atoms.old.slots a) → a < lists.old.size }
    requires small { length lists.old.lists < 2 ^ 63 }
    ensures atoms { atoms_in_cells atoms.new.slots ≡ (λ a. option_map (atom_sent m n) (atoms_in_cells atoms.old.slots a)) }
    ensures lists { list_at lists.new ≡ alter (alter (list_at lists.old) (n + 2) (λ xs. xs ++ list_at lists.old (m + 2))) (m + 2) (λ _. []) }
    ensures files { Filed (list_at lists.new) (place_in (atoms_in_cells atoms.new.slots)) }
    ensures sizes { SameSize lists.old lists.new }
{
    while let Some(a) = next_out(lists, m + 2) {
        lists.move_last(m + 2, n + 2, a);
        set_list(atoms, a, n + 2);
    }
}

/// The membranes of the membrane m go to the end of those of n.
pub fn move_mems(mems: &mut Slab<MemCell>, lists: &mut Lists, m: usize, n: usize)
    requires two { AreTwoMembranes lists.old m n }
    requires files { Filed (list_at lists.old) (mem_place_in (mems_in_cells mems.old.slots)) }
    requires numbers { (k : ℕ) → IsSome (mems_in_cells mems.old.slots k) → k < lists.old.size }
    requires small { length lists.old.lists < 2 ^ 63 }
    ensures mems { mems_in_cells mems.new.slots ≡ (λ k. option_map (mem_sent m n) (mems_in_cells mems.old.slots k)) }
    ensures lists { list_at lists.new ≡ alter (alter (list_at lists.old) (n + 2) (λ xs. xs ++ list_at lists.old (m + 2))) (m + 2) (λ _. []) }
    ensures files { Filed (list_at lists.new) (mem_place_in (mems_in_cells mems.new.slots)) }
    ensures sizes { SameSize lists.old lists.new }
{
    while let Some(k) = next_out(lists, m + 2) {
        lists.move_last(m + 2, n + 2, k);
        set_mem_list(mems, k, n + 2);
    }
}

/// The rules of the membrane m go to the end of those of n. Answers how many there are.
pub fn append_rules(mems: &mut Slab<MemCell>, m: usize, n: usize) -> u64
    requires m { IsSome (mems_in_cells mems.old.slots m) }
    requires differ { m ≢ n }
    requires spare { (x : HeapMem) → mems_in_cells mems.old.slots n ≡ Some x → length (rules_by (mems_in_cells mems.old.slots m)) ≤ x.spare }
    ensures count { result ≡ length (rules_by (mems_in_cells mems.old.slots m)) }
    ensures mems { mems_in_cells mems.new.slots ≡ alter (mems_in_cells mems.old.slots) n (option_map (mem_with_rules (rules_by (mems_in_cells mems.old.slots m)))) }
{
    let count = mems[m].rules.len();
    for i in 0..count {
        let k = mems[m].rules.at(i);
        push_rule(mems, n, k);
    }
    count
}
