//! The numbers of the links that are printed, in the marks of their ports: each mark is greater by one.
ghost use Rattle.std.specs.Prelude.{◌<◌, ◌≤◌, ◌+◌, ◌*◌, ◌^◌, ℕ, List, length};
ghost use Rattle.lmn_base.specs.Limits.{most_links};
ghost use Rattle.lmn_base.specs.declared.rule.RuleTree.{RuleTree};
ghost use Rattle.lmn_congruence.specs.Rules.{Name};
ghost use Rattle.lmn_print_folded.specs.Terms.{FoldedMembranes};
ghost use Rattle.lmn_print_folding.specs.Marks.{Event, atoms_left, links_met};
ghost use Rattle.lmn_store_heap.specs.Heap.{IsMem, PortsUnmarked};
ghost use Rattle.lmn_store_heap.specs.Solid.{IsNaming};
ghost use Rattle.lmn_store_heap.specs.Sound.{Forest, IsTree, Valid};
ghost use Rattle.lmn_print_folding.specs.Chosen.{items_in};
ghost use Rattle.lmn_print_plain.specs.Numbers.{GoOn, Remarks};
ghost use Rattle.lmn_print.specs.Printed.{IsNumberedBy, PrintsForest};
ghost use Rattle.lmn_print.specs.Walked.{IsPrinted, ItemsWalked};

use crate::items::{first_item, next_item};
use lmn_print_folding::number_item;
use lmn_print_plain::next_mem_printed;
use lmn_store_trait::LinkStore;

/// Gives each link that is printed its number, in printed order, in the marks of its two ports.
pub(crate) fn number_printed<S: LinkStore>(store: &mut S)
    requires valid { Valid (S.heap store.old) }
    requires unmarked { PortsUnmarked (S.heap store.old) }
    requires printed { IsPrinted (S.heap store.old) }
    ensures marks { Remarks (S.heap store.old) (S.heap store.new) }
    ensures numbers { (names : List Name) (table : List RuleTree) (name : ℕ → ℕ → ℕ) → IsNaming (S.heap store.old) name → (f : Forest) → IsTree (S.heap store.old) f
        → (given : FoldedMembranes) → PrintsForest names table (S.heap store.old) name f given → IsNumberedBy names table (S.heap store.new) f given }
{
    let mut count: u64 = 0;
    let mut next = Some(store.root());
    while let Some(mem) = next {
        let _sound = store.root();
        count = number_items(store, mem, count);
        next = next_mem_printed(store, mem);
    }
}

/// Gives the links of a membrane's items, and of the terms in them, that have none their numbers, where so many links have
/// one. Answers how many have one then.
fn number_items<S: LinkStore>(store: &mut S, mem: S::Mem, count: u64) -> u64
    requires valid { Valid (S.heap store.old) }
    requires mem { IsMem (S.heap store.old) (S.mem_id mem) }
    requires walk { (es : List Event) × ItemsWalked (S.heap store.old) (items_in (S.heap store.old) (S.mem_id mem)) es × (count + most_links * length (atoms_left es) < 2 ^ 56) }
    ensures marks { Remarks (S.heap store.old) (S.heap store.new) }
    ensures numbers { (es : List Event) → ItemsWalked (S.heap store.old) (items_in (S.heap store.old) (S.mem_id mem)) es → GoOn (S.heap store.old) (S.heap store.new) count result (links_met es) }
    ensures few { (es : List Event) → ItemsWalked (S.heap store.old) (items_in (S.heap store.old) (S.mem_id mem)) es → result ≤ count + most_links * length (atoms_left es) }
{
    let _root = store.root();
    let mut numbered = count;
    let mut next = first_item(store, mem);
    while let Some(item) = next {
        let _sound = store.root();
        numbered = number_item(store, item, numbered);
        next = next_item(store, mem, item);
    }
    numbered
}
