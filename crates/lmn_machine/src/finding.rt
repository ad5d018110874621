ghost use Rattle.std.specs.Prelude.{◌≡◌};
ghost use Rattle.lmn_store_heap.specs.Heap.{IsMem, Unmarked};
ghost use Rattle.lmn_store_heap.specs.Sound.{Valid};
ghost use Rattle.lmn_machine.specs.Searching.{HeadInOrder, Looked, Searched};
ghost use Rattle.lmn_machine.specs.Jumping.{only_membrane};

use crate::patience::Patience;
use crate::reasons::Reasons;
use crate::{enough, jump, search};
use lmn_ground::Found;
use lmn_instr_pool::Instrs;
use lmn_machine_registers::SetRegisters;
use lmn_store_trait::LinkStore;

/// Looks for the first success of head code in a membrane: the registers then hold it. It takes no memory. Where the plain
/// search gives up, the one that jumps back begins anew.
#[inline(always)]
pub(crate) fn find<S: LinkStore>(
    store: &mut S,
    code: &Instrs<'_>,
    membrane: S::Mem,
    set: &mut SetRegisters<S::Atom, S::Mem>,
    reasons: &mut Reasons,
    trail: &mut Found<S::Atom>,
) -> bool
    requires valid { Valid (S.heap store.old) }
    requires unmarked { Unmarked (S.heap store.old) }
    requires membrane { IsMem (S.heap store.old) (S.mem_id membrane) }
    requires order { HeadInOrder 0 1 0 0 code.now }
    ensures same { S.heap store.new ≡ S.heap store.old }
    ensures looked { Looked S.atom_id S.mem_id (S.heap store.old) code.now (S.mem_id membrane) set.new result }
{
    let mut patience = Patience::new();
    set.clear();
    set.membranes.push(membrane);
    if search::begin(store, code, 0, set, &mut patience, trail) {
        return true;
    }
    if !patience.is_gone() {
        return false;
    }
    find_anew(store, code, membrane, set, reasons, trail)
}

/// Looks for it by the search that jumps back.
#[inline(never)]
fn find_anew<S: LinkStore>(
    store: &mut S,
    code: &Instrs<'_>,
    membrane: S::Mem,
    set: &mut SetRegisters<S::Atom, S::Mem>,
    reasons: &mut Reasons,
    trail: &mut Found<S::Atom>,
) -> bool
    requires valid { Valid (S.heap store.old) }
    requires unmarked { Unmarked (S.heap store.old) }
    requires membrane { IsMem (S.heap store.old) (S.mem_id membrane) }
    requires order { HeadInOrder 0 1 0 0 code.now }
    ensures same { S.heap store.new ≡ S.heap store.old }
    ensures searched { Searched S.atom_id S.mem_id (S.heap store.old) (only_membrane membrane) set.new result code.now }
{
    set.clear();
    set.membranes.push(membrane);
    if !enough::holds_enough(store, code, 0, 0, membrane) {
        return false;
    }
    reasons.work_out(code);
    jump::search(store, code, reasons, 0, set, trail).is_ok()
}
