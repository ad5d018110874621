//! All membranes of a store are woken: of one that is loaded, so that no call that loads has to say it.
ghost use Rattle.std.specs.Prelude.{◌≡◌};
ghost use Rattle.lmn_store_heap.specs.Sound.{Valid};
ghost use Rattle.lmn_schedule_sleep.specs.Quiet.{SameButMarks};
ghost use Rattle.lmn_schedule_strategy.specs.Quieting.{AllAwake};

use lmn_store_trait::{AWAKE, LinkStore};

/// Each membrane wakes. The store is else as it was.
pub fn rouse_all<S: LinkStore>(store: &mut S)
    requires { Valid (S.heap store.old) }
    ensures alike { SameButMarks (S.heap store.old) (S.heap store.new) }
    ensures awake { AllAwake (S.heap store.new) }
{
    // There are fewer membranes than that, so the loop ends at a return.
    let mut at = store.root();
    for counted in 0..u64::MAX {
        store.set_mem_mark(at, AWAKE);
        match store.next_membrane(at) {
            Some(next) => at = next,
            None => return,
        }
    }
}
