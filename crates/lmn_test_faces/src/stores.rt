//! Stores through `lmn_store`.
ghost use Rattle.std.specs.Prelude.{◌≡◌, IfOk};
ghost use Rattle.lmn_store.specs.Heap.{Heap};
ghost use Rattle.lmn_store.specs.Sound.{Sound, Valid};
ghost use Rattle.lmn_store.specs.Kept as slabs;
ghost use Rattle.lmn_store.specs.WebHeaps as webs;

use lmn_base::NoMemory;
use lmn_store::{LinkStore, SlabStore, WebStore};
use std::alloc::Global;

/// A store over slabs.
pub fn new_slab(alloc: Global) -> Result<SlabStore, NoMemory>
    ensures { IfOk result (λ s. Valid (slabs.heap_of s)) }
{
    SlabStore::new(alloc)
}

/// A store over a web.
pub fn new_web(alloc: Global) -> Result<WebStore, NoMemory>
    ensures { IfOk result (λ s. Valid (webs.heap_of s)) }
{
    WebStore::new(alloc)
}

/// The root of any store.
pub fn root_of<S: LinkStore>(store: &S) -> S::Mem
    ensures root { S.mem_id result ≡ (S.heap store.now).root }
    ensures sound { Sound (S.heap store.now) }
{
    store.root()
}
