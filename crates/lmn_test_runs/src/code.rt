//! Code that is made by hand.
ghost use Rattle.std.specs.Prelude.{◌≡◌, ◌<◌, IfOk};
ghost use Rattle.lmn_machine.specs.Searching.{HeadInOrder};

use lmn_base::{NoMemory, Rows};
use lmn_instr_code::{Code, Instr};
use lmn_instr_pool::Codes;
use lmn_machine::{Machine, Steps};
use lmn_store_slab::SlabStore;
use lmn_store_trait::LinkStore;
use std::alloc::Global;
use std::marker::Brand;
use std::sync::ledger::{Blank, Ledger};

/// The code of an empty head.
fn empty_head(alloc: Global) -> Result<Code, NoMemory>
    ensures { IfOk result (λ c. HeadInOrder 0 1 0 0 c.head) }
{
    let mut head = Rows::new(alloc);
    head.push(Instr::Commit)?;
    Ok(Code {
        head,
        body: Rows::new(alloc),
    })
}

/// Whether an empty head has a match in an empty store.
fn search_once<L: Ledger>(alloc: Global, blank: Blank) -> Result<bool, NoMemory>
    requires name { blank.name ≡ L.name }
    requires parts { blank.parts ≡ L.parts }
    requires some { 0 < blank.parts }
{
    let code = empty_head(alloc)?;
    let mut codes = Codes::new(alloc);
    codes.push(alloc, code)?;
    let store = SlabStore::new(alloc)?;
    let root = store.root();
    let mut machine = Machine::new(alloc, store)?;
    let mut steps = Steps::<L>::new(blank);
    let empty = codes.code(0);
    Ok(machine.find(&empty, root, &mut steps))
}

#[test]
fn an_empty_head_is_found(rt: HostRuntime) -> Result<(), NoMemory> {
    let found = search_once::<Brand>(rt.alloc(), Blank::new(1))?;
    assert_eq!(rt; found, true);
    Ok(())
}
