ghost use Rattle.std.specs.Prelude.{ℕ, List, Some};
ghost use Rattle.lmn_app_single.specs.Outcomes.{Ended};
ghost use Rattle.lmn_app_single.specs.declared.task.Task.{Task};
ghost use Rattle.lmn_app_single.specs.Texts.{Accepts};

use crate::ending::Ending;
use crate::task::Task;
use lmn_app_accepted::accepted_texts;
use lmn_app_reading::Accepted;
use lmn_base::Names;
use lmn_compile_listing::{compile_rules, list_codes};
use lmn_io::{Failed, Sink};
use std::alloc::Global;

/// Writes the listing of the code of each rule of an accepted text, by rising number. All rules are compiled before the
/// first byte is written.
/// So many rules that 32 bits don't count them would stand in no memory.
pub(crate) fn compile<O: Sink>(
    alloc: Global,
    accepted: &Accepted,
    names: &Names,
    out: &mut O,
) -> Ending
    requires accepted { (text : List ℕ) × Accepts text names.now accepted.now.plain accepted.now.plans }
    ensures { (text : List ℕ) (before after : ℕ) → Accepts text names.now accepted.now.plain accepted.now.plans →
        Ended Task.List result (Some (Some text)) (O.told out.old) (O.told out.new) (O.faults out.old) (O.faults out.new) before after }
{
    accepted_texts();
    let Ok(codes) = compile_rules(alloc, &accepted.plain, accepted.plans.as_slice()) else {
        return Ending::NoMemory;
    };
    if codes.len() >= 1 << 32 {
        return Ending::NoMemory;
    }
    match list_codes(&codes, names, out) {
        Ok(()) => Ending::Done,
        Err(Failed) => Ending::WriteFault,
    }
}
