ghost use Rattle.std.specs.Prelude.{◌<◌, ◌+◌, ◌^◌, ℕ, List, length};
ghost use Rattle.lmn_base.specs.Names.{IsNames};
ghost use Rattle.lmn_io.specs.Writing.{WritesText};
ghost use Rattle.lmn_app.specs.Bounds.{bound_line};
ghost use Rattle.lmn_app.specs.Runnings.{EndsByLine};
ghost use Rattle.lmn_app_single.specs.Texts.{Accepts};

use itoa::Buffer;
use lmn_app_accepted::accepted_texts;
use lmn_app_reading::Accepted;
use lmn_app_single::Ending;
use lmn_app_words::PairKind;
use lmn_base::{Names, TextFault};
use lmn_io::{Failed, Sink, put_all};
use lmn_weight::{bound, few_items_weigh, read, weights_bound_commits};
use std::alloc::Global;

/// Writes how many commits an accepted text has at most, by the weights of a second one.
pub(crate) fn bound_by<O: Sink>(
    alloc: Global,
    accepted: &Accepted,
    names: &mut Names,
    weights: &[u8],
    out: &mut O,
) -> Ending
    requires accepted { (program : List ℕ) × Accepts program names.old accepted.now.plain accepted.now.plans }
    requires room { length names.old + length weights.now < 2 ^ 32 }
    ensures { (program : List ℕ) → Accepts program names.old accepted.now.plain accepted.now.plans →
        EndsByLine PairKind.Bound program weights.now result (O.told out.old) (O.told out.new) (O.faults out.old) (O.faults out.new) }
{
    accepted_texts();
    few_items_weigh();
    weights_bound_commits();
    match read(alloc, weights, names) {
        Ok(weights) => {
            stand_once(names);
            match bound(&weights, &accepted.plain, accepted.plans.as_slice()) {
                Ok(most) => match write_bound(most, out) {
                    Ok(()) => Ending::Done,
                    Err(Failed) => Ending::WriteFault,
                },
                Err(refusal) => Ending::SecondRefused(PairKind::Bound, refusal),
            }
        }
        Err(TextFault::Refused(refusal)) => {
            stand_once(names);
            Ending::SecondRefused(PairKind::Bound, refusal)
        }
        Err(TextFault::NoMemory) => Ending::NoMemory,
    }
}

/// No name stands twice in a list.
pub(crate) fn stand_once(names: &Names)
    ensures { IsNames names.now }
{
    names.len();
}

/// Writes the line of a bound.
fn write_bound<O: Sink>(most: u64, out: &mut O) -> Result<(), Failed>
    ensures { WritesText (bound_line most) result (O.told out.old) (O.faults out.old) (O.told out.new) (O.faults out.new) }
{
    let mut digits = Buffer::new();
    put_all(
        out,
        &[
            b"% at most ".as_slice(),
            digits.format(most).as_bytes(),
            b"\n".as_slice(),
        ],
    )
}
