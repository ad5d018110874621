//! Texts that are read.
ghost use Rattle.std.specs.Prelude.{◌≡◌};
ghost use Rattle.lmn_base.specs.Names.{first_names};
ghost use Rattle.lmn_schedule.specs.Held.{CanBeLoaded};

use lmn_app_accepted::accepted_texts_can_be_loaded;
use lmn_app_reading::{Accepted, read};
use lmn_base::Names;
use std::alloc::AllocGlobal;
use std::process::Abort;

/// What is read of a text that is accepted.
pub(crate) fn read_of(rt: &(impl Abort + AllocGlobal), names: &mut Names, text: &[u8]) -> Accepted
    requires { names.old ≡ first_names }
    ensures { CanBeLoaded result.plain result.plans }
{
    accepted_texts_can_be_loaded();
    assert!(rt; text.len() <= 4_194_304);
    read(rt.alloc(), text, names).expect(rt, "accepted")
}
