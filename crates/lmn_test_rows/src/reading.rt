//! Texts of which the rules are read.
ghost use Rattle.std.specs.Prelude.{◌≡◌};
ghost use Rattle.lmn_base.specs.Names.{first_names};

use lmn_app_reading::{Accepted, read};
use lmn_base::Names;
use std::alloc::AllocGlobal;
use std::process::Abort;

/// What is read of a text that is accepted.
pub(crate) fn read_of(rt: &(impl Abort + AllocGlobal), names: &mut Names, text: &[u8]) -> Accepted
    requires { names.old ≡ first_names }
{
    assert!(rt; text.len() <= 4_194_304);
    read(rt.alloc(), text, names).expect(rt, "accepted")
}
