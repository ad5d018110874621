ghost use Rattle.std.specs.Prelude.{◌≡◌, ◌++◌, IfOk, OnOk};
ghost use Rattle.lmn_app_single.specs.Demos.{demo_atom, demo_text};

use itoa::Buffer;
use std::alloc::{AllocError, Global};

/// The text that `demo` runs for a number.
pub(crate) fn demo_text(alloc: Global, n: u64) -> Result<Vec<u8>, AllocError>
    ensures { IfOk result (λ text. text.items ≡ demo_text n) }
{
    let mut text = Vec::new(alloc);
    for i in 0..n {
        add_atom(&mut text, i + 1)?;
    }
    text.extend_from_slice(b"p($x), p($y) :- $z = $x + $y | p($z).")?;
    Ok(text)
}

/// Adds the atom that holds a number, with what stands between it and what follows.
fn add_atom(text: &mut Vec<u8>, number: u64) -> Result<(), AllocError>
    ensures { OnOk result (text.new.items ≡ text.old.items ++ demo_atom number) }
{
    let mut digits = Buffer::new();
    text.extend_from_slice(b"p(")?;
    text.extend_from_slice(digits.format(number).as_bytes())?;
    text.extend_from_slice(b"). ")
}
