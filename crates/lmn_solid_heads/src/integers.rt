ghost use Rattle.std.specs.Prelude.{◌≡◌, Some};
ghost use Rattle.lmn_solid_heads.specs.Guards.{integer_of_functor};

use lmn_base::{Functor, Label};

/// The integer of an atom with a functor: that of its label, where it has one link.
#[inline(always)]
pub fn integer_with(functor: Functor) -> Option<i64>
    ensures { result ≡ integer_of_functor (Some functor) }
{
    match functor.label {
        Label::Int(integer) => {
            if functor.arity == 1 {
                Some(integer)
            } else {
                None
            }
        }
        Label::Name(_) => None,
    }
}
