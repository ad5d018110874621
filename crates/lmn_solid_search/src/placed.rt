//! Where the items of a head are placed.
ghost use Rattle.std.specs.Prelude.{◌≡◌, ◌≤◌, IfSome, None, Some, length, slice_get};
ghost use Rattle.lmn_base.specs.Lists.{In};
ghost use Rattle.lmn_solid_search.specs.Placing.{membrane_at};

use lmn_base::Rows;

/// The images of the items of a head.
#[derive(Drop)]
pub(crate) struct Placed {
    /// The membrane in which the rule stands.
    pub home: usize,
    pub atoms: Rows<usize>,
    pub membranes: Rows<usize>,
}

impl Placed {
    /// The image of a membrane by its number, 0 for that in which the rule stands.
    pub(crate) fn membrane(&self, number: usize) -> usize
        requires { number ≤ length self.now.membranes }
        ensures { result ≡ membrane_at self.now.home self.now.membranes number }
    {
        if number == 0 {
            self.home
        } else {
            *self.membranes.at(number - 1)
        }
    }
}

/// A place at which a number stands in a list.
pub(crate) fn place_of(list: &[usize], number: usize) -> Option<usize>
    ensures some { IfSome result (λ k. slice_get list.now k ≡ Some number) }
    ensures none { result ≡ None → In number list.now → ⊥ }
{
    for place in 0..list.len() {
        if list[place] == number {
            return Some(place);
        }
    }
    None
}
