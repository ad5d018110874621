//! Laws of orders: each the contract of an empty function.
ghost use Rattle.lmn_debug.specs.CarryingLaws.{BackUndoesStep, OrdersAreOne, OrdersStayInTrace, SolidsAreOne, WritingIsOne};

/// A course has one solid at a number.
pub fn solids_are_one()
    ensures { SolidsAreOne }
{}

/// An order that is carried out has one line, and leads to one number.
pub fn orders_are_one()
    ensures { OrdersAreOne }
{}

/// What is written of orders that are all carried out is one text.
pub fn writing_is_one()
    ensures { WritingIsOne }
{}

/// Orders lead to a number at which the trace has a solid.
pub fn orders_stay_in_trace()
    ensures { OrdersStayInTrace }
{}

/// `back n` leads to where so many turns began that all committed.
pub fn back_undoes_step()
    ensures { BackUndoesStep }
{}
