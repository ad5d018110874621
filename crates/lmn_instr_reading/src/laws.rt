//! The laws of lists of names to which names are put.

ghost use Rattle.lmn_instr_reading.specs.NameOrder.{ListsInOrderAreOne, NameOrderExamples};

/// Two lists of names that go on from one list are one where the same names were put in order.
pub fn lists_in_order_are_one()
    ensures { ListsInOrderAreOne }
{}

/// Names that were put in order, and some that weren't.
pub fn name_order_examples()
    ensures { NameOrderExamples }
{}
