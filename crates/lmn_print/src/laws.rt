//! Laws of the line of a heap.
ghost use Rattle.lmn_print.specs.Laws.{OneHeapLine, SomeHeapLine};

/// Each valid heap has a line in either form, and one only.
pub fn heaps_have_one_line()
    ensures some { SomeHeapLine }
    ensures one { OneHeapLine }
{}
