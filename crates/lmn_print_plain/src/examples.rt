//! Marks that tell the numbers of links, and marks that don't.
ghost use Rattle.lmn_print_plain.specs.NumberExamples.{BothPortsTell, OnePortTellsNothing};

/// Where both ports of the link in `{a(X)}, b(X)` have the mark 1, the marks tell that its number is 0.
#[tactic(auto, using(crate::proofs::NumberExampleProofs::both_ports_tell))]
pub fn both_ports_tell()
    ensures { BothPortsTell }
{}

/// Where one of the ports has it alone, the marks tell no numbers.
#[tactic(auto, using(crate::proofs::NumberExampleProofs::one_port_tells_nothing))]
pub fn one_port_tells_nothing()
    ensures { OnePortTellsNothing }
{}
