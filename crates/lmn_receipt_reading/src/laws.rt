//! What may be at hand of a text, and what is seen of its reading.
ghost use Rattle.lmn_receipt_reading.specs.Examples.{AllIsReady, ByteIsBehind, CutIsWindow, NameIsKept, NothingIsLost};

/// What is ready and left of two lines that are read, and what isn't.
pub fn two_lines_are_read()
    ensures behind { ByteIsBehind }
    ensures window { CutIsWindow }
    ensures ready { AllIsReady }
    ensures all { NothingIsLost }
    ensures name { NameIsKept }
{}
