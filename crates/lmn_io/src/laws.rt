//! What a sink tells of puts behind one that failed, and what a shelf tells of parts.

ghost use Rattle.lmn_io.specs.Counts.{AskedAgainIsTold};
ghost use Rattle.lmn_io.specs.Texts.{SecondByteIsPart, TwoBytesAreMeasured};

/// A sink of which a put failed and that was asked again tells it.
pub fn asked_again_is_told()
    ensures { AskedAgainIsTold }
{}

/// Two bytes are measured as two, and the part behind the first is the second.
pub fn parts_are_told()
    ensures measured { TwoBytesAreMeasured }
    ensures part { SecondByteIsPart }
{}
