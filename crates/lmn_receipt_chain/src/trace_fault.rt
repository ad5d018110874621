use lmn_base::{NoMemory, Refusal, TextFault};

/// Why a trace that is read line by line isn't one of a program, or isn't known to be one.
#[derive(Clone, Copy, Debug)]
pub enum TraceFault {
    /// It is refused.
    Refused(Refusal),
    /// A part of it couldn't be read.
    Failed,
    /// Memory was wanting; nothing is said of the trace.
    NoMemory,
}

impl TraceFault {
    ghost use Rattle.std.specs.Prelude.{◌≡◌};
    ghost use Rattle.lmn_base.specs.Refusals.{IfRefused};

    /// The fault of a trace that is at hand whole: no reading fails there.
    pub fn of_text(self) -> TextFault
        ensures { IfRefused result (λ refusal. self ≡ TraceFault.Refused refusal) }
    {
        match self {
            TraceFault::Refused(refusal) => TextFault::Refused(refusal),
            TraceFault::Failed | TraceFault::NoMemory => TextFault::NoMemory,
        }
    }
}

impl From<NoMemory> for TraceFault {
    ghost use Rattle.std.specs.Prelude.{◌≡◌};
    ghost use Rattle.lmn_receipt_chain.specs.declared.trace_fault.TraceFault.TheVariants as fault;

    ghost from_gives = { λ _ e. e ≡ fault.NoMemory };

    fn from(_fault: NoMemory) -> TraceFault {
        TraceFault::NoMemory
    }
}
