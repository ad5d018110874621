//! Where in a code instructions of some kinds stand.
ghost use Rattle.std.specs.Prelude.{◌≤◌, length, IsFalse};
ghost use Rattle.lmn_instr_pool.specs.Extents.{Acts, EndsAt, HasExtent, IsOf, Makes, NoneBefore, NoneFrom, Removes};

use lmn_instr_code::Instr;

/// A kind of instructions.
#[derive(Clone, Copy)]
enum Kind {
    /// Those that take an atom or a membrane away by itself.
    Removal,
    /// Those for which something is made before the code is run.
    Making,
    /// All but COMMIT.
    Action,
}

/// Where in a code the instructions stand that take something away, and those for which something is made.
#[derive(Clone, Copy)]
pub(crate) struct Extent {
    /// At this place and behind it none takes an atom or a membrane away by itself.
    pub removals: usize,
    /// Before this place nothing is made.
    pub first: usize,
    /// At this place and behind it neither.
    pub last: usize,
}

impl Extent {
    /// That of a code.
    pub(crate) fn of(instrs: &[Instr]) -> Extent
        ensures { HasExtent result instrs.now }
    {
        Extent {
            removals: end_of(instrs, Kind::Removal),
            first: start_of(instrs, Kind::Making),
            last: end_of(instrs, Kind::Making),
        }
    }
}

/// A place at which and behind which all instructions are COMMIT.
pub(crate) fn end_of_actions(instrs: &[Instr]) -> usize
    ensures { EndsAt result instrs.now }
{
    end_of(instrs, Kind::Action)
}

/// Behind the last instruction of a kind, or 0.
fn end_of(instrs: &[Instr], kind: Kind) -> usize
    ensures within { result ≤ length instrs.now }
    ensures none { NoneFrom (IsOf kind) result instrs.now }
{
    for behind in 0..instrs.len() {
        let end = instrs.len() - behind;
        if is_of(kind, &instrs[end - 1]) {
            return end;
        }
    }
    0
}

/// The place of the first instruction of a kind, or the number of all.
fn start_of(instrs: &[Instr], kind: Kind) -> usize
    ensures within { result ≤ length instrs.now }
    ensures none { NoneBefore (IsOf kind) result instrs.now }
{
    for at in 0..instrs.len() {
        if is_of(kind, &instrs[at]) {
            return at;
        }
    }
    instrs.len()
}

/// Whether an instruction is of a kind.
fn is_of(kind: Kind, instr: &Instr) -> bool
    ensures { IsFalse result → IsOf kind instr.now → ⊥ }
{
    match kind {
        Kind::Removal => removes(instr),
        Kind::Making => makes(instr),
        Kind::Action => acts(instr),
    }
}

/// Whether an instruction takes an atom or a membrane away by itself.
fn removes(instr: &Instr) -> bool
    ensures { IsFalse result → Removes instr.now → ⊥ }
{
    match instr {
        Instr::RemoveAtom { .. } => true,
        Instr::RemoveMem { .. } => true,
        _ => false,
    }
}

/// Whether something is made for an instruction before the code is run.
fn makes(instr: &Instr) -> bool
    ensures { IsFalse result → Makes instr.now → ⊥ }
{
    match instr {
        Instr::NewAtom { .. } => true,
        Instr::NewInt { .. } => true,
        Instr::NewMem { .. } => true,
        Instr::CopyGround { .. } => true,
        Instr::LoadRule { .. } => true,
        Instr::CopyRules { .. } => true,
        Instr::CopyCells { .. } => true,
        _ => false,
    }
}

/// Whether an instruction is none that only ends a head.
fn acts(instr: &Instr) -> bool
    ensures { IsFalse result → Acts instr.now → ⊥ }
{
    match instr {
        Instr::Commit => false,
        _ => true,
    }
}
