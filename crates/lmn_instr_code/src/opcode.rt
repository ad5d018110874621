//! The table of instructions: the name of each, whether it stands in a head, what operands it has, and whether it sets the first.
ghost use Rattle.std.specs.Prelude.{◌≡◌, IfSome, IfNone, true, false};
ghost use Rattle.lmn_instr_code.specs.declared.opcode.Opcode.{Opcode as TheOpcode};
ghost use Rattle.lmn_instr_code.specs.Opcodes.{opcode_name, form_of, is_in_head, none, one, two, three, with_parts, setting};

/// What an instruction is called.
#[derive(Clone, Copy)]
pub enum Opcode {
    FindAtom,
    Deref,
    Func,
    InMem,
    NeqAtom,
    Joined,
    NotIn,
    AnyMem,
    NeqMem,
    IsInt,
    IsUnary,
    IsGround,
    NAtoms,
    NMems,
    NoRules,
    IsClosed,
    EqGround,
    NeqGround,
    GetInt,
    Const,
    Add,
    Sub,
    Mul,
    Div,
    Mod,
    Lt,
    Le,
    Gt,
    Ge,
    Eq,
    Ne,
    Commit,
    RemoveAtom,
    RemovePart,
    RemoveMem,
    NewAtom,
    NewInt,
    NewMem,
    CopyGround,
    MoveCells,
    CopyCells,
    LoadRule,
    CopyRules,
    DropCells,
    NewLink,
    Relink,
    Unify,
    Proceed,
}

/// All of them.
const OPCODES: [Opcode; 48] = [
    Opcode::FindAtom,
    Opcode::Deref,
    Opcode::Func,
    Opcode::InMem,
    Opcode::NeqAtom,
    Opcode::Joined,
    Opcode::NotIn,
    Opcode::AnyMem,
    Opcode::NeqMem,
    Opcode::IsInt,
    Opcode::IsUnary,
    Opcode::IsGround,
    Opcode::NAtoms,
    Opcode::NMems,
    Opcode::NoRules,
    Opcode::IsClosed,
    Opcode::EqGround,
    Opcode::NeqGround,
    Opcode::GetInt,
    Opcode::Const,
    Opcode::Add,
    Opcode::Sub,
    Opcode::Mul,
    Opcode::Div,
    Opcode::Mod,
    Opcode::Lt,
    Opcode::Le,
    Opcode::Gt,
    Opcode::Ge,
    Opcode::Eq,
    Opcode::Ne,
    Opcode::Commit,
    Opcode::RemoveAtom,
    Opcode::RemovePart,
    Opcode::RemoveMem,
    Opcode::NewAtom,
    Opcode::NewInt,
    Opcode::NewMem,
    Opcode::CopyGround,
    Opcode::MoveCells,
    Opcode::CopyCells,
    Opcode::LoadRule,
    Opcode::CopyRules,
    Opcode::DropCells,
    Opcode::NewLink,
    Opcode::Relink,
    Opcode::Unify,
    Opcode::Proceed,
];

/// What stands in the place of an operand.
#[derive(Clone, Copy)]
pub enum Kind {
    /// The register of an atom.
    Atom,
    /// The register of a membrane.
    Membrane,
    /// The register of a typed context.
    Part,
    /// The register of an integer.
    Integer,
    /// The register of a copy.
    Copy,
    /// A port of the atom in a register.
    Port,
    /// Such a port, or the register of a copy.
    NewPort,
    /// A functor.
    Functor,
    /// The index of a port.
    Index,
    /// A number of items.
    Count,
    /// The number of a rule.
    Rule,
    /// An integer of the guard.
    Constant,
}

/// The operands of an instruction: at most three, and then any number of typed contexts, where there may be some.
#[derive(Clone, Copy)]
pub struct Form {
    pub first: Option<Kind>,
    pub second: Option<Kind>,
    pub third: Option<Kind>,
    pub parts: bool,
    /// Whether the first is a register that the instruction sets.
    pub sets: bool,
}

impl Opcode {
    /// The name that a text is.
    pub fn named(name: &[u8]) -> Option<Opcode>
        ensures some { IfSome result (λ opcode. opcode_name opcode ≡ name.now) }
        ensures none { IfNone result ((opcode : TheOpcode) → opcode_name opcode ≡ name.now → ⊥) }
    {
        for opcode in OPCODES.as_slice() {
            if opcode.name() == name {
                return Some(*opcode);
            }
        }
        None
    }

    /// Its text.
    pub fn name(self) -> &'static [u8]
        ensures { result.now ≡ opcode_name self }
    {
        match self {
            Opcode::FindAtom => b"FINDATOM",
            Opcode::Deref => b"DEREF",
            Opcode::Func => b"FUNC",
            Opcode::InMem => b"INMEM",
            Opcode::NeqAtom => b"NEQATOM",
            Opcode::Joined => b"JOINED",
            Opcode::NotIn => b"NOTIN",
            Opcode::AnyMem => b"ANYMEM",
            Opcode::NeqMem => b"NEQMEM",
            Opcode::IsInt => b"ISINT",
            Opcode::IsUnary => b"ISUNARY",
            Opcode::IsGround => b"ISGROUND",
            Opcode::NAtoms => b"NATOMS",
            Opcode::NMems => b"NMEMS",
            Opcode::NoRules => b"NORULES",
            Opcode::IsClosed => b"ISCLOSED",
            Opcode::EqGround => b"EQGROUND",
            Opcode::NeqGround => b"NEQGROUND",
            Opcode::GetInt => b"GETINT",
            Opcode::Const => b"CONST",
            Opcode::Add => b"ADD",
            Opcode::Sub => b"SUB",
            Opcode::Mul => b"MUL",
            Opcode::Div => b"DIV",
            Opcode::Mod => b"MOD",
            Opcode::Lt => b"LT",
            Opcode::Le => b"LE",
            Opcode::Gt => b"GT",
            Opcode::Ge => b"GE",
            Opcode::Eq => b"EQ",
            Opcode::Ne => b"NE",
            Opcode::Commit => b"COMMIT",
            Opcode::RemoveAtom => b"REMOVEATOM",
            Opcode::RemovePart => b"REMOVEPART",
            Opcode::RemoveMem => b"REMOVEMEM",
            Opcode::NewAtom => b"NEWATOM",
            Opcode::NewInt => b"NEWINT",
            Opcode::NewMem => b"NEWMEM",
            Opcode::CopyGround => b"COPYGROUND",
            Opcode::MoveCells => b"MOVECELLS",
            Opcode::CopyCells => b"COPYCELLS",
            Opcode::LoadRule => b"LOADRULE",
            Opcode::CopyRules => b"COPYRULES",
            Opcode::DropCells => b"DROPCELLS",
            Opcode::NewLink => b"NEWLINK",
            Opcode::Relink => b"RELINK",
            Opcode::Unify => b"UNIFY",
            Opcode::Proceed => b"PROCEED",
        }
    }

    /// Whether it is of an instruction of a head.
    pub fn is_in_head(self) -> bool
        ensures { result ≡ is_in_head self }
    {
        match self {
            Opcode::FindAtom
            | Opcode::Deref
            | Opcode::Func
            | Opcode::InMem
            | Opcode::NeqAtom
            | Opcode::Joined
            | Opcode::NotIn
            | Opcode::AnyMem
            | Opcode::NeqMem
            | Opcode::IsInt
            | Opcode::IsUnary
            | Opcode::IsGround
            | Opcode::NAtoms
            | Opcode::NMems
            | Opcode::NoRules
            | Opcode::IsClosed
            | Opcode::EqGround
            | Opcode::NeqGround
            | Opcode::GetInt
            | Opcode::Const
            | Opcode::Add
            | Opcode::Sub
            | Opcode::Mul
            | Opcode::Div
            | Opcode::Mod
            | Opcode::Lt
            | Opcode::Le
            | Opcode::Gt
            | Opcode::Ge
            | Opcode::Eq
            | Opcode::Ne
            | Opcode::Commit => true,
            Opcode::RemoveAtom
            | Opcode::RemovePart
            | Opcode::RemoveMem
            | Opcode::NewAtom
            | Opcode::NewInt
            | Opcode::NewMem
            | Opcode::CopyGround
            | Opcode::MoveCells
            | Opcode::CopyCells
            | Opcode::LoadRule
            | Opcode::CopyRules
            | Opcode::DropCells
            | Opcode::NewLink
            | Opcode::Relink
            | Opcode::Unify
            | Opcode::Proceed => false,
        }
    }

    /// What operands the instruction has.
    pub fn form(self) -> Form
        ensures { result ≡ form_of self }
    {
        match self {
            Opcode::FindAtom | Opcode::NewAtom => setting(three(
                Kind::Atom,
                Kind::Membrane,
                Kind::Functor,
            )),
            Opcode::Deref => setting(three(Kind::Atom, Kind::Port, Kind::Index)),
            Opcode::Func => two(Kind::Atom, Kind::Functor),
            Opcode::InMem => two(Kind::Atom, Kind::Membrane),
            Opcode::NeqAtom => two(Kind::Atom, Kind::Atom),
            Opcode::Joined | Opcode::Unify => two(Kind::Port, Kind::Port),
            Opcode::NotIn => two(Kind::Port, Kind::Membrane),
            Opcode::AnyMem | Opcode::NewMem => setting(two(Kind::Membrane, Kind::Membrane)),
            Opcode::NeqMem | Opcode::MoveCells | Opcode::CopyCells | Opcode::CopyRules => two(
                Kind::Membrane,
                Kind::Membrane,
            ),
            Opcode::IsInt | Opcode::IsUnary | Opcode::IsGround => setting(three(
                Kind::Part,
                Kind::Port,
                Kind::Membrane,
            )),
            Opcode::NAtoms => with_parts(two(Kind::Membrane, Kind::Count)),
            Opcode::NMems => two(Kind::Membrane, Kind::Count),
            Opcode::NoRules | Opcode::RemoveMem | Opcode::DropCells => one(Kind::Membrane),
            Opcode::IsClosed => with_parts(one(Kind::Membrane)),
            Opcode::EqGround | Opcode::NeqGround => two(Kind::Part, Kind::Part),
            Opcode::GetInt => setting(two(Kind::Integer, Kind::Part)),
            Opcode::Const => setting(two(Kind::Integer, Kind::Constant)),
            Opcode::Add | Opcode::Sub | Opcode::Mul | Opcode::Div | Opcode::Mod => setting(three(
                Kind::Integer,
                Kind::Integer,
                Kind::Integer,
            )),
            Opcode::Lt | Opcode::Le | Opcode::Gt | Opcode::Ge | Opcode::Eq | Opcode::Ne => two(
                Kind::Integer,
                Kind::Integer,
            ),
            Opcode::Commit | Opcode::Proceed => none(),
            Opcode::RemoveAtom => one(Kind::Atom),
            Opcode::RemovePart => one(Kind::Part),
            Opcode::NewInt => setting(three(Kind::Atom, Kind::Membrane, Kind::Integer)),
            Opcode::CopyGround => setting(three(Kind::Copy, Kind::Membrane, Kind::Part)),
            Opcode::LoadRule => two(Kind::Membrane, Kind::Rule),
            Opcode::NewLink => two(Kind::NewPort, Kind::NewPort),
            Opcode::Relink => two(Kind::NewPort, Kind::Port),
        }
    }
}

/// No operand.
fn none() -> Form
    ensures { result ≡ none }
{
    Form {
        first: None,
        second: None,
        third: None,
        parts: false,
        sets: false,
    }
}

/// One operand.
fn one(first: Kind) -> Form
    ensures { result ≡ one first }
{
    Form {
        first: Some(first),
        second: None,
        third: None,
        parts: false,
        sets: false,
    }
}

/// Two operands.
fn two(first: Kind, second: Kind) -> Form
    ensures { result ≡ two first second }
{
    Form {
        first: Some(first),
        second: Some(second),
        third: None,
        parts: false,
        sets: false,
    }
}

/// Three operands.
fn three(first: Kind, second: Kind, third: Kind) -> Form
    ensures { result ≡ three first second third }
{
    Form {
        first: Some(first),
        second: Some(second),
        third: Some(third),
        parts: false,
        sets: false,
    }
}

/// These operands, and then any number of typed contexts.
fn with_parts(form: Form) -> Form
    ensures { result ≡ with_parts form }
{
    Form {
        first: form.first,
        second: form.second,
        third: form.third,
        parts: true,
        sets: form.sets,
    }
}

/// These operands, of which the first is a register that the instruction sets.
fn setting(form: Form) -> Form
    ensures { result ≡ setting form }
{
    Form {
        first: form.first,
        second: form.second,
        third: form.third,
        parts: form.parts,
        sets: true,
    }
}
