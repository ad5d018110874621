//! On which choices of a head its registers rest.
ghost use Rattle.std.specs.Prelude.{◌≡◌, IfOk, IsTrue, [], slice_get};
ghost use Rattle.lmn_machine.specs.Jumping.{AllRestWell, ReadsWithin, RestsWell, Within, named, on_atom, on_integer, on_membrane, on_part};

use crate::choices::Choices;
use lmn_base::NoMemory;
use lmn_instr_code::Instr;
use lmn_instr_pool::Instrs;
use lmn_machine_registers::{ROOM, Stack};
use std::alloc::Global;

/// On which choices each register of a head rests. What a FINDATOM or an ANYMEM sets rests on it, and what another instruction
/// sets on all on which the registers rest that it reads. A register of which nothing is said rests on all.
#[derive(Drop)]
pub struct Reasons {
    atoms: Stack<Choices>,
    membranes: Stack<Choices>,
    parts: Stack<Choices>,
    integers: Stack<Choices>,
}

/// The choices on which a register rests.
fn known(of: &Stack<Choices>, register: usize) -> Choices
    ensures { result ≡ named (slice_get of.now register) }
{
    if register < of.len() {
        of.at(register)
    } else {
        Choices::All
    }
}

/// Adds the choices on which the next register rests, where there is room.
fn note(of: &mut Stack<Choices>, choices: Choices) {
    if of.len() < ROOM {
        of.push(choices);
    }
}

impl Reasons {
    /// Of no register. It takes the memory of all.
    pub fn new(alloc: Global) -> Result<Reasons, NoMemory>
        ensures { IfOk result (λ r. r ≡ record { atoms = []; membranes = []; parts = []; integers = [] }) }
    {
        Ok(Reasons {
            atoms: Stack::new(alloc)?,
            membranes: Stack::new(alloc)?,
            parts: Stack::new(alloc)?,
            integers: Stack::new(alloc)?,
        })
    }

    /// The choices on which an atom rests.
    pub fn of_atom(&self, register: usize) -> Choices
        ensures { result ≡ on_atom self.now register }
    {
        known(&self.atoms, register)
    }

    /// The choices on which a membrane rests.
    pub fn of_membrane(&self, register: usize) -> Choices
        ensures { result ≡ on_membrane self.now register }
    {
        known(&self.membranes, register)
    }

    /// The choices on which a typed context rests.
    fn of_part(&self, register: usize) -> Choices
        ensures { result ≡ on_part self.now register }
    {
        known(&self.parts, register)
    }

    /// The choices on which an integer rests.
    fn of_integer(&self, register: usize) -> Choices
        ensures { result ≡ on_integer self.now register }
    {
        known(&self.integers, register)
    }

    /// The choices on which two atoms rest.
    fn of_atoms(&self, one: u16, other: u16) -> Choices
        ensures one { Within (on_atom self.now one) result }
        ensures other { Within (on_atom self.now other) result }
    {
        self.of_atom(one as usize)
            .with(self.of_atom(other as usize))
    }

    /// The choices on which an atom and a membrane rest.
    pub fn of_both(&self, atom: u16, membrane: u16) -> Choices
        ensures atom { Within (on_atom self.now atom) result }
        ensures membrane { Within (on_membrane self.now membrane) result }
    {
        self.of_atom(atom as usize)
            .with(self.of_membrane(membrane as usize))
    }

    /// The choices on which two membranes rest.
    fn of_membranes(&self, one: u16, other: u16) -> Choices
        ensures one { Within (on_membrane self.now one) result }
        ensures other { Within (on_membrane self.now other) result }
    {
        self.of_membrane(one as usize)
            .with(self.of_membrane(other as usize))
    }

    /// The choices on which two typed contexts rest.
    fn of_parts(&self, one: u16, other: u16) -> Choices
        ensures one { Within (on_part self.now one) result }
        ensures other { Within (on_part self.now other) result }
    {
        self.of_part(one as usize)
            .with(self.of_part(other as usize))
    }

    /// The choices on which two integers rest.
    fn of_integers(&self, one: u16, other: u16) -> Choices
        ensures one { Within (on_integer self.now one) result }
        ensures other { Within (on_integer self.now other) result }
    {
        self.of_integer(one as usize)
            .with(self.of_integer(other as usize))
    }

    /// The choices on which what an instruction reads rests; all, where it reads more registers than it names.
    pub fn read_by(&self, instr: &Instr) -> Choices
        ensures { ReadsWithin self.now result instr.now }
    {
        match instr {
            Instr::Deref { from, .. } => self.of_atom(from.atom as usize),
            Instr::Func { atom, .. } => self.of_atom(*atom as usize),
            Instr::InMem { atom, membrane } => self.of_both(*atom, *membrane),
            Instr::NeqAtom { atom, other } => self.of_atoms(*atom, *other),
            Instr::Joined { port, other } => self.of_atoms(port.atom, other.atom),
            Instr::NotIn { port, membrane } => self.of_both(port.atom, *membrane),
            Instr::NeqMem { membrane, other } => self.of_membranes(*membrane, *other),
            Instr::NMems { membrane, .. } => self.of_membrane(*membrane as usize),
            Instr::NoRules { membrane } => self.of_membrane(*membrane as usize),
            Instr::NAtoms {
                membrane,
                parts,
                ..
            } => {
                if parts.len() == 0 {
                    self.of_membrane(*membrane as usize)
                } else {
                    Choices::All
                }
            }
            Instr::EqGround { part, other } => self.of_parts(*part, *other),
            Instr::NeqGround { part, other } => self.of_parts(*part, *other),
            Instr::GetInt { part, .. } => self.of_part(*part as usize),
            Instr::Add { left, right, .. } => self.of_integers(*left, *right),
            Instr::Sub { left, right, .. } => self.of_integers(*left, *right),
            Instr::Mul { left, right, .. } => self.of_integers(*left, *right),
            Instr::Div { left, right, .. } => self.of_integers(*left, *right),
            Instr::Mod { left, right, .. } => self.of_integers(*left, *right),
            Instr::Lt { left, right } => self.of_integers(*left, *right),
            Instr::Le { left, right } => self.of_integers(*left, *right),
            Instr::Gt { left, right } => self.of_integers(*left, *right),
            Instr::Ge { left, right } => self.of_integers(*left, *right),
            Instr::Eq { left, right } => self.of_integers(*left, *right),
            Instr::Ne { left, right } => self.of_integers(*left, *right),
            _ => Choices::All,
        }
    }

    /// Says nothing of any register any more.
    fn clear(&mut self)
        ensures { self.new ≡ record { atoms = []; membranes = []; parts = []; integers = [] } }
    {
        self.atoms.truncate(0);
        self.membranes.truncate(0);
        self.parts.truncate(0);
        self.integers.truncate(0);
    }

    /// Notes on what a typed context rests that is entered from an atom.
    fn add_part(&mut self, atom: u16) {
        let choices = self.of_atom(atom as usize);
        note(&mut self.parts, choices);
    }

    /// Notes on what an integer rests that is computed of two.
    fn add_integer(&mut self, left: u16, right: u16) {
        let choices = self.of_integers(left, right);
        note(&mut self.integers, choices);
    }

    /// Notes on what the register rests that an instruction sets, if it sets one. Of a choice this is its number.
    fn add(&mut self, instr: &Instr, number: u32) {
        match instr {
            Instr::FindAtom { .. } => note(&mut self.atoms, Choices::one(number)),
            Instr::AnyMem { .. } => note(&mut self.membranes, Choices::one(number)),
            Instr::Deref { from, .. } => {
                let choices = self.of_atom(from.atom as usize);
                note(&mut self.atoms, choices);
            }
            Instr::IsInt { port, .. } => self.add_part(port.atom),
            Instr::IsUnary { port, .. } => self.add_part(port.atom),
            Instr::IsGround { port, .. } => self.add_part(port.atom),
            Instr::GetInt { part, .. } => {
                let choices = self.of_part(*part as usize);
                note(&mut self.integers, choices);
            }
            Instr::Const { .. } => note(&mut self.integers, Choices::none()),
            Instr::Add { left, right, .. } => self.add_integer(*left, *right),
            Instr::Sub { left, right, .. } => self.add_integer(*left, *right),
            Instr::Mul { left, right, .. } => self.add_integer(*left, *right),
            Instr::Div { left, right, .. } => self.add_integer(*left, *right),
            Instr::Mod { left, right, .. } => self.add_integer(*left, *right),
            _ => {}
        }
    }

    /// Whether two integers rest on no more than a third.
    fn operands_rest(&self, integer: u16, left: u16, right: u16) -> bool
        ensures left { IsTrue result → Within (on_integer self.now left) (on_integer self.now integer) }
        ensures right { IsTrue result → Within (on_integer self.now right) (on_integer self.now integer) }
    {
        let choices = self.of_integer(integer as usize);
        if !self.of_integer(left as usize).is_within(choices) {
            return false;
        }
        self.of_integer(right as usize).is_within(choices)
    }

    /// Whether a typed context rests on all on which an atom rests.
    fn part_rests(&self, part: u16, atom: u16) -> bool
        ensures { IsTrue result → Within (on_atom self.now atom) (on_part self.now part) }
    {
        self.of_atom(atom as usize)
            .is_within(self.of_part(part as usize))
    }

    /// Whether what an instruction sets by registers rests on all on which these rest.
    fn rests_well(&self, instr: &Instr) -> bool
        ensures { IsTrue result → RestsWell self.now instr.now }
    {
        match instr {
            Instr::Deref { atom, from, .. } => {
                self.of_atom(from.atom as usize)
                    .is_within(self.of_atom(*atom as usize))
            }
            Instr::IsInt { part, port, .. } => self.part_rests(*part, port.atom),
            Instr::IsUnary { part, port, .. } => self.part_rests(*part, port.atom),
            Instr::IsGround { part, port, .. } => self.part_rests(*part, port.atom),
            Instr::GetInt { integer, part } => {
                self.of_part(*part as usize)
                    .is_within(self.of_integer(*integer as usize))
            }
            Instr::Add {
                integer,
                left,
                right,
            } => self.operands_rest(*integer, *left, *right),
            Instr::Sub {
                integer,
                left,
                right,
            } => self.operands_rest(*integer, *left, *right),
            Instr::Mul {
                integer,
                left,
                right,
            } => self.operands_rest(*integer, *left, *right),
            Instr::Div {
                integer,
                left,
                right,
            } => self.operands_rest(*integer, *left, *right),
            Instr::Mod {
                integer,
                left,
                right,
            } => self.operands_rest(*integer, *left, *right),
            _ => true,
        }
    }

    /// Whether that holds of each instruction of code.
    fn all_rest_well(&self, code: &Instrs<'_>) -> bool
        ensures { IsTrue result → AllRestWell self.now code.now }
    {
        for i in 0..code.len() {
            if !self.rests_well(code.at(i)) {
                return false;
            }
        }
        true
    }

    /// Notes on what the registers of a code rest.
    fn add_all(&mut self, code: &Instrs<'_>) {
        note(&mut self.membranes, Choices::none());
        let mut number: u32 = 0;
        for i in 0..code.len() {
            let instr = code.at(i);
            self.add(instr, number);
            if is_choice(instr) {
                number = number.saturating_add(1);
            }
        }
    }

    /// Works out on what the registers of head code rest. What was noted is looked through before it is used: so it is right
    /// whatever the code is.
    pub fn work_out(&mut self, code: &Instrs<'_>)
        ensures { AllRestWell self.new code.now }
    {
        self.clear();
        self.add_all(code);
        if !self.all_rest_well(code) {
            self.clear();
        }
    }
}

/// Whether an instruction makes a choice.
fn is_choice(instr: &Instr) -> bool {
    match instr {
        Instr::FindAtom { .. } => true,
        Instr::AnyMem { .. } => true,
        _ => false,
    }
}
