//! The pool in which the instructions of all codes stand.
ghost use Rattle.std.specs.Prelude.{◌≡◌, [], slice_get, Some, IfOk, IfSome, IsTrue};
ghost use Rattle.lmn_instr_pool.specs.Pools.{Keeps, Selects};

use lmn_base::{NoMemory, Rows};
use lmn_instr_code::Instr;
use std::alloc::Global;
use std::marker::Model;

/// From which register on a pair of registers isn't shared.
const SHARED: u16 = 2048;

/// Two registers that an instruction tells apart: the later one, and one before it.
#[derive(Clone, Copy)]
struct Pair {
    later: u16,
    earlier: u16,
}

impl Pair {
    /// A pair, where its registers are in order and few.
    fn of(later: u16, earlier: u16) -> Option<Pair> {
        if later < SHARED && earlier < later {
            Some(Pair { later, earlier })
        } else {
            None
        }
    }

    /// The place of the pair among all pairs, by the later register and then by the earlier one.
    fn place(self) -> usize {
        let later = self.later as usize;
        later * later / 2 + self.earlier as usize
    }
}

/// Where the instruction of a pair was put last, by the place of the pair. What stands here is a guess, and is looked up before it is used.
#[derive(Drop)]
struct Guesses {
    numbers: Rows<u32>,
}

impl Guesses {
    /// None.
    fn new(alloc: Global) -> Guesses {
        Guesses {
            numbers: Rows::new(alloc),
        }
    }

    /// The guess for a pair.
    fn guess(&self, pair: Pair) -> Option<u32> {
        let place = pair.place();
        if place < self.numbers.len() {
            Some(*self.numbers.at(place))
        } else {
            None
        }
    }

    /// The guess for a pair from now on.
    fn note(&mut self, pair: Pair, number: u32) -> Result<(), NoMemory> {
        let place = pair.place();
        for _ in self.numbers.len()..place {
            self.numbers.push(0)?;
        }
        if place < self.numbers.len() {
            self.numbers.set(place, number);
        } else {
            self.numbers.push(number)?;
        }
        Ok(())
    }
}

/// Whether two instructions tell the same registers apart.
fn are_alike(one: &Instr, other: &Instr) -> bool
    ensures { IsTrue result → one.now ≡ other.now }
{
    match one {
        Instr::NeqAtom {
            atom,
            other: earlier,
        } => match other {
            Instr::NeqAtom { atom: a, other: b } => *atom == *a && *earlier == *b,
            _ => false,
        },
        Instr::NeqMem {
            membrane,
            other: earlier,
        } => match other {
            Instr::NeqMem {
                membrane: m,
                other: b,
            } => *membrane == *m && *earlier == *b,
            _ => false,
        },
        _ => false,
    }
}

/// Instructions by their numbers, from 0 on. One that only tells two registers apart stands here once. Contracts see the list of all.
#[derive(Drop)]
pub(crate) struct Pool {
    instrs: Rows<Instr>,
    atoms: Guesses,
    membranes: Guesses,
}

impl Model for Pool {
    ghost use Rattle.std.specs.Prelude.{List};
    ghost use Rattle.lmn_instr_code.specs.declared.instr.Instr.{Instr};

    ghost Value = { List Instr };

    ghost view = { λ p. p.instrs };
}

impl Pool {
    /// No instruction.
    pub(crate) fn new(alloc: Global) -> Pool
        ensures { result ≡ [] }
    {
        Pool {
            instrs: Rows::new(alloc),
            atoms: Guesses::new(alloc),
            membranes: Guesses::new(alloc),
        }
    }

    /// All instructions, by their numbers.
    pub(crate) fn instrs(&self) -> &[Instr]
        ensures { result.now ≡ self.now }
    {
        self.instrs.as_slice()
    }

    /// The number, where it is that of such an instruction.
    fn confirmed(&self, guess: Option<u32>, instr: &Instr) -> Option<u32>
        ensures { IfSome result (λ n. slice_get self.now n ≡ Some instr.now) }
    {
        match guess {
            Some(number) => {
                if number as usize >= self.instrs.len() {
                    return None;
                }
                if are_alike(self.instrs.at(number as usize), instr) {
                    Some(number)
                } else {
                    None
                }
            }
            None => None,
        }
    }

    /// Puts an instruction behind all others.
    fn push(&mut self, instr: Instr) -> Result<u32, NoMemory>
        ensures ok { IfOk result (λ n. slice_get self.new n ≡ Some instr) }
        ensures keeps { Keeps self.old self.new }
    {
        let Ok(number) = u32::try_from(self.instrs.len()) else {
            return Err(NoMemory);
        };
        self.instrs.push(instr)?;
        Ok(number)
    }

    /// Puts an instruction that tells two atoms apart, where it isn't there.
    fn share_atoms(&mut self, pair: Pair, instr: Instr) -> Result<u32, NoMemory>
        ensures ok { IfOk result (λ n. slice_get self.new n ≡ Some instr) }
        ensures keeps { Keeps self.old self.new }
    {
        let guess = self.atoms.guess(pair);
        if let Some(number) = self.confirmed(guess, &instr) {
            return Ok(number);
        }
        let number = self.push(instr)?;
        self.atoms.note(pair, number)?;
        Ok(number)
    }

    /// Puts an instruction that tells two membranes apart, where it isn't there.
    fn share_membranes(&mut self, pair: Pair, instr: Instr) -> Result<u32, NoMemory>
        ensures ok { IfOk result (λ n. slice_get self.new n ≡ Some instr) }
        ensures keeps { Keeps self.old self.new }
    {
        let guess = self.membranes.guess(pair);
        if let Some(number) = self.confirmed(guess, &instr) {
            return Ok(number);
        }
        let number = self.push(instr)?;
        self.membranes.note(pair, number)?;
        Ok(number)
    }

    /// Puts an instruction, and answers its number.
    fn put(&mut self, instr: Instr) -> Result<u32, NoMemory>
        ensures ok { IfOk result (λ n. slice_get self.new n ≡ Some instr) }
        ensures keeps { Keeps self.old self.new }
    {
        match told_apart(&instr) {
            Apart::Atoms(pair) => self.share_atoms(pair, instr),
            Apart::Membranes(pair) => self.share_membranes(pair, instr),
            Apart::Nothing => self.push(instr),
        }
    }

    /// Puts instructions, and answers their numbers.
    pub(crate) fn put_all(
        &mut self,
        alloc: Global,
        instrs: Rows<Instr>,
    ) -> Result<Rows<u32>, NoMemory>
        ensures ok { IfOk result (λ numbers. Selects self.new numbers instrs) }
        ensures keeps { Keeps self.old self.new }
    {
        let mut room = Vec::new(alloc);
        room.reserve_exact(instrs.len())?;
        let mut numbers = Rows::from_vec(room);
        for instr in instrs.into_vec() {
            let number = self.put(instr)?;
            numbers.push(number)?;
        }
        Ok(numbers)
    }
}

/// What an instruction only tells apart.
#[derive(Clone, Copy)]
enum Apart {
    Atoms(Pair),
    Membranes(Pair),
    Nothing,
}

/// What an instruction only tells apart.
fn told_apart(instr: &Instr) -> Apart {
    match instr {
        Instr::NeqAtom { atom, other } => match Pair::of(*atom, *other) {
            Some(pair) => Apart::Atoms(pair),
            None => Apart::Nothing,
        },
        Instr::NeqMem { membrane, other } => match Pair::of(*membrane, *other) {
            Some(pair) => Apart::Membranes(pair),
            None => Apart::Nothing,
        },
        _ => Apart::Nothing,
    }
}
