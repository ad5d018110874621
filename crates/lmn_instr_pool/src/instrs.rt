//! The instructions of a head, by their numbers in a pool.
ghost use Rattle.std.specs.Prelude.{◌≡◌, ◌<◌, ◌≤◌, ◌^◌, length, slice_get, Some};
ghost use Rattle.lmn_instr_pool.specs.Extents.{Acts, EndsAt, NoneFrom};
ghost use Rattle.lmn_instr_pool.specs.Pools.{AreThere, picked};

use lmn_instr_code::Instr;
use std::marker::Model;

/// The instructions of a head, one behind the other. Contracts see their list.
#[derive(Drop)]
pub struct Instrs<'c> {
    pool: &'c [Instr],
    numbers: &'c [u32],
    acts: usize,
}

impl<'c> Model for Instrs<'c> {
    ghost use Rattle.std.specs.Prelude.{List};
    ghost use Rattle.lmn_instr_code.specs.declared.instr.Instr.{Instr};
    ghost use Rattle.lmn_instr_pool.specs.Extents.{EndsAt};
    ghost use Rattle.lmn_instr_pool.specs.Pools.{AreThere, picked};

    ghost Value = { List Instr };

    ghost view = { λ i. picked i.pool.now i.numbers.now };

    ghost invariant = { λ i. AreThere i.pool.now i.numbers.now × EndsAt i.acts (picked i.pool.now i.numbers.now) };
}

impl<'c> Instrs<'c> {
    /// The instructions of a pool with these numbers, which all are COMMIT from a place on.
    pub(crate) fn new(pool: &'c [Instr], numbers: &'c [u32], acts: usize) -> Instrs<'c>
        requires there { AreThere pool.now numbers.now }
        requires end { EndsAt acts (picked pool.now numbers.now) }
        ensures { result ≡ picked pool.now numbers.now }
    {
        Instrs {
            pool,
            numbers,
            acts,
        }
    }

    /// The number of instructions, which is below 2^63.
    #[inline(always)]
    pub fn len(&self) -> usize
        ensures len { result ≡ length self.now }
        ensures few { result < 2 ^ 63 }
    {
        self.numbers.len()
    }

    /// A place at which and behind which none asks or does anything: all are COMMIT.
    #[inline(always)]
    pub fn acts(&self) -> usize
        ensures within { result ≤ length self.now }
        ensures none { NoneFrom Acts result self.now }
    {
        self.acts
    }

    /// The instruction at a place below `len`, counted from 0.
    #[inline(always)]
    pub fn at(&self, i: usize) -> &Instr
        requires { i < length self.now }
        ensures { slice_get self.now i ≡ Some result.now }
    {
        instr_at(self.pool, number_at(self.numbers, i))
    }
}

/// The number at a place.
#[inline(always)]
fn number_at(numbers: &[u32], i: usize) -> u32
    requires { i < length numbers.now }
    ensures { slice_get numbers.now i ≡ Some result }
{
    numbers[i]
}

/// The instruction of a pool with a number.
#[inline(always)]
fn instr_at(pool: &[Instr], number: u32) -> &Instr
    requires { number < length pool.now }
    ensures { slice_get pool.now number ≡ Some result.now }
{
    &pool[number as usize]
}
