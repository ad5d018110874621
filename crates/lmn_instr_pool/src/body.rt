//! The instructions of a body, and where those of some kinds stand.
ghost use Rattle.std.specs.Prelude.{◌≡◌, ◌<◌, ◌≤◌, ◌^◌, length, slice_get, Some};
ghost use Rattle.lmn_instr_pool.specs.Extents.{HasExtent, Makes, NoneBefore, NoneFrom, Removes};

use crate::extent::Extent;
use lmn_instr_code::Instr;
use std::marker::Model;

/// The instructions of a body, one behind the other, in memory too. Contracts see their list.
#[derive(Drop)]
pub struct Body<'c> {
    instrs: &'c [Instr],
    extent: &'c Extent,
}

impl<'c> Model for Body<'c> {
    ghost use Rattle.std.specs.Prelude.{List};
    ghost use Rattle.lmn_instr_code.specs.declared.instr.Instr.{Instr};
    ghost use Rattle.lmn_instr_pool.specs.Extents.{HasExtent};

    ghost Value = { List Instr };

    ghost view = { λ b. b.instrs.now };

    ghost invariant = { λ b. HasExtent b.extent.now b.instrs.now };
}

impl<'c> Body<'c> {
    /// These instructions, of which this is told.
    pub(crate) fn new(instrs: &'c [Instr], extent: &'c Extent) -> Body<'c>
        requires { HasExtent extent.now instrs.now }
        ensures { result ≡ instrs.now }
    {
        Body { instrs, extent }
    }

    /// All of them.
    #[inline(always)]
    pub fn as_slice(&self) -> &[Instr]
        ensures { result.now ≡ self.now }
    {
        self.instrs
    }

    /// The number of instructions, which is below 2^63.
    #[inline(always)]
    pub fn len(&self) -> usize
        ensures len { result ≡ length self.now }
        ensures few { result < 2 ^ 63 }
    {
        self.instrs.len()
    }

    /// A place at which and behind which none takes an atom or a membrane away by itself: all that do stand before it.
    #[inline(always)]
    pub fn removals(&self) -> usize
        ensures within { result ≤ length self.now }
        ensures none { NoneFrom Removes result self.now }
    {
        self.extent.removals
    }

    /// A place before which there is none for which something is made before the code is run.
    #[inline(always)]
    pub fn first_made(&self) -> usize
        ensures within { result ≤ length self.now }
        ensures none { NoneBefore Makes result self.now }
    {
        self.extent.first
    }

    /// A place at which and behind which there is none such.
    #[inline(always)]
    pub fn last_made(&self) -> usize
        ensures within { result ≤ length self.now }
        ensures none { NoneFrom Makes result self.now }
    {
        self.extent.last
    }

    /// The instruction at a place below `len`, counted from 0.
    #[inline(always)]
    pub fn at(&self, i: usize) -> &Instr
        requires { i < length self.now }
        ensures { slice_get self.now i ≡ Some result.now }
    {
        at_place(self.instrs, i)
    }
}

/// The instruction at a place.
#[inline(always)]
fn at_place(instrs: &[Instr], i: usize) -> &Instr
    requires { i < length instrs.now }
    ensures { slice_get instrs.now i ≡ Some result.now }
{
    &instrs[i]
}
