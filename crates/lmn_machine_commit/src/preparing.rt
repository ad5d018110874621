//! Makes all that the code of a body makes.
ghost use Rattle.std.specs.Prelude.{◌≡◌, ◌<◌, ◌≤◌, ◌+◌, ℕ, List, length, map, take, slice_get, Some, IfOk, OnOk, OnErr};
ghost use Rattle.lmn_store_heap.specs.Heap.{IsMem, reserved, rules_in, spare_of, Unmarked};
ghost use Rattle.lmn_store_heap.specs.Sound.{Valid};
ghost use Rattle.lmn_ground.specs.Listed.{IsListed};
ghost use Rattle.lmn_solid_bodies.specs.Running.{Registers};
ghost use Rattle.lmn_solid_bodies.specs.Stopping.{SameButSpares};
ghost use Rattle.lmn_machine_commit.specs.Registers.{AgreesWithCopies, AreHeld};
ghost use Rattle.lmn_machine_commit.specs.Preparing.{AddsSo, AllUse, AreAtHome, AtomIsMade, CanBeCopied, CanCopy, CanCopyRest, CanPrepare, CopyIsMade, HasClosedRest, RestIsMade, MembraneIsMade, OnlyMakes, IsCounted, IsMade, Prepared, UsesInOrder, Uses, atoms_made, needed, needed_by};
ghost use Rattle.lmn_machine_registers.specs.declared.stack.TheConstants.{ROOM};
ghost use Rattle.lmn_instr_code.specs.declared.instr.Instr.{Instr};

use crate::marking::mark_taken;
use lmn_base::{Functor, Label, NoMemory};
use lmn_ground::{Found, MATCHED, copy_cells, copy_counted};
use lmn_instr_code::Instr;
use lmn_instr_pool::Body;
use lmn_machine_registers::{PartCopy, SetRegisters};
use lmn_store_trait::LinkStore;
use std::alloc::Global;

/// Makes an atom, which goes into the next register.
#[inline(always)]
fn make_atom<S: LinkStore>(
    alloc: Global,
    store: &mut S,
    functor: Functor,
    set: &mut SetRegisters<S::Atom, S::Mem>,
) -> Result<(), NoMemory>
    requires room { length set.old.atoms < ROOM }
    ensures ok { OnOk result (AtomIsMade S.atom_id (S.heap store.old) (S.heap store.new) set.old set.new functor) }
    ensures makes { OnlyMakes (S.heap store.old) (S.heap store.new) }
{
    let atom = store.make_atom(alloc, functor)?;
    set.atoms.push(atom);
    Ok(())
}

/// Makes a membrane, which goes into the next register.
fn make_membrane<S: LinkStore>(
    alloc: Global,
    store: &mut S,
    set: &mut SetRegisters<S::Atom, S::Mem>,
) -> Result<(), NoMemory>
    requires room { length set.old.membranes < ROOM }
    ensures ok { OnOk result (MembraneIsMade S.mem_id (S.heap store.old) (S.heap store.new) set.old set.new) }
    ensures makes { OnlyMakes (S.heap store.old) (S.heap store.new) }
{
    let membrane = store.make_mem(alloc)?;
    set.membranes.push(membrane);
    Ok(())
}

/// Copies a part; the root of the copy and the number of its atoms go into the next register. The part is listed then.
fn make_copy<S: LinkStore>(
    alloc: Global,
    store: &mut S,
    part: (S::Atom, u8),
    set: &mut SetRegisters<S::Atom, S::Mem>,
) -> Result<(), NoMemory>
    requires room { length set.old.copies < ROOM }
    requires unmarked { Unmarked (S.heap store.old) }
    requires part { CanBeCopied (S.heap store.old) (S.atom_id part.0, part.1) }
    requires listed { IsListed S.atom_id (S.heap store.old) set.old.listed }
    ensures ok { OnOk result (CopyIsMade S.atom_id (S.heap store.old) (S.heap store.new) set.old set.new (S.atom_id part.0, part.1)) }
    ensures listed { OnOk result (IsListed S.atom_id (S.heap store.new) set.new.listed) }
    ensures makes { OnlyMakes (S.heap store.old) (S.heap store.new) }
{
    let _root = store.root();
    let copied = copy_counted(alloc, store, part, &mut set.listed)?;
    set.copies.push(PartCopy {
        root: copied.root,
        atoms: copied.atoms,
    });
    Ok(())
}

/// How many rules an instruction adds to a membrane.
fn rules_added<S: LinkStore>(
    store: &S,
    instr: &Instr,
    set: &SetRegisters<S::Atom, S::Mem>,
    membrane: S::Mem,
) -> u64
    requires held { AreHeld S.atom_id S.mem_id (S.heap store.now) set.now }
    requires uses { Uses (length set.now.atoms) (length set.now.membranes) (length set.now.parts) (length set.now.copies) instr.now }
    requires membrane { IsMem (S.heap store.now) (S.mem_id membrane) }
    ensures { (r : Registers) → AgreesWithCopies S.atom_id S.mem_id set.now r → result ≡ needed_by r (rules_in (S.heap store.now)) instr.now (S.mem_id membrane) }
{
    match instr {
        Instr::LoadRule { membrane: to, .. } => {
            if store.same_mem(set.membranes.at(*to as usize), membrane) {
                1
            } else {
                0
            }
        }
        Instr::CopyRules { from, to } => {
            if store.same_mem(set.membranes.at(*to as usize), membrane) {
                store.rules(set.membranes.at(*from as usize))
            } else {
                0
            }
        }
        _ => 0,
    }
}

/// The instruction at a place of code.
#[inline(always)]
fn instr_at(code: &[Instr], i: usize) -> &Instr
    requires { i < length code.now }
    ensures { slice_get code.now i ≡ Some result.now }
{
    &code[i]
}

/// How many rules the first instructions of code add to a membrane; none where that is too many for any store.
/// No table is wanted: they are counted anew only where an instruction adds rules to another membrane than the one before.
fn rules_needed<S: LinkStore>(
    store: &S,
    code: &[Instr],
    upto: usize,
    set: &SetRegisters<S::Atom, S::Mem>,
    membrane: S::Mem,
) -> Option<u64>
    requires held { AreHeld S.atom_id S.mem_id (S.heap store.now) set.now }
    requires upto { upto ≤ length code.now }
    requires uses { AllUse (length set.now.atoms) (length set.now.membranes) (length set.now.parts) (length set.now.copies) (take upto code.now) }
    requires membrane { IsMem (S.heap store.now) (S.mem_id membrane) }
    ensures { (r : Registers) (n : ℕ) → AgreesWithCopies S.atom_id S.mem_id set.now r → result ≡ Some n → n ≡ needed r (rules_in (S.heap store.now)) (take upto code.now) (S.mem_id membrane) }
{
    let mut count: u64 = 0;
    for i in 0..upto {
        count = count.checked_add(rules_added(store, instr_at(code, i), set, membrane))?;
    }
    Some(count)
}

/// How many rules code adds to the membrane in a register, as far as it was read.
#[derive(Clone, Copy)]
struct Counted {
    register: usize,
    count: u64,
}

/// How many rules the code before a place adds to a membrane. What was counted for its register isn't counted again.
fn count_before<S: LinkStore>(
    store: &S,
    code: &[Instr],
    at: usize,
    set: &SetRegisters<S::Atom, S::Mem>,
    to: usize,
    membrane: S::Mem,
    counted: Counted,
) -> Result<u64, NoMemory>
    requires held { AreHeld S.atom_id S.mem_id (S.heap store.now) set.now }
    requires at { at ≤ length code.now }
    requires uses { AllUse (length set.now.atoms) (length set.now.membranes) (length set.now.parts) (length set.now.copies) (take at code.now) }
    requires membrane { slice_get set.now.membranes to ≡ Some membrane }
    requires counted { IsCounted S.atom_id S.mem_id (S.heap store.now) set.now (take at code.now) counted.register counted.count }
    ensures { IfOk result (λ n. (r : Registers) → AgreesWithCopies S.atom_id S.mem_id set.now r → n ≡ needed r (rules_in (S.heap store.now)) (take at code.now) (S.mem_id membrane)) }
{
    if counted.register == to {
        return Ok(counted.count);
    }
    match rules_needed(store, code, at, set, membrane) {
        Some(count) => Ok(count),
        None => Err(NoMemory),
    }
}

/// Makes room in a membrane for so many rules.
fn reserve<S: LinkStore>(
    alloc: Global,
    store: &mut S,
    membrane: S::Mem,
    count: u64,
) -> Result<(), NoMemory>
    requires { IsMem (S.heap store.old) (S.mem_id membrane) }
    ensures least { OnOk result (count ≤ spare_of (S.heap store.new) (S.mem_id membrane)) }
    ensures ok { OnOk result (S.heap store.new ≡ reserved (S.heap store.old) (S.mem_id membrane) (spare_of (S.heap store.new) (S.mem_id membrane))) }
    ensures makes { OnlyMakes (S.heap store.old) (S.heap store.new) }
{
    store.reserve_rules(alloc, membrane, count)
}

/// Copies what a membrane holds besides the registers; no link leaves it. While it is copied, what is in registers or in
/// parts in registers and stands in the membrane has the own mark 1.
fn copy_rest<S: LinkStore>(
    alloc: Global,
    store: &mut S,
    set: &SetRegisters<S::Atom, S::Mem>,
    m: S::Mem,
    trail: &mut Found<S::Atom>,
) -> Result<(), NoMemory>
    requires unmarked { Unmarked (S.heap store.old) }
    requires held { AreHeld S.atom_id S.mem_id (S.heap store.old) set.now }
    requires parts { CanCopy S.atom_id (S.heap store.old) set.now }
    requires homes { AreAtHome S.atom_id (S.heap store.old) set.now.parts }
    requires membrane { IsMem (S.heap store.old) (S.mem_id m) }
    requires closed { HasClosedRest S.atom_id S.mem_id (S.heap store.old) set.now (S.mem_id m) }
    ensures ok { OnOk result (RestIsMade S.atom_id S.mem_id (S.heap store.old) (S.heap store.new) set.now (S.mem_id m)) }
    ensures makes { OnlyMakes (S.heap store.old) (S.heap store.new) }
{
    let _root = store.root();
    mark_taken(store, set, m, MATCHED, trail);
    let copied = copy_cells(alloc, store, m, set.membranes.as_slice());
    mark_taken(store, set, m, 0, trail);
    copied
}

/// Makes room for the rules that the instruction at a place of the code and those before it add to the membrane in a register, and answers
/// how many these are. Rules of one membrane mostly stand together in code, so that most of it is read once.
#[inline(always)]
fn make_room<S: LinkStore>(
    alloc: Global,
    store: &mut S,
    code: &[Instr],
    at: usize,
    instr: &Instr,
    to: usize,
    counted: Counted,
    set: &SetRegisters<S::Atom, S::Mem>,
) -> Result<Counted, NoMemory>
    requires at { slice_get code.now at ≡ Some instr.now }
    requires to { AddsSo instr.now (Some to) }
    requires held { AreHeld S.atom_id S.mem_id (S.heap store.old) set.now }
    requires uses { AllUse (length set.now.atoms) (length set.now.membranes) (length set.now.parts) (length set.now.copies) (take at code.now) }
    requires reads { UsesInOrder (length set.now.atoms) (length set.now.membranes) (length set.now.parts) (length set.now.integers) (length set.now.copies) instr.now }
    requires counted { IsCounted S.atom_id S.mem_id (S.heap store.old) set.now (take at code.now) counted.register counted.count }
    ensures ok { OnOk result (IsMade S.atom_id S.mem_id (S.heap store.old) (S.heap store.new) set.now set.now (take at code.now) instr.now) }
    ensures counted { IfOk result (λ next. IsCounted S.atom_id S.mem_id (S.heap store.new) set.now (take (at + 1) code.now) next.register next.count) }
    ensures makes { OnlyMakes (S.heap store.old) (S.heap store.new) }
{
    let membrane = set.membranes.at(to);
    let before = count_before(store, code, at, set, to, membrane, counted)?;
    let added = rules_added(store, instr, set, membrane);
    match before.checked_add(added) {
        Some(count) => {
            reserve(alloc, store, membrane, count)?;
            Ok(Counted {
                register: to,
                count,
            })
        }
        None => Err(NoMemory),
    }
}

/// Makes what the instruction at a place of the code makes, if it makes no atom by itself, and tells what is counted then. A membrane that is
/// made has no rules yet. It is a call of its own, and takes the code as a slice: so where atoms alone are made nothing is handed over.
#[inline(never)]
fn make_other<S: LinkStore>(
    alloc: Global,
    store: &mut S,
    code: &[Instr],
    at: usize,
    instr: &Instr,
    counted: &mut Counted,
    set: &mut SetRegisters<S::Atom, S::Mem>,
    trail: &mut Found<S::Atom>,
) -> Result<(), NoMemory>
    requires other { atoms_made instr.now ≡ 0 }
    requires at { slice_get code.now at ≡ Some instr.now }
    requires held { AreHeld S.atom_id S.mem_id (S.heap store.old) set.old }
    requires uses { AllUse (length set.old.atoms) (length set.old.membranes) (length set.old.parts) (length set.old.copies) (take at code.now) }
    requires reads { UsesInOrder (length set.old.atoms) (length set.old.membranes) (length set.old.parts) (length set.old.integers) (length set.old.copies) instr.now }
    requires unmarked { Unmarked (S.heap store.old) }
    requires parts { CanCopy S.atom_id (S.heap store.old) set.old }
    requires homes { AreAtHome S.atom_id (S.heap store.old) set.old.parts }
    requires rest { CanCopyRest S.atom_id S.mem_id (S.heap store.old) set.old instr.now }
    requires counted { IsCounted S.atom_id S.mem_id (S.heap store.old) set.old (take at code.now) counted.old.register counted.old.count }
    ensures ok { OnOk result (IsMade S.atom_id S.mem_id (S.heap store.old) (S.heap store.new) set.old set.new (take at code.now) instr.now) }
    ensures counted { OnOk result (IsCounted S.atom_id S.mem_id (S.heap store.new) set.new (take (at + 1) code.now) counted.new.register counted.new.count) }
    ensures makes { OnlyMakes (S.heap store.old) (S.heap store.new) }
{
    match instr {
        Instr::LoadRule { membrane, .. } => {
            *counted = make_room(
                alloc,
                store,
                code,
                at,
                instr,
                *membrane as usize,
                *counted,
                set,
            )?;
            Ok(())
        }
        Instr::CopyRules { to, .. } => {
            *counted = make_room(alloc, store, code, at, instr, *to as usize, *counted, set)?;
            Ok(())
        }
        Instr::NewMem { membrane, .. } => {
            make_membrane(alloc, store, set)?;
            *counted = Counted {
                register: *membrane as usize,
                count: 0,
            };
            Ok(())
        }
        Instr::CopyGround { part, .. } => {
            let root = set.parts.at(*part as usize);
            make_copy(alloc, store, root, set)?;
            Ok(())
        }
        Instr::CopyCells { from, .. } => {
            let from = set.membranes.at(*from as usize);
            copy_rest(alloc, store, set, from, trail)?;
            Ok(())
        }
        _ => Ok(()),
    }
}

/// Makes what the instruction at a place of the code makes, and tells what is counted then. Most make an atom, and these are asked for first:
/// what is counted stays then.
#[inline(always)]
fn make_next<S: LinkStore>(
    alloc: Global,
    store: &mut S,
    code: &Body<'_>,
    at: usize,
    instr: &Instr,
    counted: &mut Counted,
    set: &mut SetRegisters<S::Atom, S::Mem>,
    trail: &mut Found<S::Atom>,
) -> Result<(), NoMemory>
    requires at { slice_get code.now at ≡ Some instr.now }
    requires held { AreHeld S.atom_id S.mem_id (S.heap store.old) set.old }
    requires uses { AllUse (length set.old.atoms) (length set.old.membranes) (length set.old.parts) (length set.old.copies) (take at code.now) }
    requires reads { UsesInOrder (length set.old.atoms) (length set.old.membranes) (length set.old.parts) (length set.old.integers) (length set.old.copies) instr.now }
    requires unmarked { Unmarked (S.heap store.old) }
    requires parts { CanCopy S.atom_id (S.heap store.old) set.old }
    requires homes { AreAtHome S.atom_id (S.heap store.old) set.old.parts }
    requires rest { CanCopyRest S.atom_id S.mem_id (S.heap store.old) set.old instr.now }
    requires counted { IsCounted S.atom_id S.mem_id (S.heap store.old) set.old (take at code.now) counted.old.register counted.old.count }
    ensures ok { OnOk result (IsMade S.atom_id S.mem_id (S.heap store.old) (S.heap store.new) set.old set.new (take at code.now) instr.now) }
    ensures counted { OnOk result (IsCounted S.atom_id S.mem_id (S.heap store.new) set.new (take (at + 1) code.now) counted.new.register counted.new.count) }
    ensures makes { OnlyMakes (S.heap store.old) (S.heap store.new) }
{
    if let Instr::NewAtom { functor, .. } = instr {
        return make_atom(alloc, store, *functor, set);
    }
    if let Instr::NewInt { integer, .. } = instr {
        let functor = Functor {
            label: Label::Int(set.integers.at(*integer as usize)),
            arity: 1,
        };
        return make_atom(alloc, store, functor, set);
    }
    make_other(
        alloc,
        store,
        code.as_slice(),
        at,
        instr,
        counted,
        set,
        trail,
    )
}

/// Makes what code makes, one instruction after the other.
fn make_all<S: LinkStore>(
    alloc: Global,
    store: &mut S,
    code: &Body<'_>,
    set: &mut SetRegisters<S::Atom, S::Mem>,
    trail: &mut Found<S::Atom>,
) -> Result<(), NoMemory>
    requires valid { Valid (S.heap store.old) }
    requires unmarked { Unmarked (S.heap store.old) }
    requires can { CanPrepare S.atom_id S.mem_id (S.heap store.old) set.old code.now }
    ensures ok { OnOk result (Prepared S.atom_id S.mem_id (S.heap store.old) (S.heap store.new) set.old set.new code.now) }
    ensures makes { OnlyMakes (S.heap store.old) (S.heap store.new) }
{
    let first = code.first_made();
    let last = code.last_made();
    let mut counted = Counted {
        register: 0,
        count: 0,
    };
    for i in first..last {
        let instr = code.at(i);
        make_next(alloc, store, code, i, instr, &mut counted, set, trail)?;
    }
    Ok(())
}

/// Makes all that the code of a body makes, detached, and room for the rules that it adds. The registers of the head
/// are set before, those of what is made afterwards. No link leaves what it copies. Want of memory leaves the store as it was, but for room for
/// rules. Walks use the room of `trail`, whatever it holds.
pub fn prepare<S: LinkStore>(
    alloc: Global,
    store: &mut S,
    code: &Body<'_>,
    set: &mut SetRegisters<S::Atom, S::Mem>,
    trail: &mut Found<S::Atom>,
) -> Result<(), NoMemory>
    requires valid { Valid (S.heap store.old) }
    requires unmarked { Unmarked (S.heap store.old) }
    requires can { CanPrepare S.atom_id S.mem_id (S.heap store.old) set.old code.now }
    ensures ok { OnOk result (Prepared S.atom_id S.mem_id (S.heap store.old) (S.heap store.new) set.old set.new code.now) }
    ensures err { OnErr result (SameButSpares (S.heap store.old) (S.heap store.new)) }
    ensures valid { OnErr result (Valid (S.heap store.new)) }
    ensures unmarked { Unmarked (S.heap store.new) }
{
    match make_all(alloc, store, code, set, trail) {
        Ok(()) => Ok(()),
        Err(error) => {
            store.discard();
            let _root = store.root();
            Err(error)
        }
    }
}
