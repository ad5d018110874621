//! Does what the code of a body does, when all that it makes is made.
ghost use Rattle.std.specs.Prelude.{◌≡◌, ◌<◌, ◌++◌, ℕ, List, Some, IsTrue, false, length, map, slice_get};
ghost use Rattle.lmn_ground.specs.Listed.{IsListed};
ghost use Rattle.lmn_solid_bodies.specs.Running.{Registers, DoesAll, Does, all_placed, old_port, new_port};
ghost use Rattle.lmn_store_heap.specs.Heap.{IsMemInPlace, port_id, Unmarked};
ghost use Rattle.lmn_solid_bodies.specs.Conditions.{Can};
ghost use Rattle.lmn_machine_commit.specs.Registers.{AgreesWithCopies, HasCopies, HasRests};
ghost use Rattle.lmn_machine_commit.specs.Preparing.{AllUse, Uses, UsesPort};
ghost use Rattle.lmn_machine_commit.specs.Committing.{IsDoneSoFar, IsRare, Runs, Stands};
ghost use Rattle.lmn_machine_commit.specs.Matched.{IsPrepared};
ghost use Rattle.lmn_store_heap.specs.Sound.{Valid};
ghost use Rattle.lmn_machine_commit.specs.Waking.{Commits};

use crate::splicing::{relink, unify};
use crate::waking::wake;
use lmn_ground::{Found, drop_cells, place_cells, take_listed, take_part};
use lmn_instr_code::{AtomPort, Instr, NewPort};
use lmn_instr_pool::Body;
use lmn_machine_registers::SetRegisters;
use lmn_store_trait::LinkStore;

/// A port of the atom in a register.
fn port_of<A: Copy, M: Copy>(set: &SetRegisters<A, M>, port: AtomPort) -> (A, u8)
    requires { port.atom < length set.now.atoms }
    ensures { (id : A → ℕ) (membrane : M → ℕ) (r : Registers) → AgreesWithCopies id membrane set.now r → old_port r port ≡ port_id id result }
{
    (set.atoms.at(port.atom as usize), port.port)
}

/// A port of a made atom.
fn made_port<A: Copy, M: Copy>(set: &SetRegisters<A, M>, port: NewPort) -> (A, u8)
    requires { UsesPort (length set.now.atoms) (length set.now.copies) port }
    ensures { (id : A → ℕ) (membrane : M → ℕ) (r : Registers) → AgreesWithCopies id membrane set.now r → new_port r port ≡ port_id id result }
{
    match port {
        NewPort::Atom(p) => port_of(set, p),
        NewPort::Copy(copy) => set.copies.at(copy as usize).root,
    }
}

/// The first atoms that wait go to a membrane, so many of them.
fn place_atoms<S: LinkStore>(store: &mut S, count: u64, m: S::Mem)
    requires membrane { IsMemInPlace (S.heap store.old) (S.mem_id m) }
    requires waiting { (atoms rest : List ℕ) × (length atoms ≡ count) × ((S.heap store.old).new_atoms ≡ atoms ++ rest) }
    ensures { (atoms rest : List ℕ) → length atoms ≡ count → (S.heap store.old).new_atoms ≡ atoms ++ rest →
        S.heap store.new ≡ all_placed (S.heap store.old) (map (λ a. (S.mem_id m, a)) atoms) }
{
    for i in 0..count {
        let _atom = store.place_atom(m);
    }
}

/// Does what a rarer instruction does. It is no part of its caller, which keeps what it needs in few places so.
#[inline(never)]
fn run_rare<S: LinkStore>(
    store: &mut S,
    instr: &Instr,
    set: &SetRegisters<S::Atom, S::Mem>,
    trail: &mut Found<S::Atom>,
)
    requires rare { IsRare instr.now }
    requires unmarked { Unmarked (S.heap store.old) }
    requires uses { Uses (length set.now.atoms) (length set.now.membranes) (length set.now.parts) (length set.now.copies) instr.now }
    requires can { (r : Registers) × AgreesWithCopies S.atom_id S.mem_id set.now r × Can r instr.now (S.heap store.old) × Stands r instr.now (S.heap store.old) }
    ensures { (r : Registers) → AgreesWithCopies S.atom_id S.mem_id set.now r → Can r instr.now (S.heap store.old) → Does r instr.now (S.heap store.old) (S.heap store.new) }
{
    let _root = store.root();
    match instr {
        Instr::RemoveAtom { atom } => store.take_atom(set.atoms.at(*atom as usize)),
        Instr::RemovePart { part } => take_part(store, set.parts.at(*part as usize), trail),
        Instr::RemoveMem { membrane } => store.take_mem(set.membranes.at(*membrane as usize)),
        Instr::NewMem { inside, .. } => {
            let _membrane = store.place_mem(set.membranes.at(*inside as usize));
        }
        Instr::CopyGround { copy, membrane, .. } => {
            let atoms = set.copies.at(*copy as usize).atoms;
            place_atoms(store, atoms, set.membranes.at(*membrane as usize));
        }
        Instr::MoveCells { from, to } => {
            store.move_all(
                set.membranes.at(*from as usize),
                set.membranes.at(*to as usize),
            );
        }
        Instr::CopyCells { from, to } => {
            place_cells(
                store,
                set.membranes.at(*from as usize),
                set.membranes.at(*to as usize),
            );
        }
        Instr::DropCells { membrane } => drop_cells(store, set.membranes.at(*membrane as usize)),
        Instr::LoadRule { membrane, rule } => {
            store.add_rule(set.membranes.at(*membrane as usize), *rule);
        }
        Instr::CopyRules { from, to } => {
            store.copy_rules(
                set.membranes.at(*from as usize),
                set.membranes.at(*to as usize),
            );
        }
        _ => unreachable!(),
    }
}

/// Does what an instruction does.
#[inline(always)]
fn run<S: LinkStore>(
    store: &mut S,
    instr: &Instr,
    set: &SetRegisters<S::Atom, S::Mem>,
    trail: &mut Found<S::Atom>,
)
    requires unmarked { Unmarked (S.heap store.old) }
    requires uses { Uses (length set.now.atoms) (length set.now.membranes) (length set.now.parts) (length set.now.copies) instr.now }
    requires can { (r : Registers) × AgreesWithCopies S.atom_id S.mem_id set.now r × Can r instr.now (S.heap store.old) × Stands r instr.now (S.heap store.old) }
    ensures { (r : Registers) → AgreesWithCopies S.atom_id S.mem_id set.now r → Can r instr.now (S.heap store.old) → Does r instr.now (S.heap store.old) (S.heap store.new) }
{
    let _root = store.root();
    match instr {
        Instr::NewAtom { membrane, .. } => {
            let _atom = store.place_atom(set.membranes.at(*membrane as usize));
        }
        Instr::NewInt { membrane, .. } => {
            let _atom = store.place_atom(set.membranes.at(*membrane as usize));
        }
        Instr::NewLink { port, other } => {
            let p = made_port(set, *port);
            let q = made_port(set, *other);
            store.join(p.0, p.1, q.0, q.1);
        }
        Instr::Relink { port, to } => {
            let p = made_port(set, *port);
            let q = port_of(set, *to);
            relink(store, p, q);
        }
        Instr::Unify { port, other } => {
            let p = port_of(set, *port);
            let q = port_of(set, *other);
            unify(store, p, q);
        }
        Instr::Proceed => store.finish(),
        _ => run_rare(store, instr, set, trail),
    }
}

/// Does what an instruction does, if it takes an atom or a part. Answers whether it is one that does.
#[inline(always)]
fn take_next<S: LinkStore>(
    store: &mut S,
    instr: &Instr,
    set: &SetRegisters<S::Atom, S::Mem>,
    trail: &mut Found<S::Atom>,
) -> bool
    requires unmarked { Unmarked (S.heap store.old) }
    requires uses { Uses (length set.now.atoms) (length set.now.membranes) (length set.now.parts) (length set.now.copies) instr.now }
    requires can { (r : Registers) × AgreesWithCopies S.atom_id S.mem_id set.now r × Can r instr.now (S.heap store.old) × Stands r instr.now (S.heap store.old) }
    requires listed { IsListed S.atom_id (S.heap store.old) set.now.listed }
    ensures does { IsTrue result → (r : Registers) → AgreesWithCopies S.atom_id S.mem_id set.now r → Can r instr.now (S.heap store.old) → Does r instr.now (S.heap store.old) (S.heap store.new) }
    ensures other { result ≡ false → S.heap store.new ≡ S.heap store.old }
    ensures listed { IsListed S.atom_id (S.heap store.new) set.now.listed }
{
    let _root = store.root();
    if let Instr::RemoveAtom { atom } = instr {
        store.take_atom(set.atoms.at(*atom as usize));
        return true;
    }
    if let Instr::RemovePart { part } = instr {
        let root = set.parts.at(*part as usize);
        take_listed(store, root, &set.listed, trail);
        return true;
    }
    false
}

/// Does what the instructions do with which code begins, as long as they take atoms and parts. Answers the code behind them.
#[inline(always)]
fn take_first<'c, S: LinkStore>(
    store: &mut S,
    code: &'c [Instr],
    set: &SetRegisters<S::Atom, S::Mem>,
    trail: &mut Found<S::Atom>,
) -> &'c [Instr]
    requires unmarked { Unmarked (S.heap store.old) }
    requires uses { AllUse (length set.now.atoms) (length set.now.membranes) (length set.now.parts) (length set.now.copies) code.now }
    requires runs { (r : Registers) × AgreesWithCopies S.atom_id S.mem_id set.now r × Runs r code.now (S.heap store.old) }
    requires listed { IsListed S.atom_id (S.heap store.old) set.now.listed }
    ensures done { IsDoneSoFar S.atom_id S.mem_id set.now code.now result.now (S.heap store.old) (S.heap store.new) }
    ensures uses { AllUse (length set.now.atoms) (length set.now.membranes) (length set.now.parts) (length set.now.copies) result.now }
    ensures unmarked { Unmarked (S.heap store.new) }
{
    let mut rest = code;
    while let Some((instr, behind)) = rest.split_first() {
        if !take_next(store, instr, set, trail) {
            return rest;
        }
        rest = behind;
    }
    rest
}

/// Does what code does, one instruction after the other.
#[inline(always)]
fn run_each<S: LinkStore>(
    store: &mut S,
    code: &[Instr],
    set: &SetRegisters<S::Atom, S::Mem>,
    trail: &mut Found<S::Atom>,
)
    requires unmarked { Unmarked (S.heap store.old) }
    requires uses { AllUse (length set.now.atoms) (length set.now.membranes) (length set.now.parts) (length set.now.copies) code.now }
    requires runs { (r : Registers) × AgreesWithCopies S.atom_id S.mem_id set.now r × Runs r code.now (S.heap store.old) }
    ensures commits { (r : Registers) → AgreesWithCopies S.atom_id S.mem_id set.now r → Runs r code.now (S.heap store.old) → DoesAll r code.now (S.heap store.old) (S.heap store.new) }
    ensures unmarked { Unmarked (S.heap store.new) }
{
    let mut rest = code;
    while let Some((instr, behind)) = rest.split_first() {
        run(store, instr, set, trail);
        rest = behind;
    }
}

/// Does what code does. What it takes first it takes along its list, if that is the part that is listed.
fn run_all<S: LinkStore>(
    store: &mut S,
    code: &Body<'_>,
    set: &SetRegisters<S::Atom, S::Mem>,
    trail: &mut Found<S::Atom>,
)
    requires unmarked { Unmarked (S.heap store.old) }
    requires uses { AllUse (length set.now.atoms) (length set.now.membranes) (length set.now.parts) (length set.now.copies) code.now }
    requires runs { (r : Registers) × AgreesWithCopies S.atom_id S.mem_id set.now r × Runs r code.now (S.heap store.old) }
    requires listed { IsListed S.atom_id (S.heap store.old) set.now.listed }
    ensures commits { (r : Registers) → AgreesWithCopies S.atom_id S.mem_id set.now r → Runs r code.now (S.heap store.old) → DoesAll r code.now (S.heap store.old) (S.heap store.new) }
    ensures unmarked { Unmarked (S.heap store.new) }
{
    let rest = take_first(store, code.as_slice(), set, trail);
    run_each(store, rest, set, trail);
}

/// Does what code does, after it was matched and prepared: a rule is fired. The code may be that of a rule or not; what is
/// asked of it is that its instructions can be run one after the other and leave a valid store. It takes no memory and can't
/// fail, and leaves a valid store in which every mark of an atom is 0. What the code rouses is awake then, with all that is round
/// it, and each other membrane keeps its mark. Walks use the room of `trail`, whatever it holds.
pub fn commit<S: LinkStore>(
    store: &mut S,
    code: &Body<'_>,
    set: &SetRegisters<S::Atom, S::Mem>,
    trail: &mut Found<S::Atom>,
)
    requires { IsPrepared S.atom_id S.mem_id (S.heap store.old) set.now code.now }
    ensures fires { (p : IsPrepared S.atom_id S.mem_id (S.heap store.old) set.now code.now) (r : Registers) → AgreesWithCopies S.atom_id S.mem_id set.now r → HasCopies r p.prepared.copied → HasRests S.atom_id S.mem_id p.before p.matched_by r →
        Commits p.before r code.now (S.heap store.new) }
    ensures valid { Valid (S.heap store.new) }
    ensures unmarked { Unmarked (S.heap store.new) }
{
    let _before = store.root();
    wake(store, code, set);
    run_all(store, code, set, trail);
    let _after = store.root();
}
