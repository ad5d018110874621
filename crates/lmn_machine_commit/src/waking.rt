//! Wakes the membranes that a commit touches, and those round them.
ghost use Rattle.std.specs.Prelude.{◌<◌, ◌≡◌, ◌⊎◌, ℕ, [], IsTrue, length};
ghost use Rattle.lmn_solid_bodies.specs.Running.{Registers};
ghost use Rattle.lmn_store_heap.specs.Conditions.{Above};
ghost use Rattle.lmn_store_heap.specs.Heap.{IsAtom, IsMem, arity_of, mem_mark_of, mems_in};
ghost use Rattle.lmn_machine_commit.specs.Registers.{AgreesWithCopies, AreHeld};
ghost use Rattle.lmn_machine_commit.specs.Preparing.{AllUse, Uses};
ghost use Rattle.lmn_machine_commit.specs.Waking.{AllDeep, Is, IsAwakeRound, IsHome, IsHomeBeside, IsPartnerHome, IsRoused, Rouses, WakesAbove};

use lmn_instr_code::Instr;
use lmn_instr_pool::Body;
use lmn_machine_registers::SetRegisters;
use lmn_store_trait::{AWAKE, LinkStore};

/// A membrane wakes, and each one round it.
fn wake_round<S: LinkStore>(store: &mut S, membrane: S::Mem)
    requires deep { AllDeep (S.heap store.old) }
    requires membrane { IsMem (S.heap store.old) (S.mem_id membrane) }
    ensures { WakesAbove (Is (S.mem_id membrane)) (S.heap store.old) (S.heap store.new) }
{
    let _root = store.root();
    let mut at = membrane;
    for step in 0..u64::MAX {
        store.set_mem_mark(at, AWAKE);
        match store.parent(at) {
            Some(parent) => at = parent,
            None => return,
        }
    }
}

/// A membrane wakes, and each one round it below `top`. That one is awake, and so is each one round it.
fn wake_up_to<S: LinkStore>(store: &mut S, membrane: S::Mem, top: S::Mem)
    requires deep { AllDeep (S.heap store.old) }
    requires membrane { IsMem (S.heap store.old) (S.mem_id membrane) }
    requires top { IsMem (S.heap store.old) (S.mem_id top) }
    requires awake { IsAwakeRound (S.heap store.old) (S.mem_id top) }
    ensures { WakesAbove (Is (S.mem_id membrane)) (S.heap store.old) (S.heap store.new) }
{
    let _root = store.root();
    let mut at = membrane;
    for step in 0..u64::MAX {
        if store.same_mem(at, top) {
            return;
        }
        store.set_mem_mark(at, AWAKE);
        match store.parent(at) {
            Some(parent) => at = parent,
            None => return,
        }
    }
}

/// A membrane wakes, and each one round it. `top` is awake, and so is each one round it. Mostly the membrane is this one.
#[inline(always)]
fn wake_below<S: LinkStore>(store: &mut S, membrane: S::Mem, top: S::Mem)
    requires deep { AllDeep (S.heap store.old) }
    requires membrane { IsMem (S.heap store.old) (S.mem_id membrane) }
    requires top { IsMem (S.heap store.old) (S.mem_id top) }
    requires awake { IsAwakeRound (S.heap store.old) (S.mem_id top) }
    ensures { WakesAbove (Is (S.mem_id membrane)) (S.heap store.old) (S.heap store.new) }
{
    if store.same_mem(membrane, top) {
        return;
    }
    wake_up_to(store, membrane, top);
}

/// The home of an atom wakes, if it has one, and is answered; else `near` is. `top` and `near` are awake, and so is each one round them.
/// Where the home is `near`, nothing is left to be done.
fn wake_home<S: LinkStore>(store: &mut S, atom: S::Atom, top: S::Mem, near: S::Mem) -> S::Mem
    requires deep { AllDeep (S.heap store.old) }
    requires atom { IsAtom (S.heap store.old) (S.atom_id atom) }
    requires top { IsMem (S.heap store.old) (S.mem_id top) }
    requires awake { IsAwakeRound (S.heap store.old) (S.mem_id top) }
    requires near { IsMem (S.heap store.old) (S.mem_id near) }
    requires near_awake { IsAwakeRound (S.heap store.old) (S.mem_id near) }
    ensures wakes { WakesAbove (IsHome (S.heap store.old) (S.atom_id atom)) (S.heap store.old) (S.heap store.new) }
    ensures there { IsMem (S.heap store.new) (S.mem_id result) }
    ensures awake { IsAwakeRound (S.heap store.new) (S.mem_id result) }
{
    let _root = store.root();
    match store.home(atom) {
        Some(home) => {
            if store.same_mem(home, near) {
                return near;
            }
            wake_below(store, home, top);
            home
        }
        None => near,
    }
}

/// The home of the atom wakes that is joined to a port, and is answered; where there is none, `near` is.
fn wake_partner<S: LinkStore>(
    store: &mut S,
    atom: S::Atom,
    port: u8,
    top: S::Mem,
    near: S::Mem,
) -> S::Mem
    requires deep { AllDeep (S.heap store.old) }
    requires atom { IsAtom (S.heap store.old) (S.atom_id atom) }
    requires port { port < arity_of (S.heap store.old) (S.atom_id atom) }
    requires top { IsMem (S.heap store.old) (S.mem_id top) }
    requires awake { IsAwakeRound (S.heap store.old) (S.mem_id top) }
    requires near { IsMem (S.heap store.old) (S.mem_id near) }
    requires near_awake { IsAwakeRound (S.heap store.old) (S.mem_id near) }
    ensures wakes { WakesAbove (IsPartnerHome (S.heap store.old) (S.atom_id atom) port) (S.heap store.old) (S.heap store.new) }
    ensures there { IsMem (S.heap store.new) (S.mem_id result) }
    ensures awake { IsAwakeRound (S.heap store.new) (S.mem_id result) }
{
    match store.partner(atom, port) {
        Some(other) => wake_home(store, other.0, top, near),
        None => near,
    }
}

/// The home of an atom wakes, and those of the atoms that are joined to it. The last of these is answered, or else `near`. Partners that
/// stand together mostly come one after the other, so the way up from their home is gone once.
fn wake_beside<S: LinkStore>(store: &mut S, atom: S::Atom, top: S::Mem, near: S::Mem) -> S::Mem
    requires deep { AllDeep (S.heap store.old) }
    requires atom { IsAtom (S.heap store.old) (S.atom_id atom) }
    requires top { IsMem (S.heap store.old) (S.mem_id top) }
    requires awake { IsAwakeRound (S.heap store.old) (S.mem_id top) }
    requires near { IsMem (S.heap store.old) (S.mem_id near) }
    requires near_awake { IsAwakeRound (S.heap store.old) (S.mem_id near) }
    ensures wakes { WakesAbove (IsHomeBeside (S.heap store.old) (S.atom_id atom) (arity_of (S.heap store.old) (S.atom_id atom))) (S.heap store.old) (S.heap store.new) }
    ensures there { IsMem (S.heap store.new) (S.mem_id result) }
    ensures awake { IsAwakeRound (S.heap store.new) (S.mem_id result) }
{
    let _root = store.root();
    let arity = store.functor(atom).arity;
    let mut last = wake_home(store, atom, top, near);
    for port in 0..arity {
        last = wake_partner(store, atom, port, top, last);
    }
    last
}

/// What an instruction touches by taking it away wakes. The last membrane is answered that is so known to be awake, with each one round
/// it, or else `near`.
fn wake_for<S: LinkStore>(
    store: &mut S,
    instr: &Instr,
    set: &SetRegisters<S::Atom, S::Mem>,
    top: S::Mem,
    near: S::Mem,
) -> S::Mem
    requires deep { AllDeep (S.heap store.old) }
    requires held { AreHeld S.atom_id S.mem_id (S.heap store.old) set.now }
    requires uses { Uses (length set.now.atoms) (length set.now.membranes) (length set.now.parts) (length set.now.copies) instr.now }
    requires top { IsMem (S.heap store.old) (S.mem_id top) }
    requires awake { IsAwakeRound (S.heap store.old) (S.mem_id top) }
    requires near { IsMem (S.heap store.old) (S.mem_id near) }
    requires near_awake { IsAwakeRound (S.heap store.old) (S.mem_id near) }
    ensures wakes { (r : Registers) → AgreesWithCopies S.atom_id S.mem_id set.now r → WakesAbove (Rouses (S.heap store.old) r instr.now) (S.heap store.old) (S.heap store.new) }
    ensures there { IsMem (S.heap store.new) (S.mem_id result) }
    ensures awake { IsAwakeRound (S.heap store.new) (S.mem_id result) }
{
    match instr {
        Instr::RemoveAtom { atom } => wake_beside(store, set.atoms.at(*atom as usize), top, near),
        Instr::RemoveMem { membrane } => {
            wake_below(store, set.membranes.at(*membrane as usize), top);
            near
        }
        _ => near,
    }
}

/// Whether a membrane is the root, and no membrane stands in it.
#[inline(always)]
fn is_only<S: LinkStore>(store: &S, membrane: S::Mem) -> bool
    requires { IsMem (S.heap store.now) (S.mem_id membrane) }
    ensures { IsTrue result → (S.mem_id membrane ≡ (S.heap store.now).root) × (mems_in (S.heap store.now) (S.mem_id membrane) ≡ []) }
{
    let root = store.root();
    store.same_mem(membrane, root) && store.mems(membrane) == 0
}

/// What the code of a body touches wakes: the membrane of the rule, those that the code takes away, the homes of the atoms that
/// it takes away and of those that are joined to them, and each membrane round one of these. What doesn't stand in the root at any
/// depth is awake. So nothing else can sleep where the root stands alone.
/// It is called before the code runs, since the atoms that are taken away lead to the homes that are to wake; and it
/// wakes the membrane of the rule by name, since what is told of a match doesn't say that a head isn't empty. The homes of
/// the head's own atoms wake too, so where an item of the head is written isn't asked.
pub(crate) fn wake<S: LinkStore>(
    store: &mut S,
    code: &Body<'_>,
    set: &SetRegisters<S::Atom, S::Mem>,
)
    requires deep { AllDeep (S.heap store.old) }
    requires held { AreHeld S.atom_id S.mem_id (S.heap store.old) set.now }
    requires uses { AllUse (length set.now.atoms) (length set.now.membranes) (length set.now.parts) (length set.now.copies) code.now }
    requires some { 0 < length set.now.membranes }
    requires others { (x : ℕ) → (mem_mark_of (S.heap store.old) x ≡ AWAKE) ⊎ ((k : ℕ) × Above (S.heap store.old) k (S.heap store.old).root x) }
    ensures { (r : Registers) → AgreesWithCopies S.atom_id S.mem_id set.now r → WakesAbove (IsRoused (S.heap store.old) r code.now) (S.heap store.old) (S.heap store.new) }
{
    let top = set.membranes.at(0);
    let _root = store.root();
    if is_only(store, top) {
        store.set_mem_mark(top, AWAKE);
        return;
    }
    wake_round(store, top);
    let mut near = top;
    for i in 0..code.removals() {
        near = wake_for(store, code.at(i), set, top, near);
    }
}
