//! The first placement of a head that is one of the rule, depth first over its items. A failure names the images on which it rests,
//! and no other choice is tried for an image on which it doesn't.
ghost use Rattle.std.specs.Prelude.{◌≡◌, ◌<◌, ◌≤◌, ◌++◌, ◌∷◌, [], ◌+◌, ℕ, IfOk, IfSome, None, Some, length, slice_get};
ghost use Rattle.lmn_base.specs.declared.functor.Functor.{Functor as FunctorOf};
ghost use Rattle.lmn_base.specs.Lists.{In};
ghost use Rattle.lmn_store_heap.specs.Heap.{IsAtom, IsMem};
ghost use Rattle.lmn_store_heap.specs.Sound.{Valid};
ghost use Rattle.lmn_solid_tables.specs.Flats.{heap_of};
ghost use Rattle.lmn_solid_search.specs.Choosing.{Allowed, Answers, AnswersAmong, AnswersWith, IsNew, IsSearchable, RefusesAtom, RefusesMembrane, Sits, atoms_inside, membranes_inside, with_atom, with_membrane};
ghost use Rattle.lmn_solid_search.specs.Holding.{HasRoom};
ghost use Rattle.lmn_solid_search.specs.Taking.{LinksFit};

use crate::ahead::holds_functors;
use crate::early;
use crate::fits::misfit;
use crate::head::Head;
use crate::meeting::{Fulfilled, fulfil};
use crate::numbers::Numbers;
use crate::pairs::is_same_functor;
use crate::placed::{Placed, place_of};
use crate::reasons::Reasons;
use crate::room::Room;
use lmn_base::{Cond, Functor, NoMemory};
use lmn_solid_heads::HeadItem;
use lmn_solid_tables::Flat;
use std::alloc::Global;

/// What a search comes to.
#[derive(Drop)]
pub(crate) enum Sought {
    /// A placement of the rule, with this.
    Found(Fulfilled),
    /// There is none, for these reasons.
    Failed(Reasons),
}

/// The images on which it rests that the last image can't be one, if it can't. It stands at a place before, if it is an image already.
fn refusal(
    alloc: Global,
    flat: &Flat,
    head: &Head,
    guard: &[Cond],
    images: &[usize],
    number: usize,
    before: Option<usize>,
) -> Result<Option<Numbers>, NoMemory>
    requires valid { Valid (heap_of flat.now) }
    requires images { (a : ℕ) → In a images.now → IsAtom (heap_of flat.now) a }
    requires few { length images.now ≤ length head.now.atoms }
    requires number { length images.now ≡ number + 1 }
    requires before { IfSome before (λ k. (k < number) × (slice_get images.now k ≡ slice_get images.now number)) }
    ensures some { IfOk result (λ o. IfSome o (λ e. (functor : FunctorOf) → RefusesAtom (heap_of flat.now) head.now guard.now functor number images.now e)) }
    ensures new { IfOk result (λ o. o ≡ None → before ≡ None) }
    ensures fits { IfOk result (λ o. o ≡ None → LinksFit (heap_of flat.now) head.now.atoms images.now number) }
{
    match early::refusal(alloc, flat, head, guard, images, number)? {
        Some(numbers) => return Ok(Some(numbers)),
        None => {}
    }
    match before {
        Some(other) => return Ok(Some(Numbers::two(number, other))),
        None => {}
    }
    match misfit(flat, head.atoms.as_slice(), images, number) {
        Some(other) => return Ok(Some(Numbers::two(number, other))),
        None => {}
    }
    early::refusal(alloc, flat, head, guard, images, 0)
}

/// Takes an atom for the next image. Where it can't be one, it answers the images on which this rests.
fn place_atom(
    alloc: Global,
    flat: &Flat,
    head: &Head,
    guard: &[Cond],
    functor: Functor,
    atom: usize,
    placed: &mut Placed,
) -> Result<Option<Numbers>, NoMemory>
    requires valid { Valid (heap_of flat.now) }
    requires atom { IsAtom (heap_of flat.now) atom }
    requires atoms { (a : ℕ) → In a placed.old.atoms → IsAtom (heap_of flat.now) a }
    requires few { length placed.old.atoms < length head.now.atoms }
    ensures some { IfOk result (λ o. IfSome o (λ e. (placed.new ≡ placed.old) × RefusesAtom (heap_of flat.now) head.now guard.now functor (length placed.old.atoms) (placed.old.atoms ++ atom ∷ []) e)) }
    ensures none { IfOk result (λ o. o ≡ None → (placed.new ≡ with_atom placed.old atom) × Allowed (heap_of flat.now) head.now placed.old functor atom) }
{
    let number = placed.atoms.len();
    if !is_same_functor(flat.functor(atom), functor) {
        return Ok(Some(Numbers::one(number)));
    }
    let before = place_of(placed.atoms.as_slice(), atom);
    placed.atoms.push(atom)?;
    match refusal(
        alloc,
        flat,
        head,
        guard,
        placed.atoms.as_slice(),
        number,
        before,
    )? {
        Some(numbers) => {
            let _ = placed.atoms.pop();
            Ok(Some(numbers))
        }
        None => Ok(None),
    }
}

/// Goes on with an atom for the next image, where it can be one.
#[cycle(search)]
fn try_atom(
    alloc: Global,
    flat: &Flat,
    head: &Head,
    guard: &[Cond],
    functor: Functor,
    rest: &[HeadItem],
    atom: usize,
    placed: &mut Placed,
    room: &mut Room,
) -> Result<Sought, NoMemory>
    requires valid { Valid (heap_of flat.now) }
    requires head { IsSearchable head.now }
    requires sits { Sits (heap_of flat.now) head.now rest.now (with_atom placed.old atom) }
    requires room { HasRoom (heap_of flat.now) room.old }
    ensures room { HasRoom (heap_of flat.now) room.new }
    ensures answers { IfOk result (AnswersWith (heap_of flat.now) head.now guard.now rest.now (λ p. Allowed (heap_of flat.now) head.now p functor) with_atom placed.old atom placed.new) }
{
    match place_atom(alloc, flat, head, guard, functor, atom, placed)? {
        Some(numbers) => return Ok(Sought::Failed(Reasons::of_atoms(numbers))),
        None => {}
    }
    match search(alloc, flat, head, guard, rest, placed, room)? {
        Sought::Found(found) => Ok(Sought::Found(found)),
        Sought::Failed(failed) => {
            let _ = placed.atoms.pop();
            Ok(Sought::Failed(failed))
        }
    }
}

/// Tries the atoms of a membrane for the next image, in their order. Where a failure doesn't rest on it, no other one is tried.
#[cycle(search)]
fn try_atoms(
    alloc: Global,
    flat: &Flat,
    head: &Head,
    guard: &[Cond],
    functor: Functor,
    inside: usize,
    rest: &[HeadItem],
    choices: &[usize],
    placed: &mut Placed,
    room: &mut Room,
) -> Result<Sought, NoMemory>
    requires valid { Valid (heap_of flat.now) }
    requires head { IsSearchable head.now }
    requires sits { (a : ℕ) → In a choices.now → Sits (heap_of flat.now) head.now rest.now (with_atom placed.old a) }
    requires inside { inside ≤ length placed.old.membranes }
    requires choices { choices.now ≡ atoms_inside (heap_of flat.now) inside placed.old }
    requires room { HasRoom (heap_of flat.now) room.old }
    ensures room { HasRoom (heap_of flat.now) room.new }
    ensures answers { IfOk result (AnswersAmong (heap_of flat.now) head.now guard.now rest.now (λ p. Allowed (heap_of flat.now) head.now p functor) with_atom (atoms_inside (heap_of flat.now) inside) placed.old placed.new) }
{
    let number = placed.atoms.len();
    let mut reasons = Reasons::of_membrane(inside);
    for choice in choices {
        match try_atom(
            alloc, flat, head, guard, functor, rest, *choice, placed, room,
        )? {
            Sought::Found(found) => return Ok(Sought::Found(found)),
            Sought::Failed(failed) => {
                if !failed.atoms.has(number) {
                    return Ok(Sought::Failed(failed));
                }
                reasons = reasons.with(failed);
            }
        }
    }
    Ok(Sought::Failed(reasons))
}

/// Takes a membrane for the next image, where it has as many atoms with each functor as the items ask for in it and is none yet. Else
/// it answers the images on which this rests.
fn place_membrane(
    flat: &Flat,
    rest: &[HeadItem],
    membrane: usize,
    placed: &mut Placed,
) -> Result<Option<Numbers>, NoMemory>
    requires valid { Valid (heap_of flat.now) }
    requires membrane { IsMem (heap_of flat.now) membrane }
    ensures some { IfOk result (λ o. IfSome o (λ e. (placed.new ≡ placed.old) × RefusesMembrane (heap_of flat.now) rest.now placed.old membrane e)) }
    ensures none { IfOk result (λ o. o ≡ None → (placed.new ≡ with_membrane placed.old membrane) × IsNew placed.old membrane) }
{
    let number = placed.membranes.len();
    let before = place_of(placed.membranes.as_slice(), membrane);
    if !holds_functors(flat, number + 1, membrane, rest) {
        return Ok(Some(Numbers::one(number)));
    }
    match before {
        Some(other) => return Ok(Some(Numbers::two(number, other))),
        None => {}
    }
    placed.membranes.push(membrane)?;
    Ok(None)
}

/// Goes on with a membrane for the next image, where it can be one.
#[cycle(search)]
fn try_membrane(
    alloc: Global,
    flat: &Flat,
    head: &Head,
    guard: &[Cond],
    rest: &[HeadItem],
    membrane: usize,
    placed: &mut Placed,
    room: &mut Room,
) -> Result<Sought, NoMemory>
    requires valid { Valid (heap_of flat.now) }
    requires head { IsSearchable head.now }
    requires sits { Sits (heap_of flat.now) head.now rest.now (with_membrane placed.old membrane) }
    requires room { HasRoom (heap_of flat.now) room.old }
    ensures room { HasRoom (heap_of flat.now) room.new }
    ensures answers { IfOk result (AnswersWith (heap_of flat.now) head.now guard.now rest.now IsNew with_membrane placed.old membrane placed.new) }
{
    match place_membrane(flat, rest, membrane, placed)? {
        Some(numbers) => return Ok(Sought::Failed(Reasons::of_membranes(numbers))),
        None => {}
    }
    match search(alloc, flat, head, guard, rest, placed, room)? {
        Sought::Found(found) => Ok(Sought::Found(found)),
        Sought::Failed(failed) => {
            let _ = placed.membranes.pop();
            Ok(Sought::Failed(failed))
        }
    }
}

/// Tries the membranes in a membrane for the next image, in their order. Where a failure doesn't rest on it, no other one is tried.
#[cycle(search)]
fn try_membranes(
    alloc: Global,
    flat: &Flat,
    head: &Head,
    guard: &[Cond],
    inside: usize,
    rest: &[HeadItem],
    choices: &[usize],
    placed: &mut Placed,
    room: &mut Room,
) -> Result<Sought, NoMemory>
    requires valid { Valid (heap_of flat.now) }
    requires head { IsSearchable head.now }
    requires sits { (a : ℕ) → In a choices.now → Sits (heap_of flat.now) head.now rest.now (with_membrane placed.old a) }
    requires inside { inside ≤ length placed.old.membranes }
    requires choices { choices.now ≡ membranes_inside (heap_of flat.now) inside placed.old }
    requires room { HasRoom (heap_of flat.now) room.old }
    ensures room { HasRoom (heap_of flat.now) room.new }
    ensures answers { IfOk result (AnswersAmong (heap_of flat.now) head.now guard.now rest.now IsNew with_membrane (membranes_inside (heap_of flat.now) inside) placed.old placed.new) }
{
    let number = placed.membranes.len();
    let mut reasons = Reasons::of_membrane(inside);
    for choice in choices {
        match try_membrane(alloc, flat, head, guard, rest, *choice, placed, room)? {
            Sought::Found(found) => return Ok(Sought::Found(found)),
            Sought::Failed(failed) => {
                if !failed.membranes.has(number) {
                    return Ok(Sought::Failed(failed));
                }
                reasons = reasons.with(failed);
            }
        }
    }
    Ok(Sought::Failed(reasons))
}

/// The first placement of the rule that goes on from one by these items. It recurses on the items of a head.
#[cycle(search)]
pub(crate) fn search(
    alloc: Global,
    flat: &Flat,
    head: &Head,
    guard: &[Cond],
    items: &[HeadItem],
    placed: &mut Placed,
    room: &mut Room,
) -> Result<Sought, NoMemory>
    requires valid { Valid (heap_of flat.now) }
    requires head { IsSearchable head.now }
    requires sits { Sits (heap_of flat.now) head.now items.now placed.old }
    requires room { HasRoom (heap_of flat.now) room.old }
    ensures room { HasRoom (heap_of flat.now) room.new }
    ensures answers { IfOk result (Answers (heap_of flat.now) head.now guard.now items.now placed.old placed.new) }
{
    match items {
        [] => match fulfil(alloc, flat, head, guard, placed, room)? {
            Some(found) => Ok(Sought::Found(found)),
            None => Ok(Sought::Failed(Reasons::all())),
        },
        [first, rest @ ..] => match first {
            HeadItem::Atom {
                functor,
                inside,
                ..
            } => {
                let choices = flat.atoms(placed.membrane(*inside as usize));
                try_atoms(
                    alloc,
                    flat,
                    head,
                    guard,
                    *functor,
                    *inside as usize,
                    rest,
                    choices,
                    placed,
                    room,
                )
            }
            HeadItem::Typed { .. } => search(alloc, flat, head, guard, rest, placed, room),
            HeadItem::Membrane { inside, .. } => {
                let choices = flat.membranes(placed.membrane(*inside as usize));
                try_membranes(
                    alloc,
                    flat,
                    head,
                    guard,
                    *inside as usize,
                    rest,
                    choices,
                    placed,
                    room,
                )
            }
        },
    }
}
