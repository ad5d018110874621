//! A walk over the membranes of a solid that writes its items.
ghost use Rattle.std.specs.Prelude.{◌≡◌, ◌<◌, ◌≤◌, ◌++◌, ℕ, List, [], ◌∷◌, IfOk, IfSome, None, OnOk, codes, length};
ghost use Rattle.lmn_base.specs.declared.solid.Region.TheViews.{out-Region};
ghost use Rattle.lmn_congruence.specs.Rules.{Name};
ghost use Rattle.lmn_io.specs.Gathering.{output};
ghost use Rattle.lmn_receipt_line.specs.Walking.{IsWithin, Steps, any_before, between_inside, end_inside, left_in, left_open, membrane_count};
ghost use Rattle.lmn_receipt_line.specs.declared.walk.Left.TheVariants.{All, FromMembrane};

use crate::items::{add_atoms, add_rules};
use lmn_base::{Names, NoMemory, Region, RuleTree, SolidAtom};
use lmn_io::{LineBuffer, Sink};
use lmn_print_plain::add_between;
use std::alloc::Global;

/// What is left to write of a region.
#[derive(Clone, Copy)]
pub(crate) enum Left {
    /// All of it.
    All,
    /// Its membranes from that of a number on, counted from 0, and its rules.
    FromMembrane(usize),
}

/// A region of which something is left to write.
#[derive(Drop)]
pub(crate) struct Place<'r> {
    region: &'r Region,
    /// The number of its membrane in preorder, counted from 0, the root's.
    number: u64,
    left: Left,
}

/// A walk over a region, each membrane followed by what is in it. It takes no more stack for a deeper one.
#[derive(Drop)]
pub(crate) struct Walk<'r> {
    /// The membranes that are open, the outermost first.
    open: Vec<Place<'r>>,
    /// How many membranes were entered.
    entered: u64,
}

impl<'r> Walk<'r> {
    /// Nothing is written.
    pub(crate) fn new(alloc: Global, root: &'r Region) -> Result<Walk<'r>, NoMemory>
        ensures left { IfOk result (λ w. (names : List Name) (table : List RuleTree) → left_open names table w.open.items ≡ left_in names table (codes ". ") root.now All) }
        ensures within { IfOk result (λ w. IsWithin (membrane_count root.now) w.open.items w.entered) }
    {
        let mut open = Vec::new(alloc);
        open.push(Place {
            region: root,
            number: 0,
            left: Left::All,
        })?;
        Ok(Walk { open, entered: 1 })
    }

    /// Adds the next part of the line, which is one of the innermost membrane: its atoms, the brace of a membrane in it, or its
    /// rules and its end. Answers the number of that membrane, and `None` where nothing is left.
    pub(crate) fn step<O: Sink>(
        &mut self,
        buffer: &mut LineBuffer,
        out: &mut O,
        names: &Names,
        table: &[RuleTree],
    ) -> Result<Option<u64>, NoMemory>
        ensures none { IfOk result (λ found. found ≡ None → (self.old.open.items ≡ []) × (output buffer.new (O.told out.new) (O.faults out.new) ≡ output buffer.old (O.told out.old) (O.faults out.old))) }
        ensures some { IfOk result (λ found. IfSome found (λ number. Steps names.now table.now self.old.open.items self.new.open.items self.old.entered self.new.entered (output buffer.old (O.told out.old) (O.faults out.old)) (output buffer.new (O.told out.new) (O.faults out.new)))) }
        ensures number { IfOk result (λ found. IfSome found (λ number. (most : ℕ) → IsWithin most self.old.open.items self.old.entered → number < most)) }
    {
        let Some(place) = self.open.pop() else {
            return Ok(None);
        };
        let number = place.number;
        match place.left {
            Left::All => self.add_atoms_of(buffer, out, names, place)?,
            Left::FromMembrane(next) => {
                if next < place.region.membranes.len() {
                    self.enter(buffer, out, place, next)?;
                } else {
                    self.leave(buffer, out, names, table, place, next);
                }
            }
        }
        Ok(Some(number))
    }

    /// Adds the atoms of a membrane.
    fn add_atoms_of<O: Sink>(
        &mut self,
        buffer: &mut LineBuffer,
        out: &mut O,
        names: &Names,
        place: Place<'r>,
    ) -> Result<(), NoMemory>
        requires { place.left ≡ All }
        ensures { (table : List RuleTree) → OnOk result (Steps names.now table (self.old.open.items ++ place.entry ∷ []) self.new.open.items self.old.entered self.new.entered (output buffer.old (O.told out.old) (O.faults out.old)) (output buffer.new (O.told out.new) (O.faults out.new))) }
    {
        add_atoms(
            buffer,
            out,
            names,
            self.between(),
            place.region.atoms.as_slice(),
        );
        self.open.push(Place {
            region: place.region,
            number: place.number,
            left: Left::FromMembrane(0),
        })?;
        Ok(())
    }

    /// Goes into the membrane of a number.
    fn enter<O: Sink>(
        &mut self,
        buffer: &mut LineBuffer,
        out: &mut O,
        place: Place<'r>,
        next: usize,
    ) -> Result<(), NoMemory>
        requires left { place.left ≡ FromMembrane next }
        requires there { next < length (out-Region place.region.now).membranes }
        ensures { (names : List Name) (table : List RuleTree) → OnOk result (Steps names table (self.old.open.items ++ place.entry ∷ []) self.new.open.items self.old.entered self.new.entered (output buffer.old (O.told out.old) (O.faults out.old)) (output buffer.new (O.told out.new) (O.faults out.new))) }
    {
        let membranes = place.region.membranes.as_slice();
        add_between(
            buffer,
            out,
            any_before(place.region.atoms.as_slice(), next),
            self.between(),
        );
        buffer.add(out, b"{");
        self.open.push(Place {
            region: place.region,
            number: place.number,
            left: Left::FromMembrane(next + 1),
        })?;
        self.open.push(Place {
            region: &membranes[next],
            number: self.entered,
            left: Left::All,
        })?;
        self.entered = self.entered.saturating_add(1);
        Ok(())
    }

    /// Adds the rules of a membrane, and its end.
    fn leave<O: Sink>(
        &mut self,
        buffer: &mut LineBuffer,
        out: &mut O,
        names: &Names,
        table: &[RuleTree],
        place: Place<'r>,
        next: usize,
    )
        requires left { place.left ≡ FromMembrane next }
        requires none { length (out-Region place.region.now).membranes ≤ next }
        ensures { Steps names.now table.now (self.old.open.items ++ place.entry ∷ []) self.new.open.items self.old.entered self.new.entered (output buffer.old (O.told out.old) (O.faults out.old)) (output buffer.new (O.told out.new) (O.faults out.new)) }
    {
        add_rules(
            buffer,
            out,
            names,
            table,
            self.between(),
            any_before(place.region.atoms.as_slice(), next),
            place.region.rules.as_slice(),
        );
        buffer.add(out, self.end());
    }

    /// What stands between two items.
    fn between(&self) -> &'static [u8]
        ensures { result.now ≡ between_inside self.now.open.items }
    {
        if self.open.is_empty() { b". " } else { b", " }
    }

    /// What stands at the end of a membrane.
    fn end(&self) -> &'static [u8]
        ensures { result.now ≡ end_inside self.now.open.items }
    {
        if self.open.is_empty() { b"" } else { b"}" }
    }
}

/// Whether an item stands before the membrane of a number.
fn any_before(atoms: &[SolidAtom], number: usize) -> bool
    ensures { result ≡ any_before atoms.now number }
{
    !atoms.is_empty() || number > 0
}
