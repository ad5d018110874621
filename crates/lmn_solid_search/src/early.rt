//! Conditions that are asked as soon as what they read is chosen.
ghost use Rattle.std.specs.Prelude.{◌≡◌, ◌≢◌, ◌<◌, ◌≤◌, ◌==◌, ◌∷◌, [], ℕ, ℤ, IfOk, IfSome, IsTrue, OnOk, Some, length, option_and_then, position, slice_get, slice_index_or};
ghost use Rattle.lmn_base.specs.Lists.{In};
ghost use Rattle.lmn_guards.specs.Values.{Stand, value, value_beside};
ghost use Rattle.lmn_store_heap.specs.Heap.{IsAtom};
ghost use Rattle.lmn_store_heap.specs.Sound.{Valid};
ghost use Rattle.lmn_solid_tables.specs.Flats.{heap_of, port_by};
ghost use Rattle.lmn_solid_search.specs.Choosing.{Refuses};
ghost use Rattle.lmn_solid_search.specs.Foretelling.{ForetellsBehind, ForetellsEqual, ForetellsParts, RefusesCondition, RefusesGuard, RefusesParts, RestsOn, is_name, on_name};
ghost use Rattle.lmn_solid_search.specs.Parting.{LeadsTo};
ghost use Rattle.lmn_solid_search.specs.declared.head.AtomItem.{AtomItem as Item};
ghost use Rattle.lmn_solid_search.specs.declared.head.TypedItem.{TypedItem as Typed};

use crate::head::{AtomItem, Head, TypedItem};
use crate::known::{integer_of, is_of_kind, stand_so};
use crate::numbers::Numbers;
use crate::parts::entry_at;
use lmn_base::{Cmp, Cond, Expr, NoMemory};
use lmn_guards::eval;
use lmn_solid_tables::{Flat, Port};
use std::alloc::Global;

/// Integers that names stand for in each placement that has some images, whatever the others are.
#[derive(Drop)]
pub(crate) struct Early {
    /// The names. The first place of a name counts.
    pub names: Vec<u32>,
    /// The integer of each.
    pub values: Vec<i64>,
    /// The numbers of the atoms on whose images it rests.
    pub rests: Vec<Numbers>,
}

/// The port at which a part is entered, from an atom with an image.
#[derive(Clone, Copy)]
struct Entry {
    /// The number of the atom.
    pub number: usize,
    /// The port.
    pub port: Port,
}

impl Early {
    /// Nothing is known.
    fn new(alloc: Global) -> Early
        ensures names { result.names.items ≡ [] }
        ensures values { result.values.items ≡ [] }
        ensures rests { result.rests.items ≡ [] }
    {
        Early {
            names: Vec::new(alloc),
            values: Vec::new(alloc),
            rests: Vec::new(alloc),
        }
    }

    /// The value of an expression.
    fn value(&self, expr: &Expr) -> Option<i64>
        ensures { result ≡ value (value_beside self.now.names.items self.now.values.items) expr.now }
    {
        eval(expr, self.names.as_slice(), self.values.as_slice())
    }

    /// The numbers that stand at the place of a name.
    fn rests_of(&self, name: u32) -> Option<Numbers>
        ensures { result ≡ option_and_then (slice_get self.now.rests.items) (position (λ m. m == name) self.now.names.items) }
    {
        match place_in(self.names.as_slice(), name) {
            Some(place) => self.rests.get(place).copied(),
            None => None,
        }
    }

    /// On which images the integer of a name rests.
    fn on_name(&self, name: u32) -> Numbers
        ensures { result ≡ on_name self.now name }
    {
        match self.rests_of(name) {
            Some(numbers) => numbers,
            None => Numbers::All,
        }
    }

    /// On which images the names in an expression rest.
    fn read_by(&self, expr: &Expr) -> Numbers
        ensures { RestsOn (on_name self.now) expr.now result }
    {
        match expr {
            Expr::Int(_) => Numbers::none(),
            Expr::Ctx(context) => self.on_name(context.name),
            Expr::Op { left, right, .. } => {
                let first = self.read_by(left);
                let second = self.read_by(right);
                first.with(second)
            }
        }
    }

    /// Binds a name to an integer that rests on some images, in the place of what it was bound to.
    fn bind(&mut self, name: u32, integer: i64, rests: Numbers) -> Result<(), NoMemory>
        ensures names { OnOk result (self.new.names.items ≡ name ∷ self.old.names.items) }
        ensures values { OnOk result (self.new.values.items ≡ integer ∷ self.old.values.items) }
        ensures rests { OnOk result (self.new.rests.items ≡ rests ∷ self.old.rests.items) }
    {
        self.names.insert(0, name)?;
        self.values.insert(0, integer)?;
        self.rests.insert(0, rests)?;
        Ok(())
    }

    /// Forgets all, where something is known of a name.
    fn forget(&mut self, name: u32)
        ensures { (x : ℕ) (z : ℤ) → value_beside self.new.names.items self.new.values.items x ≡ Some z →
            ((name ≡ x) → ⊥) × (value_beside self.old.names.items self.old.values.items x ≡ Some z) × (on_name self.new x ≡ on_name self.old x) }
    {
        if place_in(self.names.as_slice(), name).is_some() {
            self.names.clear();
            self.values.clear();
            self.rests.clear();
        }
    }

    /// The images on which it rests that a comparison doesn't hold, where that is known.
    fn refuses(&self, op: Cmp, left: &Expr, right: &Expr) -> Option<Numbers>
        ensures { IfSome result (λ e. (m n : ℤ) × (value (value_beside self.now.names.items self.now.values.items) left.now ≡ Some m)
            × (value (value_beside self.now.names.items self.now.values.items) right.now ≡ Some n) × (Stand op m n → ⊥)
            × RestsOn (on_name self.now) left.now e × RestsOn (on_name self.now) right.now e) }
    {
        let first = self.value(left);
        let second = self.value(right);
        match first {
            Some(m) => match second {
                Some(n) => {
                    if stand_so(op, m, n) {
                        return None;
                    }
                    let mine = self.read_by(left);
                    let others = self.read_by(right);
                    Some(mine.with(others))
                }
                None => None,
            },
            None => None,
        }
    }

    /// Binds a name that isn't one of a typed context to the value of an expression, where that is known.
    fn equate(&mut self, typed: &[TypedItem], name: u32, right: &Expr) -> Result<(), NoMemory>
        ensures { OnOk result (ForetellsEqual self.old self.new typed.now name right.now) }
    {
        if has_name(typed, name) {
            return Ok(());
        }
        match self.value(right) {
            Some(integer) => {
                let rests = self.read_by(right);
                self.bind(name, integer, rests)
            }
            None => {
                self.forget(name);
                Ok(())
            }
        }
    }

    /// The images on which it rests that a condition doesn't hold, where that is known. It may bind a name.
    fn ask(&mut self, typed: &[TypedItem], condition: &Cond) -> Result<Option<Numbers>, NoMemory>
        ensures refused { IfOk result (λ o. IfSome o (RefusesCondition self.old typed.now condition.now)) }
        ensures behind { OnOk result (ForetellsBehind self.old self.new typed.now condition.now) }
    {
        match condition {
            Cond::Kind { .. } => Ok(None),
            Cond::Compare {
                op,
                left,
                right,
                ..
            } => Ok(self.refuses(*op, left, right)),
            Cond::Equal { left, right, .. } => {
                self.equate(typed, left.name, right)?;
                Ok(None)
            }
            Cond::Differ { .. } => Ok(None),
        }
    }

    /// The images on which it rests that a guard doesn't hold, where that is known.
    fn ask_all(&mut self, typed: &[TypedItem], guard: &[Cond]) -> Result<Option<Numbers>, NoMemory>
        ensures { IfOk result (λ o. IfSome o (RefusesGuard self.old typed.now guard.now)) }
    {
        for condition in guard {
            match self.ask(typed, condition)? {
                Some(rests) => return Ok(Some(rests)),
                None => {}
            }
        }
        Ok(None)
    }

    /// Adds the integer of a typed context, where it is told by the images from a number on. Where the part isn't of the kind,
    /// it answers the images on which this rests.
    fn add(
        &mut self,
        flat: &Flat,
        head: &Head,
        images: &[usize],
        from: usize,
        number: usize,
    ) -> Result<Option<Numbers>, NoMemory>
        requires valid { Valid (heap_of flat.now) }
        requires images { (a : ℕ) → In a images.now → IsAtom (heap_of flat.now) a }
        requires few { length images.now ≤ length head.now.atoms }
        requires number { number < length head.now.typed }
        ensures refused { IfOk result (λ o. IfSome o (RefusesParts (heap_of flat.now) head.now images.now)) }
        ensures told { OnOk result (ForetellsParts self.old (heap_of flat.now) head.now images.now → ForetellsParts self.new (heap_of flat.now) head.now images.now) }
    {
        let atoms = head.atoms.as_slice();
        let typed = head.typed.as_slice();
        let item = head.typed.at(number);
        match held(flat, atoms, images, from, item.link) {
            Some(entry) => {
                if !is_of_kind(flat, item.kind, entry.port) {
                    return Ok(Some(Numbers::one(entry.number)));
                }
                if !is_first(typed, number) {
                    return Ok(None);
                }
                match integer_of(flat, entry.port.atom) {
                    Some(integer) => {
                        self.bind(item.name, integer, Numbers::one(entry.number))?;
                        Ok(None)
                    }
                    None => Ok(None),
                }
            }
            None => Ok(None),
        }
    }
}

/// The place of a name.
fn place_in(names: &[u32], name: u32) -> Option<usize>
    ensures { result ≡ position (λ m. m == name) names.now }
{
    names.iter().position(|other| *other == name)
}

/// Whether a typed context has a name.
fn has_name(typed: &[TypedItem], name: u32) -> bool
    ensures { result ≡ is_name typed.now name }
{
    for item in typed {
        if item.name == name {
            return true;
        }
    }
    false
}

/// Whether no typed context before one has its name.
fn is_first(typed: &[TypedItem], number: usize) -> bool
    requires { number < length typed.now }
    ensures { IsTrue result → (k : ℕ) (t u : Typed) → k < number → slice_get typed.now k ≡ Some u → slice_get typed.now number ≡ Some t → u.name ≢ t.name }
{
    let name = typed[number].name;
    for other in 0..number {
        if typed[other].name == name {
            return false;
        }
    }
    true
}

/// The port to which a port is joined at which a link stands, of the atoms with images from a number on.
fn held(flat: &Flat, atoms: &[AtomItem], images: &[usize], from: usize, link: u32) -> Option<Entry>
    requires valid { Valid (heap_of flat.now) }
    requires images { (a : ℕ) → In a images.now → IsAtom (heap_of flat.now) a }
    requires few { length images.now ≤ length atoms.now }
    ensures { IfSome result (λ entry. (a : Item) × (slice_get atoms.now entry.number ≡ Some a) × (entry.number < length images.now)
        × LeadsTo (heap_of flat.now) a.links link (slice_index_or images.now entry.number 0) (port_by entry.port)) }
{
    for number in from..images.len() {
        match entry_at(flat, atoms[number].links.as_slice(), link, images[number]) {
            Some(port) => return Some(Entry { number, port }),
            None => {}
        }
    }
    None
}

/// The images on which it rests that a placement with these images is none of the rule, where the conditions tell it by those from a
/// number on.
pub(crate) fn refusal(
    alloc: Global,
    flat: &Flat,
    head: &Head,
    guard: &[Cond],
    images: &[usize],
    from: usize,
) -> Result<Option<Numbers>, NoMemory>
    requires valid { Valid (heap_of flat.now) }
    requires images { (a : ℕ) → In a images.now → IsAtom (heap_of flat.now) a }
    requires few { length images.now ≤ length head.now.atoms }
    ensures { IfOk result (λ o. IfSome o (Refuses (heap_of flat.now) head.now guard.now images.now)) }
{
    let mut early = Early::new(alloc);
    for number in 0..head.typed.len() {
        match early.add(flat, head, images, from, number)? {
            Some(rests) => return Ok(Some(rests)),
            None => {}
        }
    }
    early.ask_all(head.typed.as_slice(), guard)
}
