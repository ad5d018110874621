ghost use Rattle.std.specs.Prelude.{ℕ, List, [], ◌∷◌, ◌≡◌, ◌<◌, length, map, flat_map, All, IfOk};
ghost use Rattle.lmn_congruence_classes.specs.Tables.{PairsBelow};
ghost use Rattle.lmn_solid_settle.specs.Tables.{AreClasses, Follows, Gives, HaveKeys, IsNew, IsValid, atom_keys, class_in, membrane_keys, numbered_atom, numbered_link, numbered_membrane};

use crate::settling::RawMembrane;
use lmn_base::{NoMemory, Rows, SolidAtom};
use lmn_congruence_classes::{classes_of, find};
use std::alloc::Global;
use std::mem;

/// The numbers that links get. A link is known by its class, and that by its least link.
#[derive(Drop)]
pub(crate) struct Numbers {
    /// The class of each link.
    classes: Rows<u32>,
    /// The number of each class whose link has occurred.
    numbers: Rows<Option<u32>>,
    /// How many classes have occurred, which is the number of the next new one.
    count: u32,
}

impl Numbers {
    /// No link has a number yet.
    pub(crate) fn new(
        alloc: Global,
        connectors: &[(u32, u32)],
        links: u32,
    ) -> Result<Numbers, NoMemory>
        requires { PairsBelow links connectors.now }
        ensures classes { IfOk result (λ t. AreClasses connectors.now links t.classes) }
        ensures none { IfOk result (λ t. IsNew links t) }
    {
        let mut numbers = Rows::new(alloc);
        for _ in 0..links {
            numbers.push(None)?;
        }
        Ok(Numbers {
            classes: least_links(alloc, connectors, links)?,
            numbers,
            count: 0,
        })
    }

    /// Gives the links of membranes their numbers.
    pub(crate) fn number_all(&mut self, alloc: Global, membranes: &mut [RawMembrane])
        requires valid { IsValid self.old }
        requires keys { HaveKeys self.old }
        requires within { All (λ x. x < length self.old.classes) (flat_map (λ m. flat_map (λ a. a.links) m.atoms) membranes.old) }
        ensures classes { self.new.classes ≡ self.old.classes }
        ensures gives { Gives (flat_map (membrane_keys self.old.classes) membranes.old) self.old self.new }
        ensures membranes { (to : ℕ → ℕ) → Follows to self.new → membranes.new ≡ map (numbered_membrane self.old.classes to) membranes.old }
    {
        for membrane in membranes.iter_mut() {
            self.number_membrane(alloc, membrane);
        }
    }

    fn number_membrane(&mut self, alloc: Global, membrane: &mut RawMembrane)
        requires valid { IsValid self.old }
        requires keys { HaveKeys self.old }
        requires within { All (λ x. x < length self.old.classes) (flat_map (λ a. a.links) membrane.old.atoms) }
        ensures classes { self.new.classes ≡ self.old.classes }
        ensures gives { Gives (membrane_keys self.old.classes membrane.old) self.old self.new }
        ensures membrane { (to : ℕ → ℕ) → Follows to self.new → membrane.new ≡ numbered_membrane self.old.classes to membrane.old }
    {
        let mut atoms = mem::replace(&mut membrane.atoms, Rows::new(alloc)).into_vec();
        self.number_atoms(alloc, atoms.as_mut_slice());
        membrane.atoms = Rows::from_vec(atoms);
    }

    fn number_atoms(&mut self, alloc: Global, atoms: &mut [SolidAtom])
        requires valid { IsValid self.old }
        requires keys { HaveKeys self.old }
        requires within { All (λ x. x < length self.old.classes) (flat_map (λ a. a.links) atoms.old) }
        ensures classes { self.new.classes ≡ self.old.classes }
        ensures gives { Gives (flat_map (atom_keys self.old.classes) atoms.old) self.old self.new }
        ensures atoms { (to : ℕ → ℕ) → Follows to self.new → atoms.new ≡ map (numbered_atom self.old.classes to) atoms.old }
    {
        for atom in atoms.iter_mut() {
            self.number_atom(alloc, atom);
        }
    }

    fn number_atom(&mut self, alloc: Global, atom: &mut SolidAtom)
        requires valid { IsValid self.old }
        requires keys { HaveKeys self.old }
        requires within { All (λ x. x < length self.old.classes) atom.old.links }
        ensures classes { self.new.classes ≡ self.old.classes }
        ensures gives { Gives (atom_keys self.old.classes atom.old) self.old self.new }
        ensures atom { (to : ℕ → ℕ) → Follows to self.new → atom.new ≡ numbered_atom self.old.classes to atom.old }
    {
        let mut links = mem::replace(&mut atom.links, Rows::new(alloc)).into_vec();
        self.number_links(links.as_mut_slice());
        atom.links = Rows::from_vec(links);
    }

    fn number_links(&mut self, links: &mut [u64])
        requires valid { IsValid self.old }
        requires keys { HaveKeys self.old }
        requires within { All (λ x. x < length self.old.classes) links.old }
        ensures classes { self.new.classes ≡ self.old.classes }
        ensures gives { Gives (map (class_in self.old.classes) links.old) self.old self.new }
        ensures links { (to : ℕ → ℕ) → Follows to self.new → links.new ≡ map (numbered_link self.old.classes to) links.old }
    {
        for link in links.iter_mut() {
            *link = self.number(*link);
        }
    }

    /// The number of a link, which is the next one where its class has none yet.
    fn number(&mut self, link: u64) -> u64
        requires valid { IsValid self.old }
        requires keys { HaveKeys self.old }
        requires within { link < length self.old.classes }
        ensures classes { self.new.classes ≡ self.old.classes }
        ensures gives { Gives (class_in self.old.classes link ∷ []) self.old self.new }
        ensures number { (to : ℕ → ℕ) → Follows to self.new → result ≡ numbered_link self.old.classes to link }
    {
        let class = *self.classes.at(link as usize) as usize;
        match *self.numbers.at(class) {
            Some(number) => u64::from(number),
            None => {
                let number = self.count;
                self.numbers.set(class, Some(number));
                self.count = number + 1;
                u64::from(number)
            }
        }
    }
}

/// The class of each link, by its least link.
fn least_links(alloc: Global, connectors: &[(u32, u32)], links: u32) -> Result<Rows<u32>, NoMemory>
    requires { PairsBelow links connectors.now }
    ensures { IfOk result (AreClasses connectors.now links) }
{
    let mut table = classes_of(alloc, connectors, links as usize)?;
    let mut least = Rows::new(alloc);
    for link in 0..links {
        least.push(find(&mut table, link as usize) as u32)?;
    }
    Ok(least)
}
