ghost use Rattle.std.specs.Prelude.{◌≡◌, ◌++◌, ◌≤◌, ◌*◌, ℕ, IfOk, OnOk, Some, [], length, map, slice_get};
ghost use Rattle.std.specs.Option.{option_map};
ghost use Rattle.lmn_base.specs.Solids.{IsSolid};
ghost use Rattle.lmn_solid_tables.specs.Tables.{Rises};
ghost use Rattle.lmn_solid_tables.specs.Flats.{IsFlatOf};
ghost use Rattle.lmn_solid_tables.specs.Building.{GoesOn, added, all_ports_added, children, links_of_atoms, no_tables, none, entered, port_added, ports_added, trees_of, visited, with_inner};
ghost use Rattle.lmn_base.specs.declared.solid.Region.TheViews.{out-Region};

use crate::flat::Flat;
use crate::tables::{FlatAtom, FlatMembrane, Port};
use lmn_base::{NoMemory, Region, Rows, Solid};
use std::alloc::Global;

/// What stands in the place of a port that isn't there.
const NO_PORT: Port = Port { atom: 0, index: 0 };

/// The tables of atoms and membranes, the lists of membranes still empty.
#[derive(Drop)]
struct Listing {
    atoms: Vec<FlatAtom>,
    membranes: Vec<FlatMembrane>,
}

impl Flat {
    /// The tables of a solid. It takes no more stack for a deeper one.
    ///
    /// # Errors
    ///
    /// `NoMemory` at want of memory.
    pub fn of(alloc: Global, solid: &Solid) -> Result<Flat, NoMemory>
        requires { IsSolid solid.now }
        ensures { IfOk result (IsFlatOf solid.now) }
    {
        let Listing {
            atoms,
            mut membranes,
        } = Listing::of(alloc, &solid.root)?;
        list_inner(&mut membranes)?;
        let ports = ports_of(alloc, atoms.as_slice())?;
        Ok(Flat {
            atoms,
            membranes,
            ports,
        })
    }
}

impl Listing {
    /// The tables of a region with what is in it, each membrane before those in it.
    fn of(alloc: Global, root: &Region) -> Result<Listing, NoMemory>
        ensures { IfOk result (λ l. record { atoms = l.atoms.items; membranes = l.membranes.items } ≡ visited (trees_of root.now none) 0 no_tables) }
    {
        let mut listing = Listing {
            atoms: Vec::new(alloc),
            membranes: Vec::new(alloc),
        };
        let mut waiting: Vec<(&Region, usize)> = Vec::new(alloc);
        waiting.push((root, 0))?;
        while let Some((region, parent)) = waiting.pop() {
            let number = listing.membranes.len();
            listing.add(alloc, region, parent)?;
            push_inner(&mut waiting, region, number)?;
        }
        Ok(listing)
    }

    /// Adds a membrane with its atoms and rules.
    fn add(&mut self, alloc: Global, region: &Region, parent: usize) -> Result<(), NoMemory>
        ensures { OnOk result (record { atoms = self.new.atoms.items; membranes = self.new.membranes.items } ≡ added (out-Region region.now).atoms (out-Region region.now).rules parent (record { atoms = self.old.atoms.items; membranes = self.old.membranes.items })) }
    {
        let home = self.membranes.len();
        let mut atoms = Rows::new(alloc);
        for atom in region.atoms.as_slice() {
            atoms.push(self.atoms.len())?;
            let links = Rows::copied(alloc, atom.links.as_slice())?;
            self.atoms.push(FlatAtom {
                functor: atom.functor,
                links,
                home,
            })?;
        }
        let rules = Rows::copied(alloc, region.rules.as_slice())?;
        self.membranes.push(FlatMembrane {
            parent,
            atoms,
            membranes: Rows::new(alloc),
            rules,
        })?;
        Ok(())
    }
}

/// Puts the membranes of a region on the stack, so that the first one is on top.
fn push_inner<'r>(
    waiting: &mut Vec<(&'r Region, usize)>,
    region: &'r Region,
    number: usize,
) -> Result<(), NoMemory>
    ensures { OnOk result (map (λ e. (e.0.now, e.1)) waiting.new.items ≡ map (λ e. (e.0.now, e.1)) waiting.old.items ++ entered number (out-Region region.now).membranes) }
{
    for i in (0..region.membranes.len()).rev() {
        waiting.push((region.membranes.at(i), number))?;
    }
    Ok(())
}

/// Puts each membrane but the root into the list of the one round it.
fn list_inner(membranes: &mut Vec<FlatMembrane>) -> Result<(), NoMemory>
    requires rises { Rises membranes.old.items }
    requires empty { (m : ℕ) (x : FlatMembrane) → slice_get membranes.old.items m ≡ Some x → x.membranes ≡ [] }
    ensures { OnOk result ((m : ℕ) → slice_get membranes.new.items m ≡ option_map (with_inner (children membranes.old.items (length membranes.old.items) m)) (slice_get membranes.old.items m)) }
{
    for number in 1..membranes.len() {
        let parent = membranes[number].parent;
        membranes[parent].membranes.push(number)?;
    }
    Ok(())
}

/// The two ports of each link, one behind the other.
fn ports_of(alloc: Global, atoms: &[FlatAtom]) -> Result<Vec<Port>, NoMemory>
    requires { GoesOn [] (links_of_atoms atoms.now) }
    ensures { IfOk result (λ ports. ports.items ≡ all_ports_added [] 0 atoms.now) }
{
    let mut ports = Vec::new(alloc);
    for (number, atom) in atoms.iter().enumerate() {
        add_ports(&mut ports, number, atom.links.as_slice())?;
    }
    Ok(ports)
}

/// Adds the ports of an atom.
fn add_ports(ports: &mut Vec<Port>, atom: usize, links: &[u64]) -> Result<(), NoMemory>
    requires { GoesOn ports.old.items links.now }
    ensures { OnOk result (ports.new.items ≡ ports_added ports.old.items atom 0 links.now) }
{
    for (index, link) in links.iter().enumerate() {
        add_port(ports, *link, Port { atom, index })?;
    }
    Ok(())
}

/// Adds a port with its link. Links are numbered by first occurrence: one that is new is the next one.
fn add_port(ports: &mut Vec<Port>, link: u64, port: Port) -> Result<(), NoMemory>
    requires { (n : ℕ) × (length ports.old.items ≡ 2 * n) × (link ≤ n) }
    ensures { OnOk result (ports.new.items ≡ port_added ports.old.items link port) }
{
    let first = 2 * link as usize;
    if first == ports.len() {
        ports.push(port)?;
        ports.push(NO_PORT)?;
    } else {
        ports[first + 1] = port;
    }
    Ok(())
}
