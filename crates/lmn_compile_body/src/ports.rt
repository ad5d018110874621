ghost use Rattle.std.specs.Prelude.{◌≡◌, ◌+◌, ◌<◌, ◌≤◌, ◌++◌, ◌^◌, List, [], ◌∷◌, length, IfOk, OnOk};
ghost use Rattle.lmn_base.specs.Limits.{most_links};
ghost use Rattle.lmn_solid_heads.specs.Heads.{at_ports, links_of_head};
ghost use Rattle.lmn_solid_bodies.specs.Items.{new_ports_from, new_ports, old_ports, once_in, connectors};
ghost use Rattle.lmn_compile_head.specs.Tables.{AllBelow, Counts, HeadFits};
ghost use Rattle.lmn_compile_body.specs.Tables.{AllFew};

use lmn_base::{NoMemory, Rows};
use lmn_compile_head::times_of;
use lmn_instr_code::{AtomPort, NewPort};
use lmn_solid_bodies::BodyItem;
use lmn_solid_heads::HeadItem;
use std::alloc::Global;

/// The connectors of a body.
pub fn connectors_of(alloc: Global, items: &[BodyItem]) -> Result<Rows<(u32, u32)>, NoMemory>
    ensures { IfOk result (λ pairs. pairs ≡ connectors items.now) }
{
    let mut pairs = Rows::new(alloc);
    for item in items {
        match item {
            BodyItem::Connector { left, right } => pairs.push((*left, *right))?,
            BodyItem::Atom { .. } => {}
            BodyItem::Copy { .. } => {}
            BodyItem::Bound { .. } => {}
            BodyItem::Membrane { .. } => {}
            BodyItem::Rest { .. } => {}
            BodyItem::Rule { .. } => {}
            BodyItem::Rules { .. } => {}
        }
    }
    Ok(pairs)
}

/// Adds the ports of a made atom, with their links.
fn add_new(ports: &mut Rows<(NewPort, u32)>, atom: u16, links: &[u32]) -> Result<(), NoMemory>
    requires { length links.now ≤ most_links }
    ensures { OnOk result (ports.new ≡ ports.old ++ new_ports_from atom 0 links.now) }
{
    for (i, link) in links.iter().enumerate() {
        let port = AtomPort {
            atom,
            port: i as u8,
        };
        ports.push((NewPort::Atom(port), *link))?;
    }
    Ok(())
}

/// The new ports of a body, with their links. The first atom has this register.
pub fn new_ports_of(
    alloc: Global,
    items: &[BodyItem],
    first_atom: u16,
) -> Result<Rows<(NewPort, u32)>, NoMemory>
    requires atoms { first_atom + length items.now < 2 ^ 16 }
    requires few { AllFew items.now }
    ensures { IfOk result (λ ports. ports ≡ new_ports first_atom 0 items.now) }
{
    let mut ports = Rows::new(alloc);
    let mut atom = first_atom;
    let mut copy = 0;
    for item in items {
        match item {
            BodyItem::Atom { links, .. } => {
                add_new(&mut ports, atom, links.as_slice())?;
                atom += 1;
            }
            BodyItem::Connector { .. } => {}
            BodyItem::Copy { link, .. } => {
                ports.push((NewPort::Copy(copy), *link))?;
                copy += 1;
            }
            BodyItem::Bound { link, .. } => {
                ports.push((NewPort::Atom(AtomPort { atom, port: 0 }), *link))?;
                atom += 1;
            }
            BodyItem::Membrane { .. } => {}
            BodyItem::Rest { .. } => {}
            BodyItem::Rule { .. } => {}
            BodyItem::Rules { .. } => {}
        }
    }
    Ok(ports)
}

/// Adds a port of a head atom, where its link occurs once in the head.
fn add_if_once(
    ports: &mut Rows<(AtomPort, u32)>,
    times: &[u8],
    port: AtomPort,
    link: u32,
) -> Result<(), NoMemory>
    requires { link < length times.now }
    ensures { (items : List HeadItem) → Counts times.now items →
        OnOk result (ports.new ≡ ports.old ++ once_in (links_of_head items) ((record { link = link; port = (port.atom, port.port) }) ∷ [])) }
{
    if times[link as usize] == 1 {
        ports.push((port, link))
    } else {
        Ok(())
    }
}

/// Adds the ports of a head atom whose links occur once in the head.
fn add_old(
    ports: &mut Rows<(AtomPort, u32)>,
    times: &[u8],
    atom: u16,
    links: &[u32],
) -> Result<(), NoMemory>
    requires below { AllBelow (length times.now) links.now }
    requires few { length links.now ≤ most_links }
    ensures { (items : List HeadItem) → Counts times.now items → OnOk result (ports.new ≡ ports.old ++ once_in (links_of_head items) (at_ports atom 0 links.now)) }
{
    for (i, link) in links.iter().enumerate() {
        let port = AtomPort {
            atom,
            port: i as u8,
        };
        add_if_once(ports, times, port, *link)?;
    }
    Ok(())
}

/// Adds the ports that a head leaves, by a table of how often links occur in it.
fn add_all_old(
    ports: &mut Rows<(AtomPort, u32)>,
    times: &[u8],
    items: &[HeadItem],
) -> Result<(), NoMemory>
    requires fits { HeadFits (length times.now) items.now }
    requires few { length items.now < 2 ^ 15 }
    ensures { Counts times.now items.now → OnOk result (ports.new ≡ ports.old ++ old_ports items.now) }
{
    let mut atom = 0;
    for item in items {
        match item {
            HeadItem::Atom { links, .. } => {
                add_old(ports, times, atom, links.as_slice())?;
                atom += 1;
            }
            HeadItem::Typed { .. } => {}
            HeadItem::Membrane { .. } => {}
        }
    }
    Ok(())
}

/// The ports that a head leaves, with their links.
pub fn old_ports_of(
    alloc: Global,
    items: &[HeadItem],
    links: u32,
) -> Result<Rows<(AtomPort, u32)>, NoMemory>
    requires fits { HeadFits links items.now }
    requires few { length items.now < 2 ^ 15 }
    ensures { IfOk result (λ ports. ports ≡ old_ports items.now) }
{
    let times = times_of(alloc, items, links as usize)?;
    let mut ports = Rows::new(alloc);
    add_all_old(&mut ports, times.as_slice(), items)?;
    Ok(ports)
}
