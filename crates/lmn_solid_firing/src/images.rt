//! The images of the items of a head.
ghost use Rattle.std.specs.Prelude.{◌≡◌, IfOk, slice_index_or};
ghost use Rattle.lmn_solid_heads.specs.Heads.{atoms_of, membranes_of};
ghost use Rattle.lmn_solid_tables.specs.Flats.{port_by};
ghost use Rattle.lmn_solid_search.specs.Finding.{port_at};
ghost use Rattle.lmn_solid_search.specs.Placing.{membrane_at};
ghost use Rattle.lmn_solid_firing.specs.Pieces.{images_from};

use lmn_base::{NoMemory, Rows};
use lmn_solid_heads::HeadItem;
use lmn_solid_tables::Port;
use std::alloc::Global;

/// The image with a number, or 0.
pub(crate) fn image(images: &[usize], number: usize) -> usize
    ensures { result ≡ slice_index_or images.now number 0 }
{
    if number < images.len() {
        images[number]
    } else {
        0
    }
}

/// The image of a membrane by its number, 0 for that in which the rule fires.
pub(crate) fn membrane_image(home: usize, membranes: &[usize], number: usize) -> usize
    ensures { result ≡ membrane_at home membranes.now number }
{
    if number == 0 {
        home
    } else {
        image(membranes, number - 1)
    }
}

/// The port with a number, or one of no typed context.
pub(crate) fn entry(ports: &[Port], number: usize) -> Port
    ensures { port_by result ≡ port_at ports.now number }
{
    if number < ports.len() {
        ports[number]
    } else {
        Port { atom: 0, index: 0 }
    }
}

/// The images of the atoms of a head.
pub(crate) fn atom_images(
    alloc: Global,
    items: &[HeadItem],
    images: &[usize],
) -> Result<Rows<usize>, NoMemory>
    ensures { IfOk result (λ atoms. atoms ≡ images_from images.now 0 (atoms_of items.now)) }
{
    let mut atoms = Rows::new(alloc);
    for item in items {
        match item {
            HeadItem::Atom { .. } => {
                let number = atoms.len();
                atoms.push(image(images, number))?;
            }
            HeadItem::Typed { .. } => {}
            HeadItem::Membrane { .. } => {}
        }
    }
    Ok(atoms)
}

/// The images of the membranes of a head, of which that with number k stands at index k - 1.
pub(crate) fn membrane_images(
    alloc: Global,
    items: &[HeadItem],
    images: &[usize],
) -> Result<Rows<usize>, NoMemory>
    ensures { IfOk result (λ membranes. membranes ≡ images_from images.now 0 (membranes_of items.now)) }
{
    let mut membranes = Rows::new(alloc);
    for item in items {
        match item {
            HeadItem::Atom { .. } => {}
            HeadItem::Typed { .. } => {}
            HeadItem::Membrane { .. } => {
                let number = membranes.len();
                membranes.push(image(images, number))?;
            }
        }
    }
    Ok(membranes)
}
