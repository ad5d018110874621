//! Ports that are joined two by two.
ghost use Rattle.std.specs.Prelude.{◌≡◌, ℕ, ◌^◌, ◌<◌, IfSome, Some, None, length};
ghost use Rattle.std.specs.Option.{option_map};
ghost use Rattle.lmn_web_cells.specs.Cells.{cells_by, ports_of};
ghost use Rattle.lmn_web_cells.specs.CellIds.{cell_id, port_id};
ghost use Rattle.lmn_web_cells.specs.Ports.{partner_in, linked, cleared, joined, parted, IsPort, Reaches, Paired, IsSamePort};

use crate::cell::Cells;
use crate::handle::Cell;

/// The other end of a port.
pub fn partner(cells: &Cells, c: Cell, i: usize) -> Option<(Cell, u64)>
    requires { IsPort (cells_by cells.now) (cell_id c) i }
    ensures { partner_in (cells_by cells.now) (cell_id c) i ≡ option_map port_id result }
{
    match cells.to(c, i) {
        None => None,
        Some(d) => Some((d, cells.port(c, i))),
    }
}

/// A port has this partner, or none.
fn set_partner(cells: &mut Cells, c: Cell, i: usize, partner: Option<(Cell, u64)>)
    requires port { IsPort (cells_by cells.old) (cell_id c) i }
    requires small { IfSome partner (λ p. p.1 < 256) }
    ensures { cells_by cells.new ≡ linked (cells_by cells.old) (cell_id c) i (option_map port_id partner) }
{
    match partner {
        None => cells.set_to(c, i, None),
        Some((d, j)) => {
            cells.set_to(c, i, Some(d));
            cells.set_port(c, i, j);
        }
    }
}

/// A port, if it is one, has no partner.
fn clear(cells: &mut Cells, port: Option<(Cell, u64)>)
    requires { IfSome port (λ p. IsPort (cells_by cells.old) (cell_id p.0) p.1) }
    ensures { cells_by cells.new ≡ cleared (cells_by cells.old) (option_map port_id port) }
{
    match port {
        None => {}
        Some((d, j)) => set_partner(cells, d, j as usize, None),
    }
}

// Two ports, where they are some, have no partner.
fn clear_both(cells: &mut Cells, first: Option<(Cell, u64)>, second: Option<(Cell, u64)>)
    requires first { IfSome first (λ p. IsPort (cells_by cells.old) (cell_id p.0) p.1) }
    requires second { IfSome second (λ p. IsPort (cells_by cells.old) (cell_id p.0) p.1) }
    ensures { cells_by cells.new ≡ cleared (cleared (cells_by cells.old) (option_map port_id first)) (option_map port_id second) }
{
    if first.is_none() && second.is_none() {
        return;
    }
    clear(cells, first);
    clear(cells, second);
}

/// The two ports become partners. A former partner of either has none.
pub fn join(cells: &mut Cells, a: Cell, i: usize, b: Cell, j: usize)
    requires a { IsPort (cells_by cells.old) (cell_id a) i }
    requires b { IsPort (cells_by cells.old) (cell_id b) j }
    requires reaches { Reaches (cells_by cells.old) }
    requires differ { IsSamePort (cell_id a) i (cell_id b) j → ⊥ }
    ensures joined { cells_by cells.new ≡ joined (cells_by cells.old) (cell_id a) i (cell_id b) j }
    ensures reaches { Reaches (cells_by cells.new) }
    ensures paired { Paired (cells_by cells.old) → Paired (cells_by cells.new) }
{
    cells.few_ports();
    let first = partner(cells, a, i);
    let second = partner(cells, b, j);
    clear_both(cells, first, second);
    set_partner(cells, a, i, Some((b, j as u64)));
    set_partner(cells, b, j, Some((a, i as u64)));
}

/// The port and its partner have none.
pub fn split(cells: &mut Cells, c: Cell, i: usize)
    requires port { IsPort (cells_by cells.old) (cell_id c) i }
    requires reaches { Reaches (cells_by cells.old) }
    ensures parted { cells_by cells.new ≡ parted (cells_by cells.old) (cell_id c) i }
    ensures reaches { Reaches (cells_by cells.new) }
    ensures paired { Paired (cells_by cells.old) → Paired (cells_by cells.new) }
{
    let other = partner(cells, c, i);
    clear(cells, other);
    set_partner(cells, c, i, None);
}

/// None of the first ports of a cell has a partner then.
pub fn split_all(cells: &mut Cells, c: Cell, count: usize)
    requires ports { (k : ℕ) → k < count → IsPort (cells_by cells.old) (cell_id c) k }
    requires reaches { Reaches (cells_by cells.old) }
    ensures reaches { Reaches (cells_by cells.new) }
    ensures paired { Paired (cells_by cells.old) → Paired (cells_by cells.new) }
    ensures alone { (k : ℕ) → k < count → partner_in (cells_by cells.new) (cell_id c) k ≡ None }
{
    for i in 0..count {
        split(cells, c, i);
    }
}
