//! Whether the ports that a code names are those of its atoms, and whether each stands in exactly one place.
ghost use Rattle.std.specs.Prelude.{◌≡◌, ◌==◌, ◌<◌, ◌&&◌, nat_lt, slice_index_or, length, map, [], ◌∷◌, count_by, IfOk, IfSome};
ghost use Rattle.std.specs.List.{list_all};
ghost use Rattle.lmn_congruence_splice.specs.Classes.{rising};
ghost use Rattle.lmn_instr_code.specs.declared.instr.NewPort.TheVariants as new;
ghost use Rattle.lmn_verify_code.specs.Verified.{has_port, named_ports, same_port, port_of_register, ports_of_registers, stand_once};
ghost use Rattle.lmn_verify_code.specs.Counted.{told_all, place_of, counted, port_counted, copy_counted, TellsPorts, TellsCopies};

use lmn_base::limits::{MOST_ATOM_REGISTERS, MOST_COPY_REGISTERS};
use lmn_base::{NoMemory, Rows};
use lmn_instr_code::{AtomPort, Instr, NewPort};
use std::alloc::Global;

/// Whether a port is that of an atom register.
fn is_port_of(atom: usize, port: u8, one: NewPort) -> bool
    ensures { result ≡ same_port (new.Atom (port_of_register atom port)) one }
{
    match one {
        NewPort::Atom(p) => atom == p.atom as usize && port == p.port,
        NewPort::Copy(_) => false,
    }
}

/// Counts one more at a place of a table, up to two, if it has the place.
fn count(counts: &mut Rows<u8>, place: usize)
    ensures { counts.new ≡ counted counts.old place }
{
    if place < counts.len() {
        let times = *counts.at(place);
        if times < 2 {
            counts.set(place, times + 1);
        }
    }
}

/// Counts a place of a port of an atom.
fn count_port(counts: &mut Rows<u8>, port: NewPort)
    ensures { counts.new ≡ port_counted counts.old port }
{
    match port {
        NewPort::Atom(port) => count(counts, port.atom as usize * 256 + port.port as usize),
        NewPort::Copy(_) => (),
    }
}

/// Counts a place of a copy.
fn count_copy(counts: &mut Rows<u8>, port: NewPort)
    ensures { counts.new ≡ copy_counted counts.old port }
{
    match port {
        NewPort::Atom(_) => (),
        NewPort::Copy(copy) => count(counts, copy as usize),
    }
}

/// Counts the places of all ports of atoms.
fn count_ports(counts: &mut Rows<u8>, stands: &[NewPort])
    ensures { counts.new ≡ told_all port_counted counts.old stands.now }
{
    for port in stands {
        count_port(counts, *port);
    }
}

/// Counts the places of all copies.
fn count_copies(counts: &mut Rows<u8>, stands: &[NewPort])
    ensures { counts.new ≡ told_all copy_counted counts.old stands.now }
{
    for port in stands {
        count_copy(counts, *port);
    }
}

/// A table of the ports of so many atom registers: which of them stand in exactly one place.
fn ports_told(alloc: Global, stands: &[NewPort], atoms: usize) -> Result<Rows<u8>, NoMemory>
    ensures { IfOk result (λ counts. TellsPorts stands.now counts) }
{
    let most = MOST_ATOM_REGISTERS as usize;
    let mut counts = Rows::from_vec(vec![in alloc; 0u8; atoms.min(most) * 256]?);
    count_ports(&mut counts, stands);
    Ok(counts)
}

/// A table of so many copies: which of them stand in exactly one place.
fn copies_told(alloc: Global, stands: &[NewPort], copies: usize) -> Result<Rows<u8>, NoMemory>
    ensures { IfOk result (λ counts. TellsCopies stands.now counts) }
{
    let most = MOST_COPY_REGISTERS as usize;
    let mut counts = Rows::from_vec(vec![in alloc; 0u8; copies.min(most)]?);
    count_copies(&mut counts, stands);
    Ok(counts)
}

/// The place of a port in a table, if it has one.
fn place_in(counts: &Rows<u8>, atom: usize, port: u8) -> Option<usize>
    ensures { IfSome result (λ place. (place ≡ place_of atom port) × (place < length counts.now)) }
{
    if atom < MOST_ATOM_REGISTERS as usize {
        let place = atom * 256 + port as usize;
        if place < counts.len() {
            return Some(place);
        }
    }
    None
}

/// Whether a port of an atom register stands in exactly one place, by a table, if that has its place.
fn port_stands_once(counts: &Rows<u8>, stands: &[NewPort], atom: usize, port: u8) -> bool
    requires { TellsPorts stands.now counts.now }
    ensures { result ≡ (count_by (same_port (new.Atom (port_of_register atom port))) stands.now == 1) }
{
    match place_in(counts, atom, port) {
        Some(place) => *counts.at(place) == 1,
        None => port_is_found_once(stands, atom, port),
    }
}

/// Whether a port of an atom register is one of these exactly once.
fn port_is_found_once(stands: &[NewPort], atom: usize, port: u8) -> bool
    ensures { result ≡ (count_by (same_port (new.Atom (port_of_register atom port))) stands.now == 1) }
{
    stands
        .iter()
        .filter(|one| is_port_of(atom, port, **one))
        .count()
        == 1
}

/// Whether each port of an atom register stands in exactly one place.
fn atom_stands_once(counts: &Rows<u8>, stands: &[NewPort], atom: usize, arity: u8) -> bool
    requires { TellsPorts stands.now counts.now }
    ensures { result ≡ stand_once stands.now (map (λ i. new.Atom (port_of_register atom i)) (rising 0 arity)) }
{
    for port in 0..arity {
        if !port_stands_once(counts, stands, atom, port) {
            return false;
        }
    }
    true
}

/// Whether each port of each atom register does.
fn atoms_stand_once(counts: &Rows<u8>, stands: &[NewPort], arities: &[u8]) -> bool
    requires { TellsPorts stands.now counts.now }
    ensures { result ≡ stand_once stands.now (ports_of_registers 0 arities.now) }
{
    for atom in 0..arities.len() {
        if !atom_stands_once(counts, stands, atom, arities[atom]) {
            return false;
        }
    }
    true
}

/// Whether a port is that of a copy.
fn is_copy_of(copy: usize, one: NewPort) -> bool
    ensures { result ≡ same_port (new.Copy copy) one }
{
    match one {
        NewPort::Atom(_) => false,
        NewPort::Copy(c) => copy == c as usize,
    }
}

/// Whether a copy stands in exactly one place, by a table, if that has its place.
fn copy_stands_once(counts: &Rows<u8>, stands: &[NewPort], copy: usize) -> bool
    requires { TellsCopies stands.now counts.now }
    ensures { result ≡ (count_by (same_port (new.Copy copy)) stands.now == 1) }
{
    if copy < counts.len() {
        *counts.at(copy) == 1
    } else {
        copy_is_found_once(stands, copy)
    }
}

/// Whether a copy is one of these exactly once.
fn copy_is_found_once(stands: &[NewPort], copy: usize) -> bool
    ensures { result ≡ (count_by (same_port (new.Copy copy)) stands.now == 1) }
{
    stands.iter().filter(|one| is_copy_of(copy, **one)).count() == 1
}

/// Whether each of so many copies does.
fn copies_stand_once(counts: &Rows<u8>, stands: &[NewPort], copies: usize) -> bool
    requires { TellsCopies stands.now counts.now }
    ensures { result ≡ stand_once stands.now (map new.Copy (rising 0 copies)) }
{
    for copy in 0..copies {
        if !copy_stands_once(counts, stands, copy) {
            return false;
        }
    }
    true
}

/// Whether a port is one of its atom.
fn has_port(arities: &[u8], port: NewPort) -> bool
    ensures { result ≡ has_port arities.now port }
{
    match port {
        NewPort::Atom(port) => has_atom_port(arities, port),
        NewPort::Copy(_) => true,
    }
}

/// Whether a port is one of the atom in its register.
fn has_atom_port(arities: &[u8], port: AtomPort) -> bool
    ensures { result ≡ nat_lt port.port (slice_index_or arities.now port.atom 0) }
{
    let atom = port.atom as usize;
    atom < arities.len() && port.port < arities[atom]
}

/// Whether one port is.
fn has_one(arities: &[u8], port: NewPort) -> bool
    ensures { result ≡ list_all (has_port arities.now) (port ∷ []) }
{
    has_port(arities, port)
}

/// Whether two ports are.
fn has_two(arities: &[u8], port: NewPort, other: NewPort) -> bool
    ensures { result ≡ list_all (has_port arities.now) (port ∷ (other ∷ [])) }
{
    has_port(arities, port) && has_port(arities, other)
}

/// Whether each port that an instruction names is one of its atom.
fn has_ports(arities: &[u8], instr: &Instr) -> bool
    ensures { result ≡ list_all (has_port arities.now) (named_ports instr.now) }
{
    match instr {
        Instr::NotIn { port, .. } => has_one(arities, NewPort::Atom(*port)),
        Instr::Deref { atom, from, port } => has_two(
            arities,
            NewPort::Atom(*from),
            NewPort::Atom(AtomPort {
                atom: *atom,
                port: *port,
            }),
        ),
        Instr::Joined { port, other } => {
            has_two(arities, NewPort::Atom(*port), NewPort::Atom(*other))
        }
        Instr::IsInt { port, .. } => has_one(arities, NewPort::Atom(*port)),
        Instr::IsUnary { port, .. } => has_one(arities, NewPort::Atom(*port)),
        Instr::IsGround { port, .. } => has_one(arities, NewPort::Atom(*port)),
        Instr::NewLink { port, other } => has_two(arities, *port, *other),
        Instr::Relink { port, to } => has_two(arities, *port, NewPort::Atom(*to)),
        Instr::Unify { port, other } => {
            has_two(arities, NewPort::Atom(*port), NewPort::Atom(*other))
        }
        _ => true,
    }
}

/// Whether so is each.
pub(crate) fn all_have_ports(arities: &[u8], code: &[Instr]) -> bool
    ensures { result ≡ list_all (λ i. list_all (has_port arities.now) (named_ports i)) code.now }
{
    code.iter().all(|instr| has_ports(arities, instr))
}

/// Whether each port of the atom registers, and each of so many copies, stands in exactly one of these places.
pub(crate) fn all_stand_once(
    alloc: Global,
    stands: &[NewPort],
    arities: &[u8],
    copies: usize,
) -> Result<bool, NoMemory>
    ensures { IfOk result (λ b. b ≡ (stand_once stands.now (ports_of_registers 0 arities.now) && stand_once stands.now (map new.Copy (rising 0 copies)))) }
{
    let ports = ports_told(alloc, stands, arities.len())?;
    let copies_counted = copies_told(alloc, stands, copies)?;
    Ok(
        atoms_stand_once(&ports, stands, arities)
            && copies_stand_once(&copies_counted, stands, copies),
    )
}
