//! Whether a membrane that is taken out is empty then.
ghost use Rattle.std.specs.Prelude.{◌≡◌, ◌==◌, if◌then◌else◌, count_by};
ghost use Rattle.std.specs.List.{list_all, list_any};
ghost use Rattle.lmn_verify_code.specs.Verified.{names_parts, counts_atoms, counts_membranes, is_counted, finds_closed, is_closed, is_count_of, asks_closed, moves, copies_rest, drops_rest, nothing_left, rest_moved, rest_dropped, is_emptied, atoms_found, membranes_found, parts_found};

use crate::found::{FoundAtom, FoundMembrane, FoundPart};
use lmn_instr_code::{Code, Instr};

/// Whether the number of a typed context stands as often in a list as it should.
fn is_named(membrane: u16, parts: &[u16], found: &FoundPart) -> bool
    ensures { result ≡ (count_by (λ g. g == found.now.part) parts.now == (if found.now.membrane == membrane then 1 else 0)) }
{
    let times = parts.iter().filter(|part| **part == found.part).count();
    if found.membrane == membrane {
        times == 1
    } else {
        times == 0
    }
}

/// Whether these are the numbers of the typed contexts in a membrane, each once.
fn names_parts(membrane: u16, parts: &[u16], found: &[FoundPart]) -> bool
    ensures { result ≡ names_parts membrane parts.now found.now }
{
    found.iter().all(|part| is_named(membrane, parts, part))
}

/// How many of these atoms stand in a membrane.
fn atoms_inside(atoms: &[FoundAtom], membrane: u16) -> usize
    ensures { result ≡ count_by (λ a. a.membrane == membrane) atoms.now }
{
    atoms
        .iter()
        .filter(|atom| atom.membrane == membrane)
        .count()
}

/// How many of these membranes stand in a membrane.
fn membranes_inside(membranes: &[FoundMembrane], membrane: u16) -> usize
    ensures { result ≡ count_by (λ b. b.inside == membrane) membranes.now }
{
    membranes
        .iter()
        .filter(|inner| inner.inside == membrane)
        .count()
}

/// Whether an instruction is NATOMS of a membrane with the number of its atoms and exactly its typed contexts.
fn counts_atoms(atoms: &[FoundAtom], found: &[FoundPart], membrane: u16, instr: &Instr) -> bool
    ensures { result ≡ counts_atoms atoms.now found.now membrane instr.now }
{
    match instr {
        Instr::NAtoms {
            membrane: of,
            count,
            parts,
        } => {
            *of == membrane
                && *count == atoms_inside(atoms, membrane) as u64
                && names_parts(membrane, parts.as_slice(), found)
        }
        _ => false,
    }
}

/// Whether an instruction is NMEMS of a membrane with the number of its membranes.
fn counts_membranes(membranes: &[FoundMembrane], membrane: u16, instr: &Instr) -> bool
    ensures { result ≡ counts_membranes membranes.now membrane instr.now }
{
    match instr {
        Instr::NMems {
            membrane: of,
            count,
        } => *of == membrane && *count == membranes_inside(membranes, membrane) as u64,
        _ => false,
    }
}

/// Whether an instruction is ISCLOSED of a membrane with exactly its typed contexts.
fn finds_closed(found: &[FoundPart], membrane: u16, instr: &Instr) -> bool
    ensures { result ≡ finds_closed found.now membrane instr.now }
{
    match instr {
        Instr::IsClosed {
            membrane: of,
            parts,
        } => *of == membrane && names_parts(membrane, parts.as_slice(), found),
        _ => false,
    }
}

/// Whether an instruction is NATOMS or NMEMS of a membrane.
fn is_count_of(membrane: u16, instr: &Instr) -> bool
    ensures { result ≡ is_count_of membrane instr.now }
{
    match instr {
        Instr::NAtoms { membrane: of, .. } => *of == membrane,
        Instr::NMems { membrane: of, .. } => *of == membrane,
        _ => false,
    }
}

/// Whether an instruction is ISCLOSED of a membrane.
fn asks_closed(membrane: u16, instr: &Instr) -> bool
    ensures { result ≡ asks_closed membrane instr.now }
{
    match instr {
        Instr::IsClosed { membrane: of, .. } => *of == membrane,
        _ => false,
    }
}

/// Whether an instruction is MOVECELLS of a membrane.
fn moves(membrane: u16, instr: &Instr) -> bool
    ensures { result ≡ moves membrane instr.now }
{
    match instr {
        Instr::MoveCells { from, .. } => *from == membrane,
        _ => false,
    }
}

/// Whether an instruction is COPYCELLS of a membrane.
fn copies_rest(membrane: u16, instr: &Instr) -> bool
    ensures { result ≡ copies_rest membrane instr.now }
{
    match instr {
        Instr::CopyCells { from, .. } => *from == membrane,
        _ => false,
    }
}

/// Whether an instruction is DROPCELLS of a membrane.
fn drops_rest(membrane: u16, instr: &Instr) -> bool
    ensures { result ≡ drops_rest membrane instr.now }
{
    match instr {
        Instr::DropCells { membrane: of } => *of == membrane,
        _ => false,
    }
}

/// Whether the head counts the atoms that a membrane holds.
fn are_atoms_counted(
    head: &[Instr],
    atoms: &[FoundAtom],
    parts: &[FoundPart],
    membrane: u16,
) -> bool
    ensures { result ≡ list_any (counts_atoms atoms.now parts.now membrane) head.now }
{
    head.iter()
        .any(|instr| counts_atoms(atoms, parts, membrane, instr))
}

/// Whether it counts the membranes.
fn are_membranes_counted(head: &[Instr], membranes: &[FoundMembrane], membrane: u16) -> bool
    ensures { result ≡ list_any (counts_membranes membranes.now membrane) head.now }
{
    head.iter()
        .any(|instr| counts_membranes(membranes, membrane, instr))
}

/// Whether the head tells that no link leaves the rest of a membrane.
fn is_closed(head: &[Instr], parts: &[FoundPart], membrane: u16) -> bool
    requires { parts.now ≡ parts_found head.now }
    ensures { result ≡ is_closed head.now membrane }
{
    some_finds_closed(head, parts, membrane)
}

/// Whether some instruction is ISCLOSED of a membrane with exactly its typed contexts.
fn some_finds_closed(head: &[Instr], parts: &[FoundPart], membrane: u16) -> bool
    ensures { result ≡ list_any (finds_closed parts.now membrane) head.now }
{
    head.iter()
        .any(|instr| finds_closed(parts, membrane, instr))
}

/// Whether some instruction is NATOMS or NMEMS of a membrane.
fn some_counts(head: &[Instr], membrane: u16) -> bool
    ensures { result ≡ list_any (is_count_of membrane) head.now }
{
    head.iter().any(|instr| is_count_of(membrane, instr))
}

/// Whether some instruction is ISCLOSED of a membrane.
fn some_asks_closed(head: &[Instr], membrane: u16) -> bool
    ensures { result ≡ list_any (asks_closed membrane) head.now }
{
    head.iter().any(|instr| asks_closed(membrane, instr))
}

/// Whether some instruction is MOVECELLS of a membrane.
fn some_moves(body: &[Instr], membrane: u16) -> bool
    ensures { result ≡ list_any (moves membrane) body.now }
{
    body.iter().any(|instr| moves(membrane, instr))
}

/// Whether some instruction is COPYCELLS of a membrane.
fn some_copies(body: &[Instr], membrane: u16) -> bool
    ensures { result ≡ list_any (copies_rest membrane) body.now }
{
    body.iter().any(|instr| copies_rest(membrane, instr))
}

/// Whether some instruction is DROPCELLS of a membrane.
fn some_drops(body: &[Instr], membrane: u16) -> bool
    ensures { result ≡ list_any (drops_rest membrane) body.now }
{
    body.iter().any(|instr| drops_rest(membrane, instr))
}

/// How often a body moves what is left in a membrane.
fn times_moved(body: &[Instr], membrane: u16) -> usize
    ensures { result ≡ count_by (moves membrane) body.now }
{
    body.iter().filter(|instr| moves(membrane, instr)).count()
}

/// How often a body drops what is left in a membrane.
fn times_dropped(body: &[Instr], membrane: u16) -> usize
    ensures { result ≡ count_by (drops_rest membrane) body.now }
{
    body.iter()
        .filter(|instr| drops_rest(membrane, instr))
        .count()
}

/// Whether the head counts all that a membrane holds.
fn is_counted(
    head: &[Instr],
    atoms: &[FoundAtom],
    membranes: &[FoundMembrane],
    parts: &[FoundPart],
    membrane: u16,
) -> bool
    requires atoms { atoms.now ≡ atoms_found head.now }
    requires membranes { membranes.now ≡ membranes_found head.now }
    requires parts { parts.now ≡ parts_found head.now }
    ensures { result ≡ is_counted head.now membrane }
{
    are_atoms_counted(head, atoms, parts, membrane)
        && are_membranes_counted(head, membranes, membrane)
}

/// Whether what a membrane holds is counted, so that nothing is left.
fn nothing_left(
    code: &Code,
    atoms: &[FoundAtom],
    membranes: &[FoundMembrane],
    parts: &[FoundPart],
    membrane: u16,
) -> bool
    requires atoms { atoms.now ≡ atoms_found code.now.head }
    requires membranes { membranes.now ≡ membranes_found code.now.head }
    requires parts { parts.now ≡ parts_found code.now.head }
    ensures { result ≡ nothing_left code.now membrane }
{
    let head = code.head.as_slice();
    let body = code.body.as_slice();
    is_counted(head, atoms, membranes, parts, membrane)
        && !some_asks_closed(head, membrane)
        && !some_moves(body, membrane)
        && !some_copies(body, membrane)
        && !some_drops(body, membrane)
}

/// Whether what is left in a membrane is moved, once.
fn rest_moved(code: &Code, membrane: u16) -> bool
    ensures { result ≡ rest_moved code.now membrane }
{
    let head = code.head.as_slice();
    let body = code.body.as_slice();
    times_moved(body, membrane) == 1
        && !some_counts(head, membrane)
        && !some_asks_closed(head, membrane)
        && !some_copies(body, membrane)
        && !some_drops(body, membrane)
}

/// Whether no link leaves what is left in a membrane, and it is dropped, once.
fn rest_dropped(code: &Code, parts: &[FoundPart], membrane: u16) -> bool
    requires { parts.now ≡ parts_found code.now.head }
    ensures { result ≡ rest_dropped code.now membrane }
{
    let head = code.head.as_slice();
    let body = code.body.as_slice();
    times_dropped(body, membrane) == 1
        && is_closed(head, parts, membrane)
        && !some_counts(head, membrane)
        && !some_moves(body, membrane)
}

/// Whether a membrane that is taken out is empty then.
fn is_emptied(
    code: &Code,
    atoms: &[FoundAtom],
    membranes: &[FoundMembrane],
    parts: &[FoundPart],
    found: &FoundMembrane,
) -> bool
    requires atoms { atoms.now ≡ atoms_found code.now.head }
    requires membranes { membranes.now ≡ membranes_found code.now.head }
    requires parts { parts.now ≡ parts_found code.now.head }
    ensures { result ≡ is_emptied code.now found.now }
{
    nothing_left(code, atoms, membranes, parts, found.membrane)
        || rest_moved(code, found.membrane)
        || rest_dropped(code, parts, found.membrane)
}

/// Whether each membrane is.
pub(crate) fn all_emptied(
    code: &Code,
    atoms: &[FoundAtom],
    membranes: &[FoundMembrane],
    parts: &[FoundPart],
) -> bool
    requires atoms { atoms.now ≡ atoms_found code.now.head }
    requires membranes { membranes.now ≡ membranes_found code.now.head }
    requires parts { parts.now ≡ parts_found code.now.head }
    ensures { result ≡ list_all (is_emptied code.now) membranes.now }
{
    membranes
        .iter()
        .all(|found| is_emptied(code, atoms, membranes, parts, found))
}
