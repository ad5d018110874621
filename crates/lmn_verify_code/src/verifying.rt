//! Whether the code of a rule is verified.
ghost use Rattle.lmn_base.specs.Limits.{most_head_items};
ghost use Rattle.std.specs.Prelude.{◌≡◌, ◌<◌, ◌≤◌, ◌+◌, ◌^◌, true, false, count_by, IfOk, Decides};
ghost use Rattle.lmn_verify_code.specs.Verified.{is_copy, IsVerified};
ghost use Rattle.lmn_verify_code.specs.Passing.{head_passes, body_passes, ports_pass};

use crate::apart::are_told_apart;
use crate::bodies::{behind, makes_and_ties, takes_atoms};
use crate::emptied::all_emptied;
use crate::found::{FoundAtom, FoundMembrane, FoundPart};
use crate::heads::{all_get_integers, all_looked_at, finds_first, is_head};
use crate::ports::{all_have_ports, all_stand_once};
use crate::registers::is_in_order;
use crate::tables::{add_all_places, arities, atoms_found, is_copy, membranes_found, parts_found};
use lmn_base::limits::MOST_HEAD_ITEMS;
use lmn_base::{NoMemory, Rows};
use lmn_instr_code::{Code, Instr, NewPort};
use std::alloc::Global;

/// Whether a head passes the tests of instructions alone.
fn head_passes(
    alloc: Global,
    head: &[Instr],
    atoms: &[FoundAtom],
    membranes: &[FoundMembrane],
    parts: &[FoundPart],
) -> Result<bool, NoMemory>
    ensures { IfOk result (λ b. b ≡ head_passes head.now atoms.now membranes.now parts.now) }
{
    Ok(
        all_looked_at(head)
            && finds_first(head)
            && all_get_integers(parts, head)
            && is_head(head)
            && are_told_apart(alloc, head, atoms, membranes)?,
    )
}

/// Whether a body takes out what a head holds, and then makes and ties.
fn body_passes(body: &[Instr], atoms: usize, membranes: usize, parts: usize, rules: u32) -> bool
    requires { membranes < 2 ^ 32 }
    ensures { result ≡ body_passes body.now atoms membranes parts rules }
{
    takes_atoms(body, atoms, parts, membranes)
        && makes_and_ties(
            membranes + 1,
            rules,
            atoms,
            behind(behind(behind(body, atoms), parts), membranes),
            0,
        )
}

/// Whether each port that a code names is one of its atom, and each port and each copy stands in exactly one place.
fn ports_pass(
    alloc: Global,
    head: &[Instr],
    body: &[Instr],
    stands: &[NewPort],
    arities: &[u8],
    copies: usize,
) -> Result<bool, NoMemory>
    ensures { IfOk result (λ b. b ≡ ports_pass head.now body.now stands.now arities.now copies) }
{
    Ok(
        all_have_ports(arities, head)
            && all_have_ports(arities, body)
            && all_stand_once(alloc, stands, arities, copies)?,
    )
}

/// How many copies a body makes.
fn copies_of(body: &[Instr]) -> usize
    ensures { result ≡ count_by is_copy body.now }
{
    body.iter().filter(|instr| is_copy(instr)).count()
}

/// Whether so few atoms and membranes are found.
fn are_few(atoms: usize, membranes: usize) -> bool
    ensures yes { result ≡ true → atoms + membranes ≤ most_head_items }
    ensures no { result ≡ false → atoms + membranes ≤ most_head_items → ⊥ }
{
    let most = MOST_HEAD_ITEMS as usize;
    atoms <= most && membranes <= most - atoms
}

/// Whether the code of a rule is verified, where there are so many rules.
///
/// # Errors
///
/// `NoMemory` at want of memory.
pub fn is_verified(alloc: Global, code: &Code, rules: u32) -> Result<bool, NoMemory>
    ensures { IfOk result (λ b. Decides b (IsVerified code.now rules)) }
{
    let head = code.head.as_slice();
    let body = code.body.as_slice();
    if !is_in_order(head, body) {
        return Ok(false);
    }
    let atoms = atoms_found(alloc, head)?;
    let membranes = membranes_found(alloc, head)?;
    if !are_few(atoms.len(), membranes.len()) {
        return Ok(false);
    }
    let parts = parts_found(alloc, head)?;
    let head_stands = head_passes(
        alloc,
        head,
        atoms.as_slice(),
        membranes.as_slice(),
        parts.as_slice(),
    )?;
    if !head_stands {
        return Ok(false);
    }
    if !body_passes(body, atoms.len(), membranes.len(), parts.len(), rules) {
        return Ok(false);
    }
    if !all_emptied(
        code,
        atoms.as_slice(),
        membranes.as_slice(),
        parts.as_slice(),
    ) {
        return Ok(false);
    }
    let arities = arities(alloc, atoms.as_slice(), body)?;
    let mut stands = Rows::new(alloc);
    add_all_places(&mut stands, head)?;
    add_all_places(&mut stands, body)?;
    let ports_stand = ports_pass(
        alloc,
        head,
        body,
        stands.as_slice(),
        arities.as_slice(),
        copies_of(body),
    )?;
    Ok(ports_stand)
}
