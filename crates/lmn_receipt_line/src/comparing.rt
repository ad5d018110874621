//! The line of a solid beside a text.
ghost use Rattle.std.specs.Prelude.{◌≡◌, ◌<◌, ◌≤◌, ◌++◌, ℕ, List, IfOk, IfSome, None, drop, false, length};
ghost use Rattle.lmn_adequacy.specs.Choice.{paths};
ghost use Rattle.lmn_congruence.specs.Rules.{Name};
ghost use Rattle.lmn_congruence.specs.Translation.{region_of};
ghost use Rattle.lmn_flatten_plain.specs.SolidLines.{solid_line};
ghost use Rattle.lmn_print_plain.specs.Rows.{any_behind};
ghost use Rattle.lmn_receipt_line.specs.Walking.{texts_in};

use crate::comparison::Comparison;
use crate::walk::Walk;
use lmn_base::{Names, NoMemory, Region, RuleTree, Solid};
use lmn_io::LineBuffer;
use lmn_print_plain::add_between;
use std::alloc::Global;

/// The length of the plain line of a solid, with its line feed, where a text begins with that line. The line isn't made: it is
/// compared with the text as far as they are the same. It takes no more stack for a deeper solid.
///
/// # Errors
///
/// `NoMemory` at want of memory.
pub fn front(
    alloc: Global,
    names: &Names,
    table: &[RuleTree],
    solid: &Solid,
    text: &[u8],
) -> Result<Option<usize>, NoMemory>
    ensures some { IfOk result (λ found. IfSome found (λ len. (0 < len) × (len ≤ length text.now) × (text.now ≡ solid_line names.now table.now solid.now ++ drop len text.now))) }
    ensures none { IfOk result (λ found. found ≡ None → (rest : List ℕ) → ¬ (text.now ≡ solid_line names.now table.now solid.now ++ rest)) }
{
    let mut out = Comparison::new(text);
    let mut buffer = LineBuffer::new();
    let mut walk = Walk::new(alloc, &solid.root)?;
    while let Some(_number) = walk.step(&mut buffer, &mut out, names, table)? {
        if out.met().is_none() {
            return Ok(None);
        }
    }
    add_between(&mut buffer, &mut out, has_items(&solid.root), b".");
    buffer.add(&mut out, b"\n");
    // Where the line isn't there the sink has failed, and `met` tells it too.
    let _written = buffer.finish(&mut out);
    Ok(out.met())
}

/// The number of the membrane, in preorder and counted from 0, the root's, at whose part of its plain line a text first differs from
/// that of a solid; the root's where none is found. What changed in a membrane shows there first. It takes no more stack for a deeper
/// solid.
///
/// # Errors
///
/// `NoMemory` at want of memory.
pub fn hint(
    alloc: Global,
    names: &Names,
    table: &[RuleTree],
    solid: &Solid,
    text: &[u8],
) -> Result<u64, NoMemory>
    ensures { IfOk result (λ number. number < length (paths (region_of names.now table.now solid.now))) }
{
    let mut out = Comparison::new(text);
    let mut walk = Walk::new(alloc, &solid.root)?;
    let mut buffer = LineBuffer::new();
    while let Some(number) = walk.step(&mut buffer, &mut out, names, table)? {
        if buffer.finish(&mut out).is_err() {
            return Ok(number);
        }
        buffer = LineBuffer::new();
    }
    Ok(0)
}

/// Whether anything stands in a region.
fn has_items(region: &Region) -> bool
    ensures { (names : List Name) (table : List RuleTree) → result ≡ any_behind false (texts_in names table region.now) }
{
    region.atoms.len() > 0 || region.membranes.len() > 0 || region.rules.len() > 0
}
