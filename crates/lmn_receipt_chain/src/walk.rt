ghost use Rattle.std.specs.Prelude.{◌≡◌, ◌<◌, ◌≤◌, ◌↔◌, ◌++◌, ℕ, List, None, IfOk, IfSome, IsTrue, length};
ghost use Rattle.lmn_congruence.specs.Regions.{Region};
ghost use Rattle.lmn_adequacy.specs.Choice.{paths};
ghost use Rattle.lmn_app_runs.specs.Runs.{end_line};
ghost use Rattle.lmn_receipt_chain.specs.Bytes.{IsFirstLine};
ghost use Rattle.lmn_receipt_chain.specs.Chains.{Continues, IsEndThere, IsProcessThere, line_of_solid};
ghost use Rattle.lmn_receipt_chain.specs.Steps.{IsOtherEnd, IsStep};
ghost use Rattle.lmn_receipt_chain.specs.Laws.{IsAcceptedSolid};

use crate::alike::opened_alike;
use crate::left_out::left_out;
use crate::lines::first_line;
use crate::next::NextSolids;
use itoa::Buffer;
use lmn_base::{NoMemory, Solid};
use std::alloc::{AllocError, Global};

/// What is found behind the line of a solid.
#[derive(Drop)]
pub(crate) enum Step {
    /// The line of a solid that continues it, and the length of that line.
    More(Solid, usize),
    /// The end line.
    Done,
    /// A line that is wrong.
    WrongLine,
    /// An end that is wrong.
    WrongEnd,
}

/// What is found behind the line of a solid, so many commits done.
pub(crate) fn take_step<N: NextSolids>(
    alloc: Global,
    solids: &N,
    solid: &Solid,
    own: &[u8],
    rest: &[u8],
    commits: u64,
) -> Result<Step, NoMemory>
    requires fits { N.fits solids.now solid.now }
    requires sound { IsAcceptedSolid (N.region solids.now solid.now) }
    requires own { own.now ≡ line_of_solid (N.region solids.now solid.now) }
    ensures { IfOk result (IsStep (N.region solids.now) (N.fits solids.now) (N.region solids.now solid.now) rest.now commits) }
{
    match rest {
        [] => end(alloc, solids, solid, rest, commits),
        [first, ..] => {
            if *first == b'%' {
                end(alloc, solids, solid, rest, commits)
            } else {
                line(alloc, solids, solid, own, rest)
            }
        }
    }
}

/// What an end is.
fn end<N: NextSolids>(
    alloc: Global,
    solids: &N,
    solid: &Solid,
    rest: &[u8],
    commits: u64,
) -> Result<Step, NoMemory>
    requires fits { N.fits solids.now solid.now }
    requires there { IsEndThere rest.now }
    ensures { IfOk result (IsStep (N.region solids.now) (N.fits solids.now) (N.region solids.now solid.now) rest.now commits) }
{
    let embeds = solids.embeds(alloc, solid)?;
    let other = is_other_end(alloc, rest, commits)?;
    let stuck = is_end_line(alloc, rest, b"irreducible", commits)?;
    if embeds {
        if other {
            Ok(Step::Done)
        } else {
            Ok(Step::WrongEnd)
        }
    } else if stuck {
        Ok(Step::Done)
    } else {
        Ok(Step::WrongEnd)
    }
}

/// Whether a text is an end line where a firing is possible.
fn is_other_end(alloc: Global, rest: &[u8], commits: u64) -> Result<bool, NoMemory>
    ensures { IfOk result (λ is. IsTrue is ↔ IsOtherEnd rest.now commits) }
{
    let budget = is_end_line(alloc, rest, b"budget", commits)?;
    let full = is_end_line(alloc, rest, b"full", commits)?;
    let memory = is_end_line(alloc, rest, b"no memory", commits)?;
    Ok(budget || full || memory)
}

/// Whether a text is the end line with a word.
fn is_end_line(alloc: Global, text: &[u8], word: &[u8], commits: u64) -> Result<bool, NoMemory>
    ensures { IfOk result (λ is. IsTrue is ↔ (text.now ≡ end_line word.now commits)) }
{
    match end_line(alloc, word, commits) {
        Ok(line) => Ok(line.as_slice() == text),
        Err(AllocError) => Err(NoMemory),
    }
}

/// The end line with a word.
fn end_line(alloc: Global, word: &[u8], commits: u64) -> Result<Vec<u8>, AllocError>
    ensures { IfOk result (λ line. line.items ≡ end_line word.now commits) }
{
    let mut line = Vec::new(alloc);
    line.extend_from_slice(b"% ")?;
    line.extend_from_slice(word)?;
    line.extend_from_slice(b" after ")?;
    line.extend_from_slice(Buffer::new().format(commits).as_bytes())?;
    line.extend_from_slice(b"\n")?;
    Ok(line)
}

/// A next solid whose line fits. Another one is let go, however deep it is.
fn fitting<N: NextSolids>(
    alloc: Global,
    solids: &N,
    next: Option<Solid>,
    rest: &[u8],
) -> Result<Option<Step>, NoMemory>
    requires fits { IfSome next (N.fits solids.now) }
    ensures some { (S : Region) (commits : ℕ) → IfSome next (λ s. Continues S (N.region solids.now s)) →
        IfOk result (λ found. IfSome found (IsStep (N.region solids.now) (N.fits solids.now) S rest.now commits)) }
    ensures none { IfOk result (λ found. found ≡ None → IfSome next (λ s. (more : List ℕ) → ¬ (rest.now ≡ line_of_solid (N.region solids.now s) ++ more))) }
{
    let Some(next) = next else {
        return Ok(None);
    };
    match solids.front(alloc, &next, rest) {
        Ok(Some(len)) => Ok(Some(Step::More(next, len))),
        Ok(None) => {
            next.root.dismantle();
            Ok(None)
        }
        Err(NoMemory) => {
            next.root.dismantle();
            Err(NoMemory)
        }
    }
}

/// The next solid from one number of a membrane, if that is one, where its line fits.
fn try_hint<N: NextSolids>(
    alloc: Global,
    solids: &N,
    tables: &mut N::Tables,
    rest: &[u8],
    first: &[u8],
    hint: u64,
    count: u64,
) -> Result<Option<Step>, NoMemory>
    requires first { IsFirstLine rest.now first.now }
    requires asked { (solid : Solid) × N.fits solids.now solid × N.are_of solids.now solid tables.old × (count ≡ length (paths (N.region solids.now solid))) }
    ensures tables { (solid : Solid) → N.fits solids.now solid → N.are_of solids.now solid tables.old → N.are_of solids.now solid tables.new }
    ensures found { (solid : Solid) (commits : ℕ) → N.fits solids.now solid → N.are_of solids.now solid tables.old →
        IfOk result (λ found. IfSome found (IsStep (N.region solids.now) (N.fits solids.now) (N.region solids.now solid) rest.now commits)) }
{
    if hint >= count {
        return Ok(None);
    }
    match solids.next_from(alloc, tables, hint, rest, first, &[])? {
        None => Ok(None),
        Some(next) => fitting(alloc, solids, next.solid, rest),
    }
}

/// How many membranes are asked, from the root on, where so many are there and so many braces are opened before a line differs.
fn asked_of(count: u64, opened: u64) -> u64
    ensures few { result ≤ count }
    ensures others { (m : ℕ) → result ≤ m → m < count → opened < m }
{
    if opened < count { opened + 1 } else { count }
}

/// What a process line is: that of a choice that fits, or wrong. The tables of the solid are made once for all its choices. A choice is left
/// out where its membrane stands in the solid's own line behind all that the two lines begin with alike, or before all that they end with
/// alike: a firing there changes nothing of what stands round it.
fn line<N: NextSolids>(
    alloc: Global,
    solids: &N,
    solid: &Solid,
    own: &[u8],
    rest: &[u8],
) -> Result<Step, NoMemory>
    requires fits { N.fits solids.now solid.now }
    requires sound { IsAcceptedSolid (N.region solids.now solid.now) }
    requires own { own.now ≡ line_of_solid (N.region solids.now solid.now) }
    requires there { IsProcessThere rest.now }
    ensures { (commits : ℕ) → IfOk result (IsStep (N.region solids.now) (N.fits solids.now) (N.region solids.now solid.now) rest.now commits) }
{
    let count = solids.membranes(alloc, solid)?;
    let first = first_line(rest);
    let hint = solids.hint(alloc, solid, rest)?;
    let mut tables = solids.tables(alloc, solid)?;
    if let Some(found) = try_hint(alloc, solids, &mut tables, rest, first, hint, count)? {
        return Ok(found);
    }
    let opened = opened_alike(own, rest)?;
    let asked = asked_of(count, opened);
    let left_out = left_out(alloc, solids, &tables, own, rest, first)?;
    let mut from = 0u64;
    while from < asked {
        let Some(next) = solids.next_from(
            alloc,
            &mut tables,
            from,
            rest,
            first,
            left_out.as_slice(),
        )?
        else {
            return Ok(Step::WrongLine);
        };
        let reach = next.reach;
        if let Some(found) = fitting(alloc, solids, next.solid, rest)? {
            return Ok(found);
        }
        from = reach + 1;
    }
    Ok(Step::WrongLine)
}
