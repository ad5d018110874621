//! Reads the listings of the codes of rules.
ghost use Rattle.std.specs.Prelude.{ℕ, List, ◌≡◌, ◌<◌, ◌≤◌, ◌+◌, ◌-◌, ◌*◌, ◌^◌, ◌++◌, true, false, length, drop, take, codes, IfOk, IfErr, IfSome, IfNone};
ghost use Rattle.std.specs.List.{AllByRecursion, flat_map};
ghost use Rattle.std.specs.Fmt.{decimal};
ghost use Rattle.lmn_base.specs.Refusals.{IfRefused};
ghost use Rattle.lmn_base.specs.declared.refusal.TextFault.TheVariants as fault;
ghost use Rattle.lmn_instr_code.specs.Words.{opcode_of};
ghost use Rattle.lmn_instr_reading.specs.Reading.{AddsNames, NumbersNames};
ghost use Rattle.lmn_verify_code.specs.Operands.{instr_names, code_names};
ghost use Rattle.lmn_verify_listing.specs.Lines.{IsLine, rule, first_line};
ghost use Rattle.lmn_verify_listing.specs.Listings.{AreListed, IsFirstUnverified, IsRefusedListing, lines_of, lines_of_all};
ghost use Rattle.lmn_verify_listing.specs.Reaching.{IsLineEnd, IsReadAt, IsEnded, IsReadCode, Reached, IsRefusedLine, last_of, due_in};
ghost use Rattle.lmn_verify_code.specs.Verified.{IsVerified};

use crate::line::read_line;
use crate::operand::place_of;
use lmn_base::{Names, NoMemory, Pos, RefusalCode, Rows, TextFault};
use lmn_instr_code::{Code, Instr};
use lmn_instr_reading::is_decimal;
use lmn_verify_code::{is_commit, is_proceed, is_verified};
use std::alloc::Global;

/// An instruction that was read, and where its line ends.
#[derive(Drop)]
struct LineRead {
    instr: Instr,
    end: usize,
}

/// Some instructions, and the place behind them: so many bytes are read, and this line is the next.
#[derive(Drop)]
struct Block {
    instrs: Rows<Instr>,
    at: usize,
    line: u64,
}

/// The code of a rule, and the place behind it.
#[derive(Drop)]
struct RuleRead {
    code: Code,
    at: usize,
    line: u64,
}

/// The refusal of a line, or of one that is missing.
fn not_a_listing(line: u64) -> TextFault
    ensures { result ≡ fault.Refused (record { code = 81; pos = record { line = line; column = 1 } }) }
{
    TextFault::Refused(RefusalCode::NotAListing.at(Pos { line, column: 1 }))
}

/// What stands from a place on.
fn rest_of(listing: &[u8], at: usize) -> &[u8]
    requires { at ≤ length listing.now }
    ensures { result.now ≡ drop at listing.now }
{
    &listing[at..]
}

/// What stands between two places.
fn between(listing: &[u8], at: usize, end: usize) -> &[u8]
    requires back { at ≤ end }
    requires within { end ≤ length listing.now }
    ensures { result.now ≡ take (end - at) (drop at listing.now) }
{
    &listing[at..end]
}

/// Where the line that begins at a place ends, with its line feed.
fn line_end(listing: &[u8], at: usize) -> usize
    requires { at ≤ length listing.now }
    ensures { IsLineEnd listing.now at result }
{
    let rest = rest_of(listing, at);
    let line = place_of(b'\n', rest);
    if line < rest.len() {
        at + line + 1
    } else {
        listing.len()
    }
}

/// Whether a line is the first of the listing of the code of the rule with a number.
fn is_rule_line(line: &[u8], number: u32) -> bool
    ensures yes { result ≡ true → codes "rule " ++ (decimal number ++ codes "\n") ≡ line.now }
    ensures no { result ≡ false → codes "rule " ++ (decimal number ++ codes "\n") ≡ line.now → ⊥ }
{
    match line.strip_prefix(b"rule ".as_slice()) {
        Some(behind) => match behind.strip_suffix(b"\n".as_slice()) {
            Some(text) => is_decimal(text, number as u64),
            None => false,
        },
        None => false,
    }
}

/// Whether an instruction ends a head or a body.
fn ends(in_head: bool, instr: &Instr) -> bool
    ensures yes { result ≡ true → instr.now ≡ last_of in_head }
    ensures no { result ≡ false → opcode_of instr.now ≡ opcode_of (last_of in_head) → ⊥ }
{
    if in_head {
        is_commit(instr)
    } else {
        is_proceed(instr)
    }
}

/// Reads the line that begins at a place, if it is one of a head or of a body.
fn read_at(
    alloc: Global,
    in_head: bool,
    listing: &[u8],
    at: usize,
    names: &mut Names,
) -> Result<Option<LineRead>, NoMemory>
    requires within { at ≤ length listing.now }
    requires room { length names.old + 3 < 2 ^ 32 }
    ensures some { IfOk result (λ found. IfSome found (λ l. IsReadAt in_head names.new listing.now at l.instr l.end)) }
    ensures none { IfOk result (λ found. IfNone found (IsLine in_head (first_line (drop at listing.now)) → ⊥)) }
    ensures order { IfOk result (λ found. IfSome found (λ l. NumbersNames names.old (instr_names l.instr) names.new)) }
    ensures names { AddsNames 3 names.old names.new }
{
    let end = line_end(listing, at);
    match read_line(alloc, in_head, between(listing, at, end), names)? {
        Some(instr) => Ok(Some(LineRead { instr, end })),
        None => Ok(None),
    }
}

/// Reads the instructions of a head or of a body, up to the one that ends it.
fn read_block(
    alloc: Global,
    listing: &[u8],
    in_head: bool,
    from: usize,
    first: u64,
    names: &mut Names,
) -> Result<Block, TextFault>
    requires within { from ≤ length listing.now }
    requires short { length listing.now < 2 ^ 32 }
    requires line { first ≤ from + 1 }
    requires room { length names.old + 3 * (length listing.now - from) < 2 ^ 32 }
    ensures names { AddsNames (3 * (length listing.now - from)) names.old names.new }
    ensures block { IfOk result (λ b. IsEnded in_head listing.now names.old names.new from first b.at b.line b.instrs) }
    ensures refused { IfErr result (λ e. IfRefused e (λ r. (n j : ℕ) → Reached n listing.now from first (due_in in_head j) → IsRefusedLine n listing.now r)) }
{
    let mut instrs = Rows::new(alloc);
    let mut at = from;
    let mut line = first;
    while at < listing.len() {
        match read_at(alloc, in_head, listing, at, names)? {
            Some(next) => {
                let last = ends(in_head, &next.instr);
                instrs.push(next.instr)?;
                at = next.end;
                line += 1;
                if last {
                    return Ok(Block { instrs, at, line });
                }
            }
            None => return Err(not_a_listing(line)),
        }
    }
    Err(not_a_listing(line))
}

/// Reads the listing of the code of the rule with a number.
fn read_code(
    alloc: Global,
    listing: &[u8],
    number: u32,
    from: usize,
    first: u64,
    names: &mut Names,
) -> Result<RuleRead, TextFault>
    requires within { from ≤ length listing.now }
    requires short { length listing.now < 2 ^ 32 }
    requires line { first ≤ from + 1 }
    requires room { length names.old + 3 * (length listing.now - from) < 2 ^ 32 }
    ensures names { AddsNames (3 * (length listing.now - from)) names.old names.new }
    ensures code { IfOk result (λ c. IsReadCode listing.now names.old names.new number from first c.at c.line c.code) }
    ensures refused { IfErr result (λ e. IfRefused e (λ r. (n : ℕ) → Reached n listing.now from first (rule number) → IsRefusedLine n listing.now r)) }
{
    let end = line_end(listing, from);
    if !is_rule_line(between(listing, from, end), number) {
        return Err(not_a_listing(first));
    }
    let head = read_block(alloc, listing, true, end, first + 1, names)?;
    let body = read_block(alloc, listing, false, head.at, head.line, names)?;
    Ok(RuleRead {
        code: Code {
            head: head.instrs,
            body: body.instrs,
        },
        at: body.at,
        line: body.line,
    })
}

/// Reads the listings of the codes of so many rules, and nothing behind them.
fn read_codes(
    alloc: Global,
    listing: &[u8],
    rules: u32,
    names: &mut Names,
) -> Result<Rows<Code>, TextFault>
    requires short { length listing.now < 2 ^ 32 }
    requires room { length names.old + 3 * length listing.now < 2 ^ 32 }
    ensures listed { IfOk result (λ codes. AreListed rules names.new codes listing.now) }
    ensures few { IfOk result (λ codes. lines_of_all codes ≤ length listing.now) }
    ensures order { IfOk result (λ codes. NumbersNames names.old (flat_map code_names codes) names.new) }
    ensures names { AddsNames (3 * length listing.now) names.old names.new }
    ensures refused { IfErr result (λ e. IfRefused e (IsRefusedLine rules listing.now)) }
{
    let mut codes = Rows::new(alloc);
    let mut at = 0;
    let mut line = 1;
    for number in 0..rules {
        let read = read_code(alloc, listing, number, at, line, names)?;
        codes.push(read.code)?;
        at = read.at;
        line = read.line;
    }
    if at < listing.len() {
        return Err(not_a_listing(line));
    }
    Ok(codes)
}

/// How many lines the listing of a code has.
fn lines_of(code: &Code) -> u64
    requires { lines_of code.now < 2 ^ 64 }
    ensures { result ≡ lines_of code.now }
{
    1 + code.head.len() as u64 + code.body.len() as u64
}

/// The line of the first rule whose code isn't verified, if there is one.
fn first_unverified(alloc: Global, codes: &[Code], rules: u32) -> Result<Option<u64>, NoMemory>
    requires { lines_of_all codes.now < 2 ^ 32 }
    ensures some { IfOk result (λ found. IfSome found (λ line. IsFirstUnverified rules codes.now line)) }
    ensures none { IfOk result (λ found. IfNone found (AllByRecursion (λ c. IsVerified c rules) codes.now)) }
{
    let mut line = 1;
    for code in codes {
        if !is_verified(alloc, code, rules)? {
            return Ok(Some(line));
        }
        line += lines_of(code);
    }
    Ok(None)
}

/// Reads the listings of the codes of so many rules, numbered from 0 on and one behind the other. Each code is verified.
/// New names are put; where codes are read, verified or not, in the order in which they stand in the listing.
///
/// # Errors
///
/// `Refused` with the code 81 at the first line that doesn't stand in its place or is missing, or with 82 at the line of the
/// first rule whose code isn't verified; `NoMemory` at want of memory.
pub fn read(
    alloc: Global,
    listing: &[u8],
    rules: u32,
    names: &mut Names,
) -> Result<Rows<Code>, TextFault>
    requires short { length listing.now ≤ 67108864 }
    requires room { length names.old ≤ 2 ^ 31 }
    ensures listed { IfOk result (λ codes. AreListed rules names.new codes listing.now) }
    ensures verified { IfOk result (λ codes. AllByRecursion (λ c. IsVerified c rules) codes) }
    ensures order { IfOk result (λ codes. NumbersNames names.old (flat_map code_names codes) names.new) }
    ensures names { AddsNames (3 * length listing.now) names.old names.new }
    ensures refused { IfErr result (λ e. IfRefused e (λ r. IsRefusedListing rules names.old names.new listing.now r.code r.pos.line × (r.pos.column ≡ 1))) }
{
    let codes = read_codes(alloc, listing, rules, names)?;
    match first_unverified(alloc, codes.as_slice(), rules)? {
        Some(line) => Err(TextFault::Refused(RefusalCode::CodeNotVerified.at(Pos {
            line,
            column: 1,
        }))),
        None => Ok(codes),
    }
}
