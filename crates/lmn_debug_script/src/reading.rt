//! Reads the lines of a script.
ghost use Rattle.std.specs.Prelude.{ℕ, List, true, false, codes, ◌≡◌, ◌≤◌, ◌<◌, ◌+◌, ◌-◌, ◌^◌, ◌++◌, length, take, drop, IfSome, IfNone, IfOk, IfErr};
ghost use Rattle.lmn_base.specs.Refusals.{IfRefused};
ghost use Rattle.lmn_base.specs.declared.guard.Cmp.{Cmp as Comparison};
ghost use Rattle.lmn_base.specs.declared.refusal.TextFault.TheVariants.{Refused};
ghost use Rattle.lmn_instr_reading.specs.Reading.{AddsNames};
ghost use Rattle.lmn_lexer.specs.Gaps.{EndsLine};
ghost use Rattle.lmn_instr_reading.specs.Lines.{IsOneLine};
ghost use Rattle.lmn_debug_script.specs.Asked.{AreAskedWith};
ghost use Rattle.lmn_debug_script.specs.Lines.{Reads, TakesLine};
ghost use Rattle.lmn_debug_script.specs.Scripts.{AreOrdersOf, IsFirstWrong, IsCountedOrder, cmp_text};

use crate::order::Order;
use lmn_base::{Cmp, Names, NoMemory, Pos, RefusalCode, Rows, TextFault};
use lmn_instr_reading::{last_space, next_feed, number_written, read_functor};
use std::alloc::Global;

/// All operators.
const OPERATORS: [Cmp; 6] = [Cmp::Lt, Cmp::Le, Cmp::Gt, Cmp::Ge, Cmp::Eq, Cmp::Ne];

/// How an operator is written.
fn operator_text(op: Cmp) -> &'static [u8]
    ensures { result.now ≡ cmp_text op }
{
    match op {
        Cmp::Lt => b"<",
        Cmp::Le => b"=<",
        Cmp::Gt => b">",
        Cmp::Ge => b">=",
        Cmp::Eq => b"=:=",
        Cmp::Ne => b"=\\=",
    }
}

/// The operator that is written so.
fn operator_written(text: &[u8]) -> Option<Cmp>
    ensures some { IfSome result (λ op. cmp_text op ≡ text.now) }
    ensures none { IfNone result ((op : Comparison) → cmp_text op ≡ text.now → ⊥) }
{
    for op in OPERATORS.as_slice() {
        if operator_text(*op) == text {
            return Some(*op);
        }
    }
    None
}

/// Whether these are the bytes of a word.
fn is_text(bytes: &[u8], word: &[u8]) -> bool
    ensures yes { result ≡ true → bytes.now ≡ word.now }
    ensures no { result ≡ false → bytes.now ≡ word.now → ⊥ }
{
    bytes == word
}

/// The order `until`, where this stands between the word and the last space of a line, and the number behind that space.
fn read_until(wish: &[u8], n: u64, names: &mut Names) -> Result<Option<Order>, NoMemory>
    requires { length names.old < 2 ^ 32 }
    ensures order { IfOk result (λ found. (line : List ℕ) → IsCountedOrder (codes "until " ++ wish.now) line n → Reads names.new line found) }
    ensures names { AddsNames 1 names.old names.new }
{
    let at = match last_space(wish) {
        Some(at) => at,
        None => return Ok(None),
    };
    match operator_written(&wish[at + 1..]) {
        Some(op) => match read_functor(&wish[..at], names)? {
            Some(functor) => Ok(Some(Order::Until { functor, op, n })),
            None => Ok(None),
        },
        None => Ok(None),
    }
}

/// The order of a line of which this stands in front of the last space, and the number behind it.
fn read_numbered(front: &[u8], n: u64, names: &mut Names) -> Result<Option<Order>, NoMemory>
    requires { length names.old < 2 ^ 32 }
    ensures order { IfOk result (λ found. (line : List ℕ) → IsCountedOrder front.now line n → Reads names.new line found) }
    ensures names { AddsNames 1 names.old names.new }
{
    if is_text(front, b"step") {
        return Ok(if n > 0 { Some(Order::Step(n)) } else { None });
    }
    if is_text(front, b"back") {
        return Ok(if n > 0 { Some(Order::Back(n)) } else { None });
    }
    match front.strip_prefix(b"until ".as_slice()) {
        Some(wish) => read_until(wish, n, names),
        None => Ok(None),
    }
}

/// The order that a line is.
fn read_line(line: &[u8], names: &mut Names) -> Result<Option<Order>, NoMemory>
    requires { length names.old < 2 ^ 32 }
    ensures order { IfOk result (λ found. Reads names.new line.now found) }
    ensures names { AddsNames 1 names.old names.new }
{
    if is_text(line, b"show") {
        return Ok(Some(Order::Show));
    }
    match last_space(line) {
        Some(at) => match number_written(&line[at + 1..]) {
            Some(n) => read_numbered(&line[..at], n, names),
            None => Ok(None),
        },
        None => Ok(None),
    }
}

/// Adds the order of a line, unless the line is empty. Whether the line may stand.
fn take_line(orders: &mut Rows<Order>, line: &[u8], names: &mut Names) -> Result<bool, NoMemory>
    requires { length names.old < 2 ^ 32 }
    ensures orders { IfOk result (λ taken. TakesLine names.new line.now orders.old orders.new taken) }
    ensures names { AddsNames 1 names.old names.new }
{
    if line.is_empty() {
        return Ok(true);
    }
    match read_line(line, names)? {
        Some(order) => {
            orders.push(order)?;
            Ok(true)
        }
        None => Ok(false),
    }
}

/// Where the line ends that begins at a place.
fn line_end(text: &[u8], at: usize) -> usize
    requires { at ≤ length text.now }
    ensures within { (at ≤ result) × (result ≤ length text.now) }
    ensures line { IsOneLine (take (result - at) (drop at text.now)) }
    ensures ends { EndsLine (drop result text.now) }
{
    match next_feed(text, at) {
        Some(end) => end,
        None => text.len(),
    }
}

/// The line with this number is refused.
fn wrong(line: u64) -> TextFault
    ensures { result ≡ Refused (record { code = 71; pos = record { line = line; column = 1 } }) }
{
    TextFault::Refused(RefusalCode::UnknownCommand.at(Pos { line, column: 1 }))
}

/// The orders of a script, one for each line that isn't empty. The last line may lack its line feed.
///
/// # Errors
///
/// `Refused` by 71 at the first line that isn't an order, and `NoMemory` at want of memory.
pub fn read_script(
    alloc: Global,
    script: &[u8],
    names: &mut Names,
) -> Result<Rows<Order>, TextFault>
    requires room { length names.old + length script.now < 2 ^ 32 }
    ensures ok { IfOk result (λ orders. AreOrdersOf names.new script.now orders) }
    ensures asked { IfOk result (λ orders. AreAskedWith names.new orders) }
    ensures few { IfOk result (λ orders. length orders ≤ length script.now) }
    ensures refused { IfErr result (λ fault. IfRefused fault (IsFirstWrong script.now)) }
    ensures names { AddsNames (length script.now) names.old names.new }
{
    let mut orders = Rows::new(alloc);
    let mut at = 0;
    let mut line = 1u64;
    while at < script.len() {
        let end = line_end(script, at);
        if !take_line(&mut orders, &script[at..end], names)? {
            return Err(wrong(line));
        }
        at = end + 1;
        line += 1;
    }
    Ok(orders)
}
