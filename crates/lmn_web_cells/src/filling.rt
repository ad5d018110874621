//! The words of a new row are written, so that it is a cell of an atom, or of a membrane.
ghost use Rattle.std.specs.Prelude.{◌≡◌, ℕ, ◌+◌, ◌*◌, ◌<◌, ◌≤◌, ◌∷◌, ◌++◌, Option, drop, length, replicate};
ghost use Rattle.lmn_web_cells.specs.Rows.{IsStart, blank, numbered, items_in, with_items, place_of};
ghost use Rattle.lmn_web_cells.specs.Fillings.{ports_filled, unwritten};
ghost use Rattle.lmn_web_cells.specs.Cells.{cell_items, blank_cell, blank_membrane, blank_links, blank_numbers};

use lmn_web_rows::pointers::nowhere;
use lmn_web_rows::store::{NUMBER, Store};

/// How many links each cell has.
pub const LINKS: usize = 7;

/// How many numbers, the first ones, are below 256. They stand together in half a word, beside the index, with the class of the
/// label, which is below 2^16.
pub const SMALL_NUMBERS: usize = 2;

/// The half of a word in which they stand.
pub const SMALL: usize = NUMBER + 1;

/// How many words the numbers before the ports have.
const NUMBER_WORDS: usize = 3;

/// The word at which the ports of a cell begin.
pub const FIRST_PORT: usize = LINKS + NUMBER_WORDS;

/// How many words a port has.
pub const PORT_WORDS: usize = 2;

/// The word of a membrane that is its last link: a port and two numbers stand before it.
pub const LAST_LINK_WORD: usize = FIRST_PORT + PORT_WORDS + 2;

/// How many words the cell of a membrane has.
pub const MEMBRANE_WORDS: usize = LAST_LINK_WORD + 1;

/// How many words the cell of an atom with so many ports has.
#[inline(always)]
pub fn atom_words(ports: usize) -> usize
    requires { ports < 256 }
    ensures { result ≡ 10 + ports * 2 }
{
    FIRST_PORT + ports * PORT_WORDS
}

// Each link leads nowhere.
fn fill_links(rows: &mut Store, at: *mut u8)
    requires start { IsStart at }
    requires words { 7 < length (items_in rows.old.rows (place_of at)) }
    ensures { rows.new.rows ≡ with_items (place_of at) (blank_links 7 ++ drop 7 (items_in rows.old.rows (place_of at))) rows.old.rows }
{
    for k in 0..LINKS {
        rows.set_link(at, k, nowhere());
    }
}

// Each of the first numbers but the index is 0. `left` words stand behind them.
#[inline(always)]
fn fill_numbers(rows: &mut Store, at: *mut u8, left: usize)
    requires start { IsStart at }
    requires words { (index : ℕ) × (beside : Option ℕ) × (items_in rows.old.rows (place_of at) ≡ blank_links 7 ++ (numbered index beside ∷ replicate (2 + left) blank)) }
    ensures { (index : ℕ) (beside : Option ℕ) → items_in rows.old.rows (place_of at) ≡ blank_links 7 ++ (numbered index beside ∷ replicate (2 + left) blank) →
        rows.new.rows ≡ with_items (place_of at) (blank_links 7 ++ (blank_numbers index ++ replicate left blank)) rows.old.rows }
{
    let _ = left;
    rows.set_half(at, SMALL, 0);
    rows.set_number(at, LINKS + 1, 0);
    rows.set_number(at, LINKS + 2, 0);
}

// One more port leads nowhere.
#[inline(always)]
fn fill_port(rows: &mut Store, at: *mut u8, ports: usize, j: usize)
    requires start { IsStart at }
    requires few { ports < 256 }
    requires below { j < ports }
    requires words { (index : ℕ) × (items_in rows.old.rows (place_of at) ≡ ports_filled index ports j) }
    ensures { (index : ℕ) → items_in rows.old.rows (place_of at) ≡ ports_filled index ports j → rows.new.rows ≡ with_items (place_of at) (ports_filled index ports (j + 1)) rows.old.rows }
{
    rows.set_link(at, FIRST_PORT + j * PORT_WORDS, nowhere());
    rows.set_number(at, FIRST_PORT + j * PORT_WORDS + 1, 0);
}

// No port from this one on leads anywhere.
fn fill_from(rows: &mut Store, at: *mut u8, ports: usize, first: usize)
    requires start { IsStart at }
    requires few { ports < 256 }
    requires below { first ≤ ports }
    requires words { (index : ℕ) × (items_in rows.old.rows (place_of at) ≡ ports_filled index ports first) }
    ensures { (index : ℕ) → items_in rows.old.rows (place_of at) ≡ ports_filled index ports first → rows.new.rows ≡ with_items (place_of at) (cell_items (blank_cell index ports)) rows.old.rows }
{
    for j in first..ports {
        fill_port(rows, at, ports, j);
    }
}

// No port leads anywhere. Most cells have at most three, and those are written without a loop.
fn fill_ports(rows: &mut Store, at: *mut u8, ports: usize)
    requires start { IsStart at }
    requires few { ports < 256 }
    requires words { (index : ℕ) × (items_in rows.old.rows (place_of at) ≡ ports_filled index ports 0) }
    ensures { (index : ℕ) → items_in rows.old.rows (place_of at) ≡ ports_filled index ports 0 → rows.new.rows ≡ with_items (place_of at) (cell_items (blank_cell index ports)) rows.old.rows }
{
    if ports == 0 {
        return;
    }
    fill_port(rows, at, ports, 0);
    if ports == 1 {
        return;
    }
    fill_port(rows, at, ports, 1);
    if ports == 2 {
        return;
    }
    fill_port(rows, at, ports, 2);
    fill_from(rows, at, ports, 3);
}

/// A new row becomes the cell of an atom in which nothing is set but the index, which is the row's number.
pub fn fill(rows: &mut Store, at: *mut u8, ports: usize)
    requires start { IsStart at }
    requires few { ports < 256 }
    requires words { (index : ℕ) × (beside : Option ℕ) × (items_in rows.old.rows (place_of at) ≡ unwritten (10 + ports * 2) index beside) }
    ensures { (index : ℕ) (beside : Option ℕ) → items_in rows.old.rows (place_of at) ≡ unwritten (10 + ports * 2) index beside →
        rows.new.rows ≡ with_items (place_of at) (cell_items (blank_cell index ports)) rows.old.rows }
{
    fill_links(rows, at);
    fill_numbers(rows, at, ports * PORT_WORDS);
    fill_ports(rows, at, ports);
}

// The port of a membrane leads nowhere, the numbers behind it are 0, and its last link leads nowhere.
fn fill_end(rows: &mut Store, at: *mut u8)
    requires start { IsStart at }
    requires words { (index : ℕ) × (items_in rows.old.rows (place_of at) ≡ blank_links 7 ++ (blank_numbers index ++ replicate 5 blank)) }
    ensures { (index : ℕ) → items_in rows.old.rows (place_of at) ≡ blank_links 7 ++ (blank_numbers index ++ replicate 5 blank) →
        rows.new.rows ≡ with_items (place_of at) (cell_items (blank_membrane index)) rows.old.rows }
{
    rows.set_link(at, FIRST_PORT, nowhere());
    rows.set_number(at, FIRST_PORT + 1, 0);
    rows.set_number(at, FIRST_PORT + PORT_WORDS, 0);
    rows.set_number(at, FIRST_PORT + PORT_WORDS + 1, 0);
    rows.set_link(at, LAST_LINK_WORD, nowhere());
}

/// A new row becomes the cell of a membrane in which nothing is set but the index, which is the row's number.
pub fn fill_membrane(rows: &mut Store, at: *mut u8)
    requires start { IsStart at }
    requires words { (index : ℕ) × (beside : Option ℕ) × (items_in rows.old.rows (place_of at) ≡ unwritten 15 index beside) }
    ensures { (index : ℕ) (beside : Option ℕ) → items_in rows.old.rows (place_of at) ≡ unwritten 15 index beside → rows.new.rows ≡ with_items (place_of at) (cell_items (blank_membrane index)) rows.old.rows }
{
    fill_links(rows, at);
    fill_numbers(rows, at, PORT_WORDS + 3);
    fill_end(rows, at);
}
