//! Cells: rows with seven links, six numbers, of which four stand in one word, and two words for each port, of which a membrane has one, and behind it two
//! numbers and a link more.
ghost use Rattle.std.specs.Prelude.{◌≡◌, ◌≢◌, ◌==◌, if◌then◌else◌, ℕ, ◌+◌, ◌*◌, ◌/◌, ◌%◌, ◌^◌, ◌<◌, ◌≤◌, ◌∷◌, length, IsSome, None, Some, MatchResult, slice_index_or};
ghost use Rattle.std.specs.Option.{option_map};
ghost use Rattle.lmn_web_cells.specs.Cells.{cells_by, links_of, numbers_of, ports_of, port_of, with_link, with_number, with_to, with_port, with_mark, pointer_to, blank_cell, blank_membrane, IsNewIndex, HaveFewPorts, HaveLinks, HaveSmallClasses, IsLinkWord, link_of};
ghost use Rattle.lmn_store_heap.specs.Heap.{alter};
ghost use Rattle.lmn_web_cells.specs.CellIds.{cell_id, IsLink, led_by};

use crate::filling::{
    FIRST_PORT, LAST_LINK_WORD, LINKS, MEMBRANE_WORDS, PORT_WORDS, SMALL, SMALL_NUMBERS,
    atom_words, fill, fill_membrane,
};
use crate::handle::Cell;
use crate::numbers::{ARITY, HIGH, INDEX, KIND};
use lmn_web_rows::pointers::{is_nowhere, nowhere};
use lmn_web_rows::store::{NUMBER as INDEX_HALF, Store};
use std::alloc::{AllocError, Global};
use std::marker::Model;

// Where the words of a port stand among them: where it leads, and the number of the port there with the mark.
const TO: usize = 0;

const NUMBER: usize = 1;

// Below this are the two small numbers as one, which stand below the class of a label.
const CLASSES: u32 = 65_536;

// Below this are the numbers of ports.
const PORTS: u64 = 256;

/// The cells, many of them side by side in one block. The memory of a cell that was freed is used for the next one with as many
/// words, so that of cells with as many words there is never memory for more than lived at once.
pub struct Cells {
    rows: Store,
}

impl Model for Cells {
    ghost use Rattle.std.specs.Prelude.{List};
    ghost use Rattle.lmn_web_cells.specs.Rows.{Row};
    ghost use Rattle.lmn_web_cells.specs.Cells.{AreLaid};

    ghost Value = { List Row };

    ghost view = { λ s. s.rows.rows };

    ghost invariant = { λ s. AreLaid s.rows.rows };
}

impl Cells {
    /// No cell.
    pub fn new(alloc: Global) -> Cells
        ensures { cells_by result ≡ (λ _. None) }
    {
        Cells {
            rows: Store::new(alloc),
        }
    }

    /// The memory of all cells is freed, whatever they hold.
    pub fn end(self) {
        let Cells { rows } = self;
        rows.end();
    }

    /// A new cell of an atom, in which nothing is set but its index, which no other cell has.
    #[inline(always)]
    pub fn make(&mut self, ports: usize) -> Result<Cell, AllocError>
        requires { ports < 256 }
        ensures { MatchResult result
            (λ c. (cells_by self.old (cell_id c) ≡ None) × (index : ℕ) × (index < 2 ^ 32) × IsNewIndex (cells_by self.old) index × (cells_by self.new ≡ alter (cells_by self.old) (cell_id c) (λ _. Some (blank_cell index ports))))
            (λ _. cells_by self.new ≡ cells_by self.old) }
    {
        match self.rows.make(atom_words(ports)) {
            Ok(at) => {
                fill(&mut self.rows, at, ports);
                Ok(Cell { at })
            }
            Err(error) => Err(error),
        }
    }

    /// A new cell of a membrane, in which nothing is set but its index, which no other cell has.
    pub fn make_membrane(&mut self) -> Result<Cell, AllocError>
        ensures { MatchResult result
            (λ c. (cells_by self.old (cell_id c) ≡ None) × (index : ℕ) × (index < 2 ^ 32) × IsNewIndex (cells_by self.old) index × (cells_by self.new ≡ alter (cells_by self.old) (cell_id c) (λ _. Some (blank_membrane index))))
            (λ _. cells_by self.new ≡ cells_by self.old) }
    {
        match self.rows.make(MEMBRANE_WORDS) {
            Ok(at) => {
                fill_membrane(&mut self.rows, at);
                Ok(Cell { at })
            }
            Err(error) => Err(error),
        }
    }

    /// The cell of an atom doesn't live any more.
    pub fn free(&mut self, c: Cell, ports: usize)
        requires there { IsSome (cells_by self.old (cell_id c)) }
        requires numbers { length (numbers_of (cells_by self.old (cell_id c))) ≡ 6 }
        requires ports { length (ports_of (cells_by self.old (cell_id c))) ≡ ports }
        ensures { cells_by self.new ≡ alter (cells_by self.old) (cell_id c) (λ _. None) }
    {
        self.rows.keep(c.at, atom_words(ports));
    }

    /// The cell of a membrane doesn't live any more.
    pub fn free_membrane(&mut self, c: Cell)
        requires there { IsSome (cells_by self.old (cell_id c)) }
        requires numbers { length (numbers_of (cells_by self.old (cell_id c))) ≡ 8 }
        ensures { cells_by self.new ≡ alter (cells_by self.old) (cell_id c) (λ _. None) }
    {
        self.rows.keep(c.at, MEMBRANE_WORDS);
    }

    /// Each cell has eight links, of which an atom's last one leads nowhere.
    pub fn whole(&self)
        ensures { HaveLinks (cells_by self.now) }
    {
        let _ = &self.rows;
    }

    /// Each port has a number below 256.
    #[inline(always)]
    pub fn few_ports(&self)
        ensures { HaveFewPorts (cells_by self.now) }
    {
        let _ = &self.rows;
    }

    /// The upper half of each label is below 2^16.
    #[inline(always)]
    pub fn small_classes(&self)
        ensures { HaveSmallClasses (cells_by self.now) }
    {
        let _ = &self.rows;
    }

    /// The cell to which a link that each cell has leads.
    pub fn link(&self, c: Cell, k: usize) -> Option<Cell>
        requires there { IsSome (cells_by self.now (cell_id c)) }
        requires below { k < 7 }
        ensures { slice_index_or (links_of (cells_by self.now (cell_id c))) k None ≡ option_map cell_id result }
    {
        cell_from(self.rows.link(c.at, k))
    }

    /// The cell to which a link that each cell has leads, where it is known to lead to one.
    pub fn target(&self, c: Cell, k: usize) -> Cell
        requires there { IsSome (cells_by self.now (cell_id c)) }
        requires below { k < 7 }
        requires leads { IsSome (slice_index_or (links_of (cells_by self.now (cell_id c))) k None) }
        ensures { slice_index_or (links_of (cells_by self.now (cell_id c))) k None ≡ Some (cell_id result) }
    {
        Cell {
            at: self.rows.link(c.at, k),
        }
    }

    /// A link that each cell has leads elsewhere.
    pub fn set_link(&mut self, c: Cell, k: usize, to: Option<Cell>)
        requires there { IsSome (cells_by self.old (cell_id c)) }
        requires below { k < 7 }
        ensures { cells_by self.new ≡ alter (cells_by self.old) (cell_id c) (option_map (with_link k (option_map cell_id to))) }
    {
        self.rows.set_link(c.at, k, pointer_of(to));
    }

    /// The cell to which the last link leads, which only membranes have.
    pub fn last_link(&self, c: Cell) -> Option<Cell>
        requires there { IsSome (cells_by self.now (cell_id c)) }
        requires numbers { length (numbers_of (cells_by self.now (cell_id c))) ≡ 8 }
        ensures { slice_index_or (links_of (cells_by self.now (cell_id c))) 7 None ≡ option_map cell_id result }
    {
        cell_from(self.rows.link(c.at, LAST_LINK_WORD))
    }

    /// The link in a word of a cell leads elsewhere: one that each cell has, or the last one of a membrane.
    pub fn set_link_in(&mut self, c: Cell, word: usize, to: Option<Cell>)
        requires there { IsSome (cells_by self.old (cell_id c)) }
        requires word { IsLinkWord (cells_by self.old (cell_id c)) word }
        ensures { cells_by self.new ≡ alter (cells_by self.old) (cell_id c) (option_map (with_link (link_of word) (option_map cell_id to))) }
    {
        self.rows.set_link(c.at, word, pointer_of(to));
    }

    /// A number that each cell has.
    #[inline(always)]
    pub fn number(&self, c: Cell, k: usize) -> u64
        requires there { IsSome (cells_by self.now (cell_id c)) }
        requires below { k < 6 }
        ensures { result ≡ slice_index_or (numbers_of (cells_by self.now (cell_id c))) k 0 }
    {
        if k < SMALL_NUMBERS {
            return part(k, self.rows.half(c.at, SMALL)) as u64;
        }
        if k == INDEX {
            return self.rows.half(c.at, INDEX_HALF) as u64;
        }
        if k == HIGH {
            return (self.rows.half(c.at, SMALL) / CLASSES) as u64;
        }
        self.rows.number(c.at, LINKS + k - 3)
    }

    /// A number that each cell has is another, but not the index. The first two are below 256, the upper half of a label below 2^16.
    #[inline(always)]
    pub fn set_number(&mut self, c: Cell, k: usize, n: u64)
        requires there { IsSome (cells_by self.old (cell_id c)) }
        requires below { k < 6 }
        requires index { k ≢ INDEX }
        requires small { k < 2 → n < 256 }
        requires class { k ≡ HIGH → n < 2 ^ 16 }
        ensures { cells_by self.new ≡ alter (cells_by self.old) (cell_id c) (option_map (with_number k n)) }
    {
        if k < SMALL_NUMBERS {
            let all = self.rows.half(c.at, SMALL);
            self.rows.set_half(c.at, SMALL, with_part(k, n as u8, all));
            return;
        }
        if k == HIGH {
            let all = self.rows.half(c.at, SMALL);
            self.rows
                .set_half(c.at, SMALL, n as u32 * CLASSES + all % CLASSES);
            return;
        }
        self.rows.set_number(c.at, LINKS + k - 3, n);
    }

    /// The upper half of a label, how many ports and what the cell stands for, as one number.
    #[inline(always)]
    pub fn all_small(&self, c: Cell) -> u64
        requires { IsSome (cells_by self.now (cell_id c)) }
        ensures class { result / 65536 ≡ slice_index_or (numbers_of (cells_by self.now (cell_id c))) HIGH 0 }
        ensures arity { result / 256 % 256 ≡ slice_index_or (numbers_of (cells_by self.now (cell_id c))) ARITY 0 }
        ensures kind { result % 256 ≡ slice_index_or (numbers_of (cells_by self.now (cell_id c))) KIND 0 }
    {
        self.rows.half(c.at, SMALL) as u64
    }

    /// A number that only membranes have.
    pub fn count(&self, c: Cell, k: usize) -> u64
        requires there { IsSome (cells_by self.now (cell_id c)) }
        requires numbers { length (numbers_of (cells_by self.now (cell_id c))) ≡ 8 }
        requires behind { 6 ≤ k }
        requires below { k < 8 }
        ensures { result ≡ slice_index_or (numbers_of (cells_by self.now (cell_id c))) k 0 }
    {
        self.rows.number(c.at, FIRST_PORT + PORT_WORDS + k - 6)
    }

    /// A number that only membranes have is another.
    pub fn set_count(&mut self, c: Cell, k: usize, n: u64)
        requires there { IsSome (cells_by self.old (cell_id c)) }
        requires numbers { length (numbers_of (cells_by self.old (cell_id c))) ≡ 8 }
        requires behind { 6 ≤ k }
        requires below { k < 8 }
        ensures { cells_by self.new ≡ alter (cells_by self.old) (cell_id c) (option_map (with_number k n)) }
    {
        self.rows
            .set_number(c.at, FIRST_PORT + PORT_WORDS + k - 6, n);
    }

    /// The cell to which a port leads.
    pub fn to(&self, c: Cell, j: usize) -> Option<Cell>
        requires there { IsSome (cells_by self.now (cell_id c)) }
        requires below { j < length (ports_of (cells_by self.now (cell_id c))) }
        ensures { (port_of (cells_by self.now (cell_id c)) j).to ≡ option_map cell_id result }
    {
        cell_from(self.rows.link(c.at, FIRST_PORT + (j * PORT_WORDS + TO)))
    }

    /// A port leads elsewhere.
    pub fn set_to(&mut self, c: Cell, j: usize, to: Option<Cell>)
        requires there { IsSome (cells_by self.old (cell_id c)) }
        requires below { j < length (ports_of (cells_by self.old (cell_id c))) }
        ensures { cells_by self.new ≡ alter (cells_by self.old) (cell_id c) (option_map (with_to j (option_map cell_id to))) }
    {
        self.rows
            .set_link(c.at, FIRST_PORT + (j * PORT_WORDS + TO), pointer_of(to));
    }

    /// The number of the port to which a port leads, which is below 256.
    pub fn port(&self, c: Cell, j: usize) -> u64
        requires there { IsSome (cells_by self.now (cell_id c)) }
        requires below { j < length (ports_of (cells_by self.now (cell_id c))) }
        ensures { result ≡ (port_of (cells_by self.now (cell_id c)) j).port }
    {
        self.rows.number(c.at, number_word(j)) % PORTS
    }

    /// The number of the port to which a port leads is another, below 256.
    pub fn set_port(&mut self, c: Cell, j: usize, n: u64)
        requires there { IsSome (cells_by self.old (cell_id c)) }
        requires below { j < length (ports_of (cells_by self.old (cell_id c))) }
        requires small { n < 256 }
        ensures { cells_by self.new ≡ alter (cells_by self.old) (cell_id c) (option_map (with_port j n)) }
    {
        let mark = self.rows.number(c.at, number_word(j)) / PORTS;
        self.rows
            .set_number(c.at, number_word(j), port_and_mark(n as u8, mark));
    }

    /// The mark of a port.
    pub fn mark(&self, c: Cell, j: usize) -> u64
        requires there { IsSome (cells_by self.now (cell_id c)) }
        requires below { j < length (ports_of (cells_by self.now (cell_id c))) }
        ensures { result ≡ (port_of (cells_by self.now (cell_id c)) j).mark }
    {
        self.rows.number(c.at, number_word(j)) / PORTS
    }

    /// The mark of a port is another, below 2^56.
    pub fn set_mark(&mut self, c: Cell, j: usize, n: u64)
        requires there { IsSome (cells_by self.old (cell_id c)) }
        requires below { j < length (ports_of (cells_by self.old (cell_id c))) }
        requires small { n < 2 ^ 56 }
        ensures { cells_by self.new ≡ alter (cells_by self.old) (cell_id c) (option_map (with_mark j n)) }
    {
        let port = (self.rows.number(c.at, number_word(j)) % PORTS) as u8;
        self.rows
            .set_number(c.at, number_word(j), port_and_mark(port, n));
    }
}

// One of the two small numbers, of all as one number.
#[inline(always)]
fn part(k: usize, all: u32) -> u32
    ensures { result ≡ (if k == ARITY then all / 256 % 256 else all % 256) }
{
    if k == ARITY {
        all / 256 % 256
    } else {
        all % 256
    }
}

// All of them as one number, of which one of the two is another.
#[inline(always)]
fn with_part(k: usize, n: u8, all: u32) -> u32
    ensures { result ≡ (if k == ARITY then all / 65536 * 65536 + (n * 256 + all % 256) else all / 256 * 256 + n) }
{
    if k == ARITY {
        all / CLASSES * CLASSES + (n as u32 * 256 + all % 256)
    } else {
        all / 256 * 256 + n as u32
    }
}

// The word with the number of the port to which a port leads, and with the mark.
#[inline(always)]
fn number_word(j: usize) -> usize
    requires { j < 256 }
    ensures { result ≡ 10 + (j * 2 + 1) }
{
    FIRST_PORT + (j * PORT_WORDS + NUMBER)
}

// The number of a port and a mark, as one number.
#[inline(always)]
fn port_and_mark(port: u8, mark: u64) -> u64
    requires { mark < 2 ^ 56 }
    ensures { result ≡ mark * 256 + port }
{
    mark * PORTS + port as u64
}

/// The pointer to a cell, or to nowhere.
fn pointer_of(to: Option<Cell>) -> *mut u8
    ensures { result ≡ pointer_to (option_map cell_id to) }
{
    match to {
        None => nowhere(),
        Some(c) => c.at,
    }
}

/// The cell at a pointer.
fn cell_from(at: *mut u8) -> Option<Cell>
    requires { IsLink at }
    ensures { option_map cell_id result ≡ led_by at }
{
    if is_nowhere(at) {
        None
    } else {
        Some(Cell { at })
    }
}
