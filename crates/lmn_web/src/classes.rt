//! The atoms of a membrane that files them by class: the high half of a label, and how many ports, as one number.
ghost use Rattle.std.specs.Prelude.{◌≡◌, ◌⊎◌, ◌<◌, ◌^◌, ◌%◌, ◌∷◌, ℕ, List, None, Some, IfSome, IsSome, is_some, if◌then◌else◌, length, true};
ghost use Rattle.std.specs.Option.{option_map};
ghost use Rattle.lmn_base.specs.Lists.{In};
ghost use Rattle.lmn_web_cells.specs.Cells.{cells_by, numbers_of, IsLinkWord, link_of};
ghost use Rattle.lmn_web_cells.specs.CellIds.{cell_id};
ghost use Rattle.lmn_store_heap.specs.Lists.{after, from};
ghost use Rattle.lmn_web_cells.specs.Links.{LEADERS};
ghost use Rattle.lmn_web_cells.specs.Runs.{Line, link_in};
ghost use Rattle.lmn_web.specs.declared.kind.CellKind.TheVariants.{Atom};
ghost use Rattle.lmn_web.specs.Kinds.{kind_by};
ghost use Rattle.lmn_web.specs.Webs.{list_in, number_in};
ghost use Rattle.lmn_web.specs.Classes.{ClassTree, AreAtoms, AreClassed, IsTree, IsSorted, FiledAs, MayEnter, MayFile, MayLeave, begun, closed, dropped, ends_class, files, is_key, is_odd, key_by, key_in, lasts, lengthened, lowest_below, place_in, put_between, put_inside, of_class, shortened, taken_over, top, IsInItsClass, IsFiledLast, IsFiledBefore, IsUnfiled};

use crate::kind::{CellKind, FILED};
use lmn_web_cells::cell::Cells;
use lmn_web_cells::handle::Cell;
use lmn_web_cells::links::{ATOMS, CLASS_NEXT, CLASS_PREV, EVEN, LEADERS_WORD, NEXT, ODD, PREV};
use lmn_web_cells::numbers::KIND;

// Below this is what a cell stands for, and how many ports it has.
const SMALL: u64 = 256;

// Below this are both as one number, which stands below the high half of a label.
const CLASSES: u64 = 65_536;

// A place in the tree of the last atoms of the classes: what hangs at a link of the membrane, or of the last atom above.
#[derive(Clone, Copy)]
struct Place {
    holder: Cell,
    // The word of the link.
    word: usize,
    // None where nothing hangs.
    last: Option<Cell>,
}

/// Whether what comes into the list of a kind of a membrane is filed: an atom is, unless the membrane files none.
pub fn is_filed(cells: &Cells, m: Cell, kind: CellKind) -> bool
    requires { IsSome (cells_by cells.now (cell_id m)) }
    ensures { result ≡ files (cells_by cells.now) (cell_id m) kind }
{
    match kind {
        CellKind::Atom => cells.number(m, KIND) == FILED,
        CellKind::Membrane => false,
    }
}

/// The number that tells a class.
pub fn key_of(high: u64, arity: u8) -> u64
    requires { high < 2 ^ 16 }
    ensures class { key_by result ≡ (high, arity) }
    ensures atom { result % 256 ≡ 0 }
{
    high * CLASSES + arity as u64 * SMALL
}

// That of the class of a cell.
fn own_key(cells: &Cells, c: Cell) -> u64
    requires { IsSome (cells_by cells.now (cell_id c)) }
    ensures class { key_by result ≡ key_in (cells_by cells.now) (cell_id c) }
    ensures atom { result % 256 ≡ 0 }
{
    cells.all_small(c) / SMALL * SMALL
}

// Whether an atom has a class.
fn has_class(cells: &Cells, c: Cell, key: u64) -> bool
    requires there { IsSome (cells_by cells.now (cell_id c)) }
    requires atom { kind_by (number_in (cells_by cells.now) (cell_id c) KIND) ≡ Atom }
    requires key { key % 256 ≡ 0 }
    ensures { result ≡ is_key (key_in (cells_by cells.now) (cell_id c)) (key_by key) }
{
    cells.all_small(c) == key
}

// The link of a last atom on the side to which a number goes.
fn side(rest: u64) -> usize
    ensures { result ≡ (if is_odd rest then ODD else EVEN) }
{
    if rest % 2 == 1 { ODD } else { EVEN }
}

// Where a membrane has the last atom of a class, or would have it.
fn find(cells: &Cells, m: Cell, key: u64) -> Place
    requires there { IsSome (cells_by cells.now (cell_id m)) }
    requires membrane { length (numbers_of (cells_by cells.now (cell_id m))) ≡ 8 }
    requires key { key % 256 ≡ 0 }
    requires tree { (t : ClassTree) × IsTree (cells_by cells.now) (link_in (cells_by cells.now) (cell_id m) LEADERS) t × IsSorted (cells_by cells.now) 0 t × AreAtoms (cells_by cells.now) (lasts t) }
    ensures word { (result.word < 7) ⊎ (result.word ≡ LEADERS_WORD) }
    ensures place { (t : ClassTree) → IsTree (cells_by cells.now) (link_in (cells_by cells.now) (cell_id m) LEADERS) t →
        let w = place_in (cells_by cells.now) (key_by key) (cell_id m) t in (cell_id result.holder ≡ w.holder) × (link_of result.word ≡ w.link) × (option_map cell_id result.last ≡ top w.tree) }
{
    let mut holder = m;
    let mut word = LEADERS_WORD;
    let mut rest = key / CLASSES;
    let mut at = cells.last_link(m);
    while let Some(c) = at {
        if has_class(cells, c, key) {
            return Place {
                holder,
                word,
                last: Some(c),
            };
        }
        holder = c;
        word = side(rest);
        rest /= 2;
        at = cells.link(c, word);
    }
    Place {
        holder,
        word,
        last: None,
    }
}

// The last atom of a class of a membrane that files, without the place at which it hangs.
fn last_of(cells: &Cells, m: Cell, key: u64) -> Option<Cell>
    requires there { IsSome (cells_by cells.now (cell_id m)) }
    requires membrane { length (numbers_of (cells_by cells.now (cell_id m))) ≡ 8 }
    requires key { key % 256 ≡ 0 }
    requires tree { (t : ClassTree) × IsTree (cells_by cells.now) (link_in (cells_by cells.now) (cell_id m) LEADERS) t × IsSorted (cells_by cells.now) 0 t × AreAtoms (cells_by cells.now) (lasts t) }
    ensures { (t : ClassTree) → IsTree (cells_by cells.now) (link_in (cells_by cells.now) (cell_id m) LEADERS) t → option_map cell_id result ≡ top (place_in (cells_by cells.now) (key_by key) (cell_id m) t).tree }
{
    let mut rest = key / CLASSES;
    let mut at = cells.last_link(m);
    while let Some(c) = at {
        if has_class(cells, c, key) {
            return Some(c);
        }
        let link = side(rest);
        rest /= 2;
        at = cells.link(c, link);
    }
    None
}

// What hangs below a last atom, on the odd side only where nothing does on the even one.
fn below(cells: &Cells, c: Cell) -> Place
    requires there { IsSome (cells_by cells.now (cell_id c)) }
    ensures holder { result.holder ≡ c }
    ensures word { result.word ≡ (if is_some (link_in (cells_by cells.now) (cell_id c) EVEN) then EVEN else ODD) }
    ensures last { option_map cell_id result.last ≡ link_in (cells_by cells.now) (cell_id c) result.word }
{
    let even = cells.link(c, EVEN);
    if even.is_some() {
        Place {
            holder: c,
            word: EVEN,
            last: even,
        }
    } else {
        Place {
            holder: c,
            word: ODD,
            last: cells.link(c, ODD),
        }
    }
}

// A last atom that has none below it, from those below another. None where that one has none.
fn lowest(cells: &Cells, c: Cell) -> Place
    requires there { IsSome (cells_by cells.now (cell_id c)) }
    requires tree { (a b : ClassTree) × IsTree (cells_by cells.now) (link_in (cells_by cells.now) (cell_id c) EVEN) a × IsTree (cells_by cells.now) (link_in (cells_by cells.now) (cell_id c) ODD) b
        × (d : ℕ) × IsSorted (cells_by cells.now) d a × IsSorted (cells_by cells.now) d b }
    ensures { (a b : ClassTree) → IsTree (cells_by cells.now) (link_in (cells_by cells.now) (cell_id c) EVEN) a → IsTree (cells_by cells.now) (link_in (cells_by cells.now) (cell_id c) ODD) b →
        let w = lowest_below (cell_id c) a b in (cell_id result.holder ≡ w.holder) × (result.word ≡ w.link) × (option_map cell_id result.last ≡ w.last) }
{
    let mut place = below(cells, c);
    let mut next = place;
    while let Some(d) = next.last {
        place = next;
        next = below(cells, d);
    }
    place
}

// Whether an atom that is filed is the last one of its class: by the link of its even side each other one leads to its membrane.
#[inline(always)]
fn is_last(cells: &Cells, c: Cell) -> bool
    requires there { IsSome (cells_by cells.now (cell_id c)) }
    requires even { (d : ℕ) → link_in (cells_by cells.now) (cell_id c) EVEN ≡ Some d → IsSome (cells_by cells.now d) }
    ensures { result ≡ ends_class (cells_by cells.now) (cell_id c) }
{
    match cells.link(c, EVEN) {
        None => true,
        Some(d) => cells.number(d, KIND) == 0,
    }
}

// The first atom of a class from one of a membrane's list on, if there is one.
fn seek(cells: &Cells, m: Cell, start: Option<Cell>, key: u64) -> Option<Cell>
    requires line { Line (cells_by cells.now) (cell_id m) ATOMS (list_in (cells_by cells.now) (cell_id m) Atom) }
    requires key { key % 256 ≡ 0 }
    requires kinds { AreAtoms (cells_by cells.now) (list_in (cells_by cells.now) (cell_id m) Atom) }
    requires start { IfSome start (λ c. In (cell_id c) (list_in (cells_by cells.now) (cell_id m) Atom)) }
    ensures { let f = cells_by cells.now in let all = list_in f (cell_id m) Atom in
        from (option_map cell_id result) (of_class f (key_by key) all) ≡ of_class f (key_by key) (from (option_map cell_id start) all) }
{
    let mut at = start;
    while let Some(c) = at {
        if has_class(cells, c, key) {
            return Some(c);
        }
        at = cells.link(c, NEXT);
    }
    None
}

/// The first atom of a class in a membrane.
pub fn first_in(cells: &Cells, m: Cell, key: u64) -> Option<Cell>
    requires there { IsSome (cells_by cells.now (cell_id m)) }
    requires membrane { files (cells_by cells.now) (cell_id m) Atom ≡ true → length (numbers_of (cells_by cells.now (cell_id m))) ≡ 8 }
    requires line { Line (cells_by cells.now) (cell_id m) ATOMS (list_in (cells_by cells.now) (cell_id m) Atom) }
    requires classes { files (cells_by cells.now) (cell_id m) Atom ≡ true → (t : ClassTree) × AreClassed (cells_by cells.now) (cell_id m) (list_in (cells_by cells.now) (cell_id m) Atom) t }
    requires key { key % 256 ≡ 0 }
    requires kinds { AreAtoms (cells_by cells.now) (list_in (cells_by cells.now) (cell_id m) Atom) }
    ensures { let f = cells_by cells.now in let own = of_class f (key_by key) (list_in f (cell_id m) Atom) in from (option_map cell_id result) own ≡ own }
{
    if is_filed(cells, m, CellKind::Atom) {
        match last_of(cells, m, key) {
            None => None,
            Some(last) => Some(cells.target(last, CLASS_NEXT)),
        }
    } else {
        seek(cells, m, cells.link(m, ATOMS), key)
    }
}

/// The next atom of the class of one in a membrane.
pub fn next_in(cells: &Cells, m: Cell, c: Cell) -> Option<Cell>
    requires there { IsSome (cells_by cells.now (cell_id m)) }
    requires membrane { files (cells_by cells.now) (cell_id m) Atom ≡ true → length (numbers_of (cells_by cells.now (cell_id m))) ≡ 8 }
    requires line { Line (cells_by cells.now) (cell_id m) ATOMS (list_in (cells_by cells.now) (cell_id m) Atom) }
    requires inside { In (cell_id c) (list_in (cells_by cells.now) (cell_id m) Atom) }
    requires kinds { AreAtoms (cells_by cells.now) (list_in (cells_by cells.now) (cell_id m) Atom) }
    requires classes { files (cells_by cells.now) (cell_id m) Atom ≡ true → (t : ClassTree) × AreClassed (cells_by cells.now) (cell_id m) (list_in (cells_by cells.now) (cell_id m) Atom) t }
    ensures { let f = cells_by cells.now in let own = of_class f (key_in f (cell_id c)) (list_in f (cell_id m) Atom) in from (option_map cell_id result) own ≡ after (cell_id c) own }
{
    if is_filed(cells, m, CellKind::Atom) {
        if is_last(cells, c) {
            None
        } else {
            Some(cells.target(c, CLASS_NEXT))
        }
    } else {
        seek(cells, m, cells.link(c, NEXT), own_key(cells, c))
    }
}

/// The first atom of the class of `c` from another atom of a membrane's list on, by the tree where that is the first of the
/// list. None where nothing is to be filed.
pub fn place_from(cells: &Cells, m: Cell, filed: bool, start: Cell, c: Cell) -> Option<Cell>
    requires home { IsSome (cells_by cells.now (cell_id m)) }
    requires membrane { files (cells_by cells.now) (cell_id m) Atom ≡ true → length (numbers_of (cells_by cells.now (cell_id m))) ≡ 8 }
    requires there { IsSome (cells_by cells.now (cell_id c)) }
    requires kinds { AreAtoms (cells_by cells.now) (list_in (cells_by cells.now) (cell_id m) Atom) }
    requires line { filed ≡ true → Line (cells_by cells.now) (cell_id m) ATOMS (list_in (cells_by cells.now) (cell_id m) Atom) }
    requires start { filed ≡ true → In (cell_id start) (list_in (cells_by cells.now) (cell_id m) Atom) }
    requires classes { files (cells_by cells.now) (cell_id m) Atom ≡ true → (t : ClassTree) × AreClassed (cells_by cells.now) (cell_id m) (list_in (cells_by cells.now) (cell_id m) Atom) t }
    ensures { filed ≡ true → let f = cells_by cells.now in let all = list_in f (cell_id m) Atom in
        from (option_map cell_id result) (of_class f (key_in f (cell_id c)) all) ≡ of_class f (key_in f (cell_id c)) (from (Some (cell_id start)) all) }
{
    if !filed {
        return None;
    }
    let key = own_key(cells, c);
    if cells.link(start, PREV).is_none() {
        first_in(cells, m, key)
    } else {
        seek(cells, m, Some(start), key)
    }
}

// An atom hangs at a link, with what hung below another.
fn take_over(cells: &mut Cells, holder: Cell, word: usize, from: Cell, to: Cell)
    requires holder { IsSome (cells_by cells.old (cell_id holder)) }
    requires word { IsLinkWord (cells_by cells.old (cell_id holder)) word }
    requires from { IsSome (cells_by cells.old (cell_id from)) }
    requires to { IsSome (cells_by cells.old (cell_id to)) }
    ensures { cells_by cells.new ≡ taken_over (cells_by cells.old) (cell_id holder) (link_of word) (cell_id from) (cell_id to) }
{
    let even = cells.link(from, EVEN);
    let odd = cells.link(from, ODD);
    cells.set_link(to, EVEN, even);
    cells.set_link(to, ODD, odd);
    cells.set_link_in(holder, word, Some(to));
}

// An atom begins a class.
fn begin(cells: &mut Cells, holder: Cell, word: usize, c: Cell)
    requires holder { IsSome (cells_by cells.old (cell_id holder)) }
    requires word { IsLinkWord (cells_by cells.old (cell_id holder)) word }
    requires c { IsSome (cells_by cells.old (cell_id c)) }
    ensures { cells_by cells.new ≡ begun (cells_by cells.old) (cell_id holder) (link_of word) (cell_id c) }
{
    cells.set_link(c, CLASS_NEXT, Some(c));
    cells.set_link(c, CLASS_PREV, Some(c));
    cells.set_link(c, EVEN, None);
    cells.set_link(c, ODD, None);
    cells.set_link_in(holder, word, Some(c));
}

// An atom goes between two that are neighbours in their class, the last one and the first one too.
fn put_between(cells: &mut Cells, prev: Cell, next: Cell, c: Cell)
    requires prev { IsSome (cells_by cells.old (cell_id prev)) }
    requires next { IsSome (cells_by cells.old (cell_id next)) }
    requires c { IsSome (cells_by cells.old (cell_id c)) }
    ensures { cells_by cells.new ≡ put_between (cells_by cells.old) (cell_id prev) (cell_id next) (cell_id c) }
{
    cells.set_link(c, CLASS_NEXT, Some(next));
    cells.set_link(c, CLASS_PREV, Some(prev));
    cells.set_link(prev, CLASS_NEXT, Some(c));
    cells.set_link(next, CLASS_PREV, Some(c));
}

// An atom goes before another one of its class, so that it isn't the last one.
fn put_inside(cells: &mut Cells, m: Cell, prev: Cell, next: Cell, c: Cell)
    requires prev { IsSome (cells_by cells.old (cell_id prev)) }
    requires next { IsSome (cells_by cells.old (cell_id next)) }
    requires c { IsSome (cells_by cells.old (cell_id c)) }
    ensures { cells_by cells.new ≡ put_inside (cells_by cells.old) (cell_id m) (cell_id prev) (cell_id next) (cell_id c) }
{
    put_between(cells, prev, next, c);
    cells.set_link(c, EVEN, Some(m));
}

// What stood between two atoms of a class leaves.
fn close(cells: &mut Cells, prev: Cell, next: Cell)
    requires prev { IsSome (cells_by cells.old (cell_id prev)) }
    requires next { IsSome (cells_by cells.old (cell_id next)) }
    ensures { cells_by cells.new ≡ closed (cells_by cells.old) (cell_id prev) (cell_id next) }
{
    cells.set_link(prev, CLASS_NEXT, Some(next));
    cells.set_link(next, CLASS_PREV, Some(prev));
}

// An atom is the last one of a class, behind the one that was.
fn lengthen(cells: &mut Cells, m: Cell, holder: Cell, word: usize, last: Cell, first: Cell, c: Cell)
    requires holder { IsSome (cells_by cells.old (cell_id holder)) }
    requires word { IsLinkWord (cells_by cells.old (cell_id holder)) word }
    requires last { IsSome (cells_by cells.old (cell_id last)) }
    requires first { IsSome (cells_by cells.old (cell_id first)) }
    requires c { IsSome (cells_by cells.old (cell_id c)) }
    ensures { cells_by cells.new ≡ lengthened (cells_by cells.old) (cell_id m) (cell_id holder) (link_of word) (cell_id last) (cell_id first) (cell_id c) }
{
    put_between(cells, last, first, c);
    take_over(cells, holder, word, last, c);
    cells.set_link(last, EVEN, Some(m));
}

// The last one of a class leaves, and the one before it is the last.
fn shorten(cells: &mut Cells, holder: Cell, word: usize, c: Cell, prev: Cell, first: Cell)
    requires holder { IsSome (cells_by cells.old (cell_id holder)) }
    requires word { IsLinkWord (cells_by cells.old (cell_id holder)) word }
    requires c { IsSome (cells_by cells.old (cell_id c)) }
    requires prev { IsSome (cells_by cells.old (cell_id prev)) }
    requires first { IsSome (cells_by cells.old (cell_id first)) }
    ensures { cells_by cells.new ≡ shortened (cells_by cells.old) (cell_id holder) (link_of word) (cell_id c) (cell_id prev) (cell_id first) }
{
    close(cells, prev, first);
    take_over(cells, holder, word, c, prev);
}

// The only one of a class leaves. One with none below it, if there is one below the class, takes its place.
fn drop_class(cells: &mut Cells, holder: Cell, word: usize, c: Cell, leaf: Place)
    requires holder { IsSome (cells_by cells.old (cell_id holder)) }
    requires word { IsLinkWord (cells_by cells.old (cell_id holder)) word }
    requires c { IsSome (cells_by cells.old (cell_id c)) }
    requires leaf { IfSome leaf.last (λ l. IsSome (cells_by cells.old (cell_id l)) × IsSome (cells_by cells.old (cell_id leaf.holder)) × (leaf.word < 7)) }
    ensures { cells_by cells.new ≡ dropped (cells_by cells.old) (cell_id holder) (link_of word) (cell_id c) (cell_id leaf.holder) leaf.word (option_map cell_id leaf.last) }
{
    match leaf.last {
        None => cells.set_link_in(holder, word, None),
        Some(l) => {
            cells.set_link(leaf.holder, leaf.word, None);
            take_over(cells, holder, word, c, l);
        }
    }
}

/// An atom is the last one of its class.
pub fn file_last(cells: &mut Cells, m: Cell, c: Cell)
    requires { (xs : List ℕ) × (t : ClassTree) × MayFile (cells_by cells.old) (cell_id m) (cell_id c) xs t }
    ensures { IsFiledLast (cells_by cells.old) (cells_by cells.new) (cell_id m) (cell_id c) }
{
    cells.whole();
    let key = own_key(cells, c);
    let found = find(cells, m, key);
    match found.last {
        None => begin(cells, found.holder, found.word, c),
        Some(last) => {
            let first = cells.target(last, CLASS_NEXT);
            lengthen(cells, m, found.holder, found.word, last, first, c);
        }
    }
}

/// An atom stands directly before another one of its class.
pub fn file_before(cells: &mut Cells, m: Cell, d: Cell, c: Cell)
    requires { (xs : List ℕ) × (t : ClassTree) × MayFile (cells_by cells.old) (cell_id m) (cell_id c) xs t × In (cell_id d) xs × (key_in (cells_by cells.old) (cell_id d) ≡ key_in (cells_by cells.old) (cell_id c)) }
    ensures { IsFiledBefore (cells_by cells.old) (cells_by cells.new) (cell_id m) (cell_id d) (cell_id c) }
{
    cells.whole();
    let prev = cells.target(d, CLASS_PREV);
    put_inside(cells, m, prev, d, c);
}

// The last one of a class leaves it.
fn unfile_last(cells: &mut Cells, m: Cell, c: Cell, prev: Cell, next: Cell)
    requires classes { IsInItsClass (cells_by cells.old) (cell_id m) (cell_id c) }
    requires last { ends_class (cells_by cells.old) (cell_id c) ≡ true }
    requires prev { link_in (cells_by cells.old) (cell_id c) CLASS_PREV ≡ Some (cell_id prev) }
    requires next { link_in (cells_by cells.old) (cell_id c) CLASS_NEXT ≡ Some (cell_id next) }
    ensures { IsUnfiled (cells_by cells.old) (cells_by cells.new) (cell_id m) (cell_id c) }
{
    cells.whole();
    let key = own_key(cells, c);
    let found = find(cells, m, key);
    if is_last(cells, prev) {
        let leaf = lowest(cells, c);
        drop_class(cells, found.holder, found.word, c, leaf);
    } else {
        shorten(cells, found.holder, found.word, c, prev, next);
    }
}

/// An atom leaves its class.
#[inline(always)]
pub fn unfile(cells: &mut Cells, m: Cell, c: Cell)
    requires { IsInItsClass (cells_by cells.old) (cell_id m) (cell_id c) }
    ensures { IsUnfiled (cells_by cells.old) (cells_by cells.new) (cell_id m) (cell_id c) }
{
    cells.whole();
    let prev = cells.target(c, CLASS_PREV);
    let next = cells.target(c, CLASS_NEXT);
    if is_last(cells, c) {
        unfile_last(cells, m, c, prev, next);
    } else {
        close(cells, prev, next);
    }
}

/// What came into a list of a membrane is filed, where it is to be: it comes directly before another one of its class,
/// or behind all of them.
#[inline(always)]
pub fn enter_class(cells: &mut Cells, m: Cell, filed: bool, place: Option<Cell>, c: Cell)
    requires { filed ≡ true → (xs : List ℕ) × (t : ClassTree) × (xs' : List ℕ) × MayEnter (cells_by cells.old) (cell_id m) (cell_id c) (option_map cell_id place) xs t xs' }
    ensures { (xs : List ℕ) (t : ClassTree) (xs' : List ℕ) → (filed ≡ true → MayEnter (cells_by cells.old) (cell_id m) (cell_id c) (option_map cell_id place) xs t xs') →
        FiledAs filed (cells_by cells.old) (cells_by cells.new) (cell_id m) (cell_id c ∷ xs) (key_in (cells_by cells.old) (cell_id c)) xs' }
{
    if filed {
        match place {
            None => file_last(cells, m, c),
            Some(d) => file_before(cells, m, d, c),
        }
    }
}

/// What left a list of a membrane leaves its class, where it is filed.
#[inline(always)]
pub fn leave_class(cells: &mut Cells, m: Cell, filed: bool, c: Cell)
    requires { filed ≡ true → (xs : List ℕ) × (t : ClassTree) × (xs' : List ℕ) × MayLeave (cells_by cells.old) (cell_id m) (cell_id c) xs t xs' }
    ensures { (xs : List ℕ) (t : ClassTree) (xs' : List ℕ) → (filed ≡ true → MayLeave (cells_by cells.old) (cell_id m) (cell_id c) xs t xs') →
        FiledAs filed (cells_by cells.old) (cells_by cells.new) (cell_id m) xs (key_in (cells_by cells.old) (cell_id c)) xs' }
{
    if filed {
        unfile(cells, m, c);
    }
}
