//! What the store tells its index of membranes.
ghost use Rattle.std.specs.Prelude.{◌≡◌, ◌<◌, ◌≤◌, ℕ, length, map, vec_capacity, vec_len};
ghost use Rattle.lmn_web_cells.specs.CellIds.{cell_id};
ghost use Rattle.lmn_store_web_preorder.specs.Indexed.{IsNested};
ghost use Rattle.lmn_store_web_preorder.specs.Nests.{Nest, with_awake};
ghost use Rattle.lmn_store_web.specs.Indexes.{held};

use lmn_store_web_preorder::Preorder;
use lmn_web_merging::Cell;

/// A key was awake or not, and is so now. Nothing is done where that is the same.
pub fn wake(index: &mut Preorder, key: usize, was: bool, is: bool)
    requires { (n : Nest) × IsNested index.old n × (key < n.keys) }
    ensures { (n : Nest) → IsNested index.old n → key < n.keys → n.awake key ≡ was → IsNested index.new (with_awake key is n) }
{
    if was != is {
        index.set_awake(key, is);
    }
}

/// The membrane of a key is this one, for which there is room.
pub fn hold(mems: &mut Vec<Cell>, key: usize, m: Cell)
    requires key { key ≤ length mems.old.items }
    requires room { vec_len mems.old < vec_capacity mems.old }
    ensures { map cell_id mems.new.items ≡ held key (cell_id m) (map cell_id mems.old.items) }
{
    if key < mems.len() {
        mems[key] = m;
    } else {
        mems.push_reserved(m);
    }
}
