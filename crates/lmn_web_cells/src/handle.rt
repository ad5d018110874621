//! The handle of a cell.
ghost use Rattle.lmn_web_cells.specs.Rows.{IsStart};

/// Where a cell lies. It owns nothing.
#[derive(Clone, Copy)]
pub struct Cell {
    pub(crate) at: *mut u8,
    ghost start: { IsStart at },
}
