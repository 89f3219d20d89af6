//! The cell of the published counts. Each step on it has its effect from the outcome that it is called with.
ghost use Rattle.std.specs.Prelude.{◌≡◌, [], IfOk};
ghost use Rattle.crossbeam_utils.specs.Register.{Forks, Merges, Turns};
ghost use Rattle.crossbeam_utils.specs.Seq.{cell_view, IsSamePass};
ghost use Rattle.pool_history.specs.CellInvariant.{HasCellInvariant, beginner};

use crate::brands::{CountsPass, HistoryProtocol, View};
use atomic_table::{Join, Split};
use crossbeam_utils::atomic::seq_cell::RuledSeqCell;
use crossbeam_utils::rule::Outcome;
use std::alloc::{AllocError, Global};
use std::sync::Wait;

/// The number of words of the counts.
const WORDS: usize = 8;

/// The published counts, as words, which one pass at a time stores and the others read whole.
pub type Cell = RuledSeqCell<[u64; WORDS], View, HistoryProtocol, WORDS>;

/// Makes a new cell, and returns it with its authoritative pass.
///
/// # Errors
///
/// There is no memory for it.
pub fn begin(alloc: Global) -> Result<(Cell, CountsPass), AllocError>
    ensures { IfOk result (λ c. (c.1.table_id ≡ c.0.table.shared.table_id)
        × (cell_view c.1 ≡ beginner)) }
{
    Cell::ruled(alloc, [0, 0, 0, 0, 0, 0, 0, 0])
}

/// Returns the stored words.
pub fn load<M: Outcome<[u64; 8], View>, R: Wait>(
    rt: &R,
    cell: &Cell,
    pass: &mut CountsPass,
) -> [u64; 8]
    requires cell { pass.old.table_id ≡ cell.now.table.shared.table_id }
    requires turns { Turns HasCellInvariant pass.old.id (cell_view pass.old)
        (λ words. words) M.then }
    ensures same { IsSamePass pass.old pass.new }
    ensures view { M.then (cell_view pass.old) result result (cell_view pass.new) }
{
    cell.load_as::<M, R>(rt, pass)
}

/// Stores words in place of the stored ones, which it returns.
pub fn swap<M: Outcome<[u64; 8], View>, R: Wait>(
    rt: &R,
    cell: &Cell,
    pass: &mut CountsPass,
    words: [u64; 8],
) -> [u64; 8]
    requires cell { pass.old.table_id ≡ cell.now.table.shared.table_id }
    requires turns { Turns HasCellInvariant pass.old.id (cell_view pass.old) (λ _. words) M.then }
    ensures same { IsSamePass pass.old pass.new }
    ensures view { M.then (cell_view pass.old) result words (cell_view pass.new) }
{
    cell.swap_as::<M, R>(rt, pass, words)
}

/// Splits the view of a pass, and returns a new pass with the part that it loses.
pub fn split<M: Split<View>>(cell: &Cell, pass: &mut CountsPass) -> CountsPass
    requires cell { pass.old.table_id ≡ cell.now.table.shared.table_id }
    requires forks { Forks HasCellInvariant pass.old.id (cell_view pass.old)
        (M.left (cell_view pass.old)) (M.right (cell_view pass.old)) }
    ensures same { IsSamePass pass.old pass.new }
    ensures view { cell_view pass.new ≡ M.left (cell_view pass.old) }
    ensures given { (result.table_id ≡ pass.old.table_id)
        × (cell_view result ≡ M.right (cell_view pass.old)) × (result.me.1 ≡ []) }
{
    cell.split_pass::<M>(pass)
}

/// Joins the view of another pass to that of a pass.
pub fn join<M: Join<View>>(cell: &Cell, pass: &mut CountsPass, other: CountsPass)
    requires cell { pass.old.table_id ≡ cell.now.table.shared.table_id }
    requires other { (other.table_id ≡ pass.old.table_id) × (other.me.1 ≡ []) }
    requires merges { Merges HasCellInvariant pass.old.id (cell_view pass.old) other.id
        (cell_view other) (M.both (cell_view pass.old) (cell_view other)) M.spent }
    ensures same { IsSamePass pass.old pass.new }
    ensures view { cell_view pass.new ≡ M.both (cell_view pass.old) (cell_view other) }
{
    cell.join_pass::<M>(pass, other);
}
