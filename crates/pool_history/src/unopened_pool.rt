//! A new cell for a pool that is still to be opened.
ghost use Rattle.std.specs.Prelude.{◌≡◌, [], ◌∷◌, IfOk};

use crate::brands::CountsPass;
use crate::cell::{Cell, begin};
use std::alloc::{AllocError, Global};
use std::marker::Model;

/// A new cell with its authoritative pass. Its model is the cell's name.
#[derive(Drop)]
pub struct UnopenedPool {
    pub cell: Cell,
    pub authority: CountsPass,
}

impl Model for UnopenedPool {
    ghost use Rattle.atomic_table.specs.Seated.{TableId, table_id_coded};

    ghost Value = { TableId };

    ghost coded = { table_id_coded };

    ghost use Rattle.std.specs.Prelude.{◌≡◌};
    ghost use Rattle.crossbeam_utils.specs.Seq.{cell_view};
    ghost use Rattle.pool_history.specs.CellInvariant.{beginner};

    ghost view = { λ s. s.cell.table.shared.table_id };

    ghost invariant = { λ s. (s.authority.table_id ≡ s.cell.table.shared.table_id)
        × (cell_view s.authority ≡ beginner) };
}

impl UnopenedPool {
    /// Makes the cell of a pool that is still to be opened.
    ///
    /// # Errors
    ///
    /// There is no memory for it.
    pub fn new(alloc: Global) -> Result<UnopenedPool, AllocError> {
        let (cell, authority) = begin(alloc)?;
        Ok(UnopenedPool { cell, authority })
    }
}
