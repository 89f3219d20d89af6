//! The work of a worker: requests over borrowed connections, and now and then a cut of the journal.

use crate::Connections;
use crate::archive::Archive;
use crate::connections::Connection;
use crate::error::WorkError;
use pool_shared::{AddFault, BorrowFault, Caller, Lent, PoolBrand};
use std::sync::Wait;

/// The number of requests that each worker answers.
const REQUESTS: u32 = 500;

/// The number of requests after which a worker looks after the pool.
const SPAN: u32 = 50;

/// The least room that the journal should have, in entries.
const LEAST: u64 = 100;

/// The number of times that a borrow is tried if the journal has no room for it.
const TRIES: u32 = 100;

/// The number of requests that a worker answered, and the number of entries that it wrote to files.
#[derive(Clone, Copy)]
pub struct Tally {
    pub answered: u64,
    pub archived: u64,
}

// Borrows a connection. If the journal has no room for that, archives it, unless another worker has just done so. Other
// workers may have filled it again by the next try.
fn borrow<B: PoolBrand, R: Wait>(
    rt: &R,
    archive: &Archive<'_>,
    pool: &Connections<B>,
    me: &mut Caller<B>,
    tally: &mut Tally,
) -> Result<Lent<Connection>, WorkError> {
    for _ in 0..TRIES {
        match pool.borrow(rt, me) {
            Ok(connection) => return Ok(connection),
            Err(BorrowFault::JournalFull) => {
                let count = archive.take_in_below(rt, pool, me, LEAST)?;
                tally.archived = tally.archived.saturating_add(count);
            }
            Err(_) => return Err(WorkError::NotBorrowed),
        }
    }
    Err(WorkError::NotBorrowed)
}

// Maintains the pool, and archives its journal if little room is left. Maintenance that finds no room is left to the
// next worker.
fn look_after<B: PoolBrand, R: Wait>(
    rt: &R,
    archive: &Archive<'_>,
    pool: &Connections<B>,
    me: &mut Caller<B>,
) -> Result<u64, WorkError> {
    match pool.maintain(rt, me) {
        Ok(()) | Err(AddFault::JournalFull) => archive.take_in_below(rt, pool, me, LEAST),
        Err(_) => Err(WorkError::NotMaintained),
    }
}

/// Answers requests, each over a connection that it borrows for that, and looks after the pool now and then. Returns
/// the caller and its tally.
pub fn work<B: PoolBrand, R: Wait>(
    rt: &R,
    archive: &Archive<'_>,
    pool: &Connections<B>,
    me: Caller<B>,
) -> Result<(Caller<B>, Tally), WorkError> {
    let mut me = me;
    let mut tally = Tally {
        answered: 0,
        archived: 0,
    };
    for request in 0..REQUESTS {
        if request % SPAN == SPAN - 1 {
            let count = look_after(rt, archive, pool, &mut me)?;
            tally.archived = tally.archived.saturating_add(count);
        }
        let mut connection = borrow(rt, archive, pool, &mut me, &mut tally)?;
        connection.value_mut().ask();
        tally.answered = tally.answered.saturating_add(1);
        pool.give_back(rt, &mut me, connection)
            .map_err(|_| WorkError::NotTakenBack)?;
    }
    Ok((me, tally))
}
