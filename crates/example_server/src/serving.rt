//! The work of a server: requests, each over a connection that it borrows for that.

use crate::Connections;
use crate::connections::Request;
use crate::error::DayError;
use pool_shared::{Caller, PoolBrand};
use std::sync::Wait;

/// The number of requests that each server answers.
const REQUESTS: u32 = 100;

// Returns the kind of a request of a server.
fn request_of(server: u32, request: u32) -> Request {
    match (server, request) {
        (0, 10) => Request::Fatal,
        _ => Request::Usual,
    }
}

// Returns whether a server forgets the connection that it borrowed for a request.
fn forgets(server: u32, request: u32) -> bool {
    server == 1 && request == 20
}

/// Answers requests, each over a connection that it borrows for that. Returns the caller, and the number of answered
/// requests.
pub fn serve<B: PoolBrand, R: Wait>(
    rt: &R,
    pool: &Connections<B>,
    me: Caller<B>,
) -> Result<(Caller<B>, u64), DayError> {
    let mut me = me;
    let server = me.number();
    let mut answered = 0u64;
    for request in 0..REQUESTS {
        let mut connection = pool.borrow(rt, &mut me)?;
        if !connection.value_mut().ask(request_of(server, request)) {
            pool.invalidate(rt, &mut me, connection)?;
            continue;
        }
        answered = answered.saturating_add(1);
        if forgets(server, request) {
            drop(connection);
        } else {
            pool.give_back(rt, &mut me, connection)?;
        }
    }
    Ok((me, answered))
}
