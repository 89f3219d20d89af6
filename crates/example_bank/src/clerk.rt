//! The work of a clerk: orders, each over a borrowed connection, some of them with a mishap.

use crate::Bank;
use crate::books::Order;
use crate::connections::Connected;
use crate::error::DayError;
use pool_shared::{Caller, Factory, PoolBrand};
use sqlite::Error;
use std::sync::Wait;

/// The number of orders that each clerk executes.
const ORDERS: u32 = 25;

/// A mishap with an order.
#[derive(Clone, Copy, PartialEq, Eq)]
enum Mishap {
    /// The connection breaks before it.
    BreaksBefore,
    /// The connection breaks after it, and is returned.
    BreaksAfter,
    /// The clerk forgets the connection after it.
    Forgets,
}

fn mishap_of(clerk: u32, number: u32) -> Option<Mishap> {
    match (clerk, number) {
        (0, 10) => Some(Mishap::BreaksBefore),
        (1, 20) => Some(Mishap::Forgets),
        (2, 5) => Some(Mishap::BreaksAfter),
        _ => None,
    }
}

// Returns the order of a clerk: a deposit of 10 to the account with the clerk's number, and a transfer of that number
// plus 1 to the next account.
fn order_of(clerk: u32) -> Order {
    let account = i64::from(clerk % 4);
    Order {
        account,
        deposit: 10,
        other: (account + 1) % 4,
        transfer: account + 1,
    }
}

// Borrows a connection, executes an order over it, and returns it to the pool. Returns whether the order was executed.
// If it was not, the connection is destroyed, and nothing has changed.
fn try_order<L: Connected, F: Factory<L, Error> + Drop, B: PoolBrand, R: Wait>(
    rt: &R,
    bank: &Bank<L, F, B>,
    me: &mut Caller<B>,
    order: Order,
    mishap: Option<Mishap>,
) -> Result<bool, DayError> {
    let mut link = bank.borrow(rt, me).map_err(|_| DayError::NotBorrowed)?;
    if mishap == Some(Mishap::BreaksBefore) {
        link.value_mut().break_down();
    }
    if link.value_mut().carry_out(order).is_err() {
        bank.invalidate(rt, me, link)
            .map_err(|_| DayError::NotTakenBack)?;
        return Ok(false);
    }
    if mishap == Some(Mishap::Forgets) {
        drop(link);
        return Ok(true);
    }
    if mishap == Some(Mishap::BreaksAfter) {
        link.value_mut().break_down();
    }
    bank.give_back(rt, me, link)
        .map_err(|_| DayError::NotTakenBack)?;
    Ok(true)
}

/// Executes all orders of a clerk, each over a connection that it borrows for that. If the connection breaks, it
/// executes the order over another one. Returns the clerk's caller.
pub fn work<L: Connected, F: Factory<L, Error> + Drop, B: PoolBrand, R: Wait>(
    rt: &R,
    bank: &Bank<L, F, B>,
    me: Caller<B>,
) -> Result<Caller<B>, DayError> {
    let mut me = me;
    let clerk = me.number();
    let order = order_of(clerk);
    for number in 0..ORDERS {
        if !try_order(rt, bank, &mut me, order, mishap_of(clerk, number))?
            && !try_order(rt, bank, &mut me, order, None)?
        {
            return Err(DayError::NotCarriedOut);
        }
    }
    Ok(me)
}
