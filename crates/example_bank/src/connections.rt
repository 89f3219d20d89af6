//! The connections that the pool lends, and how they are opened, tested and closed.

use crate::books::{BOOKS, Book, Connect, Order};
use pool_shared::Factory;
use sqlite::{Alter, Connection, Error, ErrorCode};
use std::cell::RefCell;

/// A connection that executes orders.
pub trait Connected: Send + Drop {
    /// Executes an order. If it fails, nothing has changed.
    fn carry_out(&mut self, order: Order) -> Result<(), Error>;

    /// Breaks the connection, for the example.
    fn break_down(&mut self);
}

/// A connection to one of the books. It is in a cell, since a test has it by a shared reference, and runs a query.
pub struct Link<S: Alter> {
    book: RefCell<Book<S>>,
}

impl<S: Alter + Drop> Drop for Link<S> {
    fn drop(self) {
        let Link { book: _ } = self;
    }
}

impl<S: Alter + Drop + Send> Connected for Link<S> {
    fn carry_out(&mut self, order: Order) -> Result<(), Error> {
        self.book.get_mut().carry_out(order)
    }

    fn break_down(&mut self) {
        self.book.get_mut().break_down();
    }
}

impl<S: Alter> Link<S> {
    fn close<H: Connect<Connection<S>>>(self, store: &H) -> Result<(), Error> {
        let Link { book } = self;
        book.into_inner().close(store)
    }
}

/// A factory that opens connections to the books on a shelf.
#[derive(Clone, Copy)]
pub struct Opener<H> {
    store: H,
}

impl<H: Copy> Opener<H> {
    pub fn new(store: &H) -> Opener<H> {
        Opener { store: *store }
    }
}

impl<S: Alter + Drop, H: Connect<Connection<S>> + Sync> Factory<Link<S>, Error> for Opener<H> {
    ghost use Rattle.std.specs.Prelude.{⊤};

    ghost active = { λ link. ⊤ };

    ghost valid = { λ link. ⊤ };

    ghost passive = { λ link. ⊤ };

    ghost from_make = { λ error. ⊤ };

    ghost from_activate = { λ error. ⊤ };

    ghost from_passivate = { λ error. ⊤ };

    /// Opens the first book that isn't open. There is one, since the pool has one place for each book.
    fn make(&self, _id: u64) -> Result<Link<S>, Error> {
        for path in BOOKS {
            match Book::open(&self.store, path) {
                Ok(book) => {
                    return Ok(Link {
                        book: RefCell::new(book),
                    });
                }
                Err(Error::SqliteFailure(ErrorCode::DatabaseBusy)) => {}
                Err(error) => return Err(error),
            }
        }
        Err(Error::SqliteFailure(ErrorCode::DatabaseBusy))
    }

    fn activate(&self, _link: &mut Link<S>) -> Result<(), Error> {
        Ok(())
    }

    /// Returns whether a query succeeds.
    fn validate(&self, link: &Link<S>) -> bool {
        match link.book.try_borrow_mut() {
            Ok(mut book) => book.balance(0).is_ok(),
            Err(_) => false,
        }
    }

    fn passivate(&self, _link: &mut Link<S>) -> Result<(), Error> {
        Ok(())
    }

    fn destroy(&self, link: Link<S>) {
        let _ = link.close(&self.store);
    }
}
