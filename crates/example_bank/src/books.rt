//! The bank's books: how a book is opened and closed, and the accounts in it, in SQL.

use sqlite::{Alter, Connection, Error, ErrorCode, File, FileStore, Transaction, params};

/// The paths of the books. Each book has all accounts, and the balance of an account is the sum over the books.
pub const BOOKS: [&str; 3] = ["bank.1.db", "bank.2.db", "bank.3.db"];

/// Four empty accounts. No balance may be negative.
const ACCOUNTS: &str = "CREATE TABLE account (
    id INTEGER PRIMARY KEY,
    balance INTEGER NOT NULL CHECK (balance >= 0)
) STRICT;
INSERT INTO account (id, balance) VALUES (0, 0), (1, 0), (2, 0), (3, 0);
";

const BALANCE: &str = "SELECT balance FROM account WHERE id = ?1";

const PUT: &str = "UPDATE account SET balance = balance + ?2 WHERE id = ?1";

const TAKE: &str = "UPDATE account SET balance = balance - ?2 WHERE id = ?1";

/// A deposit on an account, and a transfer of some of it to another.
#[derive(Clone, Copy)]
pub struct Order {
    pub account: i64,
    pub deposit: i64,
    pub other: i64,
    pub transfer: i64,
}

/// A store of books, over connections of a type `C`.
pub trait Connect<C> {
    /// Connects to the book at a path, and makes it if there is none.
    fn open(&self, path: &str) -> Result<C, Error>;

    /// Closes a connection. Committed transactions are kept, even if the close fails.
    fn close(&self, connection: C) -> Result<(), Error>;
}

/// Books in files. Its callers are proved over any shelf: only two methods and `main` depend on the store of files.
#[derive(Clone, Copy)]
pub struct Files {
    rt: HostRuntime,
}

impl Files {
    pub fn new(rt: &HostRuntime) -> Files {
        Files { rt: *rt }
    }
}

impl Connect<Connection<FileStore<File>>> for Files {
    fn open(&self, path: &str) -> Result<Connection<FileStore<File>>, Error> {
        Connection::open(&self.rt, path)
    }

    fn close(&self, connection: Connection<FileStore<File>>) -> Result<(), Error> {
        connection.close()
    }
}

/// A connection to a book. SQLite keeps the file locked until it is closed or dropped.
pub struct Book<S: Alter> {
    connection: Connection<S>,
}

// It is written out, so that code that drops a book is not proved again for each part of a connection.
impl<S: Alter + Drop> Drop for Book<S> {
    fn drop(self) {
        let Book { connection: _ } = self;
    }
}

impl<S: Alter> Book<S> {
    /// Opens the book at a path, and makes it if there is none.
    pub fn open<H: Connect<Connection<S>>>(store: &H, path: &str) -> Result<Book<S>, Error> {
        Ok(Book {
            connection: store.open(path)?,
        })
    }

    /// Writes the accounts into a new book.
    pub fn found(&mut self) -> Result<(), Error> {
        self.connection.execute_batch(ACCOUNTS)
    }

    /// Executes an order, whole or not at all: a transaction that is dropped before it is committed changes nothing.
    pub fn carry_out(&mut self, order: Order) -> Result<(), Error> {
        if !self.connection.is_autocommit() {
            return Err(Error::SqliteFailure(ErrorCode::TransactionState));
        }
        let mut transaction = self.connection.transaction();
        change(&mut transaction, PUT, order.account, order.deposit)?;
        change(&mut transaction, TAKE, order.account, order.transfer)?;
        change(&mut transaction, PUT, order.other, order.transfer)?;
        transaction.commit()
    }

    /// Returns the balance of an account in this book.
    pub fn balance(&mut self, account: i64) -> Result<i64, Error> {
        self.connection.query_row(BALANCE, params![account])?.get(0)
    }

    /// Breaks the connection, for the example: each later statement that reads a row fails.
    pub fn break_down(&mut self) {
        self.connection.set_step_limit(Some(0));
    }

    /// Closes the connection. Committed transactions are kept, even if the close fails.
    pub fn close<H: Connect<Connection<S>>>(self, store: &H) -> Result<(), Error> {
        let Book { connection } = self;
        store.close(connection)
    }
}

// Adds an amount to an account, or subtracts it.
fn change<S: Alter>(
    transaction: &mut Transaction<'_, S>,
    how: &str,
    account: i64,
    amount: i64,
) -> Result<(), Error> {
    transaction.execute(how, params![account, amount])?;
    Ok(())
}
