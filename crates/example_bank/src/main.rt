//! An example: four clerks share a pool of connections to SQLite databases.
//!
//! SQLite locks a database file for one connection at a time. So the bank has three books, each a file, and the pool
//! has three places. A clerk's order is a transaction in the book of the borrowed connection, and the balance of an
//! account is the sum over the books. During the day one connection breaks in use, one breaks and is returned, and one
//! is forgotten by the clerk who borrowed it. The holder finds the first, the test of the next borrow the second, and
//! the manager's maintenance in the evening the third. The maintenance also opens a new one in its place. Then the
//! program adds up the accounts.
//!
//! It leaves the books and `bank.journal` in the folder that it runs in.
#![tactic(auto)]

ghost use Rattle.std.specs.Prelude.{◌≡◌};

mod books;
mod clerk;
mod clock;
mod connections;
mod error;

use books::{BOOKS, Book, Connect, Files};
use clerk::work;
use clock::OfficeClock;
use connections::{Connected, Link, Opener};
use error::DayError;
use pool_core::Core;
use pool_journal::print_entry;
use pool_settings::Settings;
use pool_shared::{Caller, Factory, PoolBrand, SharedPool, UnopenedPool};
use sqlite::{Alter, Connection, Error};
use std::alloc::Global;
use std::marker::Brand;
use std::sync::Wait;
use std::thread::Threads;
use std::{fs, thread};

/// The settings of the pool.
const SETTINGS: &str = "maxTotal = 3
minIdle = 3
lifo = false
maxWaitMillis = 60000
testOnBorrow = true

[abandoned]
removeAbandonedOnMaintenance = true
removeAbandonedTimeoutMillis = 200
";

/// The file of the pool's journal, for `pool check`, `pool stats` and `journal_picture`.
const JOURNAL: &str = "bank.journal";

/// The number that distinguishes this pool from others.
const NUMBER: u64 = 1;

const CLERKS: u32 = 4;

/// The time for which the bank is closed before the evening, in milliseconds: longer than the timeout of abandoned
/// connections.
const PAUSE: u64 = 250;

/// The pool of connections. Clerks work over connections of any type. So only the proof of `main` considers the parts
/// of a connection to SQLite, to show that it may go from thread to thread.
type Bank<L, F, B> = SharedPool<L, Error, F, OfficeClock, B>;

// Runs all clerks, each in its own thread. Returns their callers.
fn work_all<
    L: Connected,
    F: Factory<L, Error> + Send + Drop,
    B: PoolBrand + Send + Sync,
    R: Threads + Wait + Sync,
>(
    rt: &R,
    alloc: Global,
    bank: &Bank<L, F, B>,
    clerks: Vec<Caller<B>>,
) -> Result<Vec<Caller<B>>, DayError> {
    let mut back = Vec::new(alloc);
    for clerk in thread::map_vec(rt, clerks, &|me| work(rt, bank, me))? {
        back.push(clerk?)?;
    }
    Ok(back)
}

// Opens the connections in the morning, and maintains and closes the pool in the evening. Returns the clerks' callers.
fn keep_open<
    L: Connected,
    F: Factory<L, Error> + Send + Drop,
    B: PoolBrand + Send + Sync,
    R: Threads + Wait + Sync,
>(
    rt: &R,
    alloc: Global,
    bank: &Bank<L, F, B>,
    manager: &mut Caller<B>,
    clerks: Vec<Caller<B>>,
    clock: OfficeClock,
) -> Result<Vec<Caller<B>>, DayError> {
    bank.maintain(rt, manager)
        .map_err(|_| DayError::NotMaintained)?;
    let back = work_all(rt, alloc, bank, clerks)?;
    clock.pass(PAUSE);
    bank.maintain(rt, manager)
        .map_err(|_| DayError::NotMaintained)?;
    bank.close(rt, manager).map_err(|_| DayError::NotClosed)?;
    Ok(back)
}

// Runs a day at the bank, with a caller for each clerk and one for the manager. The type `B` names this one pool, so
// the compiler knows that the callers are those of this pool.
fn day<
    L: Connected,
    F: Factory<L, Error> + Send + Drop,
    B: PoolBrand + Send + Sync,
    R: Threads + Wait + Sync,
>(
    rt: &R,
    alloc: Global,
    unopened: UnopenedPool,
    settings: Settings,
    opener: F,
    clock: OfficeClock,
) -> Result<Core<L>, DayError>
    requires { (unopened ≡ B.table) × (settings ≡ B.settings) × (5 ≡ B.callers) }
{
    let (bank, mut callers) = Bank::<L, F, B>::open(
        rt,
        alloc,
        unopened,
        settings,
        NUMBER,
        CLERKS + 1,
        opener,
        clock,
    )
    .map_err(|_| DayError::NotOpened)?;
    let mut manager = callers.pop().ok_or(DayError::CallerMissing)?;
    let mut back = keep_open(rt, alloc, &bank, &mut manager, callers, clock)?;
    back.push(manager)?;
    bank.finish(rt, back).map_err(|_| DayError::CallerMissing)
}

// Makes new books, with the accounts in each.
fn found<S: Alter + Drop, H: Connect<Connection<S>>>(
    rt: &HostRuntime,
    store: &H,
) -> Result<(), DayError> {
    for path in BOOKS {
        let log = format!(in rt.alloc(); "{path}-wal")?;
        let _ = fs::remove_file(rt, path);
        let _ = fs::remove_file(rt, log.as_str());
        let mut book = Book::<S>::open(store, path)?;
        book.found()?;
        book.close(store)?;
    }
    Ok(())
}

// Opens all books.
fn open_all<S: Alter + Drop, H: Connect<Connection<S>>>(
    rt: &HostRuntime,
    store: &H,
) -> Result<Vec<Book<S>>, DayError> {
    let mut all = Vec::new(rt.alloc());
    for path in BOOKS {
        all.push(Book::open(store, path)?)?;
    }
    Ok(all)
}

// Returns the balance of an account: the sum over all books.
fn balance<S: Alter>(all: &mut [Book<S>], account: i64) -> Result<i64, Error> {
    let mut sum = 0i64;
    for book in all {
        sum = sum.saturating_add(book.balance(account)?);
    }
    Ok(sum)
}

// Prints the balance of each account at the end, and their sum.
fn report_accounts<S: Alter + Drop, H: Connect<Connection<S>>>(
    rt: &HostRuntime,
    store: &H,
) -> Result<(), DayError> {
    let mut all = open_all::<S, H>(rt, store)?;
    let mut total = 0i64;
    for account in 0..i64::from(CLERKS) {
        let balance = balance(all.as_mut_slice(), account)?;
        total = total.saturating_add(balance);
        println!(rt; "account {account}: {balance}")?;
    }
    println!(rt; "all accounts: {total}")?;
    Ok(())
}

// Prints the numbers of connections that the pool opened, that were forgotten, and that are still open.
fn report_pool<L>(rt: &HostRuntime, core: &Core<L>) -> Result<(), DayError> {
    let counts = core.counts();
    let still_open = counts.idle + counts.lent + counts.reserved;
    println!(rt; "connections opened: {}", counts.created)?;
    println!(rt; "connections forgotten: {}", counts.reclaimed)?;
    println!(rt; "connections still open: {still_open}")?;
    Ok(())
}

// Writes the pool's journal.
fn write_journal<L>(rt: &HostRuntime, core: &Core<L>) -> Result<(), DayError> {
    let mut text = Vec::new(rt.alloc());
    for entry in core.journal() {
        print_entry(entry, &mut text)?;
    }
    fs::write(rt, JOURNAL, &text)?;
    Ok(())
}

// Runs a day at a new bank, whose books are on a shelf, and prints the results.
fn keep_books<
    S: Alter + Drop + Send,
    H: Connect<Connection<S>> + Copy + Send + Sync,
    R: Threads + Wait + Sync,
>(rt: &HostRuntime, threads: &R, settings: Settings, store: H) -> Result<(), DayError> {
    found::<S, H>(rt, &store)?;
    let unopened = UnopenedPool::new(rt.alloc())?;
    let opener = Opener::new(&store);
    let clock = OfficeClock::start(rt)?;
    let core = day::<Link<S>, Opener<H>, Brand, R>(
        threads,
        rt.alloc(),
        unopened,
        settings,
        opener,
        clock,
    )?;
    report_accounts::<S, H>(rt, &store)?;
    report_pool(rt, &core)?;
    write_journal(rt, &core)
}

fn main(rt: HostRuntime) -> Result<(), DayError> {
    let settings = Settings::from_text(rt.alloc(), SETTINGS).map_err(|_| DayError::Settings)?;
    keep_books(&rt, &rt, settings, Files::new(&rt))
}
