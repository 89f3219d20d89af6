//! Loads of workers: their reports and errors, and gates that count or hold the workers.

use crate::actions::expect_equal;
use crate::openings::settings_of;
use crate::turns::TURNS;
use pool_load::{Gate, LoadFault, LoadReport, load};
use pool_settings::Settings;
use std::alloc::Global;
use std::process::Abort;
use std::sync::Wait;
use std::sync::atomic::{AtomicU64, Ordering};
use std::thread;
use std::thread::Threads;

/// A gate that holds no worker back. It counts those that pass, and the most that pass at a time.
#[derive(Drop)]
struct Counter {
    passed: AtomicU64,
    inside: AtomicU64,
    most: AtomicU64,
}

impl Counter {
    fn new() -> Counter {
        Counter {
            passed: AtomicU64::new(0),
            inside: AtomicU64::new(0),
            most: AtomicU64::new(0),
        }
    }
}

impl Gate for Counter {
    fn pass(&self, _worker: u32, _round: u64) {
        let others = self.inside.fetch_add(1, Ordering::SeqCst);
        self.most
            .fetch_max(others.saturating_add(1), Ordering::SeqCst);
        self.passed.fetch_add(1, Ordering::SeqCst);
        thread::yield_now();
        self.inside.fetch_sub(1, Ordering::SeqCst);
    }
}

/// A gate that holds each worker until all of them have arrived. It notes whether one waited in vain.
#[derive(Drop)]
struct Meeting {
    workers: u64,
    arrived: AtomicU64,
    in_vain: AtomicU64,
}

impl Gate for Meeting {
    fn pass(&self, _worker: u32, _round: u64) {
        self.arrived.fetch_add(1, Ordering::SeqCst);
        for _ in 0..TURNS {
            if self.arrived.load(Ordering::SeqCst) >= self.workers {
                return;
            }
            thread::yield_now();
        }
        self.in_vain.store(1, Ordering::SeqCst);
    }
}

/// A gate that notes the sum of the numbers of all rounds, and of all workers, that pass.
#[derive(Drop)]
struct Numbers {
    workers: AtomicU64,
    rounds: AtomicU64,
}

impl Gate for Numbers {
    fn pass(&self, worker: u32, round: u64) {
        self.workers.fetch_add(u64::from(worker), Ordering::SeqCst);
        self.rounds.fetch_add(round, Ordering::SeqCst);
    }
}

/// Runs a load with a gate that holds no worker back. Returns its result, and how often the gate was passed.
fn answer<R: Threads + Wait + Abort + Sync>(
    rt: &R,
    alloc: Global,
    text: &str,
    workers: u32,
    rounds: u64,
) -> (Result<LoadReport, LoadFault>, u64) {
    let gate = Counter::new();
    let settings = settings_of(rt, alloc, text);
    let report = load(rt, alloc, settings, workers, rounds, &gate);
    (report, gate.passed.load(Ordering::SeqCst))
}

/// Returns the report of a load that succeeds.
fn report_of<G: Gate, R: Threads + Wait + Abort + Sync>(
    rt: &R,
    alloc: Global,
    settings: Settings,
    workers: u32,
    rounds: u64,
    gate: &G,
) -> LoadReport {
    load(rt, alloc, settings, workers, rounds, gate).expect(rt, "a report")
}

#[test]
fn no_room(rt: HostRuntime) {
    let full = Err(LoadFault::JournalFull);
    let alloc = rt.alloc();
    expect_equal(&rt, answer(&rt, alloc, "journalLimit = 7", 1, 2), (full, 1));
    expect_equal(&rt, answer(&rt, alloc, "journalLimit = 6", 1, 1), (full, 0));
}

#[test]
fn passes_with_an_object(rt: HostRuntime) {
    let gate = Counter::new();
    let settings = settings_of(&rt, rt.alloc(), "maxTotal = 2");
    let report = report_of(&rt, rt.alloc(), settings, 5, 20, &gate);
    expect_equal(&rt, (report.refused, report.stats.borrowed), (0, 100));
    assert!(rt; gate.most.load(Ordering::SeqCst) <= 2);
}

#[test]
fn refused_borrows(rt: HostRuntime) {
    let none = "maxTotal = 0\nblockWhenExhausted = false";
    let (report, passed) = answer(&rt, rt.alloc(), none, 3, 5);
    let LoadReport { refused, stats } = report.expect(&rt, none);
    expect_equal(&rt, (refused, passed), (15, 0));
    expect_equal(&rt, (stats.borrowed, stats.created), (0, 0));
    let one = "maxTotal = 1\nblockWhenExhausted = false";
    let (report, passed) = answer(&rt, rt.alloc(), one, 3, 50);
    let LoadReport { refused, stats } = report.expect(&rt, one);
    expect_equal(&rt, (stats.borrowed, stats.returned), (passed, passed));
    assert!(rt; refused == 150 - passed.min(150));
}

#[test]
fn workers_at_once(rt: HostRuntime) {
    let gate = Meeting {
        workers: 4,
        arrived: AtomicU64::new(0),
        in_vain: AtomicU64::new(0),
    };
    let report = report_of(&rt, rt.alloc(), Settings::default(), 4, 1, &gate);
    expect_equal(&rt, gate.in_vain.load(Ordering::SeqCst), 0);
    expect_equal(&rt, (report.refused, report.stats.borrowed), (0, 4));
}

#[test]
fn counted_from_0(rt: HostRuntime) {
    let gate = Numbers {
        workers: AtomicU64::new(0),
        rounds: AtomicU64::new(0),
    };
    let _report = report_of(&rt, rt.alloc(), Settings::default(), 3, 4, &gate);
    expect_equal(&rt, gate.workers.load(Ordering::SeqCst), 12);
    expect_equal(&rt, gate.rounds.load(Ordering::SeqCst), 18);
}
