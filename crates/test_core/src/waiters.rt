//! The tickets of the borrows that wait: each call once, and random calls beside a plain list.

use crate::checks::expect_equal;
use pool_calls::Waiters;
use rand_core::Rng;
use rand_pcg::Pcg32;
use std::alloc::Global;
use std::process::Abort;

fn wait(rt: &impl Abort, waiters: &mut Waiters, at: u64) -> u64 {
    waiters.wait(at).expect(rt, "memory")
}

fn wake(waiters: &mut Waiters, available: u64) -> Option<u64> {
    waiters.wake_next(available)
}

fn leave(waiters: &mut Waiters, ticket: u64) -> bool {
    waiters.leave(ticket)
}

fn are_signalled(waiters: &Waiters) -> [bool; 3] {
    [0, 1, 2].map(|ticket| waiters.is_signalled(ticket))
}

// Whether a newcomer lends one of the available objects.
fn lend(waiters: &mut Waiters, available: u64, at: u64) -> bool {
    if !waiters.may_lend(available, at) {
        return false;
    }
    waiters.note_lent(available, at);
    true
}

// Three tickets that wait from time 5 on, each of which is overtaken once at most after so many milliseconds.
fn three(rt: &impl Abort, alloc: Global, millis: u64) -> Waiters {
    let mut waiters = Waiters::new(alloc, millis, 1);
    waiters.reserve(3).expect(rt, "memory");
    let tickets = [
        wait(rt, &mut waiters, 5),
        wait(rt, &mut waiters, 0),
        wait(rt, &mut waiters, 5),
    ];
    expect_equal(rt, tickets, [0, 1, 2]);
    waiters
}

#[test]
fn the_oldest_is_woken_for_each_object(rt: HostRuntime) {
    let mut waiters = three(&rt, rt.alloc(), 0);
    let none = wake(&mut waiters, 0);
    let one = [wake(&mut waiters, 1), wake(&mut waiters, 1)];
    let two = [wake(&mut waiters, 2), wake(&mut waiters, 2)];
    expect_equal(&rt, [none, one[0], one[1]], [None, Some(0), None]);
    expect_equal(&rt, two, [Some(1), None]);
    expect_equal(&rt, are_signalled(&waiters), [true, true, false]);
    expect_equal(&rt, waiters.len(), 3);
}

#[test]
fn one_that_leaves_hands_its_signal_on(rt: HostRuntime) {
    let mut waiters = three(&rt, rt.alloc(), 0);
    expect_equal(&rt, wake(&mut waiters, 1), Some(0));
    let left = [leave(&mut waiters, 0), leave(&mut waiters, 0)];
    expect_equal(&rt, left, [true, false]);
    expect_equal(&rt, wake(&mut waiters, 1), Some(1));
    expect_equal(&rt, leave(&mut waiters, 2), true);
    expect_equal(&rt, wake(&mut waiters, 2), None);
    expect_equal(&rt, waiters.len(), 1);
}

#[test]
fn all_are_woken_at_the_end(rt: HostRuntime) {
    let mut waiters = three(&rt, rt.alloc(), 0);
    let woken = [
        wake(&mut waiters, u64::MAX),
        wake(&mut waiters, u64::MAX),
        wake(&mut waiters, u64::MAX),
        wake(&mut waiters, u64::MAX),
    ];
    expect_equal(&rt, woken, [Some(0), Some(1), Some(2), None]);
}

#[test]
fn newcomers_overtake_each_ticket_once(rt: HostRuntime) {
    let mut waiters = three(&rt, rt.alloc(), 0);
    expect_equal(&rt, wake(&mut waiters, 1), Some(0));
    expect_equal(&rt, lend(&mut waiters, 4, 5), true);
    expect_equal(&rt, lend(&mut waiters, 1, 5), true);
    expect_equal(&rt, wake(&mut waiters, 0), None);
    expect_equal(&rt, are_signalled(&waiters), [false; 3]);
    let later = wait(&rt, &mut waiters, 5);
    expect_equal(&rt, wake(&mut waiters, 1), Some(0));
    expect_equal(&rt, lend(&mut waiters, 1, 5), false);
    let left = [0, 1, 2].map(|ticket| leave(&mut waiters, ticket));
    expect_equal(&rt, left, [true; 3]);
    expect_equal(&rt, lend(&mut waiters, 1, 5), true);
    expect_equal(&rt, lend(&mut waiters, 1, 5), false);
    expect_equal(&rt, leave(&mut waiters, later), true);
    expect_equal(&rt, lend(&mut waiters, 1, 5), true);
}

#[test]
fn newcomers_overtake_freely_at_first(rt: HostRuntime) {
    let mut waiters = three(&rt, rt.alloc(), 10);
    let early = [14; 3].map(|at| lend(&mut waiters, 1, at));
    expect_equal(&rt, early, [true; 3]);
    let later = wait(&rt, &mut waiters, 15);
    let due = [15, 14, 15].map(|at| lend(&mut waiters, 1, at));
    expect_equal(&rt, due, [true, true, false]);
    let left = [0, 1, 2].map(|ticket| leave(&mut waiters, ticket));
    expect_equal(&rt, left, [true; 3]);
    let last = [24, 24, 25].map(|at| lend(&mut waiters, 1, at));
    expect_equal(&rt, last, [true, true, false]);
    expect_equal(&rt, leave(&mut waiters, later), true);
}

// A ticket as a plain list has it.
#[derive(Clone, Copy)]
struct Plain {
    ticket: u64,
    overtaken: u64,
    since: u64,
}

const MILLIS: u64 = 100;

const MOST: u64 = 3;

fn plain_leave(plain: &mut Vec<Plain>, ticket: u64) -> bool {
    for position in 0..plain.len() {
        if plain[position].ticket == ticket {
            let _ = plain.remove(position);
            return true;
        }
    }
    false
}

fn plain_lend(plain: &mut Vec<Plain>, available: u64, at: u64) -> bool {
    let count = plain.len() as u64;
    if count < available || count == 0 || at.saturating_sub(plain[0].since) < MILLIS {
        return true;
    }
    if plain[0].overtaken >= MOST {
        return false;
    }
    for waiter in plain.iter_mut() {
        waiter.overtaken = waiter.overtaken.saturating_add(1);
    }
    true
}

// Wakes all that are to be woken, and compares who is signalled.
fn settle(rt: &impl Abort, waiters: &mut Waiters, plain: &[Plain], available: u64) {
    for _ in 0..plain.len() {
        let _ = waiters.wake_next(available);
    }
    expect_equal(rt, waiters.wake_next(available), None);
    expect_equal(rt, waiters.len(), plain.len());
    for (rank, waiter) in plain.iter().enumerate() {
        let is_signalled = waiters.is_signalled(waiter.ticket);
        expect_equal(rt, is_signalled, (rank as u64) < available);
    }
}

fn plain_wait(rt: &impl Abort, plain: &mut Vec<Plain>, ticket: u64, since: u64) {
    let waiter = Plain {
        ticket,
        overtaken: 0,
        since,
    };
    plain.push(waiter).expect(rt, "memory");
}

// One random call. The number is also its time; a ticket waits from the greatest time so far on.
fn play(
    rt: &impl Abort,
    waiters: &mut Waiters,
    plain: &mut Vec<Plain>,
    latest: &mut u64,
    number: u64,
    kind: u64,
) {
    match kind % 8 {
        0..4 => {
            let ticket = wait(rt, waiters, number);
            *latest = number.max(*latest);
            plain_wait(rt, plain, ticket, *latest);
        }
        4 | 5 => {
            let available = kind / 8 % 4;
            let lent = lend(waiters, available, number);
            expect_equal(rt, lent, plain_lend(plain, available, number));
        }
        _ => expect_equal(rt, leave(waiters, number), plain_leave(plain, number)),
    }
}

#[test]
fn as_a_plain_list_of_tickets(rt: HostRuntime) {
    let mut waiters = Waiters::new(rt.alloc(), MILLIS, MOST);
    let mut plain = Vec::new(rt.alloc());
    let mut numbers = Pcg32::new(1, 0);
    let mut latest = 0;
    for round in 0..600 {
        let number = numbers.next_u64() % (round + 1);
        let kind = numbers.next_u64();
        play(&rt, &mut waiters, &mut plain, &mut latest, number, kind);
        settle(&rt, &mut waiters, &plain, numbers.next_u64() % 6);
    }
    expect_equal(&rt, waiters.len() > 20, true);
}
