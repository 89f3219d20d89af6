//! The slots under keys: each call once, and objects that leave the queue.
ghost use Rattle.std.specs.Prelude.{◌≡◌, ◌++◌, ◌∷◌, []};

use crate::checks::expect_equal;
use pool_journal::{Phase, Record};
use pool_slots::Slots;
use std::process::Abort;

// A record that differs from others by its id.
fn record(id: u64) -> Record {
    Record {
        id,
        phase: Phase::Readying,
        parked: 0,
        since: 0,
        lent: 0,
        used: 0,
        is_new: true,
    }
}

// Each call once, on one object.
#[test]
fn one_object(rt: HostRuntime) {
    let mut slots = Slots::new(rt.alloc());
    let before = slots.len();
    slots.reserve_one().expect(&rt, "memory");
    let key = slots.insert(record(5));
    let inserted = slots.len();
    let first_known = slots.known(key).id;
    slots.set_known(key, record(6));
    expect_equal(&rt, [first_known, slots.known(key).id], [5, 6]);
    slots.put(key, 70u8);
    slots.link_last(key);
    let ends = [slots.first(), slots.last()];
    let sides = [slots.before(key), slots.after(key)];
    slots.unlink(key);
    let reported = [ends, sides, [slots.first(), slots.last()]];
    expect_equal(&rt, reported, [[Some(key); 2], [None; 2], [None; 2]]);
    expect_equal(&rt, slots.take(key), 70);
    slots.remove(key);
    expect_equal(&rt, [before, inserted, slots.len()], [0, 1, 0]);
}

// Adds an object to the end of the queue.
fn queued(rt: &impl Abort, slots: &mut Slots<u8>, id: u64) -> usize
    ensures { slots.new.queue ≡ slots.old.queue ++ result ∷ [] }
{
    slots.reserve_one().expect(rt, "memory");
    let key = slots.insert(record(id));
    slots.link_last(key);
    key
}

// Three objects leave the queue: the middle one, the last and the first.
#[test]
fn three_objects(rt: HostRuntime) {
    let mut slots: Slots<u8> = Slots::new(rt.alloc());
    let one = queued(&rt, &mut slots, 1);
    let two = queued(&rt, &mut slots, 2);
    let three = queued(&rt, &mut slots, 3);
    expect_equal(&rt, [slots.first(), slots.last()], [Some(one), Some(three)]);
    let sides = [slots.before(two), slots.after(two)];
    expect_equal(&rt, sides, [Some(one), Some(three)]);
    slots.unlink(two);
    let sides = [slots.after(one), slots.before(three)];
    expect_equal(&rt, sides, [Some(three), Some(one)]);
    slots.unlink(three);
    expect_equal(&rt, [slots.first(), slots.last()], [Some(one), Some(one)]);
    slots.unlink(one);
    expect_equal(&rt, [slots.first(), slots.last()], [None, None]);
}

// An object that is inserted with its value, before the other one of the queue.
#[test]
fn before_another(rt: HostRuntime) {
    let mut slots = Slots::new(rt.alloc());
    slots.reserve(2).expect(&rt, "memory");
    let one = slots.insert_with(record(1), None);
    slots.link_before(None, one);
    let two = slots.insert_with(record(2), Some(20u8));
    slots.link_before(Some(one), two);
    let ends = [slots.first(), slots.last()];
    let sides = [slots.before(one), slots.after(two)];
    expect_equal(&rt, [ends, sides], [[Some(two), Some(one)]; 2]);
    expect_equal(&rt, slots.take(two), 20);
}
