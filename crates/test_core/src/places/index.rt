//! The index of keys: each call once, and random calls beside a plain list.
ghost use Rattle.std.specs.Prelude.{◌+◌, ◌≤◌, ℕ};
ghost use Rattle.sorted_index.specs.Pairs.{IdsBelow};

use crate::checks::expect_equal;
use rand_core::Rng;
use rand_pcg::Pcg32;
use sorted_index::{Pair, SortedIndex};
use std::alloc::Global;
use std::process::Abort;

// Adds a pair to an index and to a plain list.
fn add(rt: &impl Abort, index: &mut SortedIndex, plain: &mut Vec<Pair>, id: u64, key: usize)
    requires { IdsBelow id index.old.pairs }
    ensures { IdsBelow (id + 1) index.new.pairs }
{
    index.reserve_one().expect(rt, "memory");
    plain.push(Pair { id, key }).expect(rt, "memory");
    index.push(id, key);
}

// Removes the pair of an id from a plain list, and returns its key.
fn take_plain(plain: &mut Vec<Pair>, id: u64) -> Option<usize> {
    for position in 0..plain.len() {
        if plain.get(position)?.id == id {
            return Some(plain.remove(position).key);
        }
    }
    None
}

// Removes the pair of an id from an index if it is present, and returns its key.
fn take_indexed(index: &mut SortedIndex, id: u64) -> Option<usize>
    ensures { (n : ℕ) → IdsBelow n index.old.pairs → IdsBelow n index.new.pairs }
{
    match index.find(id) {
        None => None,
        Some(_) => Some(index.remove(id)),
    }
}

// Removes a pair from both if it is present, and compares the keys.
fn take(rt: &impl Abort, index: &mut SortedIndex, plain: &mut Vec<Pair>, id: u64)
    ensures { (n : ℕ) → IdsBelow n index.old.pairs → IdsBelow n index.new.pairs }
{
    let key = take_plain(plain, id);
    let found = index.find(id);
    let taken = take_indexed(index, id);
    expect_equal(rt, [found, taken, index.find(id)], [key, key, None]);
    expect_equal(rt, index.len(), plain.len());
}

// Ends the test unless the index has the pairs of the plain list.
fn has_all(rt: &impl Abort, alloc: Global, index: &SortedIndex, plain: &[Pair]) {
    let pairs: Vec<Pair> = index.walk().collect(alloc).expect(rt, "memory");
    expect_equal(rt, pairs.as_slice(), plain);
}

#[test]
fn each_call_once(rt: HostRuntime) {
    let mut index = SortedIndex::new(rt.alloc());
    assert!(rt; index.is_empty());
    index.reserve_one().expect(&rt, "memory");
    index.push(3, 30);
    index.reserve_one().expect(&rt, "memory");
    index.push(7, 70);
    expect_equal(&rt, [index.find(3), index.find(5)], [Some(30), None]);
    let last = index.walk().last();
    expect_equal(&rt, [index.len(), index.remove(3)], [2, 30]);
    let seven = Some(Pair { id: 7, key: 70 });
    expect_equal(&rt, [last, index.walk().next()], [seven, seven]);
    assert!(rt; !index.is_empty());
}

// Pairs by their positions, before and after the removed ones are swept out.
#[test]
fn by_position(rt: HostRuntime) {
    let mut index = SortedIndex::new(rt.alloc());
    index.reserve(3).expect(&rt, "memory");
    index.push(3, 30);
    index.push(7, 70);
    index.push(9, 90);
    let first = index.nth(0);
    expect_equal(&rt, index.remove(3), 30);
    let second = index.nth(1);
    index.sweep();
    let three = Some(Pair { id: 3, key: 30 });
    let seven = Some(Pair { id: 7, key: 70 });
    let nine = Some(Pair { id: 9, key: 90 });
    let reported = [first, second, index.nth(0), index.nth(2)];
    expect_equal(&rt, reported, [three, nine, seven, None]);
}

// An id may be pushed again after it and all above it were removed.
#[test]
fn an_id_twice(rt: HostRuntime) {
    let mut index = SortedIndex::new(rt.alloc());
    index.reserve_one().expect(&rt, "memory");
    index.push(3, 30);
    index.reserve_one().expect(&rt, "memory");
    index.push(7, 70);
    let taken = index.remove(7);
    index.reserve_one().expect(&rt, "memory");
    index.push(7, 71);
    expect_equal(&rt, [Some(taken), index.find(7)], [Some(70), Some(71)]);
}

#[test]
fn as_a_plain_list(rt: HostRuntime) {
    let mut index = SortedIndex::new(rt.alloc());
    let mut plain = Vec::new(rt.alloc());
    let mut numbers = Pcg32::new(1, 0);
    for id in 0..300 {
        let key = numbers.next_u64() as usize;
        add(&rt, &mut index, &mut plain, id, key);
        take(&rt, &mut index, &mut plain, numbers.next_u64() % 300);
        take(&rt, &mut index, &mut plain, numbers.next_u64() % (id + 1));
    }
    has_all(&rt, rt.alloc(), &index, &plain);
}

#[test]
fn emptied_from_the_middle(rt: HostRuntime) {
    let mut index = SortedIndex::new(rt.alloc());
    let mut plain = Vec::new(rt.alloc());
    for id in 0..200 {
        add(&rt, &mut index, &mut plain, id, 1000);
    }
    for distance in 0..100 {
        take(&rt, &mut index, &mut plain, 100 + distance);
        take(&rt, &mut index, &mut plain, 99 - distance);
        has_all(&rt, rt.alloc(), &index, &plain);
    }
    assert!(rt; index.is_empty());
}
