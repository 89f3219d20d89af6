//! Restores pseudo-random objects, and compares the places with a plain list after each.
ghost use Rattle.std.specs.Prelude.{◌≡◌, ◌+◌, ◌≤◌, IsTrue, is_some};
ghost use Rattle.pool_journal.specs.Entries.{is_present};
ghost use Rattle.pool_journal.specs.Queue.{is_idle};
ghost use Rattle.pool_places.specs.Changes.{IdsBelow, IsFreePosition};
ghost use Rattle.pool_places.specs.PlacesModel.{records_in};

use crate::checks::expect_equal;
use crate::places::calls::{ask_known, ask_overdue, ask_queue};
use pool_journal::{Phase, Record};
use pool_places::{Place, Places};
use rand_core::Rng;
use rand_pcg::Pcg32;
use std::alloc::Global;
use std::process::Abort;

// A phase of an object that is present.
fn some_phase(number: u64) -> Phase
    ensures { IsTrue (is_present result) }
{
    match number % 11 {
        0 => Phase::Readying,
        1 => Phase::Adding,
        2 => Phase::Lent,
        3 => Phase::Returning,
        4 => Phase::Destroying,
        5 | 6 => Phase::Testing,
        _ => Phase::Idle,
    }
}

// The value of an idle object.
fn value_of(id: u64, phase: Phase) -> Option<u64>
    ensures { is_some result ≡ is_idle phase }
{
    match phase {
        Phase::Idle => Some(id),
        _ => None,
    }
}

// A pseudo-random record, with a value if it is idle.
fn some_place(id: u64, number: u64, position: u64) -> Place<u64>
    ensures id { result.known.id ≡ id }
    ensures parked { result.known.parked ≡ position }
    ensures phase { IsTrue (is_present result.known.phase) }
    ensures valued { is_some result.value ≡ is_idle result.known.phase }
{
    let phase = some_phase(number);
    let known = Record {
        id,
        phase,
        parked: position,
        since: number % 100,
        lent: number % 70,
        used: number % 90,
        is_new: matches!(phase, Phase::Adding),
    };
    Place {
        known,
        value: value_of(id, phase),
    }
}

// Whether no object has this position.
fn is_free(plain: &[Place<u64>], position: u64) -> bool
    ensures { IsTrue result → IsFreePosition position (records_in plain.now) }
{
    let mut left = plain;
    while let [place, rest @ ..] = left {
        if place.known.parked == position {
            return false;
        }
        left = rest;
    }
    true
}

// Restores an object into the places and adds it to the plain list.
fn put_back(
    rt: &impl Abort,
    places: &mut Places<u64>,
    plain: &mut Vec<Place<u64>>,
    place: Place<u64>,
)
    requires same { places.old.objects ≡ plain.old.items }
    requires reserved { 1 ≤ places.old.spare_capacity }
    requires above { IdsBelow place.known.id (records_in plain.old.items) }
    requires phase { IsTrue (is_present place.known.phase) }
    requires valued { is_some place.value ≡ is_idle place.known.phase }
    requires free { IsFreePosition place.known.parked (records_in plain.old.items) }
    ensures same { places.new.objects ≡ plain.new.items }
    ensures spare { places.new.spare_capacity + 1 ≡ places.old.spare_capacity }
    ensures below { IdsBelow (place.known.id + 1) (records_in plain.new.items) }
{
    places.restore(place.known, place.value);
    plain.push(place).expect(rt, "memory");
}

// Compares each object by its position, and that there are no more.
fn ask_positions(rt: &impl Abort, places: &Places<u64>, plain: &[Place<u64>]) {
    let mut position = 0u64;
    for place in plain {
        expect_equal(rt, places.nth(position), Some(place.known));
        position = position.wrapping_add(1);
    }
    expect_equal(rt, places.nth(position), None);
}

// Takes each value, the earliest parked first.
fn take_all(rt: &impl Abort, places: &mut Places<u64>, count: u64) {
    for _ in 0..count {
        match places.first_idle() {
            None => {}
            Some(id) => expect_equal(rt, places.take_value(id, Phase::Destroying), id),
        }
    }
    expect_equal(rt, places.counts().idle, 0);
}

// Restores pseudo-random objects, and compares all answers after each.
fn many_restores(rt: &impl Abort, alloc: Global, count: u64, seed: u64) {
    let mut places = Places::new(alloc);
    let mut plain = Vec::new(alloc);
    let mut numbers = Pcg32::new(seed, 0);
    for id in 0..count {
        let number = numbers.next_u64();
        let position = (number >> 8) % 1_000;
        places.reserve(2).expect(rt, "memory");
        places.start_search_at(number % 64);
        if is_free(&plain, position) {
            let place = some_place(id, number, position);
            put_back(rt, &mut places, &mut plain, place);
        }
        ask_queue(rt, &places, &plain, number % 1_000);
        ask_overdue(rt, &places, &plain, 100, number % 64);
        ask_known(rt, &places, &plain, number % 128);
        ask_positions(rt, &places, &plain);
    }
    take_all(rt, &mut places, count);
}

#[test]
fn put_back_by_chance(rt: HostRuntime) {
    many_restores(&rt, rt.alloc(), 120, 1);
}

#[test]
fn put_back_by_another_chance(rt: HostRuntime) {
    many_restores(&rt, rt.alloc(), 60, 2);
}
