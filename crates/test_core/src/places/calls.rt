//! Random calls of the places, compared with those of a plain list.
ghost use Rattle.std.specs.Prelude.{◌≡◌, ◌+◌, ◌<◌, ◌≤◌, Some, IsTrue};
ghost use Rattle.pool_journal.specs.Queue.{record_in};
ghost use Rattle.pool_places.specs.Changes.{opens_as};
ghost use Rattle.pool_places.specs.PlacesModel.{records_in};
ghost use Rattle.test_core.specs.Before.{AllBefore};

use crate::checks::expect_equal;
use pool_journal::{Phase, Record};
use pool_places::{Place, PlaceCounts, Places, weight_of_phase};
use rand_core::Rng;
use rand_pcg::Pcg32;
use std::alloc::Global;
use std::process::Abort;

// Adds a new object to the plain list, which the places are compared with.
fn come(rt: &impl Abort, plain: &mut Vec<Place<u64>>, id: u64, phase: Phase) {
    let known = Record {
        id,
        phase,
        parked: 0,
        since: 0,
        lent: 0,
        used: 0,
        is_new: true,
    };
    let place = Place { known, value: None };
    plain.push(place).expect(rt, "memory");
}

// Moves an object of the plain list to a next phase, by `choice`, at a time that is also its position in the queue.
fn turn(place: &mut Place<u64>, choice: u64, moment: u64) {
    let old = place.known.phase;
    let phase = match old {
        Phase::Readying if choice == 0 => Phase::Destroying,
        Phase::Readying => Phase::Lent,
        Phase::Lent if choice < 2 => Phase::Lent,
        Phase::Lent => Phase::Returning,
        Phase::Returning | Phase::Adding => Phase::Idle,
        Phase::Idle if choice == 0 => Phase::Destroying,
        Phase::Idle if choice == 1 => Phase::Readying,
        Phase::Idle => Phase::Testing,
        Phase::Testing if choice == 0 => Phase::Destroying,
        Phase::Testing => Phase::Idle,
        Phase::Destroying | Phase::Absent | Phase::Gone => Phase::Gone,
    };
    if phase == Phase::Lent {
        place.known.used = moment;
        if old == Phase::Readying {
            place.known.lent = moment;
        }
    }
    if phase == Phase::Idle && old != Phase::Testing {
        place.known.parked = moment;
        place.known.since = moment;
    }
    place.value = if phase == Phase::Idle {
        Some(moment)
    } else {
        None
    };
    place.known.phase = phase;
    place.known.is_new = false;
}

// The same in the places, for an object without a value.
fn move_on(places: &mut Places<u64>, id: u64, known: Record, choice: u64, moment: u64)
    requires known { record_in (records_in places.old.objects) id ≡ Some known }
    requires before { AllBefore moment (records_in places.old.objects) }
    ensures { AllBefore (moment + 1) (records_in places.new.objects) }
{
    match known.phase {
        Phase::Readying if choice == 0 => places.set_phase(id, Phase::Destroying),
        Phase::Readying => places.set_lent(id, moment),
        Phase::Lent if choice < 2 => places.set_used(id, moment),
        Phase::Lent => places.set_phase(id, Phase::Returning),
        Phase::Returning | Phase::Adding => places.park(id, moment, moment, moment),
        Phase::Testing if choice == 0 => places.set_phase(id, Phase::Destroying),
        Phase::Testing => places.put_value(id, moment),
        Phase::Destroying => places.free(id),
        Phase::Idle | Phase::Absent | Phase::Gone => {}
    }
}

// The same in the places, for any object. Returns the value of an idle one.
fn take(places: &mut Places<u64>, id: u64, known: Record, choice: u64, moment: u64) -> Option<u64>
    requires known { record_in (records_in places.old.objects) id ≡ Some known }
    requires before { AllBefore moment (records_in places.old.objects) }
    ensures { AllBefore (moment + 1) (records_in places.new.objects) }
{
    match known.phase {
        Phase::Idle if choice == 0 => Some(places.take_value(id, Phase::Destroying)),
        Phase::Idle if choice == 1 => Some(places.take_value(id, Phase::Readying)),
        Phase::Idle => Some(places.take_value(id, Phase::Testing)),
        _ => {
            move_on(places, id, known, choice, moment);
            None
        }
    }
}

// Opens an object.
fn open(rt: &impl Abort, places: &mut Places<u64>, id: u64, phase: Phase)
    requires before { AllBefore id (records_in places.old.objects) }
    requires phase { IsTrue (opens_as phase) }
    ensures { AllBefore (id + 1) (records_in places.new.objects) }
{
    places.reserve_one().expect(rt, "memory");
    places.open(id, phase);
}

// Moves one object of the plain list on. Returns its id, and the value that it had.
fn turn_one(plain: &mut Vec<Place<u64>>, number: u64, moment: u64) -> Option<(u64, Option<u64>)> {
    let index = (number >> 8) as usize % plain.len().max(1);
    let place = plain.get_mut(index)?;
    let id = place.known.id;
    let value = place.value;
    turn(place, number % 8, moment);
    if place.known.phase == Phase::Gone {
        let _ = plain.remove(index);
    }
    Some((id, value))
}

// Moves the object in the places on, and compares the returned value.
fn go_on(
    rt: &impl Abort,
    places: &mut Places<u64>,
    id: u64,
    value: Option<u64>,
    choice: u64,
    moment: u64,
)
    requires { AllBefore moment (records_in places.old.objects) }
    ensures { AllBefore (moment + 1) (records_in places.new.objects) }
{
    let known = places.find(id).expect(rt, "an object is missing");
    let out = take(places, id, known, choice, moment);
    expect_equal(rt, out, value);
}

// One pseudo-random call, of the places and of the plain list.
fn call(
    rt: &impl Abort,
    places: &mut Places<u64>,
    plain: &mut Vec<Place<u64>>,
    most: usize,
    number: u64,
    moment: u64,
)
    requires { AllBefore moment (records_in places.old.objects) }
    ensures { AllBefore (moment + 1) (records_in places.new.objects) }
{
    if plain.len() < most && number % 3 == 0 {
        come(rt, plain, moment, Phase::Adding);
        open(rt, places, moment, Phase::Adding);
    } else if plain.len() < most && number % 11 == 1 {
        come(rt, plain, moment, Phase::Readying);
        open(rt, places, moment, Phase::Readying);
    } else if let Some((id, value)) = turn_one(plain, number, moment) {
        go_on(rt, places, id, value, number % 8, moment);
    }
}

// Looks for idle and for abandoned objects, which changes no answer.
fn look(places: &mut Places<u64>, number: u64, moment: u64)
    ensures { places.new ≡ places.old }
{
    places.start_search_at(moment.saturating_sub(number % 64));
    places.refresh_abandoned_bound(moment, number % 32);
}

fn is_overdue(place: &Place<u64>, at: u64, timeout: u64) -> bool {
    place.known.phase == Phase::Lent && at.saturating_sub(place.known.used) >= timeout
}

// Whether an object is idle, parked at the position or later, and earlier than the best one so far.
fn is_earlier(known: Record, position: u64, best: Option<Record>) -> bool {
    known.phase == Phase::Idle
        && known.parked >= position
        && match best {
            None => true,
            Some(best) => known.parked < best.parked,
        }
}

// The idle object that was parked first from a position on.
fn first_from(plain: &[Place<u64>], position: u64) -> Option<u64> {
    let mut first: Option<Record> = None;
    for place in plain {
        if is_earlier(place.known, position, first) {
            first = Some(place.known);
        }
    }
    Some(first?.id)
}

// Whether an object is idle, and parked later than the best one so far.
fn is_later(known: Record, best: Option<Record>) -> bool {
    known.phase == Phase::Idle
        && match best {
            None => true,
            Some(best) => known.parked > best.parked,
        }
}

// The idle object that was parked last.
fn last_of(plain: &[Place<u64>]) -> Option<u64> {
    let mut last: Option<Record> = None;
    for place in plain {
        if is_later(place.known, last) {
            last = Some(place.known);
        }
    }
    Some(last?.id)
}

// The number of abandoned objects, and the first of them.
fn overdue_of(plain: &[Place<u64>], at: u64, timeout: u64) -> (u64, Option<u64>) {
    let mut count = 0u64;
    let mut least = None;
    for place in plain {
        if is_overdue(place, at, timeout) {
            if count == 0 {
                least = Some(place.known.id);
            }
            count = count.wrapping_add(1);
        }
    }
    (count, least)
}

// The record of an object.
fn known_of(plain: &[Place<u64>], id: u64) -> Option<Record> {
    for place in plain {
        if place.known.id == id {
            return Some(place.known);
        }
    }
    None
}

// Adds an object in this phase to the counts.
fn count(counts: &mut PlaceCounts, phase: Phase) {
    let number = match phase {
        Phase::Idle => &mut counts.idle,
        Phase::Lent => &mut counts.lent,
        Phase::Adding => &mut counts.adding,
        _ => return,
    };
    *number = number.wrapping_add(1);
}

fn counts_of(plain: &[Place<u64>]) -> PlaceCounts {
    let mut counts = PlaceCounts {
        present: plain.len() as u64,
        queue: 0,
        idle: 0,
        lent: 0,
        adding: 0,
        owed: 0,
    };
    for place in plain {
        let phase = place.known.phase;
        let is_queued = matches!(phase, Phase::Idle | Phase::Testing);
        counts.queue = counts.queue.wrapping_add(is_queued as u64);
        counts.owed = counts.owed.wrapping_add(weight_of_phase(phase));
        count(&mut counts, phase);
    }
    counts
}

// Compares the answers about the queue.
pub(crate) fn ask_queue(
    rt: &impl Abort,
    places: &Places<u64>,
    plain: &[Place<u64>],
    position: u64,
) {
    let reported = [
        places.first_idle(),
        places.last_idle(),
        places.next_idle_after(position),
    ];
    let due = [
        first_from(plain, 0),
        last_of(plain),
        first_from(plain, position.saturating_add(1)),
    ];
    expect_equal(rt, reported, due);
}

// Compares the answers about abandoned objects.
pub(crate) fn ask_overdue(
    rt: &impl Abort,
    places: &Places<u64>,
    plain: &[Place<u64>],
    at: u64,
    timeout: u64,
) {
    let reported = (
        places.count_overdue(at, timeout),
        places.least_overdue(at, timeout),
    );
    expect_equal(rt, reported, overdue_of(plain, at, timeout));
}

// Compares the record of one object, and all counts.
pub(crate) fn ask_known(rt: &impl Abort, places: &Places<u64>, plain: &[Place<u64>], id: u64) {
    expect_equal(rt, places.find(id), known_of(plain, id));
    let counts = counts_of(plain);
    expect_equal(rt, places.counts(), counts);
    let numbers = [places.present() as u64, places.queued() as u64];
    expect_equal(rt, numbers, [counts.present, counts.queue]);
}

// Pseudo-random calls, with at most `most` objects. Compares all answers after each call.
fn many_calls(rt: &impl Abort, alloc: Global, calls: u64, most: usize, seed: u64) {
    let mut places = Places::new(alloc);
    let mut plain = Vec::new(alloc);
    let mut numbers = Pcg32::new(seed, 0);
    for moment in 1..calls {
        let number = numbers.next_u64();
        call(rt, &mut places, &mut plain, most, number, moment);
        look(&mut places, number >> 5, moment);
        let other = numbers.next_u64();
        let back = moment.saturating_sub(other % 128);
        ask_queue(rt, &places, &plain, back);
        ask_overdue(rt, &places, &plain, moment, (other >> 7) % 64);
        ask_known(rt, &places, &plain, back);
    }
}

#[test]
fn few_objects(rt: HostRuntime) {
    many_calls(&rt, rt.alloc(), 40_000, 3, 1);
}

#[test]
fn some_objects(rt: HostRuntime) {
    many_calls(&rt, rt.alloc(), 40_000, 9, 2);
}

#[test]
fn more_objects(rt: HostRuntime) {
    many_calls(&rt, rt.alloc(), 20_000, 40, 3);
}
