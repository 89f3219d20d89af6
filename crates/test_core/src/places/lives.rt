//! Objects in the places, from their opening until they are freed, and restored ones.
ghost use Rattle.std.specs.Prelude.{◌≡◌, ◌+◌, ◌≤◌, ◌++◌, ◌∷◌, [], IsTrue, IsSomeAnd, true, false, is_some};
ghost use Rattle.pool_journal.specs.Entries.{is_present};
ghost use Rattle.pool_journal.specs.Queue.{is_idle, is_queued, record_in};
ghost use Rattle.pool_journal.specs.declared.record.Phase.TheVariants as phases;
ghost use Rattle.pool_places.specs.Changes.{with_changed, new_record, phase_set, lent_at, used_at, parked_at, opens_as, IdsBelow, IsFreePosition, QueueBelow};
ghost use Rattle.pool_places.specs.PlacesModel.{records_in};

use crate::checks::expect_equal;
use pool_journal::{Phase, Record};
use pool_places::{PlaceCounts, Places};
use std::process::Abort;

// Opens an object.
fn open(rt: &impl Abort, places: &mut Places<u64>, id: u64, phase: Phase)
    requires above { IdsBelow id (records_in places.old.objects) }
    requires phase { IsTrue (opens_as phase) }
    ensures { records_in places.new.objects ≡ records_in places.old.objects ++ new_record id phase ∷ [] }
{
    places.reserve_one().expect(rt, "memory");
    places.open(id, phase);
}

// Parks an object.
fn park(places: &mut Places<u64>, id: u64, parked: u64, since: u64, value: u64)
    requires present { IsSomeAnd (record_in (records_in places.old.objects) id)
        (λ r. is_queued r.phase ≡ false) }
    requires above { QueueBelow parked (records_in places.old.objects) }
    ensures { records_in places.new.objects
        ≡ with_changed id (parked_at parked since) (records_in places.old.objects) }
{
    places.park(id, parked, since, value);
}

// Restores an object, in the memory that was reserved.
fn restore(places: &mut Places<u64>, known: Record, value: Option<u64>)
    requires reserved { 1 ≤ places.old.spare_capacity }
    requires above { IdsBelow known.id (records_in places.old.objects) }
    requires phase { IsTrue (is_present known.phase) }
    requires valued { is_some value ≡ is_idle known.phase }
    requires position { is_queued known.phase ≡ true
        → IsFreePosition known.parked (records_in places.old.objects) }
    ensures records { records_in places.new.objects ≡ records_in places.old.objects ++ known ∷ [] }
    ensures spare { places.new.spare_capacity + 1 ≡ places.old.spare_capacity }
{
    places.restore(known, value);
}

// The first object, as it is opened.
fn opened() -> Record {
    Record {
        id: 0,
        phase: Phase::Readying,
        parked: 0,
        since: 0,
        lent: 0,
        used: 0,
        is_new: true,
    }
}

// The same as it is parked.
fn parked() -> Record {
    Record {
        id: 0,
        phase: Phase::Idle,
        parked: 3,
        since: 16,
        lent: 11,
        used: 12,
        is_new: false,
    }
}

// Lends the first object, and returns it.
fn lend(rt: &impl Abort, places: &mut Places<u64>)
    requires { records_in places.old.objects ≡ new_record 0 phases.Readying ∷ [] }
    ensures { records_in places.new.objects
        ≡ phase_set phases.Returning (used_at 12 (lent_at 11 (new_record 0 phases.Readying))) ∷ [] }
{
    places.set_lent(0, 11);
    places.set_used(0, 12);
    let overdue = [places.least_overdue(21, 10), places.least_overdue(22, 10)];
    expect_equal(rt, overdue, [None, Some(0)]);
    expect_equal(rt, places.count_overdue(22, 10), 1);
    places.set_phase(0, Phase::Returning);
}

// Tests the first object, and then destroys it.
fn give_up(rt: &impl Abort, places: &mut Places<u64>)
    requires { records_in places.old.objects
        ≡ record {
          id = 0;
          phase = phases.Idle;
          parked = 3;
          since = 16;
          lent = 11;
          used = 12;
          is_new = false;
        } ∷ [] }
{
    let value = places.take_value(0, Phase::Testing);
    places.put_value(0, 71);
    expect_equal(rt, places.first_idle(), Some(0));
    let values = [value, places.take_value(0, Phase::Destroying)];
    expect_equal(rt, values, [70, 71]);
    places.free(0);
}

// One object, from its opening until its place is free.
#[test]
fn one_life(rt: HostRuntime) {
    let mut places = Places::new(rt.alloc());
    open(&rt, &mut places, 0, Phase::Readying);
    let first_known = places.find(0);
    lend(&rt, &mut places);
    park(&mut places, 0, 3, 16, 70);
    let known = [first_known, places.find(0)];
    expect_equal(&rt, known, [Some(opened()), Some(parked())]);
    give_up(&rt, &mut places);
    expect_equal(&rt, places.present(), 0);
}

// Three objects, of which two are parked, the second one first.
#[test]
fn a_queue(rt: HostRuntime) {
    let mut places: Places<u64> = Places::new(rt.alloc());
    open(&rt, &mut places, 0, Phase::Adding);
    open(&rt, &mut places, 1, Phase::Adding);
    open(&rt, &mut places, 2, Phase::Adding);
    park(&mut places, 1, 5, 50, 10);
    park(&mut places, 0, 9, 90, 0);
    let ends = [places.first_idle(), places.last_idle()];
    let next = [places.next_idle_after(5), places.next_idle_after(9)];
    expect_equal(&rt, [ends, next], [[Some(1), Some(0)], [Some(0), None]]);
    expect_equal(&rt, places.queued(), 2);
    let counts = PlaceCounts {
        present: 3,
        queue: 2,
        idle: 2,
        lent: 0,
        adding: 1,
        owed: 7,
    };
    expect_equal(&rt, places.counts(), counts);
}

// Three restored objects, of which two are in the queue, the one that was parked later first.
#[test]
fn put_back(rt: HostRuntime) {
    let idle = Record {
        id: 4,
        phase: Phase::Idle,
        parked: 9,
        since: 90,
        lent: 70,
        used: 80,
        is_new: false,
    };
    let tested = Record {
        id: 6,
        phase: Phase::Testing,
        parked: 5,
        ..idle
    };
    let lent = Record {
        id: 7,
        phase: Phase::Lent,
        ..idle
    };
    let mut places = Places::new(rt.alloc());
    places.reserve(3).expect(&rt, "memory");
    restore(&mut places, idle, Some(40));
    restore(&mut places, tested, None);
    restore(&mut places, lent, None);
    places.compact_index();
    let reported = [places.nth(0), places.nth(1), places.nth(2), places.nth(3)];
    expect_equal(&rt, reported, [Some(idle), Some(tested), Some(lent), None]);
    places.put_value(6, 60);
    let ids = [
        places.first_idle(),
        places.last_idle(),
        places.least_overdue(90, 10),
    ];
    expect_equal(&rt, ids, [Some(6), Some(4), Some(7)]);
    expect_equal(&rt, places.take_value(4, Phase::Readying), 40);
    let counts = PlaceCounts {
        present: 3,
        queue: 1,
        idle: 1,
        lent: 1,
        adding: 0,
        owed: 11,
    };
    expect_equal(&rt, places.counts(), counts);
}
