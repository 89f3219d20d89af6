//! Steppers: cores that store no entries.

use crate::cutting::is_base;
use crate::playing::{
    PLAIN_LIFE, TWO_OBJECTS, base_of, come_to, entries, given, settings_of, value_of,
};
use pool_core::{BaseFault, StepFault, Stepper};
use pool_journal::{Base, Entry, Input};
use pool_settings::Settings;
use pool_stats::Counts;
use std::alloc::Global;
use std::process::Abort;

/// The base after the four entries of `PLAIN_LIFE`: the object was lent at 11 and parked at 16.
const ONE_IDLE: &str = "pool-journal 2 4 1 open none 0 0 0 1
0 idle 3 16 11 11 old
";

const NEW: Input = Input::Borrow { began: 0 };

fn opened(rt: &impl Abort, alloc: Global, settings: &str) -> Stepper<u64> {
    Stepper::open(alloc, settings_of(rt, alloc, settings))
}

// Takes a step of a stepper, with the value that the input carries.
fn step(
    stepper: &mut Stepper<u64>,
    caller: u32,
    at: u64,
    input: Input,
) -> Result<(Entry, Option<u64>), StepFault<u64>> {
    stepper.step(caller, at, input, value_of(input))
}

// The number of steps since the last cut.
fn taken(stepper: &Stepper<u64>) -> u64 {
    stepper.taken()
}

fn room(stepper: &Stepper<u64>) -> u64 {
    stepper.room()
}

fn counted(stepper: &Stepper<u64>) -> Counts {
    stepper.counts()
}

// Takes a step. If an allocation fails, the value must be returned, and nothing may have changed.
fn try_step(
    rt: &impl Abort,
    stepper: &mut Stepper<u64>,
    wanted: &Entry,
) -> Option<(Entry, Option<u64>)> {
    let before = taken(stepper);
    match step(stepper, wanted.caller, wanted.at, wanted.input) {
        Ok(done) => return Some(done),
        Err(StepFault::OutOfMemory(back)) => assert!(rt; back == value_of(wanted.input)),
        Err(StepFault::JournalFull(_)) => panic!(rt; "full"),
    }
    assert!(rt; taken(stepper) == before);
    None
}

// Takes a step, and tries once more if an allocation failed.
fn take_step(rt: &impl Abort, stepper: &mut Stepper<u64>, wanted: &Entry) -> (Entry, Option<u64>) {
    if let Some(done) = try_step(rt, stepper, wanted) {
        return done;
    }
    match try_step(rt, stepper, wanted) {
        Some(done) => done,
        None => panic!(rt; "refused twice"),
    }
}

// Takes the steps of entries, and compares each entry, and the answer that `due` returned before.
fn takes(rt: &impl Abort, stepper: &mut Stepper<u64>, entries: &[Entry]) {
    for wanted in entries {
        let before = taken(stepper);
        let due = stepper.due(wanted.at, wanted.input);
        let (entry, _) = take_step(rt, stepper, wanted);
        assert!(rt; entry == *wanted, "{entry:?} and not {wanted:?}");
        assert!(rt; due == wanted.answer);
        assert!(rt; taken(stepper).saturating_sub(before) == 1);
    }
}

// Takes the steps of the lines.
fn plays(rt: &impl Abort, alloc: Global, stepper: &mut Stepper<u64>, lines: &str) {
    let wanted = entries(rt, alloc, lines);
    takes(rt, stepper, &wanted);
}

// A step for which there is no room must return its value, and not be taken.
fn refuses(rt: &impl Abort, stepper: &mut Stepper<u64>, input: Input) {
    let before = taken(stepper);
    match step(stepper, 0, 0, input) {
        Err(StepFault::JournalFull(back)) => assert!(rt; back == value_of(input)),
        _ => panic!(rt; "not full"),
    }
    assert!(rt; taken(stepper) == before);
}

#[test]
fn steps_without_a_journal(rt: HostRuntime) {
    let mut stepper = opened(&rt, rt.alloc(), "");
    plays(&rt, rt.alloc(), &mut stepper, TWO_OBJECTS);
    plays(&rt, rt.alloc(), &mut stepper, "7 4 borrow 4 = take 1\n");
    come_to(&rt, counted(&stepper), [9, 1, 0, 1, 2, 0, 0, 0]);
}

// There is room for all entries of one object, and for no second object.
#[test]
fn room_without_a_journal(rt: HostRuntime) {
    let mut stepper = opened(&rt, rt.alloc(), "journalLimit = 7");
    assert!(rt; room(&stepper) == 6);
    plays(&rt, rt.alloc(), &mut stepper, "0 0 borrow 0 = make 0\n");
    assert!(rt; room(&stepper) == 0);
    refuses(&rt, &mut stepper, NEW);
    plays(
        &rt,
        rt.alloc(),
        &mut stepper,
        "0 0 ready 0 good = lent
0 0 return 0 = check
0 0 park 0 good = parked
0 1 close = count 1
",
    );
}

fn cut(rt: &impl Abort, alloc: Global, stepper: &mut Stepper<u64>) -> Base {
    given(rt, stepper.cut(alloc))
}

// A cut returns the base after the entries.
fn cuts(rt: &impl Abort, alloc: Global, stepper: &mut Stepper<u64>) {
    let base = cut(rt, alloc, stepper);
    is_base(rt, alloc, &base, ONE_IDLE);
}

// After a cut the number of steps is zero, the counts continue, and there is room again.
fn goes_on_behind_a_cut(rt: &impl Abort, alloc: Global, stepper: &mut Stepper<u64>) {
    plays(rt, alloc, stepper, PLAIN_LIFE);
    cuts(rt, alloc, stepper);
    assert!(rt; taken(stepper) == 0);
    assert!(rt; counted(stepper).steps == 4);
    plays(rt, alloc, stepper, "0 20 borrow 20 = take 0\n");
}

#[test]
fn cut_without_a_journal(rt: HostRuntime) {
    let mut stepper = opened(&rt, rt.alloc(), "journalLimit = 7");
    goes_on_behind_a_cut(&rt, rt.alloc(), &mut stepper);
}

// Opens a stepper from a base, with a value for this id.
fn from_base(
    rt: &impl Abort,
    alloc: Global,
    base: &mut Base,
    id: u64,
) -> Result<Stepper<u64>, (BaseFault, Vec<(u64, u64)>)> {
    let values = given(rt, vec![in alloc; (id, 9u64)]);
    Stepper::from_base(alloc, Settings::default(), base, values)
}

// Whether opening a stepper from a base, with a value for this id, fails.
fn is_refused(rt: &impl Abort, alloc: Global, base: &mut Base, id: u64) -> bool {
    from_base(rt, alloc, base, id).is_err()
}

// If opening fails, the base is unchanged, and the values are returned.
#[test]
fn refused_without_a_journal(rt: HostRuntime) {
    let mut base = base_of(&rt, rt.alloc(), ONE_IDLE);
    match from_base(&rt, rt.alloc(), &mut base, 1) {
        Err((BaseFault::WrongValues, values)) => assert!(rt;
            values.as_slice() == [(1, 9)].as_slice()
        ),
        _ => panic!(rt; "not refused"),
    }
    is_base(&rt, rt.alloc(), &base, ONE_IDLE);
}

// A stepper that was opened after four entries lends the idle object with its value.
fn continues(rt: &impl Abort, stepper: &mut Stepper<u64>, next: &[Entry]) {
    for wanted in next {
        let (entry, out) = take_step(rt, stepper, wanted);
        assert!(rt; entry.answer == wanted.answer);
        assert!(rt; out == Some(9));
    }
    assert!(rt; counted(stepper).steps == 5);
}

// A stepper that is opened from a base continues as the one that was cut, also after an opening that failed.
#[test]
fn opened_without_a_journal(rt: HostRuntime) {
    let mut base = base_of(&rt, rt.alloc(), ONE_IDLE);
    assert!(rt; is_refused(&rt, rt.alloc(), &mut base, 1));
    let next = entries(&rt, rt.alloc(), "0 20 borrow 20 = take 0\n");
    match from_base(&rt, rt.alloc(), &mut base, 0) {
        Ok(mut stepper) => continues(&rt, &mut stepper, &next),
        Err(_) => panic!(rt; "refused"),
    }
}
