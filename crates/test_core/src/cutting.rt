//! Journals that are cut, and pools that are opened from the state after them.
//! `tests/play.c` and `crates/test_counts` cut the cases too.

use crate::playing::{
    base_of, come_to, counted, cut, entries, from_base, given, length, opened, play, refuses,
    settings_of,
};
use pool_core::{BaseFault, Core};
use pool_journal::{Base, Entry, Input};
use pool_settings::Settings;
use std::alloc::Global;
use std::process::Abort;

/// A journal limit of seven entries, of which `ONE_WAY` takes four.
const SEVEN: &str = "journalLimit = 7";

const ONE_WAY: &str = "0 0 borrow 0 = make 0
0 0 ready 0 good = lent
0 0 return 0 = check
0 0 park 0 good = parked
";

/// The base before all entries.
const EMPTY: &str = "pool-journal 2 0 0 open none 0 0 0 0\n";

/// The base after the four entries of `ONE_WAY`.
const ONE_IDLE: &str = "pool-journal 2 4 1 open none 0 0 0 1
0 idle 3 0 0 0 old
";

/// A base with room for one more entry.
const ALMOST_MOST: &str = "pool-journal 2 9223372036854775806 0 open none 0 0 0 0\n";

/// A base with room for none.
const MOST: &str = "pool-journal 2 9223372036854775807 0 open none 0 0 0 0\n";

const NEW: Input = Input::Borrow { began: 0 };

// Whether two bases are the same.
fn is_same(one: &Base, other: &Base) -> bool {
    one.head() == other.head() && one.records.as_slice() == other.records.as_slice()
}

/// Ends the test unless the base is that of the text.
pub fn is_base(rt: &impl Abort, alloc: Global, found: &Base, text: &str) {
    let wanted = base_of(rt, alloc, text);
    assert!(rt; is_same(found, &wanted));
}

fn are_same(some: &[Entry], others: &[Entry]) -> bool {
    some == others
}

// Ends the test unless the entries are those of the text.
fn are_entries(rt: &impl Abort, alloc: Global, found: &[Entry], text: &str) {
    let wanted = entries(rt, alloc, text);
    assert!(rt; are_same(found, &wanted));
}

// Cuts the journal, and compares the base and the entries of the segment.
fn cuts(rt: &impl Abort, alloc: Global, core: &mut Core<u64>, base: &str, lines: &str) {
    let segment = cut(rt, alloc, core);
    is_base(rt, alloc, &segment.base, base);
    are_entries(rt, alloc, segment.entries.as_slice(), lines);
    assert!(rt; length(core) == 0);
}

// Opening a pool from this base must fail with this error, and return base and values.
fn is_refused(
    rt: &impl Abort,
    alloc: Global,
    settings: Settings,
    base: Base,
    values: Vec<(u64, u64)>,
    fault: BaseFault,
) -> (Base, Vec<(u64, u64)>) {
    let before = values.len();
    match from_base(alloc, settings, base, values) {
        Err((found, base, values)) => {
            assert!(rt; found == fault);
            assert!(rt; values.len() == before);
            (base, values)
        }
        Ok(_) => panic!(rt; "not refused"),
    }
}

// Opens a pool from a base, and tries once more if an allocation failed.
fn is_opened(
    rt: &impl Abort,
    alloc: Global,
    settings: Settings,
    base: Base,
    values: Vec<(u64, u64)>,
) -> Core<u64> {
    match from_base(alloc, settings, base, values) {
        Ok(core) => core,
        Err((_, base, values)) => match from_base(alloc, settings, base, values) {
            Ok(core) => core,
            Err(_) => panic!(rt; "refused twice"),
        },
    }
}

// A pool whose journal is cut after the entries of `ONE_WAY`.
fn cut_behind_one_way(rt: &impl Abort, alloc: Global) -> Core<u64> {
    let mut core = opened(rt, alloc, SEVEN);
    play(rt, alloc, &mut core, ONE_WAY);
    cuts(rt, alloc, &mut core, EMPTY, ONE_WAY);
    core
}

// After the cut there is room for the same number of entries again, and the ids continue.
#[test]
fn cut_behind_an_object_s_way(rt: HostRuntime) {
    for line in ["0 0 borrow 0 = take 0\n", "0 0 add = make 1\n"] {
        let mut core = cut_behind_one_way(&rt, rt.alloc());
        play(&rt, rt.alloc(), &mut core, line);
    }
}

// A second cut returns no entries, and the base after those of the first.
#[test]
fn cut_twice(rt: HostRuntime) {
    let mut core = cut_behind_one_way(&rt, rt.alloc());
    cuts(&rt, rt.alloc(), &mut core, ONE_IDLE, "");
}

// Fails with each of three errors in turn; base and values are returned each time.
fn is_refused_thrice(rt: &impl Abort, alloc: Global) -> (Base, Vec<(u64, u64)>) {
    let seven = settings_of(rt, alloc, SEVEN);
    let two = settings_of(rt, alloc, "journalLimit = 2");
    let no_places = settings_of(rt, alloc, "journalLimit = 7\nmaxTotal = 0");
    let base = base_of(rt, alloc, ONE_IDLE);
    let values = given(rt, vec![in alloc; (0, 0)]);
    let none = Vec::new(alloc);
    let (base, _) = is_refused(rt, alloc, seven, base, none, BaseFault::WrongValues);
    let (base, values) = is_refused(rt, alloc, two, base, values, BaseFault::NoRoom);
    is_refused(rt, alloc, no_places, base, values, BaseFault::NotABase)
}

// A pool that is opened after `ONE_WAY` lends the idle object, and is cut.
fn continues(rt: &impl Abort, alloc: Global, core: &mut Core<u64>) {
    let taken = "0 0 borrow 0 = take 0\n";
    come_to(rt, counted(core), [4, 1, 0, 0, 1, 0, 0, 0]);
    play(rt, alloc, core, taken);
    cuts(rt, alloc, core, ONE_IDLE, taken);
}

// Opening fails three times, and then succeeds with the returned base and values.
#[test]
fn opened_from_a_base(rt: HostRuntime) {
    let (base, values) = is_refused_thrice(&rt, rt.alloc());
    let settings = settings_of(&rt, rt.alloc(), SEVEN);
    let mut core = is_opened(&rt, rt.alloc(), settings, base, values);
    continues(&rt, rt.alloc(), &mut core);
}

// A pool from a base with no objects.
fn opened_bare(rt: &impl Abort, alloc: Global, base: &str) -> Core<u64> {
    let base = base_of(rt, alloc, base);
    is_opened(rt, alloc, Settings::default(), base, Vec::new(alloc))
}

#[test]
fn opened_behind_no_entries(rt: HostRuntime) {
    let empty = opened_bare(&rt, rt.alloc(), EMPTY);
    come_to(&rt, counted(&empty), [0; 8]);
}

// There is room to close the pool, and for nothing else.
fn can_be_closed(rt: &impl Abort, alloc: Global, core: &mut Core<u64>) {
    refuses(rt, core, 0, 0, NEW);
    play(rt, alloc, core, "0 0 close = count 0\n");
    refuses(rt, core, 0, 0, NEW);
}

// A pool that is opened from a base with room for one more entry.
#[test]
fn opened_behind_most_entries(rt: HostRuntime) {
    let mut core = opened_bare(&rt, rt.alloc(), ALMOST_MOST);
    can_be_closed(&rt, rt.alloc(), &mut core);
}

// Opening from a base with room for no entry fails.
#[test]
fn refused_behind_all_entries(rt: HostRuntime) {
    let past = base_of(&rt, rt.alloc(), MOST);
    let none = Vec::new(rt.alloc());
    let settings = Settings::default();
    is_refused(&rt, rt.alloc(), settings, past, none, BaseFault::NotABase);
}
