//! Journals without room for a borrow, which still have room for other entries.

use crate::playing::{opened, play, refuses};
use pool_journal::Input;
use std::alloc::Global;
use std::process::Abort;

// Plays lines on a new pool, then tries a borrow, which must fail as full, and plays the next lines.
fn refuses_between(
    rt: &impl Abort,
    alloc: Global,
    settings: &str,
    before: &str,
    caller: u32,
    next: &str,
) {
    let mut core = opened(rt, alloc, settings);
    play(rt, alloc, &mut core, before);
    refuses(rt, &mut core, caller, 0, Input::Borrow { began: 0 });
    play(rt, alloc, &mut core, next);
}

// A pool without objects has room for its close, and none for the entries of an object.
#[test]
fn journal_of_six(rt: HostRuntime) {
    refuses_between(
        &rt,
        rt.alloc(),
        "journalLimit = 6",
        "",
        0,
        "0 0 close = count 0\n",
    );
}

// There is room for all entries of one object, also after a borrow that failed.
#[test]
fn journal_of_seven(rt: HostRuntime) {
    refuses_between(
        &rt,
        rt.alloc(),
        "journalLimit = 7",
        "0 0 borrow 0 = make 0\n",
        1,
        "0 0 ready 0 good = lent
0 0 return 0 = check
0 0 park 0 good = parked
0 1 close = count 1
0 1 clearnext = destroyidle 0
0 1 destroyed 0 = freed
",
    );
}
