//! A third caller reads the counts, while two borrow and return.

use crate::actions::{Action, Expectation, expect_equal};
use crate::beside::{Gated, Parts, tries};
use crate::items::Failing;

const TURNS: [Expectation; 1] = [(Action::TakeTurns(1_000), "done", 1_000)];

const LOOKS: [Expectation; 1] = [(Action::Watch(10_000), "done", 10_000)];

fn parts() -> Parts<'static> {
    [&TURNS, &TURNS, &LOOKS]
}

// All counts that the third caller reads account for all created objects, and the steps never decrease.
#[test]
fn counts_add_up_at_every_moment(rt: HostRuntime) {
    let never = Failing::Never;
    let (core, _) = tries(&rt, rt.alloc(), "", never, Gated::Nothing, parts());
    expect_equal(&rt, core.journal().len(), 8_000);
}
