//! The settings of texts. tests/cases/settings has texts with errors, and the message of each.

use crate::checks::expect_equal;
use pool_settings::Settings;
use std::process::Abort;

fn read(rt: &(impl AllocGlobal + Abort), text: &str) -> Settings {
    Settings::from_text(rt.alloc(), text).expect(rt, text)
}

/// Returns the numbers of settings except the journal limit, in the alphabetical order of their keys.
fn numbers(settings: &Settings) -> [i64; 8] {
    [
        settings.max_idle() as i64,
        settings.max_total() as i64,
        settings.max_wait_millis(),
        settings.min_evictable_idle_millis(),
        settings.min_idle() as i64,
        settings.num_tests_per_eviction_run() as i64,
        settings.remove_abandoned_timeout_millis(),
        settings.soft_min_evictable_idle_millis(),
    ]
}

/// Returns the settings that are true or false, in the alphabetical order of their keys.
fn flags(settings: &Settings) -> [bool; 9] {
    [
        settings.abandoned(),
        settings.block_when_exhausted(),
        settings.lifo(),
        settings.remove_abandoned_on_borrow(),
        settings.remove_abandoned_on_maintenance(),
        settings.test_on_borrow(),
        settings.test_on_create(),
        settings.test_on_return(),
        settings.test_while_idle(),
    ]
}

/// The numbers that GenericObjectPoolConfig and AbandonedConfig document.
const DEFAULTS: [i64; 8] = [8, 8, -1, 1_800_000, 0, 3, 300_000, -1];

#[test]
fn defaults(rt: HostRuntime) {
    let settings = Settings::default();
    expect_equal(&rt, settings.journal_limit(), 1_000_000);
    expect_equal(&rt, numbers(&settings), DEFAULTS);
    let wanted = [false, true, true, false, false, false, false, false, false];
    expect_equal(&rt, flags(&settings), wanted);
    expect_equal(&rt, settings.effective_min_idle(), 0);
    expect_equal(&rt, read(&rt, ""), settings);
    expect_equal(&rt, read(&rt, "# nothing is said\n\n"), settings);
    expect_equal(&rt, numbers(&read(&rt, "[abandoned]")), DEFAULTS);
}

/// Every key, none with its default, and each number with a value of its own.
const EVERY_KEY: &str = "
blockWhenExhausted = false
journalLimit = 20
lifo = false
maxIdle = 3
maxTotal = -4
maxWaitMillis = 50
minEvictableIdleMillis = 60
minIdle = 7
numTestsPerEvictionRun = -8
softMinEvictableIdleMillis = 90
testOnBorrow = true
testOnCreate = true
testOnReturn = true
testWhileIdle = true
[abandoned]
removeAbandonedOnBorrow = true
removeAbandonedOnMaintenance = true
removeAbandonedTimeoutMillis = 100
";

#[test]
fn every_key_is_read(rt: HostRuntime) {
    let settings = read(&rt, EVERY_KEY);
    expect_equal(&rt, settings.journal_limit(), 20);
    let wanted = [3, -4, 50, 60, 7, -8, 100, 90];
    expect_equal(&rt, numbers(&settings), wanted);
    let wanted = [true, false, false, true, true, true, true, true, true];
    expect_equal(&rt, flags(&settings), wanted);
    expect_equal(&rt, settings.effective_min_idle(), 3);
}

/// Texts with one flag each, and one with the bare section.
const FLAGS_ALONE: [(&str, [bool; 9]); 9] = [
    (
        "blockWhenExhausted = false",
        [false, false, true, false, false, false, false, false, false],
    ),
    (
        "lifo = false",
        [false, true, false, false, false, false, false, false, false],
    ),
    (
        "testOnBorrow = true",
        [false, true, true, false, false, true, false, false, false],
    ),
    (
        "testOnCreate = true",
        [false, true, true, false, false, false, true, false, false],
    ),
    (
        "testOnReturn = true",
        [false, true, true, false, false, false, false, true, false],
    ),
    (
        "testWhileIdle = true",
        [false, true, true, false, false, false, false, false, true],
    ),
    (
        "[abandoned]",
        [true, true, true, false, false, false, false, false, false],
    ),
    (
        "[abandoned]\nremoveAbandonedOnBorrow = true",
        [true, true, true, true, false, false, false, false, false],
    ),
    (
        "[abandoned]\nremoveAbandonedOnMaintenance = true",
        [true, true, true, false, true, false, false, false, false],
    ),
];

fn flags_alone() -> &'static [(&'static str, [bool; 9])] {
    &FLAGS_ALONE
}

#[test]
fn flags_are_distinguished(rt: HostRuntime) {
    for &(text, wanted) in flags_alone() {
        expect_equal(&rt, (text, flags(&read(&rt, text))), (text, wanted));
    }
}

#[test]
fn greatest_numbers(rt: HostRuntime) {
    let text = "journalLimit = 4294967296\nmaxWaitMillis = 9007199254740992";
    let settings = read(&rt, text);
    let found = (settings.journal_limit(), settings.max_wait_millis());
    expect_equal(&rt, found, (4_294_967_296, 9_007_199_254_740_992));
}
