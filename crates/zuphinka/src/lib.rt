//! A pool for C. The host passes tokens for its objects, and the pool stores the token of an object while it is idle.
#![tactic(auto)]

ghost use Rattle.std.specs.Prelude.{◌≡◌, None, IsSomeAnd};
ghost use Rattle.zuphinka.specs.Calling.{AdvancesIn, BeginsIn, LimitsIn, ReadsState, TellsLent, WakesIn};
ghost use Rattle.zuphinka.specs.Calls.{Came, Opens, OpensWith, Steps, IsCompleting, Reads, TellsSteps, TellsRoom, Lines, BaseLines, Cuts};
ghost use Rattle.zuphinka.specs.Counting.{ReportsCounts};
ghost use Rattle.zuphinka.specs.Opening.{KeepsCalls, core_in, no_options};
ghost use Rattle.zuphinka.specs.Reconfiguring.{Reconfigures};
ghost use Rattle.zuphinka.specs.Setting.{SetsTo};
ghost use Rattle.zuphinka.specs.Status.{status_code};
ghost use Rattle.zuphinka.specs.declared.status.Status.TheVariants.{Done};

mod advancing;
mod beginning;
mod call_effects;
mod event;
mod handle;
mod host_call;
mod lines;
mod open_pool;
mod parts;
mod pool;
mod pool_options;
mod pool_state;
mod reply;
mod request;
mod setup;
mod starting;
mod status;
mod tally;

use call_effects::CallEffects;
use event::CallEvent;
use handle::Handle;
use host_call::HostCall;
use pool_options::PoolOptions;
use pool_settings::Settings;
use pool_state::PoolState;
use reply::Reply;
use request::Request;
use setup::{Setup, put_key};
use starting::CallStart;
use status::{Status, status_of};
use std::alloc::Global;
use std::str;
use tally::Tally;

/// Returns the version of the library: major * 1,000,000 + minor * 1,000 + patch.
#[unsafe(no_mangle)]
pub extern "C" fn zuphinka_version() -> u32
    ensures { result ≡ 1000 }
{
    1_000
}

/// Reads settings from a text, and stores them in `settings`. If the first error of the text names a key, stores the
/// key at the start of `key`, if it fits, and its length in `size`.
#[unsafe(no_mangle)]
pub extern "C" fn zuphinka_settings(
    alloc: Global,
    text: &[u8],
    settings: &mut Setup,
    key: &mut [u8],
    size: &mut u64,
) -> u32
    ensures { Came result (SetsTo text.now settings.old settings.new key.old key.new size.old
        size.new) }
{
    let Ok(text) = str::from_utf8(text) else {
        return Status::NotText.code();
    };
    match Settings::from_text(alloc, text) {
        Ok(read) => {
            *settings = Setup::of(&read);
            Status::Done.code()
        }
        Err(fault) => {
            put_key(&fault, key, size);
            status_of(&fault).code()
        }
    }
}

/// Opens a pool in an empty handle, with settings from a text.
#[unsafe(no_mangle)]
pub extern "C" fn zuphinka_open(alloc: Global, pool: &mut Handle, settings: &[u8]) -> u32
    ensures opens { Came result (Opens settings.now (core_in pool.old.held)
        (core_in pool.new.held)) }
    ensures options { Came result (OpensWith settings.now no_options pool.old.held pool.new.held) }
{
    pool::open_in(alloc, pool, settings, &PoolOptions::none()).code()
}

/// Stores the expected answer to `request` in `reply`, and appends exactly one entry, which records it.
#[unsafe(no_mangle)]
pub extern "C" fn zuphinka_step(
    alloc: Global,
    pool: &mut Handle,
    request: &Request,
    reply: &mut Reply,
) -> u32
    ensures status { Came result (Steps request.now (core_in pool.old.held) (core_in pool.new.held) reply.old
        reply.new) }
    ensures completing { IsSomeAnd (core_in pool.old.held) (IsCompleting request.now)
        → result ≡ status_code Done }
    ensures rest { KeepsCalls pool.old.held pool.new.held }
{
    let Some(mut held) = pool.take(alloc) else {
        return Status::NotOpen.code();
    };
    let status = pool::step(&mut *held, request, reply);
    pool.put(held);
    status.code()
}

/// Stores the counts in `counts`.
#[unsafe(no_mangle)]
pub extern "C" fn zuphinka_counts(alloc: Global, pool: &mut Handle, counts: &mut Tally) -> u32
    ensures reads { Reads ReportsCounts (core_in pool.old.held) (core_in pool.new.held) counts.old counts.new result }
    ensures same { pool.new.held ≡ pool.old.held }
{
    let Some(held) = pool.take(alloc) else {
        return Status::NotOpen.code();
    };
    *counts = Tally::of(held.core().counts());
    pool.put(held);
    Status::Done.code()
}

/// Stores in `steps` the number of entries in the journal, since its last cut.
#[unsafe(no_mangle)]
pub extern "C" fn zuphinka_steps(alloc: Global, pool: &mut Handle, steps: &mut u64) -> u32
    ensures reads { Reads TellsSteps (core_in pool.old.held) (core_in pool.new.held) steps.old steps.new result }
    ensures same { pool.new.held ≡ pool.old.held }
{
    let Some(held) = pool.take(alloc) else {
        return Status::NotOpen.code();
    };
    *steps = held.core().journal().len() as u64;
    pool.put(held);
    Status::Done.code()
}

/// Stores in `room` the number of entries that still fit into the journal, besides the outstanding ones.
#[unsafe(no_mangle)]
pub extern "C" fn zuphinka_room(alloc: Global, pool: &mut Handle, room: &mut u64) -> u32
    ensures reads { Reads TellsRoom (core_in pool.old.held) (core_in pool.new.held) room.old room.new result }
    ensures same { pool.new.held ≡ pool.old.held }
{
    let Some(held) = pool.take(alloc) else {
        return Status::NotOpen.code();
    };
    *room = held.core().room();
    pool.put(held);
    Status::Done.code()
}

/// Stores the line of the entry at `position` at the start of `text`, if it fits, and its length in `size`.
#[unsafe(no_mangle)]
pub extern "C" fn zuphinka_line(
    alloc: Global,
    pool: &mut Handle,
    position: u64,
    text: &mut [u8],
    size: &mut u64,
) -> u32
    ensures text { Came result (Lines position (core_in pool.old.held) (core_in pool.new.held) text.old text.new size.old
        size.new) }
    ensures same { pool.new.held ≡ pool.old.held }
{
    let Some(held) = pool.take(alloc) else {
        return Status::NotOpen.code();
    };
    let status = lines::put_entry(alloc, held.core().journal(), position, text, size);
    pool.put(held);
    status.code()
}

/// Stores the line of the base at `position` at the start of `text`, if it fits, and its length in `size`. At position
/// 0 is the first line of a segment, and then one for each object.
#[unsafe(no_mangle)]
pub extern "C" fn zuphinka_base(
    alloc: Global,
    pool: &mut Handle,
    position: u64,
    text: &mut [u8],
    size: &mut u64,
) -> u32
    ensures text { Came result (BaseLines position (core_in pool.old.held) (core_in pool.new.held) text.old text.new size.old
        size.new) }
    ensures same { pool.new.held ≡ pool.old.held }
{
    let Some(held) = pool.take(alloc) else {
        return Status::NotOpen.code();
    };
    let status = lines::put_base(alloc, held.core().base(), position, text, size);
    pool.put(held);
    status.code()
}

/// Cuts the journal: drops the stored entries, and continues from the state after them.
#[unsafe(no_mangle)]
pub extern "C" fn zuphinka_cut(alloc: Global, pool: &mut Handle) -> u32
    ensures cuts { Came result (Cuts (core_in pool.old.held) (core_in pool.new.held)) }
    ensures rest { KeepsCalls pool.old.held pool.new.held }
{
    let Some(mut held) = pool.take(alloc) else {
        return Status::NotOpen.code();
    };
    let status = pool::cut(alloc, &mut *held);
    pool.put(held);
    status.code()
}

/// Ends a pool. The handle is then empty.
#[unsafe(no_mangle)]
pub extern "C" fn zuphinka_drop(alloc: Global, pool: &mut Handle)
    ensures { pool.new.held ≡ None }
{
    drop(pool.take(alloc));
}

/// Opens a pool in an empty handle, with settings from a text, and with options.
#[unsafe(no_mangle)]
pub extern "C" fn zuphinka_open_with(
    alloc: Global,
    pool: &mut Handle,
    settings: &[u8],
    options: &PoolOptions,
) -> u32
    ensures { Came result (OpensWith settings.now options.now pool.old.held pool.new.held) }
{
    pool::open_in(alloc, pool, settings, options).code()
}

/// Begins a call, takes its first steps, and stores in `effects` what the host does next. The host keeps the call in
/// `call`, which has none if the call is over.
#[unsafe(no_mangle)]
pub extern "C" fn zuphinka_begin(
    alloc: Global,
    pool: &mut Handle,
    start: &CallStart,
    call: &mut HostCall,
    effects: &mut CallEffects,
) -> u32
    ensures { Came result (BeginsIn start.now pool.old.held pool.new.held call.old call.new
        effects.old effects.new) }
{
    let Some(mut held) = pool.take(alloc) else {
        return Status::NotOpen.code();
    };
    let status = held.begin(start, call, effects);
    pool.put(held);
    status.code()
}

/// Goes on with a call in progress after a report, and stores in `effects` what the host does next.
#[unsafe(no_mangle)]
pub extern "C" fn zuphinka_advance(
    alloc: Global,
    pool: &mut Handle,
    call: &mut HostCall,
    event: &CallEvent,
    effects: &mut CallEffects,
) -> u32
    ensures { Came result (AdvancesIn event.now pool.old.held pool.new.held call.old call.new
        effects.old effects.new) }
{
    let Some(mut held) = pool.take(alloc) else {
        return Status::NotOpen.code();
    };
    let status = held.advance(call, event, effects);
    pool.put(held);
    status.code()
}

/// Stores in `ticket` the ticket of the next call to wake, if there is one.
#[unsafe(no_mangle)]
pub extern "C" fn zuphinka_next_wake(alloc: Global, pool: &mut Handle, ticket: &mut u64) -> u32
    ensures { Came result (WakesIn pool.old.held pool.new.held ticket.old ticket.new) }
{
    let Some(mut held) = pool.take(alloc) else {
        return Status::NotOpen.code();
    };
    let status = held.next_wake(ticket);
    pool.put(held);
    status.code()
}

/// Stores in `state` what is true of the pool besides its counts.
#[unsafe(no_mangle)]
pub extern "C" fn zuphinka_state(alloc: Global, pool: &mut Handle, state: &mut PoolState) -> u32
    ensures { ReadsState pool.old.held pool.new.held state.old state.new result }
{
    let Some(held) = pool.take(alloc) else {
        return Status::NotOpen.code();
    };
    *state = held.state();
    pool.put(held);
    Status::Done.code()
}

/// From now on each call that has waited for `millis` milliseconds is overtaken at most `most` times, or as often as the oldest
/// one was, if that is more. Stores this bound in `bound`.
#[unsafe(no_mangle)]
pub extern "C" fn zuphinka_set_overtakes(
    alloc: Global,
    pool: &mut Handle,
    millis: u64,
    most: u64,
    bound: &mut u64,
) -> u32
    ensures { LimitsIn millis most pool.old.held pool.new.held bound.old bound.new result }
{
    let Some(mut held) = pool.take(alloc) else {
        return Status::NotOpen.code();
    };
    *bound = held.limit_overtakes(millis, most);
    pool.put(held);
    Status::Done.code()
}

/// Stores in `is_lent` whether the object with this id is lent.
#[unsafe(no_mangle)]
pub extern "C" fn zuphinka_is_lent(
    alloc: Global,
    pool: &mut Handle,
    id: u64,
    is_lent: &mut bool,
) -> u32
    ensures { TellsLent id pool.old.held pool.new.held is_lent.old is_lent.new result }
{
    let Some(held) = pool.take(alloc) else {
        return Status::NotOpen.code();
    };
    *is_lent = held.is_lent(id);
    pool.put(held);
    Status::Done.code()
}

/// Goes on with settings from a text, and cuts the journal, as `zuphinka_cut`. The objects stay, also if they are more than
/// `maxTotal` then: none is made until fewer are present. Then the host wakes the calls of `zuphinka_next_wake`.
#[unsafe(no_mangle)]
pub extern "C" fn zuphinka_reconfigure(alloc: Global, pool: &mut Handle, settings: &[u8]) -> u32
    ensures { Came result (Reconfigures settings.now pool.old.held pool.new.held) }
{
    let Some(mut held) = pool.take(alloc) else {
        return Status::NotOpen.code();
    };
    let status = pool::reconfigure(alloc, &mut *held, settings);
    pool.put(held);
    status.code()
}
