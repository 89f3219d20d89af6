//! The waits of borrows: which one may ask, which one sleeps on, and what each does when it wakes up.
ghost use Rattle.std.specs.Prelude.{◌≡◌, ◌≤◌, ℕ, ◌-◌, ◌&&◌, ◌||◌, IfSome, Some, None, true, false, max, length};
ghost use Rattle.std.specs.Option.{is_some};
ghost use Rattle.pool_calls.specs.Operations.{Proceeds, fits, is_waiting, lacks_room, step_at};
ghost use Rattle.pool_calls.specs.Turns.{is_done};
ghost use Rattle.pool_calls.specs.Waiting.{may_lend, most_overtaken, counts_overtake};
ghost use Rattle.pool_core.specs.Legal.{entry_of};
ghost use Rattle.pool_journal.specs.Base.{closed_from};
ghost use Rattle.pool_journal.specs.declared.input.Input.TheVariants as inputs;
ghost use Rattle.pool_calls.specs.declared.action.Event.TheVariants as events;
ghost use Rattle.pool_host.specs.declared.report.Report.TheVariants as reports;
ghost use Rattle.pool_host.specs.Queueing.{Queues};
ghost use Rattle.pool_host.specs.Overtaking.{CountsOvertakes, Draws, Hears, Rests, is_found, is_newcomer, others};
ghost use Rattle.pool_host.specs.Hosting.{Accepts, HasRoom, IsAvailable, IsWoken, LacksRoomOnlyEmpty, LooksIf, Moves, TakesFirst, available_in, may_come_in, passed, until_of, has_waited, sleeps_until, waking_at, waking_of, waits_on};

use crate::call::Call;
use crate::pool::HostedPool;
use pool_calls::{Action, Event, StepFailure};
use pool_journal::{Answer, Input};

/// What a borrow that sleeps does when it wakes up.
#[derive(Clone, Copy, Debug, PartialEq, Eq)]
pub(crate) enum Waking {
    /// It asks.
    Asks,
    /// Its time is over, and what is there is for others.
    TimesOut,
    /// It would only wait again, or what is there is for others.
    SleepsOn,
}

// A borrow times out if its time is over, and sleeps on if it is not.
fn sleep_until(is_over: bool) -> Waking
    ensures { result ≡ sleeps_until is_over }
{
    if is_over {
        Waking::TimesOut
    } else {
        Waking::SleepsOn
    }
}

// What a borrow does whose expected answer is this.
fn decide(is_signalled: bool, waits_longer: bool, is_over: bool, expected: Answer) -> Waking
    ensures { result ≡ waking_of is_signalled waits_longer is_over expected }
{
    match expected {
        Answer::Wait => Waking::SleepsOn,
        Answer::Take(_) | Answer::Make(_) if is_signalled => Waking::Asks,
        Answer::Take(_) | Answer::Make(_) => sleep_until(is_over),
        Answer::TimedOut if waits_longer => sleep_until(is_over),
        _ => Waking::Asks,
    }
}

impl HostedPool {
    /// Returns the number of objects that a borrow may take, and of free places: 2^64 - 1 if there is no limit, or if the
    /// pool is closed.
    pub(crate) fn available(&self) -> u64
        ensures { result ≡ available_in self.now.core }
    {
        if self.is_closed() {
            return u64::MAX;
        }
        match u64::try_from(self.settings.max_total) {
            Ok(most) => {
                let counts = self.core.counts();
                let present = counts.idle + counts.lent + counts.reserved;
                self.core
                    .takeable()
                    .saturating_add(most.saturating_sub(present))
            }
            Err(_) => u64::MAX,
        }
    }

    // Whether the time for a wait that began at `began` is over at `at`, by the settings and by what it may last longer.
    fn is_over(&self, began: u64, at: u64, longer: u64) -> bool
        ensures { result ≡ has_waited self.now.core.settings.max_wait_millis longer (at - began) }
    {
        match u64::try_from(self.settings.max_wait_millis) {
            Ok(most) => match most.checked_add(longer) {
                Some(longest) => at.saturating_sub(began) >= longest,
                None => false,
            },
            Err(_) => false,
        }
    }

    /// Returns the time at which the wait of a borrow is over, in milliseconds: by the settings, and by what it may last
    /// longer.
    #[inline(always)]
    pub(crate) fn until(&self, call: &Call) -> Option<u64>
        ensures { result ≡ until_of self.now.core.settings call.now }
    {
        let began = call.operation.began()?;
        match u64::try_from(self.settings.max_wait_millis) {
            Ok(most) => Some(began.saturating_add(most.saturating_add(call.longer))),
            Err(_) => None,
        }
    }

    // A call waits no longer: its ticket leaves.
    #[inline(always)]
    fn leave(&mut self, call: &mut Call)
        ensures rest { self.new ≡ record self.old {
          queue = self.new.queue;
          holds_back = self.new.holds_back;
        } }
        ensures call { call.new ≡ record call.old { ticket = None } }
        ensures queue { Queues call.old.ticket None self.old.queue self.new.queue }
        ensures others { self.new.queue.waiting ≡ others call.old.ticket self.old.queue.waiting }
        ensures latest { self.new.queue.latest ≡ self.old.queue.latest }
    {
        if let Some(ticket) = call.ticket {
            let _ = self.waiters.leave(ticket);
            self.holds_back = false;
            call.ticket = None;
        }
    }

    // What a borrow does when it wakes up.
    fn waking(&self, call: &Call, began: u64, at: u64) -> Waking
        ensures { result ≡ waking_at self.now at call.now.ticket call.now.longer began }
    {
        let is_signalled = match call.ticket {
            Some(ticket) => self.waiters.is_signalled(ticket),
            None => true,
        };
        let expected = self.core.due(at, Input::Borrow { began });
        let is_over = self.is_over(began, at, call.longer);
        decide(is_signalled, call.longer > 0, is_over, expected)
    }

    /// Wakes a call up. Returns whether it sleeps; otherwise nothing changes. It sleeps on if it would only wait again,
    /// or if what is there is for others.
    pub(crate) fn wake_up(&mut self, call: &mut Call, at: u64) -> bool
        ensures fits { result ≡ is_waiting call.old.operation }
        ensures told { result ≡ true → IsWoken self.old at call.old.ticket call.old.longer
            call.old.operation call.new.operation }
        ensures accepted { result ≡ true
            → Accepts reports.Woken self.old self.new call.old call.new }
        ensures hears { result ≡ true → Hears self.old self.new call.old call.new }
        ensures room { result ≡ true → lacks_room call.new.operation ≡ false }
        ensures unfit { result ≡ false → (self.new ≡ self.old) × (call.new ≡ call.old) }
        ensures longer { call.new.longer ≡ call.old.longer }
    {
        let Some(began) = call.operation.began() else {
            return false;
        };
        if !matches!(call.operation.action(), Action::Wait) {
            return false;
        }
        match self.waking(call, began, at) {
            Waking::Asks => {
                let _ = call.operation.tell(Event::Woken);
            }
            Waking::TimesOut => {
                let _ = call.operation.tell(Event::TimeOver);
                self.leave(call);
            }
            Waking::SleepsOn => self.holds_back = true,
        }
        true
    }

    /// Tells a call that the journal was cut. Returns whether that fits; otherwise nothing changes. A borrow that waited
    /// before looks as one that wakes up.
    pub(crate) fn room_made(&mut self, call: &mut Call, at: u64) -> bool
        ensures fits { result ≡ fits call.old.operation events.RoomMade }
        ensures told { result ≡ true → HasRoom self.old at call.old call.new.operation }
        ensures accepted { result ≡ true
            → Accepts reports.RoomMade self.old self.new call.old call.new }
        ensures hears { result ≡ true → Hears self.old self.new call.old call.new }
        ensures room { result ≡ true → lacks_room call.new.operation ≡ false }
        ensures unfit { result ≡ false → (self.new ≡ self.old) × (call.new ≡ call.old) }
        ensures longer { call.new.longer ≡ call.old.longer }
    {
        if !call.operation.tell(Event::RoomMade) {
            return false;
        }
        self.look_again(call, at);
        true
    }

    // A borrow that has a ticket, and is to ask, looks as one that wakes up.
    fn look_again(&mut self, call: &mut Call, at: u64)
        requires { lacks_room call.old.operation ≡ false }
        ensures told { LooksIf (is_some call.old.ticket && fits call.old.operation events.Queued)
            self.old at call.old.ticket call.old.longer call.old.operation call.new.operation }
        ensures accepts { Accepts reports.GoOn self.old self.new call.old call.new }
        ensures hears { Hears self.old self.new call.old call.new }
        ensures room { lacks_room call.new.operation ≡ false }
        ensures longer { call.new.longer ≡ call.old.longer }
    {
        if call.ticket.is_some() && call.operation.tell(Event::Queued) {
            let _ = self.wake_up(call, at);
        }
    }

    /// Gives a call up. Returns whether that fits; otherwise nothing changes.
    pub(crate) fn give_up(&mut self, call: &mut Call) -> bool
        ensures fits { result ≡ fits call.old.operation events.Cancelled }
        ensures told { result ≡ true → Proceeds events.Cancelled call.old.operation call.new.operation }
        ensures accepted { result ≡ true
            → Accepts reports.GivenUp self.old self.new call.old call.new }
        ensures hears { result ≡ true → Hears self.old self.new call.old call.new }
        ensures room { result ≡ true → lacks_room call.new.operation ≡ false }
        ensures unfit { result ≡ false → (self.new ≡ self.old) × (call.new ≡ call.old) }
        ensures longer { call.new.longer ≡ call.old.longer }
    {
        if !call.operation.tell(Event::Cancelled) {
            return false;
        }
        self.leave(call);
        true
    }

    /// A call whose action is its end leaves the queue.
    #[inline(always)]
    pub(crate) fn leave_at_end(&mut self, call: &mut Call, action: Action)
        ensures accepts { Accepts reports.GoOn self.old self.new call.old call.new }
        ensures rests { (at : ℕ) → Rests at self.old self.new call.old call.new }
        ensures rest { self.new ≡ record self.old {
          queue = self.new.queue;
          holds_back = self.new.holds_back;
        } }
        ensures operation { call.new.operation ≡ call.old.operation }
        ensures ended { is_done action ≡ true → call.new.ticket ≡ None }
        ensures longer { call.new.longer ≡ call.old.longer }
    {
        if matches!(action, Action::Done(_)) {
            self.leave(call);
        }
    }

    // The number of available objects and free places, as far as it matters to a newcomer: 0 if no call waits.
    #[inline(always)]
    pub(crate) fn available_to_newcomer(&self) -> u64
        ensures { IsAvailable self.now result }
    {
        if self.waiters.is_empty() {
            0
        } else {
            self.available()
        }
    }

    // A borrow that waits, and has no ticket, draws one.
    fn draw_ticket(&mut self, call: &mut Call, at: u64)
        ensures accepts { Accepts reports.GoOn self.old self.new call.old call.new }
        ensures rests { Rests at self.old self.new call.old call.new }
        ensures room { lacks_room call.new.operation ≡ true
            → lacks_room call.old.operation ≡ true }
        ensures longer { call.new.longer ≡ call.old.longer }
    {
        if call.ticket.is_some() {
            return;
        }
        let Action::Wait = call.operation.action() else {
            return;
        };
        let Ok(ticket) = self.waiters.wait(at) else {
            let _ = call.operation.tell(Event::TimeOver);
            return;
        };
        call.ticket = Some(ticket);
    }

    // A borrow took something. If it had no ticket, and took nothing before, it overtook those that wait.
    #[inline(always)]
    fn count_overtake(&mut self, call: &Call, available: u64, at: u64)
        requires { call.now.ticket ≡ None → call.now.was_served ≡ false
            → may_lend available at self.old.queue ≡ true }
        ensures rest { self.new ≡ record self.old { queue = self.new.queue } }
        ensures queue { Queues call.now.ticket call.now.ticket self.old.queue self.new.queue }
        ensures waiting { self.new.queue.waiting ≡ passed (is_newcomer call.now
            && counts_overtake available at self.old.queue) self.old.queue.waiting }
        ensures latest { self.new.queue.latest ≡ self.old.queue.latest }
    {
        if call.ticket.is_none() && !call.was_served {
            self.waiters.note_lent(available, at);
        }
    }

    /// A borrow found something, and waits no longer. It overtook those that wait if it is a newcomer.
    #[inline(always)]
    pub(crate) fn note_found(&mut self, call: &mut Call, available: u64, at: u64)
        requires { call.old.ticket ≡ None → call.old.was_served ≡ false
            → may_lend available at self.old.queue ≡ true }
        ensures accepts { Accepts reports.GoOn self.old self.new call.old call.new }
        ensures served { call.new.was_served ≡ true }
        ensures ticket { call.new.ticket ≡ None }
        ensures others { others call.new.ticket self.new.queue.waiting
            ≡ passed (is_newcomer call.old && counts_overtake available at self.old.queue)
            (others call.old.ticket self.old.queue.waiting) }
        ensures operation { call.new.operation ≡ call.old.operation }
        ensures longer { call.new.longer ≡ call.old.longer }
        ensures latest { self.new.queue.latest ≡ self.old.queue.latest }
    {
        self.count_overtake(call, available, at);
        call.was_served = true;
        self.leave(call);
    }

    // A borrow has asked: it waits, or it waits no longer. One that found something overtook those that wait.
    fn note_answer(&mut self, call: &mut Call, answer: Answer, available: u64, at: u64)
        requires { call.old.ticket ≡ None → call.old.was_served ≡ false
            → may_lend available at self.old.queue ≡ true }
        ensures accepts { Accepts reports.GoOn self.old self.new call.old call.new }
        ensures served { call.new.was_served ≡ (is_found answer || call.old.was_served) }
        ensures others { others call.new.ticket self.new.queue.waiting
            ≡ passed (is_found answer && is_newcomer call.old && counts_overtake available at
            self.old.queue) (others call.old.ticket self.old.queue.waiting) }
        ensures draws { is_some call.new.ticket ≡ true → call.old.ticket ≡ None
            → Draws at self.old.queue self.new.queue call.new }
        ensures latest { self.new.queue.latest ≤ max at self.old.queue.latest }
        ensures room { lacks_room call.new.operation ≡ true
            → lacks_room call.old.operation ≡ true }
        ensures longer { call.new.longer ≡ call.old.longer }
    {
        match answer {
            Answer::Wait => self.draw_ticket(call, at),
            Answer::Take(_) | Answer::Make(_) => self.note_found(call, available, at),
            _ => self.leave(call),
        }
    }

    // A borrow has to wait behind others: it draws a ticket.
    fn queue_up(&mut self, call: &mut Call, at: u64)
        requires { is_some (step_at call.old.operation) ≡ true }
        ensures accepts { Accepts reports.GoOn self.old self.new call.old call.new }
        ensures rests { Rests at self.old self.new call.old call.new }
        ensures room { lacks_room call.new.operation ≡ true
            → lacks_room call.old.operation ≡ true }
        ensures longer { call.new.longer ≡ call.old.longer }
    {
        if call.operation.tell(Event::Queued) {
            self.draw_ticket(call, at);
        }
    }

    // Reserves the memory for a ticket. Returns whether there is some.
    fn reserve_ticket(&mut self) -> bool
        ensures waiting { self.new.queue.waiting ≡ self.old.queue.waiting }
        ensures most { self.new.queue.most ≡ self.old.queue.most }
        ensures overtakes { self.new.queue.overtakes ≡ self.old.queue.overtakes }
        ensures latest { self.new.queue.latest ≡ self.old.queue.latest }
        ensures rest { self.new ≡ record self.old { queue = self.new.queue } }
    {
        self.waiters.reserve(1).is_ok()
    }

    // Whether a borrow that comes later may ask: there is more than those that wait can take, the oldest of them has not
    // waited for long enough, or it may overtake them. Of those that have, it may not once one of them was woken and found
    // nothing, if there is a limit to overtakes.
    #[inline(always)]
    pub(crate) fn may_come(&self, available: u64, at: u64) -> bool
        ensures { result ≡ may_come_in available at self.now }
    {
        if self.waiters.is_empty() {
            return true;
        }
        if self.holds_back
            && self.waiters.is_limited()
            && self.waiters.counts_overtake(available, at)
        {
            return false;
        }
        self.waiters.may_lend(available, at)
    }

    /// From now on each call that has waited for `millis` milliseconds is overtaken at most `max_overtakes` times, or as often
    /// as the oldest one was, if that is more. Returns this bound.
    pub fn limit_overtakes(&mut self, millis: u64, max_overtakes: u64) -> u64
        ensures bound { result ≡ max max_overtakes (most_overtaken self.old.queue.waiting) }
        ensures rest { self.new ≡ record self.old {
          queue = record self.old.queue { millis = millis; most = result };
        } }
    {
        self.waiters.limit_overtakes(millis, max_overtakes)
    }

    /// Returns whether a borrow may ask: it waits, it found something before, or it may come before those that wait.
    #[inline(always)]
    pub(crate) fn may_ask(&self, call: &Call, available: u64, at: u64) -> bool
        ensures { result ≡ (is_some call.now.ticket || call.now.was_served
            || may_come_in available at self.now) }
    {
        call.ticket.is_some() || call.was_served || self.may_come(available, at)
    }

    // Whether a borrow would be told that its time is over by the settings, and may wait longer.
    fn waits_on(&self, call: &Call, began: u64, at: u64) -> bool
        ensures { result ≡ waits_on self.now at call.now began }
    {
        call.longer > 0
            && !self.is_over(began, at, call.longer)
            && matches!(self.core.due(at, Input::Borrow { began }), Answer::TimedOut)
    }

    // A borrow for which there is no memory ends.
    fn end_for_memory(&mut self, call: &mut Call)
        ensures accepts { Accepts reports.GoOn self.old self.new call.old call.new }
        ensures rests { (at : ℕ) → Rests at self.old self.new call.old call.new }
        ensures room { lacks_room call.new.operation ≡ true
            → lacks_room call.old.operation ≡ true }
        ensures longer { call.new.longer ≡ call.old.longer }
    {
        let _ = call
            .operation
            .tell(Event::NotTaken(StepFailure::OutOfMemory));
        self.leave(call);
    }

    // A borrow asks, and finds something, waits or is over. Returns the answer; `None` if no step was taken.
    #[inline(always)]
    fn look(
        &mut self,
        call: &mut Call,
        caller: u32,
        at: u64,
        began: u64,
        available: u64,
    ) -> Option<Answer>
        requires asked { step_at call.old.operation ≡ Some (inputs.Borrow began) }
        requires room { lacks_room call.old.operation ≡ false }
        requires available { IsAvailable self.old available }
        requires may { is_newcomer call.old ≡ true → may_come_in available at self.old ≡ true }
        ensures moves { TakesFirst (inputs.Borrow began) (is_some result) caller at self.old self.new
            call.old call.new }
        ensures overtakes { CountsOvertakes caller at self.old self.new call.old call.new }
        ensures room { LacksRoomOnlyEmpty self.old.drops self.new.core call.new.operation }
        ensures longer { call.new.longer ≡ call.old.longer }
    {
        let answer = self.step_for(call, caller, at, Input::Borrow { began })?;
        self.note_answer(call, answer, available, at);
        Some(answer)
    }

    /// A borrow asks for an object, or waits behind those that come first. Returns whether it took a step.
    #[inline(never)]
    pub(crate) fn ask(&mut self, call: &mut Call, caller: u32, at: u64, began: u64) -> bool
        requires asked { step_at call.old.operation ≡ Some (inputs.Borrow began) }
        requires room { lacks_room call.old.operation ≡ false }
        ensures moves { TakesFirst (inputs.Borrow began) result caller at self.old self.new call.old
            call.new }
        ensures overtakes { CountsOvertakes caller at self.old self.new call.old call.new }
        ensures room { LacksRoomOnlyEmpty self.old.drops self.new.core call.new.operation }
        ensures longer { call.new.longer ≡ call.old.longer }
    {
        if !self.reserve_ticket() {
            self.end_for_memory(call);
            return false;
        }
        if self.waits_on(call, began, at) {
            self.queue_up(call, at);
            return false;
        }
        let available = self.available_to_newcomer();
        if !self.may_ask(call, available, at) {
            self.queue_up(call, at);
            return false;
        }
        self.look(call, caller, at, began, available).is_some()
    }
}
