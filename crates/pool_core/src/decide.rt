//! Decides the answer to an input, from the state of a pool and its settings.
ghost use Rattle.std.specs.Prelude.{◌≡◌, length};
ghost use Rattle.std.specs.Option.{option_map};
ghost use Rattle.pool_journal.specs.Queue.{record_in, queue_length, idle_queue, first_of};
ghost use Rattle.pool_places.specs.PlacesModel.{records_in};
ghost use Rattle.pool_core.specs.Reply.{is_below, borrow_candidate, examined, abandoned_objects, is_scarce, reclaims, has_min_idle, has_room, tests_per_run, lent_reply, add_reply, evict_next_reply, reclaim_next_reply, clear_next_reply};
ghost use Rattle.pool_core.specs.Reply.{phase_of, new_of, reply_from_records};

use crate::answers::{
    add_answer, added_answer, borrow_answer, destroyed_answer, evict_next_answer, lent_answer,
    park_answer, ready_answer, tested_answer,
};
use crate::limits::{is_at_least, is_below_limit, is_near_limit, number_of_tests};
use crate::state::State;
use pool_journal::{Answer, Cause, Input, Phase, Record, When};

const CLOSED: Answer = Answer::Refused(Cause::Closed);

impl<T> State<T> {
    // The phase of an object, and whether nothing has happened to it since it was made.
    #[inline(always)]
    fn phase_and_is_new(&self, id: u64) -> (Phase, bool)
        ensures phase { result.0 ≡ phase_of (record_in (records_in self.now.places.objects) id) }
        ensures is_new { result.1 ≡ new_of (record_in (records_in self.now.places.objects) id) }
    {
        match self.places.find(id) {
            Some(known) => (known.phase, known.is_new),
            None => (Phase::Absent, false),
        }
    }

    // The object that a borrow takes.
    #[inline(always)]
    fn borrow_candidate(&self) -> Option<u64>
        ensures { result ≡ borrow_candidate self.now.settings.lifo
            (records_in self.now.places.objects) }
    {
        if self.settings.lifo {
            self.places.last_idle()
        } else {
            self.places.first_idle()
        }
    }

    // Whether there is a place for one more object.
    fn has_free_place(&self) -> bool
        ensures { result
            ≡ is_below self.now.settings.max_total (length (records_in self.now.places.objects)) }
    {
        is_below_limit(self.settings.max_total, self.places.present() as u64)
    }

    /// Returns whether the queue takes one more object.
    #[inline(always)]
    pub fn has_idle_room(&self) -> bool
        ensures { result
            ≡ has_room self.now.settings self.now.closed (records_in self.now.places.objects) }
    {
        !self.closed && is_below_limit(self.settings.max_idle, self.places.queued() as u64)
    }

    // Whether the objects in the queue, or on their way to it, are at least the number to keep.
    fn is_filled(&self) -> bool
        ensures { result ≡ has_min_idle self.now.settings (records_in self.now.places.objects) }
    {
        let counts = self.places.counts();
        is_at_least(
            counts.queue + counts.adding,
            self.settings.effective_min_idle(),
        )
    }

    // The id of the idle object that is examined next.
    fn examined_id(&self) -> Option<u64>
        ensures { result
            ≡ option_map (λ r. r.id) (examined self.now.cursor (records_in self.now.places.objects)) }
    {
        match self.cursor {
            Some(parked) => match self.places.next_idle_after(parked) {
                Some(id) => Some(id),
                None => self.places.first_idle(),
            },
            None => self.places.first_idle(),
        }
    }

    // The idle object that is examined next.
    fn examine(&self) -> Option<Record>
        ensures { result ≡ examined self.now.cursor (records_in self.now.places.objects) }
    {
        let id = self.examined_id()?;
        self.places.find(id)
    }

    // How many idle objects there are.
    fn count_idle(&self) -> u64
        ensures { result ≡ length (idle_queue (records_in self.now.places.objects)) }
    {
        self.places.counts().idle
    }

    // Whether fewer than two objects are in the queue, and the others number more than `max_total` less 3 (always, if
    // it is negative).
    fn is_scarce(&self) -> bool
        ensures { result ≡ is_scarce self.now.settings (records_in self.now.places.objects) }
    {
        let counts = self.places.counts();
        counts.queue < 2 && is_near_limit(self.settings.max_total, counts.present - counts.queue)
    }

    /// Returns whether a removal of abandoned objects reclaims any.
    pub fn should_reclaim(&self, on: When) -> bool
        ensures { result
            ≡ reclaims self.now.settings self.now.closed (records_in self.now.places.objects) on }
    {
        let settings = &self.settings;
        match on {
            When::Maintain => settings.abandoned && settings.remove_abandoned_on_maintenance,
            When::Borrow => {
                settings.abandoned
                    && settings.remove_abandoned_on_borrow
                    && !self.closed
                    && self.is_scarce()
            }
        }
    }

    // How many lent objects were not used for the timeout, at time `at` (milliseconds).
    fn count_forgotten(&self, at: u64) -> u64
        ensures { result ≡
            length (abandoned_objects self.now.settings at (records_in self.now.places.objects)) }
    {
        match u64::try_from(self.settings.remove_abandoned_timeout_millis) {
            Ok(timeout) => self.places.count_overdue(at, timeout),
            Err(_) => 0,
        }
    }

    // The answer that reclaims the first of them, if any.
    fn reclaim_next(&self, at: u64) -> Answer
        ensures { result ≡ reclaim_next_reply self.now.settings.abandoned
            (first_of (abandoned_objects self.now.settings at (records_in self.now.places.objects))) }
    {
        let timeout = self.settings.remove_abandoned_timeout_millis;
        if !self.settings.abandoned || timeout < 0 {
            return Answer::Nothing;
        }
        match self.places.least_overdue(at, timeout as u64) {
            Some(id) => Answer::Reclaimed(id),
            None => Answer::Nothing,
        }
    }

    // The answer that destroys the idle object that was parked first, if any.
    fn clear_next(&self) -> Answer
        ensures { result
            ≡ clear_next_reply (first_of (idle_queue (records_in self.now.places.objects))) }
    {
        match self.places.first_idle() {
            Some(id) => Answer::DestroyIdle(id),
            None => Answer::Nothing,
        }
    }

    // The answer to a call for an object: `answer` if it is lent.
    #[inline(always)]
    fn answer_if_lent(&self, id: u64, answer: Answer) -> Answer
        ensures { result ≡ lent_reply self.now.settings.abandoned
            (phase_of (record_in (records_in self.now.places.objects) id)) answer }
    {
        lent_answer(self.settings.abandoned, self.phase_and_is_new(id).0, answer)
    }

    // The answer, at time `at`, to a borrow that began at time `began` (milliseconds).
    #[inline(always)]
    fn decide_borrow(&self, at: u64, began: u64) -> Answer
        ensures { result ≡ reply_from_records self.now.settings (records_in self.now.places.objects)
            self.now.next self.now.closed self.now.cursor at (Input.Borrow began) }
    {
        if self.closed {
            return CLOSED;
        }
        borrow_answer(
            &self.settings,
            self.borrow_candidate(),
            self.has_free_place(),
            self.next,
            at.saturating_sub(began),
        )
    }

    // The answer if an object is to be made for the queue, whether or not a place is free.
    fn add_one(&self) -> Answer
        ensures { result ≡ add_reply (is_below self.now.settings.max_total
            (length (records_in self.now.places.objects))) self.now.next }
    {
        add_answer(self.has_free_place(), self.next)
    }

    // How many tests an eviction run makes.
    fn count_tests(&self) -> u64
        ensures { result ≡ tests_per_run self.now.settings.num_tests_per_eviction_run
            (queue_length (records_in self.now.places.objects)) }
    {
        let queue = self.places.queued() as u64;
        number_of_tests(self.settings.num_tests_per_eviction_run, queue)
    }

    // The answer to the next step of an eviction run.
    fn evict_next(&self, at: u64) -> Answer
        ensures { result ≡ evict_next_reply self.now.settings
            (queue_length (records_in self.now.places.objects)) at
            (examined self.now.cursor (records_in self.now.places.objects)) }
    {
        let queue = self.places.queued() as u64;
        evict_next_answer(&self.settings, queue, at, self.examine())
    }

    /// Returns the expected answer to `input` at time `at` (milliseconds).
    #[inline(always)]
    pub fn decide(&self, at: u64, input: Input) -> Answer
        ensures { result ≡ reply_from_records self.now.settings (records_in self.now.places.objects)
            self.now.next self.now.closed self.now.cursor at input }
    {
        match input {
            Input::Borrow { began } => self.decide_borrow(at, began),
            Input::Ready { id, outcome } => {
                let (phase, is_new) = self.phase_and_is_new(id);
                ready_answer(phase, is_new, outcome)
            }
            Input::GiveBack { id } => self.answer_if_lent(id, Answer::Check),
            Input::Park { id, outcome } => {
                park_answer(self.phase_and_is_new(id).0, outcome, self.has_idle_room())
            }
            Input::Invalidate { id } => self.answer_if_lent(id, Answer::Destroy),
            Input::Use { id } => self.answer_if_lent(id, Answer::Noted),
            Input::Add | Input::Evict if self.closed => CLOSED,
            Input::Add => self.add_one(),
            Input::Fill if self.closed || self.is_filled() => Answer::Enough,
            Input::Fill => self.add_one(),
            Input::Added { id, outcome } => {
                added_answer(self.phase_and_is_new(id).0, outcome, !self.closed)
            }
            Input::Evict => Answer::Count(self.count_tests()),
            Input::EvictNext => self.evict_next(at),
            Input::Tested { id, outcome } => {
                tested_answer(self.phase_and_is_new(id).0, outcome, !self.closed)
            }
            Input::Reclaim { on } if self.should_reclaim(on) => {
                Answer::Count(self.count_forgotten(at))
            }
            Input::Reclaim { on: _ } => Answer::Count(0),
            Input::ReclaimNext => self.reclaim_next(at),
            Input::Close if self.closed => Answer::Nothing,
            Input::Clear | Input::Close => Answer::Count(self.count_idle()),
            Input::ClearNext => self.clear_next(),
            Input::Destroyed { id } => destroyed_answer(self.phase_and_is_new(id).0),
        }
    }
}
