//! The tickets of the borrows that wait, in the order of arrival: which are signalled, and whom a borrow may overtake.
ghost use Rattle.std.specs.Prelude.{◌≡◌, ◌==◌, ◌≤◌, ◌<◌, ◌+◌, ◌-◌, ◌^◌, ◌++◌, ◌∷◌, [], true, false, max, min, if◌then◌else◌, map, length, slice_get, IfOk, IfSome, IfNone, OnOk, OnErr, IsOk};
ghost use Rattle.std.specs.Option.{option_map};
ghost use Rattle.std.specs.List.{AllByRecursion};
ghost use Rattle.sorted_index.specs.Pairs.{first_of};
ghost use Rattle.pool_calls.specs.Waiting as spec;
ghost use Rattle.pool_calls.specs.Waiting.{is_in, without, signalled_of, newest, most_overtaken, overtaken_once, IsByArrival, IsFair, IsSettled, Signals};

use sorted_index::{Pair, SortedQueue};
use std::alloc::{AllocError, Global};
use std::marker::Model;

/// The smallest number of overtakes that counts as any number: it fits into a signed number of 32 bits, as hosts have.
const UNLIMITED: u64 = 2_147_483_647;

/// The tickets of the borrows that wait, in the order of arrival.
///
/// The first of them are signalled: one for each idle object and each free place. A host wakes the borrows whose
/// tickets `wake_next` returns. A borrow that is woken looks only if its ticket is still signalled; otherwise it sleeps
/// on, at its position.
///
/// A ticket is found by a binary search, and memory is kept. So each call takes at most logarithmic time, on average
/// over all calls, and `wait` allocates nothing within the memory that was reserved.
#[derive(Drop)]
pub struct Waiters {
    // The tickets, each with the number of overtakes before it.
    signalled: SortedQueue,
    asleep: SortedQueue,
    // All tickets, each with the time at which it began to wait.
    times: SortedQueue,
    // The greatest of these times so far.
    latest: u64,
    // The number of tickets that were drawn, which is the next one.
    drawn: u64,
    overtakes: u64,
    millis: u64,
    max_overtakes: u64,
}

impl Model for Waiters {
    ghost use Rattle.std.specs.Prelude.{◌++◌, ◌-◌, length, map, min};
    ghost use Rattle.pool_calls.specs.Waiting.{Queue};

    ghost Value = { Queue };

    ghost use Rattle.pool_calls.specs.Order.{waiter_of, IsQueue};

    ghost view = { λ a. record {
      waiting = map (waiter_of a.overtakes a.times.pairs) (a.signalled.pairs ++ a.asleep.pairs);
      signalled = length a.signalled.pairs;
      spare = min (min a.signalled.capacity a.asleep.capacity) a.times.capacity - length (a.signalled.pairs ++ a.asleep.pairs);
      latest = a.latest;
      drawn = a.drawn;
      overtakes = a.overtakes;
      millis = a.millis;
      most = a.max_overtakes;
    } };

    ghost invariant = { λ a. IsQueue a.signalled a.asleep a.times a.latest a.drawn a.overtakes a.max_overtakes };
}

// The first pair of two queues.
fn oldest(signalled: &SortedQueue, asleep: &SortedQueue) -> Option<Pair>
    ensures { result ≡ first_of (signalled.now.pairs ++ asleep.now.pairs) }
{
    match signalled.first() {
        Some(pair) => Some(pair),
        None => asleep.first(),
    }
}

impl Waiters {
    /// Returns waiters without a ticket. A ticket that has waited for `millis` milliseconds is overtaken at most
    /// `max_overtakes` times from then on; at 0 never.
    pub fn new(alloc: Global, millis: u64, max_overtakes: u64) -> Waiters
        ensures waiting { result.waiting ≡ [] }
        ensures signalled { result.signalled ≡ 0 }
        ensures latest { result.latest ≡ 0 }
        ensures millis { result.millis ≡ millis }
        ensures most { result.most ≡ max_overtakes }
    {
        Waiters {
            signalled: SortedQueue::new(alloc),
            asleep: SortedQueue::new(alloc),
            times: SortedQueue::new(alloc),
            latest: 0,
            drawn: 0,
            overtakes: 0,
            millis,
            max_overtakes,
        }
    }

    /// Returns the number of tickets that wait.
    pub fn len(&self) -> usize
        ensures value { result ≡ length self.now.waiting }
        ensures arrival { IsByArrival self.now.waiting }
        ensures fair { IsFair self.now }
        ensures within { self.now.signalled ≤ length self.now.waiting }
        ensures few { length self.now.waiting + self.now.spare < 2 ^ 63 }
    {
        self.times.len()
    }

    /// Returns whether no ticket waits.
    #[inline(always)]
    pub fn is_empty(&self) -> bool
        ensures value { result ≡ (length self.now.waiting == 0) }
        ensures signalled { result ≡ true → self.now.signalled ≡ 0 }
    {
        self.times.is_empty()
    }

    /// Reserves memory for `count` more tickets. If there is no memory, nothing changes.
    ///
    /// # Errors
    ///
    /// The allocation failed.
    pub fn reserve(&mut self, count: usize) -> Result<(), AllocError>
        ensures ok { OnOk result (count ≤ self.new.spare) }
        ensures full { OnErr result (self.old.spare < count) }
        ensures spare { self.old.spare ≤ self.new.spare }
        ensures rest { self.new ≡ record self.old { spare = self.new.spare } }
    {
        let all = self.len().checked_add(count).ok_or(AllocError)?;
        self.signalled.reserve(all)?;
        self.asleep.reserve(all)?;
        self.times.reserve(all)
    }

    /// Returns whether a ticket waits and is signalled.
    pub fn is_signalled(&self, ticket: u64) -> bool
        ensures { result ≡ is_in ticket (signalled_of self.now) }
    {
        self.signalled.contains(ticket)
    }

    /// Draws a ticket, which waits behind all others, not signalled. It begins to wait at time `at` (milliseconds), or
    /// when the latest one before it did, if that is later.
    ///
    /// # Errors
    ///
    /// There is no memory, or 2^64 - 1 tickets were drawn. Nothing changes.
    pub fn wait(&mut self, at: u64) -> Result<u64, AllocError>
        ensures waits { IfOk result (λ ticket. self.new.waiting
            ≡ self.old.waiting ++ newest ticket (max at self.old.latest) ∷ []) }
        ensures latest { IfOk result (λ ticket. self.new.latest ≡ max at self.old.latest) }
        ensures next { IfOk result (λ ticket. (ticket ≡ self.old.drawn)
            × (self.new.drawn ≡ self.old.drawn + 1)) }
        ensures fresh { IfOk result (λ ticket. is_in ticket self.old.waiting ≡ false) }
        ensures unchanged { OnErr result ((self.new.waiting ≡ self.old.waiting)
            × (self.new.latest ≡ self.old.latest) × (self.new.drawn ≡ self.old.drawn)) }
        ensures reserved { 1 ≤ self.old.spare → self.old.drawn < 2 ^ 64 - 1 → IsOk result }
        ensures spare { self.old.spare ≤ self.new.spare + 1 }
        ensures rest { self.new ≡ record self.old {
          waiting = self.new.waiting;
          spare = self.new.spare;
          latest = self.new.latest;
          drawn = self.new.drawn;
        } }
    {
        let next = self.drawn.checked_add(1).ok_or(AllocError)?;
        self.reserve(1)?;
        let ticket = self.drawn;
        let since = at.max(self.latest);
        self.asleep.push_back(ticket, self.overtakes as usize);
        self.times.push_back(ticket, since as usize);
        self.latest = since;
        self.drawn = next;
        Ok(ticket)
    }

    /// Removes a ticket: its borrow found something, or it waits no longer. Returns whether it waited. If it was
    /// signalled, `wake_next` signals another one for what it leaves.
    pub fn leave(&mut self, ticket: u64) -> bool
        ensures waited { result ≡ is_in ticket self.old.waiting }
        ensures waiting { self.new.waiting ≡ without ticket self.old.waiting }
        ensures signalled { self.new.signalled ≡ length (without ticket (signalled_of self.old)) }
        ensures spare { self.old.spare ≤ self.new.spare }
        ensures rest { self.new ≡ record self.old {
          waiting = self.new.waiting;
          signalled = self.new.signalled;
          spare = self.new.spare;
        } }
    {
        let was_signalled = self.signalled.remove(ticket);
        let was_asleep = self.asleep.remove(ticket);
        let _ = self.times.remove(ticket);
        was_signalled | was_asleep
    }

    // The youngest of the signalled tickets sleeps again.
    fn calm_youngest(&mut self)
        requires { 0 < self.old.signalled }
        ensures { self.new ≡ record self.old { signalled = self.old.signalled - 1 } }
    {
        match self.signalled.pop_back() {
            Some(pair) => self.asleep.push_front(pair.id, pair.key),
            None => unreachable!(),
        }
    }

    // Only as many tickets stay signalled as there are objects and places.
    fn calm(&mut self, available: u64)
        ensures { self.new ≡ record self.old { signalled = min available self.old.signalled } }
    {
        while self.signalled.len() as u64 > available {
            self.calm_youngest();
        }
    }

    // Signals the oldest ticket that sleeps.
    fn signal_oldest(&mut self) -> Option<u64>
        ensures oldest { result ≡ option_map (λ w. w.ticket)
            (slice_get self.old.waiting self.old.signalled) }
        ensures some { IfSome result (λ _. self.new
            ≡ record self.old { signalled = self.old.signalled + 1 }) }
        ensures none { IfNone result ((self.new ≡ self.old)
            × (self.old.signalled ≡ length self.old.waiting)) }
    {
        let pair = self.asleep.pop_front()?;
        self.signalled.push_back(pair.id, pair.key);
        Some(pair.id)
    }

    /// Returns the next ticket to wake, while `available` idle objects and free places are there: the oldest that
    /// sleeps, which is signalled from now on. Call it until it returns `None`, after each step of the pool and each
    /// change of the waiters. Then as many tickets are signalled as objects and places are available, or all that wait.
    ///
    /// If fewer are available than before, the youngest of the signalled tickets are signalled no longer. Of a pool
    /// that is closed pass 2^64 - 1: all tickets are signalled.
    pub fn wake_next(&mut self, available: u64) -> Option<u64>
        ensures signals { IfSome result (Signals available self.old self.new) }
        ensures settled { IfNone result (IsSettled available self.new) }
        ensures rest { self.new ≡ record self.old { signalled = self.new.signalled } }
    {
        self.calm(available);
        if self.signalled.len() as u64 >= available {
            return None;
        }
        self.signal_oldest()
    }

    // Whether the oldest ticket has waited for `millis` milliseconds.
    fn is_due(&self, at: u64) -> bool
        ensures { result ≡ spec.is_due self.now.millis at self.now.waiting }
    {
        match self.times.first() {
            Some(oldest) => at.saturating_sub(oldest.key as u64) >= self.millis,
            None => false,
        }
    }

    /// Returns whether it counts as an overtake if a borrow without a ticket takes one of `available` idle objects and
    /// free places: the oldest ticket has waited for `millis` milliseconds at time `at`, and no more are there than
    /// tickets wait.
    pub fn counts_overtake(&self, available: u64, at: u64) -> bool
        ensures { result ≡ spec.counts_overtake available at self.now }
    {
        self.is_due(at) && self.len() as u64 >= available
    }

    // Whether the tickets may be overtaken once more.
    fn can_pass(&self) -> bool
        ensures { result ≡ spec.can_pass self.now.overtakes self.now.most self.now.waiting }
    {
        match oldest(&self.signalled, &self.asleep) {
            None => true,
            Some(pair) => {
                self.overtakes - (pair.key as u64) < self.max_overtakes && self.overtakes < u64::MAX
            }
        }
    }

    /// Returns whether a borrow without a ticket may look for an object at time `at`, while `available` idle objects and
    /// free places are there: if more are there than tickets wait, if the oldest ticket has not waited for `millis`
    /// milliseconds, or if it was overtaken fewer than `max_overtakes` times since an older one or itself had. Otherwise
    /// it waits behind the others.
    pub fn may_lend(&self, available: u64, at: u64) -> bool
        ensures { result ≡ spec.may_lend available at self.now }
    {
        !self.counts_overtake(available, at) || self.can_pass()
    }

    /// Returns whether there is a limit to how often a ticket is overtaken: `max_overtakes` below 2^31 - 1.
    pub fn is_limited(&self) -> bool
        ensures { result ≡ spec.is_limited self.now }
    {
        self.max_overtakes < UNLIMITED
    }

    /// Notes that a borrow without a ticket took one of `available` idle objects and free places at time `at`. It
    /// overtook all tickets that wait, if that counts.
    pub fn note_lent(&mut self, available: u64, at: u64)
        requires { spec.may_lend available at self.old ≡ true }
        ensures waiting { self.new.waiting ≡ (if spec.counts_overtake available at self.old
            then map overtaken_once self.old.waiting else self.old.waiting) }
        ensures rest { self.new ≡ record self.old {
          waiting = self.new.waiting;
          overtakes = self.new.overtakes;
        } }
    {
        if self.counts_overtake(available, at) {
            self.overtakes += 1;
        }
    }

    /// From now on each ticket that has waited for `millis` milliseconds is overtaken at most `max_overtakes` times, or as
    /// often as the oldest one was, if that is more. Returns this bound.
    pub fn limit_overtakes(&mut self, millis: u64, max_overtakes: u64) -> u64
        ensures bound { result ≡ max max_overtakes (most_overtaken self.old.waiting) }
        ensures rest { self.new ≡ record self.old { millis = millis; most = result } }
    {
        let overtaken = match oldest(&self.signalled, &self.asleep) {
            None => 0,
            Some(pair) => self.overtakes - pair.key as u64,
        };
        self.millis = millis;
        self.max_overtakes = max_overtakes.max(overtaken);
        self.max_overtakes
    }
}
