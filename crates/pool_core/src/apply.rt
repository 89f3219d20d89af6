//! Applies an answer to the state of a pool: moves the object, and stores or returns its value.
ghost use Rattle.std.specs.Prelude.{◌≡◌, ◌≤◌, Some, None, IsSome, true, false, is_some};
ghost use Rattle.pool_journal.specs.Carrying.{carries};
ghost use Rattle.pool_journal.specs.Entries.{id_of, is_make_answer};
ghost use Rattle.pool_places.specs.PlacesModel.{records_in};
ghost use Rattle.pool_stats.specs.Ended.{MayGrow};
ghost use Rattle.pool_core.specs.Reply.{reply_from_records};

use crate::object_names::{closes, examined, id_in, next_after};
use crate::room::made_as;
use crate::state::{State, StepContext};
use pool_journal::{Answer, Input, Phase};

// The object that an input names.
fn named_by(input: Input) -> u64
    requires { IsSome (id_of input) }
    ensures { id_of input ≡ Some result }
{
    id_in(input).unwrap()
}

// The value that was taken; none was passed in.
fn taken<T>(handed: Option<T>, value: T) -> Option<T>
    requires { handed ≡ None }
    ensures { result ≡ Some value }
{
    match handed {
        None => Some(value),
        Some(_) => unreachable!(),
    }
}

impl<T> State<T> {
    ghost use Rattle.pool_core.specs.Steps.{TakesStep, IsBefore, MovesInputObject, IsEnabled, known_after, cursor_after, keeps_value};
    ghost use Rattle.pool_core.specs.Values.{TransfersValue, StoresValue, SameValues};

    // Moves the object that the input names to the phase of the answer, without a value.
    #[inline(always)]
    fn move_named(&mut self, now: StepContext, input: Input, answer: Answer)
        requires before { IsBefore now.position (records_in self.old.places.objects) self.old.next }
        requires moves { MovesInputObject input answer (records_in self.old.places.objects) }
        requires bare { keeps_value answer ≡ false }
        ensures known { records_in self.new.places.objects
            ≡ known_after now input answer self.old.next (records_in self.old.places.objects) }
        ensures values { SameValues self.old.places.objects self.new.places.objects }
        ensures rest { self.new ≡ record self.old { places = self.new.places } }
    {
        let id = named_by(input);
        match answer {
            Answer::Lent => self.places.set_lent(id, now.at),
            Answer::Noted => self.places.set_used(id, now.at),
            Answer::Check => self.places.set_returned(id),
            Answer::Destroy => self.places.set_phase(id, Phase::Destroying),
            Answer::Freed => self.places.free(id),
            _ => unreachable!(),
        }
    }

    // Applies the answer to the objects and their values.
    #[inline(always)]
    fn move_object(
        &mut self,
        now: StepContext,
        input: Input,
        answer: Answer,
        value: Option<T>,
    ) -> Option<T>
        requires before { IsBefore now.position (records_in self.old.places.objects) self.old.next }
        requires finds { IsEnabled input answer (records_in self.old.places.objects) self.old.next }
        requires carried { is_some value ≡ carries input }
        requires reserved { is_make_answer answer ≡ true → 1 ≤ self.old.places.spare_capacity }
        ensures known { records_in self.new.places.objects
            ≡ known_after now input answer self.old.next (records_in self.old.places.objects) }
        ensures values { TransfersValue answer input self.old.places.objects self.new.places.objects value
            result }
        ensures rest { self.new ≡ record self.old { places = self.new.places } }
    {
        match answer {
            Answer::Take(id) => taken(value, self.places.take_ready(id)),
            Answer::Test(id) => taken(value, self.places.take_value(id, Phase::Testing)),
            Answer::DestroyIdle(id) => taken(value, self.places.take_value(id, Phase::Destroying)),
            Answer::Make(id) => {
                self.places.open(id, made_as(input));
                value
            }
            Answer::Parked => {
                self.places
                    .park(named_by(input), now.position, now.at, value.unwrap());
                None
            }
            Answer::Kept => {
                self.places.put_value(named_by(input), value.unwrap());
                None
            }
            Answer::Lent | Answer::Noted | Answer::Check | Answer::Destroy | Answer::Freed => {
                self.move_named(now, input, answer);
                value
            }
            Answer::Reclaimed(id) => {
                self.places.free(id);
                value
            }
            _ => value,
        }
    }

    // The position after which the next eviction step continues.
    #[inline(always)]
    fn cursor_after(&self, input: Input, answer: Answer) -> Option<u64>
        ensures { result
            ≡ cursor_after answer input (records_in self.now.places.objects) self.now.cursor }
    {
        match examined(answer, input) {
            None => self.cursor,
            Some(id) => match self.places.find(id) {
                None => self.cursor,
                Some(known) => Some(known.parked),
            },
        }
    }

    // If abandoned objects are removed, finds the earliest time at which a lent object was last used.
    fn look_for_abandoned(&mut self, at: u64)
        ensures { self.new ≡ self.old }
    {
        let timeout = self.settings.remove_abandoned_timeout_millis;
        if self.settings.abandoned && timeout >= 0 {
            self.places.refresh_abandoned_bound(at, timeout as u64);
        }
    }

    // Stores the object after which an eviction run continues, and what a removal that found nothing has learned.
    #[inline(always)]
    fn update_hints(&mut self, at: u64, input: Input, answer: Answer)
        ensures { self.new ≡ self.old }
    {
        match (input, answer) {
            (Input::EvictNext, Answer::KeptIdle(id) | Answer::Test(id) | Answer::DestroyIdle(id)) =>
                self.places.start_search_at(id),
            (Input::Reclaim { on }, Answer::Count(0)) if self.should_reclaim(on) => {
                self.look_for_abandoned(at)
            }
            (Input::ReclaimNext, Answer::Nothing) => self.look_for_abandoned(at),
            _ => {}
        }
    }

    /// Applies the answer. If it makes an object, a place is reserved for it. `value` is the value passed in; the
    /// result is the value returned.
    #[inline(always)]
    pub fn apply(
        &mut self,
        now: StepContext,
        input: Input,
        answer: Answer,
        value: Option<T>,
    ) -> Option<T>
        requires before { IsBefore now.position (records_in self.old.places.objects) self.old.next }
        requires due { answer
            ≡ reply_from_records self.old.settings (records_in self.old.places.objects) self.old.next
            self.old.closed self.old.cursor now.at input }
        requires carried { is_some value ≡ carries input }
        requires reserved { is_make_answer answer ≡ true → 1 ≤ self.old.places.spare_capacity }
        requires bounded { MayGrow self.old.ended }
        ensures step { TakesStep now input self.old self.new answer }
        ensures values { TransfersValue answer input self.old.places.objects self.new.places.objects value
            result }
    {
        self.update_hints(now.at, input, answer);
        self.cursor = self.cursor_after(input, answer);
        let out = self.move_object(now, input, answer, value);
        self.next = next_after(self.next, answer);
        self.closed = self.closed || closes(answer, input);
        self.ended = self.ended.after(input, answer);
        out
    }
}
