//! Begins calls: a function for each kind of call, before its first step.
ghost use Rattle.std.specs.Prelude.{◌≡◌, max, true, false, Some};
ghost use Rattle.std.specs.Option.{is_some};
ghost use Rattle.pool_journal.specs.declared.input.Input.TheVariants as inputs;
ghost use Rattle.pool_journal.specs.declared.input.When.TheVariants as times;
ghost use Rattle.pool_calls.specs.Operations.{began_of, step_at};
ghost use Rattle.pool_host.specs.Hosting.{Begins, detaches};

use crate::call::Call;
use crate::pool::HostedPool;
use pool_calls::{Kind, Operation};

impl HostedPool {
    /// Returns a borrow that begins at time `at` (milliseconds). If a greater time was passed in before, it begins then.
    pub fn borrow(&self, at: u64) -> Call
        ensures begins { Begins self.now.plan result }
        ensures began { began_of result.operation ≡ Some (max at self.now.last) }
        ensures steps { is_some (step_at result.operation) ≡ true }
    {
        let began = at.max(self.last);
        Call::new(Operation::new(self.plan, Kind::Borrow(began)), 0)
    }

    /// Returns a return of the object with this id and token.
    pub fn give_back(&self, id: u64, token: u64) -> Call
        ensures begins { Begins self.now.plan result }
        ensures first { step_at result.operation ≡ Some (inputs.GiveBack id) }
        ensures token { result.token ≡ token }
    {
        Call::new(Operation::new(self.plan, Kind::Return(id)), token)
    }

    /// Returns an invalidation of the object with this id and token, which is destroyed.
    pub fn invalidate(&self, id: u64, token: u64) -> Call
        ensures destroys { detaches result.operation ≡ false }
        ensures begins { Begins self.now.plan result }
        ensures first { step_at result.operation ≡ Some (inputs.Invalidate id) }
        ensures token { result.token ≡ token }
    {
        Call::new(Operation::new(self.plan, Kind::Invalidate(id)), token)
    }

    /// Returns a detachment of the object with this id and token, which the caller keeps.
    pub fn detach(&self, id: u64, token: u64) -> Call
        ensures detaches { detaches result.operation ≡ true }
        ensures begins { Begins self.now.plan result }
        ensures first { step_at result.operation ≡ Some (inputs.Invalidate id) }
        ensures token { result.token ≡ token }
    {
        Call::new(Operation::new(self.plan, Kind::Detach(id)), token)
    }

    /// Returns a note that the object with this id is used.
    pub fn touch(&self, id: u64) -> Call
        ensures begins { Begins self.now.plan result }
        ensures first { step_at result.operation ≡ Some (inputs.Use id) }
    {
        Call::new(Operation::new(self.plan, Kind::Touch(id)), 0)
    }

    /// Returns an addition of one object.
    pub fn add(&self) -> Call
        ensures begins { Begins self.now.plan result }
        ensures first { step_at result.operation ≡ Some inputs.Add }
    {
        Call::new(Operation::new(self.plan, Kind::Add), 0)
    }

    /// Returns a fill up to the least number of idle objects.
    pub fn fill(&self) -> Call
        ensures begins { Begins self.now.plan result }
        ensures first { step_at result.operation ≡ Some inputs.Fill }
    {
        Call::new(Operation::new(self.plan, Kind::Fill), 0)
    }

    /// Returns an eviction run.
    pub fn evict(&self) -> Call
        ensures begins { Begins self.now.plan result }
        ensures first { step_at result.operation ≡ Some inputs.Evict }
    {
        Call::new(Operation::new(self.plan, Kind::Evict), 0)
    }

    /// Returns a removal of abandoned objects, for maintenance.
    pub fn reclaim(&self) -> Call
        ensures begins { Begins self.now.plan result }
        ensures first { step_at result.operation ≡ Some (inputs.Reclaim times.Maintain) }
    {
        Call::new(Operation::new(self.plan, Kind::Reclaim), 0)
    }

    /// Returns a clear: the idle objects are destroyed.
    pub fn clear(&self) -> Call
        ensures begins { Begins self.now.plan result }
        ensures first { step_at result.operation ≡ Some inputs.Clear }
    {
        Call::new(Operation::new(self.plan, Kind::Clear), 0)
    }

    /// Returns a close: the pool lends no more, and the idle objects are destroyed.
    pub fn close(&self) -> Call
        ensures begins { Begins self.now.plan result }
        ensures first { step_at result.operation ≡ Some inputs.Close }
    {
        Call::new(Operation::new(self.plan, Kind::Close), 0)
    }
}
