//! How each call of a pool for C goes on after a report.
ghost use Rattle.std.specs.Prelude.{◌≡◌, ℕ, Some, max, not};
ghost use Rattle.pool_calls.specs.Operations.{is_over};
ghost use Rattle.pool_host.specs.Hosting.{HostedModel};
ghost use Rattle.pool_host.specs.Going.{WentOn};
ghost use Rattle.pool_host.specs.declared.call.Call.{Call};
ghost use Rattle.pool_host.specs.declared.report.Report.{Report};
ghost use Rattle.zuphinka.specs.CallCodes.{report_of};
ghost use Rattle.zuphinka.specs.Calling.{Advanced, AdvancesTo, GoesOn, running_after};
ghost use Rattle.zuphinka.specs.HostCalls.{Keeps};
ghost use Rattle.zuphinka.specs.Opening.{OpenModel};
ghost use Rattle.zuphinka.specs.declared.event.CallEvent.{CallEvent};

use crate::call_effects::CallEffects;
use crate::event::CallEvent;
use crate::host_call::HostCall;
use crate::open_pool::OpenPool;
use crate::status::Status;
use pool_host::{Call, Effects, Report};
use pool_journal::Answer;

// The number of calls in progress after one of them went on.
#[inline(always)]
fn running_after(running: u64, is_running: bool) -> u64
    ensures { result ≡ running_after is_running running }
{
    if is_running {
        running
    } else {
        running.saturating_sub(1)
    }
}

impl OpenPool {
    /// Returns what the host of a call that went on does next, and whether the call is in progress. The host keeps it.
    #[inline(always)]
    pub(crate) fn told(
        &mut self,
        call: &Call,
        made: &Effects,
        host: &mut HostCall,
    ) -> (CallEffects, bool)
        ensures goes { (report : Report) (caller at : ℕ) (old : HostedModel) (before : Call)
            → WentOn report caller (max at old.last) old self.old.hosted before call.now made.now
            → GoesOn caller at report old self.new.hosted before call.now result.0 }
        ensures keeps { Keeps (is_over call.now.operation) self.old.number host.new call.now }
        ensures running { result.1 ≡ not (is_over call.now.operation) }
        ensures rest { self.new ≡ record self.old { hosted = self.new.hosted } }
    {
        let wake = self.hosted.next_wake();
        let told = CallEffects::of(made, &call.operation(), wake);
        (told, host.keep(self.number, call))
    }

    // Returns what the host of a call in progress that went on does next. The host keeps the call.
    #[inline(always)]
    fn advanced(&mut self, call: &Call, made: &Effects, host: &mut HostCall) -> CallEffects
        ensures { (event : CallEvent) (report : Report) (old : OpenModel) (before : Call)
            → report_of event ≡ Some report
            → WentOn report event.caller (max event.at old.hosted.last) old.hosted
            self.old.hosted before call.now made.now → self.old ≡ record old { hosted = self.old.hosted }
            → Advanced event old self.new host.new result before }
    {
        let (told, is_running) = self.told(call, made, host);
        self.running = running_after(self.running, is_running);
        told
    }

    // Goes on with any call after a report.
    #[cold]
    #[inline(never)]
    fn advance_any(
        &mut self,
        host: &mut HostCall,
        event: &CallEvent,
        effects: &mut CallEffects,
    ) -> Status
        ensures { AdvancesTo event.now self.old self.new host.old host.new effects.old effects.new
            result }
    {
        let Some(mut call) = host.find(self.number) else {
            return Status::NoCall;
        };
        let Some(report) = event.report() else {
            return Status::BadRequest;
        };
        match self
            .hosted
            .advance(&mut call, event.caller, event.at, report)
        {
            Some(made) => {
                *effects = self.advanced(&call, &made, host);
                Status::Done
            }
            None => Status::Misfit,
        }
    }

    // Goes on with a call that ends once its factory has done its work, as a rule: a borrow, or a return.
    #[inline(always)]
    fn advance_by<const IS_BORROW: bool>(
        &mut self,
        host: &mut HostCall,
        event: &CallEvent,
        effects: &mut CallEffects,
    ) -> Status
        ensures { AdvancesTo event.now self.old self.new host.old host.new effects.old effects.new
            result }
    {
        let Some(mut call) = host.find(self.number) else {
            return self.advance_any(host, event, effects);
        };
        let Some(report) = event.report() else {
            return self.advance_any(host, event, effects);
        };
        let Report::Succeeded = report else {
            return self.advance_any(host, event, effects);
        };
        let answer = if IS_BORROW {
            Answer::Lent
        } else {
            Answer::Parked
        };
        match self
            .hosted
            .end_by::<IS_BORROW>(&mut call, event.caller, event.at, answer)
        {
            Some(made) => self.advanced(&call, &made, host).tell(effects),
            None => self.advance_any(host, event, effects),
        }
    }

    /// Goes on with a call after a report.
    #[inline(always)]
    pub(crate) fn advance(
        &mut self,
        host: &mut HostCall,
        event: &CallEvent,
        effects: &mut CallEffects,
    ) -> Status
        ensures { AdvancesTo event.now self.old self.new host.old host.new effects.old effects.new
            result }
    {
        match host.usual_end() {
            Some(Answer::Lent) => self.advance_by::<true>(host, event, effects),
            Some(Answer::Parked) => self.advance_by::<false>(host, event, effects),
            _ => self.advance_any(host, event, effects),
        }
    }
}
