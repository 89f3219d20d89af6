//! How each call of a pool for C begins.
ghost use Rattle.std.specs.Prelude.{◌≡◌, max, Some};
ghost use Rattle.pool_host.specs.Hosting.{Begins};
ghost use Rattle.pool_host.specs.Going.{WentOn};
ghost use Rattle.pool_host.specs.declared.report.Report.TheVariants as reports;
ghost use Rattle.zuphinka.specs.CallCodes.{kind_at};
ghost use Rattle.zuphinka.specs.Calling.{Began, BeginsTo, IsKind};
ghost use Rattle.zuphinka.specs.Opening.{OpenModel};

use crate::call_effects::CallEffects;
use crate::host_call::HostCall;
use crate::open_pool::{OpenPool, running_with};
use crate::starting::{CallStart, Kind};
use crate::status::Status;
use pool_host::{Call, Effects, Report};

impl OpenPool {
    // Begins a call of this kind.
    #[cold]
    #[inline(never)]
    fn begin_as(
        &mut self,
        start: &CallStart,
        kind: Kind,
        host: &mut HostCall,
        effects: &mut CallEffects,
    ) -> Status
        requires { kind_at start.now.kind ≡ Some kind }
        ensures { BeginsTo start.now self.old self.new host.old host.new effects.old effects.new
            result }
    {
        let mut call = start.call(&self.hosted, kind);
        let (caller, at) = (start.caller, start.at);
        match self.hosted.advance(&mut call, caller, at, Report::GoOn) {
            Some(made) => {
                *effects = self.begun(&call, &made, host);
                Status::Done
            }
            None => unreachable!(),
        }
    }

    // Returns what the host of a call that has begun does next. The host keeps the call.
    #[inline(always)]
    fn begun(&mut self, call: &Call, made: &Effects, host: &mut HostCall) -> CallEffects
        ensures { (start : CallStart) (old : OpenModel) (first : Call) (kind : Kind)
            → Begins old.hosted.plan first → IsKind start old.hosted.last kind first
            → WentOn reports.GoOn start.caller (max start.at old.hosted.last) old.hosted
            self.old.hosted first call.now made.now → self.old ≡ record old { hosted = self.old.hosted }
            → Began start old self.new host.new result kind }
    {
        let (told, is_running) = self.told(call, made, host);
        self.running = running_with(self.running, is_running);
        told
    }

    // Begins a borrow whose host works on an idle object, as a rule.
    #[inline(always)]
    fn begin_taken(
        &mut self,
        start: &CallStart,
        host: &mut HostCall,
        effects: &mut CallEffects,
    ) -> Status
        requires { kind_at start.now.kind ≡ Some Kind.Borrow }
        ensures { BeginsTo start.now self.old self.new host.old host.new effects.old effects.new
            result }
    {
        let mut call = start.call(&self.hosted, Kind::Borrow);
        match self.hosted.begin_taken(&mut call, start.caller, start.at) {
            Some(made) => {
                *effects = self.begun(&call, &made, host);
                Status::Done
            }
            None => self.begin_as(start, Kind::Borrow, host, effects),
        }
    }

    // Begins a return whose host works on its object, as a rule.
    #[inline(always)]
    fn begin_checked(
        &mut self,
        start: &CallStart,
        host: &mut HostCall,
        effects: &mut CallEffects,
    ) -> Status
        requires { kind_at start.now.kind ≡ Some Kind.Return }
        ensures { BeginsTo start.now self.old self.new host.old host.new effects.old effects.new
            result }
    {
        let mut call = start.call(&self.hosted, Kind::Return);
        match self.hosted.begin_checked(&mut call, start.caller, start.at) {
            Some(made) => {
                *effects = self.begun(&call, &made, host);
                Status::Done
            }
            None => self.begin_as(start, Kind::Return, host, effects),
        }
    }

    // Begins a borrow whose host does nothing for an idle object. It is lent one at once, as a rule.
    #[inline(always)]
    fn begin_lent(
        &mut self,
        start: &CallStart,
        host: &mut HostCall,
        effects: &mut CallEffects,
    ) -> Status
        requires { kind_at start.now.kind ≡ Some Kind.Borrow }
        ensures { BeginsTo start.now self.old self.new host.old host.new effects.old effects.new
            result }
    {
        let mut call = start.call(&self.hosted, Kind::Borrow);
        match self.hosted.begin_lent(&mut call, start.caller, start.at) {
            Some(made) => self.begun(&call, &made, host).tell(effects),
            None => self.begin_as(start, Kind::Borrow, host, effects),
        }
    }

    // Begins a return whose host does nothing for its object. That is idle at once, as a rule.
    #[inline(always)]
    fn begin_parked(
        &mut self,
        start: &CallStart,
        host: &mut HostCall,
        effects: &mut CallEffects,
    ) -> Status
        requires { kind_at start.now.kind ≡ Some Kind.Return }
        ensures { BeginsTo start.now self.old self.new host.old host.new effects.old effects.new
            result }
    {
        let mut call = start.call(&self.hosted, Kind::Return);
        match self.hosted.begin_parked(&mut call, start.caller, start.at) {
            Some(made) => self.begun(&call, &made, host).tell(effects),
            None => self.begin_as(start, Kind::Return, host, effects),
        }
    }

    // Begins a borrow in the usual course of its pool.
    #[inline(always)]
    fn begin_borrow(
        &mut self,
        start: &CallStart,
        host: &mut HostCall,
        effects: &mut CallEffects,
    ) -> Status
        requires { kind_at start.now.kind ≡ Some Kind.Borrow }
        ensures { BeginsTo start.now self.old self.new host.old host.new effects.old effects.new
            result }
    {
        if self.hosted.asks_at_borrow() {
            self.begin_taken(start, host, effects)
        } else {
            self.begin_lent(start, host, effects)
        }
    }

    // Begins a return in the usual course of its pool.
    #[inline(always)]
    fn begin_return(
        &mut self,
        start: &CallStart,
        host: &mut HostCall,
        effects: &mut CallEffects,
    ) -> Status
        requires { kind_at start.now.kind ≡ Some Kind.Return }
        ensures { BeginsTo start.now self.old self.new host.old host.new effects.old effects.new
            result }
    {
        if self.hosted.asks_at_return() {
            self.begin_checked(start, host, effects)
        } else {
            self.begin_parked(start, host, effects)
        }
    }

    /// Begins a call.
    #[inline(always)]
    pub(crate) fn begin(
        &mut self,
        start: &CallStart,
        host: &mut HostCall,
        effects: &mut CallEffects,
    ) -> Status
        ensures { BeginsTo start.now self.old self.new host.old host.new effects.old effects.new
            result }
    {
        match start.kind() {
            Some(Kind::Borrow) => self.begin_borrow(start, host, effects),
            Some(Kind::Return) => self.begin_return(start, host, effects),
            Some(kind) => self.begin_as(start, kind, host, effects),
            None => Status::BadRequest,
        }
    }
}
