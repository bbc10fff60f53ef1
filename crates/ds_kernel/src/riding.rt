//! A ride through a page in a block of instructions: calls in it are answered where they stand, so that
//! the process stays on the processor and no exception is entered.
ghost use Rattle.std.specs.Prelude.{◌≡◌, ◌≢◌, ℕ, ◌+◌, ◌-◌, ◌%◌, ◌<◌, ◌≤◌, ◌^◌, [], length, None, Some, IsNone, IfSome, IfOk, IfErr, true, false, slice_index};
ghost use Rattle.std.specs.List.Sorted.{IsNonDecreasingBy};
ghost use Rattle.ds_policy.specs.InputFacts.{has_time, comes_at};
ghost use Rattle.ds_cp0.specs.declared.exception.ExceptionCode.TheVariants.{SystemCall};
ghost use Rattle.ds_core.specs.Core.{with_tick, trapped};
ghost use Rattle.ds_core.specs.Effect.{step};
ghost use Rattle.ds_ahead.specs.declared.next.Next.TheVariants.{Call, Plain};
ghost use Rattle.ds_ahead.specs.Inner.Ahead.{hardware_of, after_steps, Advances};
ghost use Rattle.ds_ahead.specs.Inner.Ride.{ridden, Rides, IsPlaced, MayGoOn, after_answer};
ghost use Rattle.ds_pagemap.specs.Machine.{State, process_of, first};
ghost use Rattle.ds_pagemap.specs.Calls.{after_put, queue_of};
ghost use Rattle.ds_pagemap_laws.specs.Lawful.{IsLawful};
ghost use Rattle.ds_refinement.specs.Held.{Held};
ghost use Rattle.ds_refinement.specs.Inner.Held.{whole};
ghost use Rattle.ds_refinement.specs.Units.{user_status};
ghost use Rattle.ds_refinement.specs.Inner.Services.{with_none_spent};
ghost use Rattle.ds_monitor.specs.Inner.Consoles as consoles;
ghost use Rattle.ds_monitor.specs.Inner.Kept.{kept_of, kept_after};
ghost use Rattle.ds_monitor.specs.Inner.Sending.{with_sent};
ghost use Rattle.ds_monitor.specs.Inner.Taking.{got, with_taken};
ghost use Rattle.ds_kernel.specs.Inner.Parts.{own_of, with_counts_of};
ghost use Rattle.ds_kernel.specs.Inner.AtOnce.{IsQuietCall, IsAnswered};
ghost use Rattle.ds_kernel.specs.Inner.InBlock.{InBlock, IsBehindCall, riding, at_call};

use crate::at_once::{GET, PUT};
use crate::parts::Parts;
use ds_ahead::{Next, Ride};
use ds_tlb::Lookaside;

impl<L: Lookaside> Parts<L> {
    /// The process that rides goes on after its call, with an answer: its next unit begins a tick
    /// later, and all ticks are counted.
    #[inline(always)]
    fn go_on_in_ride(&mut self, ride: &mut Ride, answer: u32, mark: &mut u32, before: &mut u32)
        requires rides { Rides ride.old self.old.core self.old.bus }
        requires may { MayGoOn ride.old }
        requires some { 0 < ride.old.left }
        requires mark { ride.old.left ≤ mark.old }
        requires early { self.old.monitor.time ≤ 1000000000 }
        ensures core { ridden ride.new self.new.core
            ≡ after_answer (ridden ride.old self.old.core) answer }
        ensures rides { Rides ride.new self.new.core self.new.bus }
        ensures placed { IsPlaced ride.new }
        ensures left { ride.new.left + 1 ≡ ride.old.left }
        ensures mark { mark.new ≡ ride.new.left }
        ensures before { before.new ≡ 0 }
        ensures own { own_of self.new ≡ with_none_spent (own_of self.old) }
        ensures rest { self.new ≡ record (with_counts_of self.new self.old) {
          core = self.new.core;
          monitor = record self.old.monitor {
            time = self.old.monitor.time + (mark.old - ride.new.left);
          };
        } }
    {
        ride.go_after_call(&mut self.core, answer);
        self.count_none();
        self.pass(*mark - ride.left);
        *mark = ride.left;
        *before = 0;
    }

    /// The process that rides puts a character.
    #[inline(always)]
    fn put_character(&mut self, process: u32)
        requires above { 0 < process }
        requires within { process ≤ length self.old.monitor.seats.items }
        requires line { (process_of (kept_of self.old.monitor).state process).line < 4 }
        requires room { consoles.HasRoom self.old.monitor.consoles }
        requires on { self.old.bus.serial.master_scan ≡ true }
        ensures kept { kept_of self.new.monitor ≡ kept_after (λ (m : State). after_put m process
            (slice_index self.old.core.registers.general 4 % 256)) (kept_of self.old.monitor) }
        ensures bus { self.new.bus ≡ with_sent self.old.bus
            (process_of (kept_of self.old.monitor).state process).line }
        ensures rest { self.new ≡ record self.old {
          bus = self.new.bus;
          monitor = record self.old.monitor { consoles = self.new.monitor.consoles };
        } }
    {
        let byte = self.first_argument();
        self.monitor.put(process, byte, &mut self.bus);
    }

    /// The process that rides takes a character, or the answer that there is none.
    #[inline(always)]
    fn take_character(&mut self, process: u32) -> u32
        requires above { 0 < process }
        requires within { process ≤ length self.old.monitor.seats.items }
        requires line { (process_of (kept_of self.old.monitor).state process).line
            < length self.old.monitor.queues.items }
        ensures value { result ≡ got (queue_of (kept_of self.old.monitor).state process) }
        ensures kept { kept_of self.new.monitor
            ≡ kept_after (with_taken process) (kept_of self.old.monitor) }
        ensures rest { self.new ≡ record self.old {
          monitor = record self.old.monitor { queues = self.new.monitor.queues };
        } }
    {
        self.monitor.take_answer(process)
    }

    /// The process that rides has put a character.
    #[inline(always)]
    fn put_in_ride(&mut self, process: u32, ride: &mut Ride, mark: &mut u32, before: &mut u32)
        requires waits { IsQuietCall process (at_call mark.old ride.old.left before.old
            (ridden ride.old self.old.core) self.old) }
        requires first { first self.old.monitor.ready ≡ Some process }
        requires lawful { IsLawful (whole (kept_of self.old.monitor) [] []) }
        requires room { consoles.HasRoom self.old.monitor.consoles }
        requires on { self.old.bus.serial.master_scan ≡ true }
        requires mode { self.old.core.system.status ≡ user_status }
        requires rides { Rides ride.old self.old.core self.old.bus }
        requires may { MayGoOn ride.old }
        requires some { 0 < ride.old.left }
        requires mark { ride.old.left ≤ mark.old }
        requires early { self.old.monitor.time ≤ 1000000000 }
        requires number { slice_index self.old.core.registers.general 2 ≡ 1 }
        ensures answered { IsAnswered (at_call mark.old ride.old.left before.old
            (ridden ride.old self.old.core) self.old) (riding ride.new self.new) }
        ensures rides { Rides ride.new self.new.core self.new.bus }
        ensures placed { IsPlaced ride.new }
        ensures left { ride.new.left + 1 ≡ ride.old.left }
        ensures mark { mark.new ≡ ride.new.left }
        ensures before { before.new ≡ 0 }
        ensures time { self.new.monitor.time
            ≡ self.old.monitor.time + (mark.old - ride.new.left) }
    {
        self.show_line_below_4(process);
        self.monitor.due.show_events_in_order();
        self.put_character(process);
        self.go_on_in_ride(ride, 0, mark, before);
    }

    /// The process that rides has got a character, or the answer that there is none.
    #[inline(always)]
    fn get_in_ride(&mut self, process: u32, ride: &mut Ride, mark: &mut u32, before: &mut u32)
        requires waits { IsQuietCall process (at_call mark.old ride.old.left before.old
            (ridden ride.old self.old.core) self.old) }
        requires first { first self.old.monitor.ready ≡ Some process }
        requires lawful { IsLawful (whole (kept_of self.old.monitor) [] []) }
        requires mode { self.old.core.system.status ≡ user_status }
        requires rides { Rides ride.old self.old.core self.old.bus }
        requires may { MayGoOn ride.old }
        requires some { 0 < ride.old.left }
        requires mark { ride.old.left ≤ mark.old }
        requires early { self.old.monitor.time ≤ 1000000000 }
        requires number { slice_index self.old.core.registers.general 2 ≡ 2 }
        ensures answered { IsAnswered (at_call mark.old ride.old.left before.old
            (ridden ride.old self.old.core) self.old) (riding ride.new self.new) }
        ensures rides { Rides ride.new self.new.core self.new.bus }
        ensures placed { IsPlaced ride.new }
        ensures left { ride.new.left + 1 ≡ ride.old.left }
        ensures mark { mark.new ≡ ride.new.left }
        ensures before { before.new ≡ 0 }
        ensures time { self.new.monitor.time
            ≡ self.old.monitor.time + (mark.old - ride.new.left) }
    {
        self.show_line_below_4(process);
        self.monitor.due.show_events_in_order();
        let answer = self.take_character(process);
        self.go_on_in_ride(ride, answer, mark, before);
    }

    /// The process that rides, if there is one.
    #[inline(always)]
    fn rider(&self) -> Option<u32>
        ensures { result ≡ first self.now.monitor.ready }
    {
        self.monitor.first_ready()
    }

    /// Whether the call that comes next in a ride is a put or a get behind which the ride may go on,
    /// and is then answered.
    #[inline(always)]
    fn answer_in_ride(
        &mut self,
        n: u64,
        end: u64,
        ride: &mut Ride,
        mark: &mut u32,
        before: &mut u32,
    ) -> bool
        requires slots { L.SLOTS ≡ 64 }
        requires wired { L.WIRED ≡ 8 }
        requires block { (first : Held) × InBlock first n end mark.old ride.old.left before.old
            (ridden ride.old self.old.core) self.old }
        requires call { with_tick (trapped (ridden ride.old self.old.core) self.old.bus SystemCall)
            ≡ step (ridden ride.old self.old.core) self.old.bus }
        requires some { 0 < ride.old.left }
        requires rides { Rides ride.old self.old.core self.old.bus }
        ensures afterwards { result ≡ true → (first : Held)
            → InBlock first n end mark.old ride.old.left before.old
            (ridden ride.old self.old.core) self.old
            → IsBehindCall first n end ride.new.left (riding ride.new self.new) }
        ensures rides { Rides ride.new self.new.core self.new.bus }
        ensures placed { result ≡ true → IsPlaced ride.new }
        ensures left { result ≡ true → ride.new.left + 1 ≡ ride.old.left }
        ensures mark { result ≡ true → mark.new ≡ ride.new.left }
        ensures before { result ≡ true → before.new ≡ 0 }
        ensures still { result ≡ false → (self.new ≡ self.old) × (ride.new ≡ ride.old)
            × (mark.new ≡ mark.old) × (before.new ≡ before.old) }
    {
        let Some(process) = self.rider() else {
            return false;
        };
        self.show_whole_processor();
        if !ride.may_go_on() {
            return false;
        }
        match self.core.registers[2] {
            PUT => self.put_in_ride(process, ride, mark, before),
            GET => self.get_in_ride(process, ride, mark, before),
            _ => return false,
        }
        true
    }

    /// Whether the block goes on behind a call, with so many steps left.
    #[inline(always)]
    fn goes_on_after(&self, left: u32) -> bool
        ensures some { result ≡ true → 0 < left }
        ensures room { result ≡ true → consoles.HasRoom self.now.monitor.consoles }
        ensures commands { IsNonDecreasingBy has_time self.now.monitor.due.commands }
        ensures order { IsNonDecreasingBy comes_at self.now.monitor.due.characters }
    {
        self.monitor.due.show_events_in_order();
        left > 0 && self.monitor.consoles.have_room()
    }

    /// A ride where the processor stands, of so many steps at most, if there is one, or what comes
    /// next.
    #[inline(always)]
    fn open_ride(&mut self, left: u32) -> Result<Ride, Next>
        ensures rides { IfOk result (λ ride. Rides ride self.old.core self.old.bus) }
        ensures placed { IfOk result (λ ride. IsPlaced ride) }
        ensures here { IfOk result (λ ride. ridden ride self.old.core ≡ self.old.core) }
        ensures left { IfOk result (λ ride. ride.left ≡ left) }
        ensures next { IfErr result (λ next. next ≢ Call) }
        ensures same { self.new ≡ self.old }
    {
        Ride::open(&self.core, &mut self.bus, left)
    }

    /// Goes on with a ride. What comes next where it ended is answered.
    #[inline(always)]
    fn run_ride(&mut self, ride: &mut Ride) -> Next
        requires rides { Rides ride.old self.old.core self.old.bus }
        requires placed { IsPlaced ride.old }
        ensures rides { Rides ride.new self.new.core self.new.bus }
        ensures within { ride.new.left ≤ ride.old.left }
        ensures some { result ≡ Call → 0 < ride.new.left }
        ensures plain { result ≡ Plain → 0 < ride.new.left }
        ensures calls { result ≡ Call
            → with_tick (trapped (ridden ride.new self.new.core) self.new.bus SystemCall)
            ≡ step (ridden ride.new self.new.core) self.new.bus }
        ensures steps { Advances (ride.old.left - ride.new.left)
            (hardware_of (ridden ride.old self.old.core) self.old.bus)
            (hardware_of (ridden ride.new self.new.core) self.new.bus) }
        ensures words { (k : ℕ) → k < ride.old.left - ride.new.left
            → (after_steps k (hardware_of (ridden ride.old self.old.core) self.old.bus)).core.pc
            < 2 ^ 32 }
        ensures rest { self.new ≡ record self.old { core = self.new.core; bus = self.new.bus } }
    {
        ride.run(&mut self.core, &mut self.bus)
    }

    /// The processor stands where a ride came to.
    #[inline(always)]
    fn close_ride(&mut self, ride: Ride)
        requires slots { L.SLOTS ≡ 64 }
        requires wired { L.WIRED ≡ 8 }
        requires rides { Rides ride self.old.core self.old.bus }
        ensures { self.new ≡ riding ride self.old }
    {
        ride.close(&mut self.core, &mut self.bus);
    }

    /// Goes on with a ride, and answers each call in it where that can be done at once, as long as the
    /// block goes on. What comes next where the ride ended; none where the block is over.
    #[inline(always)]
    fn ride_on(
        &mut self,
        n: u64,
        end: u64,
        ride: &mut Ride,
        mark: &mut u32,
        before: &mut u32,
    ) -> Option<Next>
        requires slots { L.SLOTS ≡ 64 }
        requires wired { L.WIRED ≡ 8 }
        requires block { (first : Held) × InBlock first n end mark.old ride.old.left before.old
            (ridden ride.old self.old.core) self.old }
        requires rides { Rides ride.old self.old.core self.old.bus }
        requires placed { IsPlaced ride.old }
        ensures rides { Rides ride.new self.new.core self.new.bus }
        ensures within { ride.new.left ≤ ride.old.left }
        ensures over { IsNone result → (first : Held)
            → InBlock first n end mark.old ride.old.left before.old
            (ridden ride.old self.old.core) self.old
            → IsBehindCall first n end ride.new.left (riding ride.new self.new) }
        ensures block { IfSome result (λ next. (first : Held)
            → InBlock first n end mark.old ride.old.left before.old
            (ridden ride.old self.old.core) self.old
            → InBlock first n end mark.new ride.new.left before.new
            (ridden ride.new self.new.core) self.new) }
        ensures some { IfSome result (λ next. next ≡ Call → 0 < ride.new.left) }
        ensures plain { IfSome result (λ next. next ≡ Plain → 0 < ride.new.left) }
        ensures calls { IfSome result (λ next. next ≡ Call
            → with_tick (trapped (ridden ride.new self.new.core) self.new.bus SystemCall)
            ≡ step (ridden ride.new self.new.core) self.new.bus) }
    {
        loop {
            let next = self.run_ride(ride);
            let Next::Call = next else {
                return Some(next);
            };
            if !self.answer_in_ride(n, end, ride, mark, before) {
                return Some(next);
            }
            if !self.goes_on_after(ride.left) {
                return None;
            }
        }
    }

    /// A ride where there is one, of `left` steps at most. What comes next where it ended; none where
    /// the block is over.
    #[inline(always)]
    pub(crate) fn ride(
        &mut self,
        n: u64,
        end: u64,
        left: &mut u32,
        mark: &mut u32,
        before: &mut u32,
    ) -> Option<Next>
        requires slots { L.SLOTS ≡ 64 }
        requires wired { L.WIRED ≡ 8 }
        requires any { 0 < left.old }
        requires block { (first : Held) × InBlock first n end mark.old left.old before.old
            self.old.core self.old }
        ensures within { left.new ≤ left.old }
        ensures over { IsNone result → (first : Held)
            → InBlock first n end mark.old left.old before.old self.old.core self.old
            → IsBehindCall first n end left.new self.new }
        ensures block { IfSome result (λ next. (first : Held)
            → InBlock first n end mark.old left.old before.old self.old.core self.old
            → InBlock first n end mark.new left.new before.new self.new.core self.new) }
        ensures some { IfSome result (λ next. next ≡ Call → 0 < left.new) }
        ensures plain { IfSome result (λ next. next ≡ Plain → 0 < left.new) }
        ensures calls { IfSome result (λ next. next ≡ Call
            → with_tick (trapped self.new.core self.new.bus SystemCall)
            ≡ step self.new.core self.new.bus) }
    {
        match self.open_ride(*left) {
            Ok(begun) => {
                let mut ride = begun;
                let next = self.ride_on(n, end, &mut ride, mark, before);
                *left = ride.left;
                self.close_ride(ride);
                next
            }
            Err(next) => Some(next),
        }
    }
}
