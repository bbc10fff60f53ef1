//! Calls that are answered at once: the process stays on the processor, and the boundary after its
//! turn, which has nothing to do, is over with it.
ghost use Rattle.std.specs.Prelude.{◌≡◌, ◌+◌, ◌%◌, ◌<◌, ◌≤◌, ◌≢◌, None, [], true, false, slice_index};
ghost use Rattle.ds_cp0.specs.System.{is_user};
ghost use Rattle.ds_ahead.specs.Inner.Ahead.{owed_tick};
ghost use Rattle.ds_monitor.specs.Inner.Room.{HasLogRoom};
ghost use Rattle.ds_kernel.specs.Inner.Good.{IsBusy, IsGood};
ghost use Rattle.ds_kernel.specs.Inner.AtOnce.{IsCalled, IsQuietCall, IsAnswered, MayGoOn};

use crate::parts::Parts;
use ds_tlb::Lookaside;

/// The number of the call that puts a character.
pub(crate) const PUT: u32 = 1;

/// The number of the call that gets one.
pub(crate) const GET: u32 = 2;

impl<L: Lookaside> Parts<L> {
    /// The first argument of a call, as a byte.
    #[inline(always)]
    pub(crate) fn first_argument(&self) -> u8
        ensures { result ≡ slice_index self.now.core.registers.general 4 % 256 }
    {
        (self.core.registers[4] % 256) as u8
    }

    /// The process that runs has put a character.
    #[inline(always)]
    fn put_at_once(&mut self, process: u32)
        requires waits { IsQuietCall process self.old }
        requires number { slice_index self.old.core.registers.general 2 ≡ 1 }
        ensures { IsAnswered self.old self.new }
    {
        self.show_busy_unit(process);
        self.show_line_below_4(process);
        self.monitor.due.show_events_in_order();
        let byte = self.first_argument();
        self.monitor.put(process, byte, &mut self.bus);
        self.go_on_after_call(0);
    }

    /// The process that runs has got a character, or the answer that there is none.
    #[inline(always)]
    fn get_at_once(&mut self, process: u32)
        requires waits { IsQuietCall process self.old }
        requires number { slice_index self.old.core.registers.general 2 ≡ 2 }
        ensures { IsAnswered self.old self.new }
    {
        self.show_busy_unit(process);
        self.show_line_below_4(process);
        self.monitor.due.show_events_in_order();
        let answer = self.monitor.take_answer(process);
        self.go_on_after_call(answer);
    }

    /// Whether the call that waits is a put or a get outside the slot of a branch, which is then
    /// answered.
    #[inline(always)]
    pub(crate) fn answer_at_once(&mut self, process: u32) -> bool
        requires busy { IsBusy process self.old }
        requires called { IsCalled self.old.core }
        requires early { self.old.monitor.time + 1 < self.old.monitor.quiet_until }
        ensures answered { result ≡ true → IsAnswered self.old self.new }
        ensures still { result ≡ false → self.new ≡ self.old }
    {
        if self.is_delayed() {
            return false;
        }
        match self.core.registers[2] {
            PUT => self.put_at_once(process),
            GET => self.get_at_once(process),
            _ => return false,
        }
        true
    }

    /// Whether another block may begin where a process is in its unit, so that a unit still begins
    /// before a time after it.
    #[inline(always)]
    pub(crate) fn may_go_on(&self, end: u64) -> bool
        requires good { IsGood self.now }
        requires unowed { self.now.monitor.owed ≡ None }
        requires ready { self.now.monitor.ready ≢ [] }
        requires user { is_user self.now.core.system ≡ true }
        requires outside { self.now.core.slot ≡ false }
        requires quiet { end ≤ self.now.monitor.quiet_until }
        requires log { HasLogRoom 1 self.now.monitor }
        ensures { result ≡ true → MayGoOn end self.now }
    {
        self.monitor.due.show_events_in_order();
        self.monitor.time + 1 < end && self.monitor.consoles.have_room()
    }
}
