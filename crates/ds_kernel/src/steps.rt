//! One step of a station: an instruction of the program or of the refill handler, a service, a
//! boundary or an idle turn.
ghost use Rattle.std.specs.Prelude.{◌≡◌, ◌≢◌, ◌<◌, ◌^◌, IsOk, IfOk, IfErr, OnOk, OnErr, IsErrOf, [], None, IsSome, true, false};
ghost use Rattle.ds_pagemap.specs.Run.{is_over};
ghost use Rattle.ds_refinement.specs.Units.{is_served};
ghost use Rattle.ds_refinement.specs.Inner.Services.{with_failure};
ghost use Rattle.ds_monitor.specs.Inner.Kept.{kept_of};
ghost use Rattle.ds_monitor.specs.Inner.Room.{HasRoom, HasTurnRoom, has_turn_room};
ghost use Rattle.ds_kernel.specs.Inner.Parts.{held};
ghost use Rattle.ds_kernel.specs.Inner.Good.{IsGood};
ghost use Rattle.ds_kernel.specs.Inner.Ended.{DoesStep};
ghost use Rattle.ds_kernel.specs.Inner.Halts.{Halts};

use crate::halt::Halt;
use crate::parts::Parts;
use ds_refinement::Step;
use ds_tlb::Lookaside;

impl<L: Lookaside> Parts<L> {
    /// Makes room for what one unit and the commands that are due after it may write, if it can.
    #[inline(never)]
    pub(crate) fn reserve(&mut self) -> bool
        requires early { self.old.monitor.time < 2 ^ 62 }
        ensures room { result ≡ true → HasTurnRoom self.new.monitor }
        ensures full { has_turn_room self.old.monitor ≡ true → result ≡ true }
        ensures short { result ≡ false → has_turn_room self.new.monitor ≡ false }
        ensures held { held self.new ≡ held self.old }
        ensures rest { self.new ≡ record self.old {
          monitor = record self.old.monitor {
            consoles = self.new.monitor.consoles;
            log = self.new.monitor.log;
          };
        } }
    {
        let commands = self.monitor.due.commands_by(self.monitor.time + 2);
        self.monitor.reserve(1 + commands)
    }

    /// Whether there is room for what one unit may write; it is made where there is none.
    #[inline(always)]
    pub(crate) fn make_unit_room(&mut self) -> bool
        requires early { self.old.monitor.time < 2 ^ 62 }
        ensures room { result ≡ true → HasRoom 1 self.new.monitor }
        ensures short { result ≡ false → has_turn_room self.new.monitor ≡ false }
        ensures held { held self.new ≡ held self.old }
        ensures next { self.new.monitor.quiet_until ≡ self.old.monitor.quiet_until }
        ensures rest { self.new ≡ record self.old { monitor = self.new.monitor } }
    {
        self.monitor.has_room() || self.reserve()
    }

    /// Whether there is room for what one unit and the commands that are due after it may write;
    /// it is made where there is none, or where commands are due.
    #[inline(always)]
    pub(crate) fn make_room(&mut self) -> bool
        requires early { self.old.monitor.time < 2 ^ 62 }
        ensures room { result ≡ true → HasTurnRoom self.new.monitor }
        ensures full { has_turn_room self.old.monitor ≡ true → result ≡ true }
        ensures short { result ≡ false → has_turn_room self.new.monitor ≡ false }
        ensures held { held self.new ≡ held self.old }
        ensures next { self.new.monitor.quiet_until ≡ self.old.monitor.quiet_until }
    {
        if self.monitor.has_room() && self.monitor.time + 2 < self.monitor.due.next_command() {
            return true;
        }
        self.reserve()
    }

    /// An instruction may come next; where it begins a unit, there is room for the unit, or it is
    /// made.
    #[inline(always)]
    #[tactic(auto, using(crate::proofs::Running::ready_not_over))]
    fn begin(&mut self) -> Result<(), Halt>
        requires good { IsGood self.old }
        requires working { self.old.failed ≡ false }
        requires unowed { self.old.monitor.owed ≡ None }
        requires ready { self.old.monitor.ready ≢ [] }
        ensures ok { OnOk result (held self.new ≡ held self.old) }
        ensures room { OnOk result (HasTurnRoom self.new.monitor) }
        ensures full { has_turn_room self.old.monitor ≡ true → IsOk result }
        ensures short { OnErr result (has_turn_room self.new.monitor ≡ false) }
        ensures still { OnErr result (0 < self.old.spent → HasTurnRoom self.new.monitor) }
        ensures halts { IfErr result (λ halt. Halts halt (held self.old)) }
        ensures marked { OnErr result (held self.new ≡ with_failure (held self.old)) }
        ensures next { self.new.monitor.quiet_until ≡ self.old.monitor.quiet_until }
    {
        if self.spent == 0 && !self.make_room() {
            self.failed = true;
            return Err(Halt::Memory);
        }
        Ok(())
    }

    /// The program stands at an address of 32 bits.
    #[inline(always)]
    pub(crate) fn show_pc_has_32_bits(&self)
        ensures { self.now.core.pc < 2 ^ 32 }
    {
        let _here = self.core.pc;
    }

    /// The next instruction of the process that runs, or the next word of the refill handler in its
    /// unit, if it may be begun.
    #[inline(always)]
    fn attempt(&mut self) -> Result<Step, Halt>
        requires slots { L.SLOTS ≡ 64 }
        requires wired { L.WIRED ≡ 8 }
        requires good { IsGood self.old }
        requires working { self.old.failed ≡ false }
        requires unowed { self.old.monitor.owed ≡ None }
        requires ready { self.old.monitor.ready ≢ [] }
        requires unserved { is_served self.old.core ≡ false }
        requires early { self.old.monitor.time < 1000000000 }
        ensures good { IsGood self.new }
        ensures full { has_turn_room self.old.monitor ≡ true → IsOk result }
        ensures short { OnErr result (has_turn_room self.new.monitor ≡ false) }
        ensures does { IfOk result (λ step. DoesStep step (held self.old) (held self.new)) }
        ensures halts { IfErr result (λ halt. Halts halt (held self.old)) }
        ensures marked { OnErr result (held self.new ≡ with_failure (held self.old)) }
    {
        self.show_pc_has_32_bits();
        self.begin()?;
        if self.is_user() {
            let step = self.execute();
            self.show_whole_processor();
            Ok(step)
        } else {
            Ok(self.word())
        }
    }

    /// The boundary that is owed.
    #[inline(always)]
    pub(crate) fn boundary(&mut self) -> Step
        requires slots { L.SLOTS ≡ 64 }
        requires wired { L.WIRED ≡ 8 }
        requires good { IsGood self.old }
        requires owed { IsSome self.old.monitor.owed }
        ensures does { DoesStep result (held self.old) (held self.new) }
        ensures good { IsGood self.new }
    {
        self.close_turn();
        Step::Boundary
    }

    /// A turn in which no process runs, with its boundary.
    #[cold]
    #[inline(never)]
    fn idle(&mut self) -> Result<Step, Halt>
        requires slots { L.SLOTS ≡ 64 }
        requires wired { L.WIRED ≡ 8 }
        requires good { IsGood self.old }
        requires working { self.old.failed ≡ false }
        requires unowed { self.old.monitor.owed ≡ None }
        requires nobody { self.old.monitor.ready ≡ [] }
        requires going { is_over (kept_of self.old.monitor).state ≡ false }
        requires early { self.old.monitor.time < 1000000000 }
        ensures good { IsGood self.new }
        ensures full { has_turn_room self.old.monitor ≡ true → IsOk result }
        ensures short { OnErr result (has_turn_room self.new.monitor ≡ false) }
        ensures does { IfOk result (λ step. DoesStep step (held self.old) (held self.new)) }
        ensures halts { IfErr result (λ halt. Halts halt (held self.old)) }
        ensures marked { OnErr result (held self.new ≡ with_failure (held self.old)) }
    {
        if !self.make_room() {
            self.failed = true;
            return Err(Halt::Memory);
        }
        self.monitor.end_first_turn(1);
        self.close_turn();
        Ok(Step::Boundary)
    }

    /// Where nobody is ready: an idle turn, or nothing where all have ended.
    fn rest(&mut self) -> Result<Step, Halt>
        requires slots { L.SLOTS ≡ 64 }
        requires wired { L.WIRED ≡ 8 }
        requires good { IsGood self.old }
        requires working { self.old.failed ≡ false }
        requires unowed { self.old.monitor.owed ≡ None }
        requires nobody { self.old.monitor.ready ≡ [] }
        requires early { self.old.monitor.time < 1000000000 }
        ensures good { IsGood self.new }
        ensures full { has_turn_room self.old.monitor ≡ true → IsOk result }
        ensures short { OnErr result (has_turn_room self.new.monitor ≡ false) }
        ensures does { IfOk result (λ step. DoesStep step (held self.old) (held self.new)) }
        ensures halts { IfErr result (λ halt. Halts halt (held self.old)) }
        ensures marked { OnErr result (held self.new ≡ with_failure (held self.old)) }
    {
        if self.monitor.is_over() {
            return Ok(Step::Over);
        }
        self.idle()
    }

    /// One instruction of the processor, one service, an idle turn with its boundary, or the boundary
    /// that is owed. After a failure it answers that, and nothing changes. It is refused only where
    /// there is no room for a turn.
    #[inline(always)]
    pub fn step(&mut self) -> Result<Step, Halt>
        requires slots { L.SLOTS ≡ 64 }
        requires wired { L.WIRED ≡ 8 }
        requires good { IsGood self.old }
        requires early { self.old.monitor.owed ≡ None → self.old.monitor.time < 1000000000 }
        ensures good { IsGood self.new }
        ensures full { has_turn_room self.old.monitor ≡ true → self.old.failed ≡ false
            → IsOk result }
        ensures short { self.old.failed ≡ false
            → OnErr result (has_turn_room self.new.monitor ≡ false) }
        ensures does { IfOk result (λ step. DoesStep step (held self.old) (held self.new)) }
        ensures halts { IfErr result (λ halt. Halts halt (held self.old)) }
        ensures marked { OnErr result (held self.new ≡ with_failure (held self.old)) }
        ensures again { self.old.failed ≡ true
            → IsErrOf result Halt.Failed × (self.new ≡ self.old) }
    {
        if self.failed {
            return Err(Halt::Failed);
        }
        if self.monitor.owed.is_some() {
            return Ok(self.boundary());
        }
        match self.monitor.first_ready() {
            None => self.rest(),
            Some(process) if self.is_served() => Ok(self.serve(process)),
            Some(_) => self.attempt(),
        }
    }
}
