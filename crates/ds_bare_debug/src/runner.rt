//! A run of the bare machine, instruction by instruction.
ghost use Rattle.std.specs.Prelude.{◌≡◌, ◌<◌, ◌+◌, ◌^◌, IfErr, IfOk, OnOk, true};
ghost use Rattle.ds_bare.specs.Faults.{is_cut, may_start};
ghost use Rattle.ds_bare_debug.specs.Positions.{position_after, first_position, onward};
ghost use Rattle.ds_bare_debug.specs.Runs.{run_seen};

use ds_asm::Image;
use ds_bare::{BareFault, Character, Machine, machine_at_start};
use std::alloc::{AllocError, Global};
use std::marker::Model;

/// What a run on the bare machine begins with.
#[derive(Clone, Copy)]
pub struct BareRun<'a> {
    pub image: &'a Image,
    /// Where the register Random starts.
    pub random: u8,
    /// The characters that come in.
    pub keys: &'a [Character],
    /// The most instructions.
    pub limit: u32,
}

/// A run at a position between two instructions.
#[derive(Drop)]
pub(crate) struct Runner<'a> {
    /// How many instructions are done.
    done: u64,
    machine: Machine<'a>,
    /// Whether the run ended with the last one.
    over: bool,
}

impl<'a> Model for Runner<'a> {
    ghost use Rattle.std.specs.Prelude.{◌<◌, ◌^◌};
    ghost use Rattle.ds_bare_debug.specs.Positions.{Position};

    ghost Value = { Position };

    ghost view = { λ r. record { done = r.done; machine = r.machine; over = r.over } };

    ghost invariant = { λ r. r.done < 2 ^ 32 };
}

impl<'a> Runner<'a> {
    /// Before the first instruction of a run.
    pub(crate) fn new(alloc: Global, run: BareRun<'a>) -> Result<Runner<'a>, BareFault>
        ensures first { IfOk result (λ r. r ≡ first_position (run_seen run.entry)) }
        ensures started { OnOk result (may_start run.entry.random ≡ true) }
        ensures refused { IfErr result (λ f. is_cut f ≡ may_start run.entry.random) }
    {
        let machine = machine_at_start(alloc, run.image, run.random, run.keys)?;
        Ok(Runner {
            done: 0,
            machine,
            over: false,
        })
    }

    /// How many instructions are done.
    pub(crate) fn done(&self) -> u64
        ensures value { result ≡ self.now.done }
        ensures small { result < 2 ^ 32 }
    {
        self.done
    }

    /// The machine after them.
    pub(crate) fn machine(&self) -> &Machine<'a>
        ensures { result.now ≡ self.now.machine }
    {
        &self.machine
    }

    /// Whether the run ended with the last one.
    pub(crate) fn is_over(&self) -> bool
        ensures { result ≡ self.now.over }
    {
        self.over
    }

    /// Does the next instruction.
    #[tactic(auto, unfolding(crate::specs::Positions::onward))]
    pub(crate) fn step(&mut self) -> Result<(), AllocError>
        requires { self.old.done + 1 < 2 ^ 32 }
        ensures { OnOk result (self.new ≡ onward self.old) }
    {
        let ending = self.machine.turn(self.done)?;
        self.done += 1;
        self.over = ending.is_some();
        Ok(())
    }

    /// Does so many instructions more.
    #[tactic(auto, unfolding(crate::specs::Positions::position_after))]
    pub(crate) fn pass(&mut self, count: u64) -> Result<(), AllocError>
        requires first { self.old.done ≡ 0 }
        requires few { count < 2 ^ 32 }
        ensures { OnOk result (self.new ≡ position_after self.old count) }
    {
        for _ in 0..count {
            self.step()?;
        }
        Ok(())
    }
}
