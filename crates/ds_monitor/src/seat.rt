//! A process as the monitor keeps it.
ghost use Rattle.std.specs.Prelude.{◌≡◌, slice_set, None};
ghost use Rattle.ds_procs.specs.Calls.{call_of};
ghost use Rattle.ds_pagemap.specs.First.{first_process};

use ds_policy::PolicyProcess;
use ds_procs::{Call, Process, Standing};
use std::alloc::AllocError;
use std::marker::Model;

/// A process while it doesn't run, and its console line. No load of it is late.
#[derive(Drop)]
pub struct Seat {
    kept: Process,
    line: u8,
}

impl Model for Seat {
    ghost use Rattle.std.specs.Prelude.{None};
    ghost use Rattle.ds_pagemap.specs.Machine.{Process};

    ghost Value = { Process };

    ghost view = { λ s. record {
      registers = record {
        general = s.kept.registers;
        hi = s.kept.hi;
        lo = s.kept.lo;
        late = None;
      };
      pc = s.kept.pc;
      standing = s.kept.state;
      line = s.line;
    } };
}

impl Clone for Seat {
    ghost is_clone = { λ x y. y ≡ x };

    fn clone(&self) -> Result<Self, AllocError> {
        Ok(Seat {
            kept: self.kept,
            line: self.line,
        })
    }
}

impl Seat {
    /// The seat of a policy's process at its start.
    pub fn new(process: PolicyProcess) -> Seat
        ensures { result ≡ first_process process }
    {
        Seat {
            kept: Process::new(process.start),
            line: process.line,
        }
    }

    /// How the process stands.
    #[inline(always)]
    pub fn standing(&self) -> Standing
        ensures { result ≡ self.now.standing }
    {
        let process = &self.kept;
        process.state
    }

    /// The line of its console.
    #[inline(always)]
    pub fn line(&self) -> u8
        ensures { result ≡ self.now.line }
    {
        self.line
    }

    /// Where it goes on.
    #[inline(always)]
    pub fn pc(&self) -> u32
        ensures { result ≡ self.now.pc }
    {
        let process = &self.kept;
        process.pc
    }

    /// Its general registers.
    #[inline(always)]
    pub fn general(&self) -> &[u32; 32]
        ensures { result.now ≡ self.now.registers.general }
    {
        &self.kept.registers
    }

    /// Its HI.
    #[inline(always)]
    pub fn hi(&self) -> u32
        ensures { result ≡ self.now.registers.hi }
    {
        let process = &self.kept;
        process.hi
    }

    /// Its LO.
    #[inline(always)]
    pub fn lo(&self) -> u32
        ensures { result ≡ self.now.registers.lo }
    {
        let process = &self.kept;
        process.lo
    }

    /// Its general registers, HI and LO.
    pub fn registers(&self) -> ([u32; 32], u32, u32)
        ensures general { result.0 ≡ self.now.registers.general }
        ensures hi { result.1 ≡ self.now.registers.hi }
        ensures lo { result.2 ≡ self.now.registers.lo }
    {
        (self.kept.registers, self.kept.hi, self.kept.lo)
    }

    /// No load of it is late.
    pub fn has_no_late_load(&self)
        ensures { self.now.registers.late ≡ None }
    {
        let _standing = self.kept.state;
    }

    /// The call that it asks for by its registers.
    pub fn call(&self) -> Call
        ensures { result ≡ call_of self.now.registers.general }
    {
        Call::of(&self.kept)
    }

    /// It stands otherwise.
    pub fn stand(&mut self, standing: Standing)
        ensures { self.new ≡ record self.old { standing = standing } }
    {
        self.kept.state = standing;
    }

    /// It goes on elsewhere.
    #[inline(always)]
    pub fn go_to(&mut self, address: u32)
        ensures { self.new ≡ record self.old { pc = address } }
    {
        self.kept.pc = address;
    }

    /// The answer to its call, in register 2.
    #[inline(always)]
    pub fn answer(&mut self, value: u32)
        ensures { self.new ≡ record self.old {
          registers = record self.old.registers {
            general = slice_set self.old.registers.general 2 value;
          };
        } }
    {
        self.kept.registers[2] = value;
    }

    /// It leaves the processor with these registers, and goes on at this address.
    #[inline(always)]
    pub fn keep(&mut self, general: &[u32; 32], hi: u32, lo: u32, pc: u32)
        ensures { self.new ≡ record self.old {
          registers = record { general = general.now; hi = hi; lo = lo; late = None };
          pc = pc;
        } }
    {
        self.kept.registers = *general;
        self.kept.hi = hi;
        self.kept.lo = lo;
        self.kept.pc = pc;
    }
}
