//! A touch, on registers as code keeps them.
ghost use Rattle.std.specs.Prelude.{◌≡◌};
ghost use Rattle.ds_pagemap.specs.Machine.{Process, touched_process};

/// Clears register 26 and puts the process's address into register 27, as the refill of a
/// translation does. A load that is late has to be finished beside it.
pub fn touch_registers(registers: &mut [u32; 32], pc: u32)
    ensures { (q : Process) → q.registers.general ≡ registers.old → q.pc ≡ pc →
        registers.new ≡ (touched_process q).registers.general }
{
    registers[26] = 0;
    registers[27] = pc;
}
