//! The registers of the machine, as gdb is told of them.
ghost use Rattle.std.specs.Prelude.{◌≡◌, ◌++◌, OnOk};
ghost use Rattle.ds_bare_debug.specs.Looks.{register_seen, register_text, registers_text};

use ds_bare::Machine;
use ds_gdb::push_word_or_none;
use std::alloc::AllocError;

/// How many registers gdb asks for at once: those of the processor and of its system coprocessor.
const COUNT: u32 = 38;

/// A register by gdb's number.
fn register_seen<'a>(machine: &Machine<'a>, number: u32) -> Option<u32>
    ensures { result ≡ register_seen machine.now number }
{
    let others = machine.others();
    if number < 32 {
        Some(machine.general()[number as usize])
    } else if number == 32 {
        Some(others[7])
    } else if number == 33 {
        Some(others[1])
    } else if number == 34 {
        Some(others[0])
    } else if number == 35 {
        Some(others[5])
    } else if number == 36 {
        Some(others[8])
    } else if number == 37 {
        Some(machine.address())
    } else {
        None
    }
}

/// Adds a register by its number.
pub(crate) fn push_register<'a>(
    text: &mut Vec<u8>,
    machine: &Machine<'a>,
    number: u32,
) -> Result<(), AllocError>
    ensures { OnOk result (text.new.items ≡ text.old.items ++ register_text machine.now number) }
{
    push_word_or_none(text, register_seen(machine, number))
}

/// Adds those that gdb asks for at once.
pub(crate) fn push_registers<'a>(
    text: &mut Vec<u8>,
    machine: &Machine<'a>,
) -> Result<(), AllocError>
    ensures { OnOk result (text.new.items ≡ text.old.items ++ registers_text machine.now) }
{
    for number in 0..COUNT {
        push_register(text, machine, number)?;
    }
    Ok(())
}
