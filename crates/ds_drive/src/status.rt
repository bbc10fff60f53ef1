//! The statuses with which the program ends.
ghost use Rattle.std.specs.Prelude.{◌≡◌};
ghost use Rattle.ds_drive.specs.Statuses.{fault_status};

/// What was asked for is done.
pub const DONE: u8 = 0;
/// The words were refused, or asked for help.
pub const WORDS_REFUSED: u8 = 1;
/// The policy, a source, the input, or a number in the words was refused.
pub const INPUT_REFUSED: u8 = 2;
/// A fault came in the run, memory ran out, or the run was left with too much text.
pub const RUN_FAILED: u8 = 3;
/// The run is over, and a process has not ended, though all have to.
pub const UNENDED: u8 = 4;

/// The status for the fault of this number: `INPUT_REFUSED` for the faults that refuse what was
/// read, and else `RUN_FAILED`.
pub fn status_of(number: u32) -> u8
    ensures { result ≡ fault_status number }
{
    match number {
        1 | 3..=10 | 12 | 20 | 24 | 26 => INPUT_REFUSED,
        _ => RUN_FAILED,
    }
}
