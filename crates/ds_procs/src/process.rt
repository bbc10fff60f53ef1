//! A process as the monitor keeps it while another runs.

ghost use Rattle.std.specs.Prelude.{◌≡◌, replicate};
ghost use Rattle.ds_procs.specs.declared.process.Standing.TheVariants.{Ready};

/// Whether a process runs.
#[derive(Clone, Copy, Debug, PartialEq, Eq)]
pub enum Standing {
    Ready,
    /// It waits for a character on its line.
    Waiting,
    /// It was denied something, and waits to be resumed.
    Parked,
    Ended,
}

/// The registers of a process, where it stands, and whether it runs.
#[derive(Clone, Copy, Debug, PartialEq, Eq)]
pub struct Process {
    pub registers: [u32; 32],
    pub hi: u32,
    pub lo: u32,
    pub pc: u32,
    pub state: Standing,
}

impl Process {
    /// A process that is ready at its start address, with all registers zero.
    pub fn new(start: u32) -> Process
        ensures { result
            ≡ record { registers = replicate 32 0; hi = 0; lo = 0; pc = start; state = Ready } }
    {
        Process {
            registers: [0; 32],
            hi: 0,
            lo: 0,
            pc: start,
            state: Standing::Ready,
        }
    }
}
