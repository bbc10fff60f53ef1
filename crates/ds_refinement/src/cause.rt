//! Why the processor left the program.
use ds_policy::Access;

/// Why a unit was interrupted, as the coprocessor's registers tell it (Kane and Heinrich,
/// chapter 6).
#[derive(Clone, Copy, Debug, PartialEq, Eq)]
pub enum Cause {
    /// The address map refused this access.
    Access { access: Access },
    /// The instruction faulted, with this exception code.
    Fault { code: u8 },
    /// The process calls the monitor.
    Call,
}
