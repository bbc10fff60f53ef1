//! The words of rights and of commands, as policies, inputs and what is told have them.

/// No right.
pub const NONE: &str = "none";

/// The right to load and to fetch.
pub const READ: &str = "read";

/// The right to store too.
pub const WRITE: &str = "write";

/// The command that makes an entry.
pub const GRANT: &str = "grant";

/// The command that leaves an entry its right to read.
pub const NARROW: &str = "narrow";

/// The command that takes an entry's right.
pub const REVOKE: &str = "revoke";

/// The command that removes an entry.
pub const DROP: &str = "drop";

/// The command that makes a parked process ready.
pub const RESUME: &str = "resume";

/// The command that ends a process.
pub const STOP: &str = "stop";
