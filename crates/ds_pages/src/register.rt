//! Numbers of general registers.
ghost use Rattle.std.specs.Prelude.{◌≡◌, ◌<◌, IfSome, IsSome};

/// A general register that an operation reads, by its number below 32.
#[derive(Clone, Copy, Debug, PartialEq, Eq)]
pub struct Register {
    number: u8,
    ghost small: { number < 32 },
}

impl Register {
    /// Register 0.
    pub const ZERO: Register = Register { number: 0 };

    /// The register of a number, if there is one.
    pub fn new(number: u8) -> Option<Register>
        ensures known { IfSome result (λ register. register.number ≡ number) }
        ensures all { number < 32 → IsSome result }
    {
        if number < 32 {
            Some(Register { number })
        } else {
            None
        }
    }

    /// Its number.
    #[inline(always)]
    pub fn number(self) -> u8
        ensures value { result ≡ self.number }
        ensures small { result < 32 }
    {
        self.number
    }
}

/// A general register that an operation writes, by its number from 1 to 31: register 0 takes no
/// write.
#[derive(Clone, Copy, Debug, PartialEq, Eq)]
pub struct Target {
    number: u8,
    ghost small: { number < 32 },
    ghost some: { 0 < number },
}

impl Target {
    /// Register 1.
    pub const ONE: Target = Target { number: 1 };

    /// The target of a number, if there is one.
    pub fn new(number: u8) -> Option<Target>
        ensures known { IfSome result (λ target. target.number ≡ number) }
        ensures all { 0 < number → number < 32 → IsSome result }
    {
        if number > 0 && number < 32 {
            Some(Target { number })
        } else {
            None
        }
    }

    /// Its number.
    #[inline(always)]
    pub fn number(self) -> u8
        ensures value { result ≡ self.number }
        ensures some { 0 < result }
        ensures small { result < 32 }
    {
        let Target { number, .. } = self;
        number
    }
}
