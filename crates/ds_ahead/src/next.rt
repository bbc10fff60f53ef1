//! What comes after a stretch.
ghost use Rattle.std.specs.Prelude.{◌≡◌, ◌≢◌, nat_lt, true, false};
ghost use Rattle.ds_ahead.specs.Inner.Run.{next_by};

/// What comes after a stretch.
#[derive(Clone, Copy)]
pub enum Next {
    /// Whatever it is.
    Any,
    /// A system call.
    Call,
    /// What was left, so that a plain step has to do it.
    Plain,
}

impl Next {
    /// Whether it is known what comes.
    #[inline(always)]
    pub(crate) fn is_known(self) -> bool
        ensures known { result ≡ false → self ≡ Next.Any }
    {
        !matches!(self, Next::Any)
    }

    /// This where a step is left for it.
    #[inline(always)]
    pub(crate) fn where_left(self, left: u32) -> Next
        ensures { result ≡ next_by self (nat_lt 0 left) }
    {
        if left > 0 { self } else { Next::Any }
    }
}
