//! Which instructions of a run on the bare machine are told, and what the end tells.
ghost use Rattle.std.specs.Prelude.{◌≡◌};
ghost use Rattle.ds_words.specs.BareViews.{reaches};
ghost use Rattle.ds_words.specs.Inner.BareViews.{IsWhole};

use crate::spans::Spans;
use crate::view::is_before;
use ds_listing::RegisterNames;

/// The one kind of instruction that is told.
#[derive(Clone, Copy, Debug, PartialEq, Eq)]
pub enum BareOnly {
    /// None of them, but how the run ends.
    End,
    /// Those that enter an exception.
    Exceptions,
    /// Those of the translation buffer, and those that it stops.
    Tlb,
    /// Those that reach a device, and those at which a device begins or ceases to ask.
    Devices,
}

/// What is told of a run on the bare machine. The run itself is the same with each.
#[derive(Clone, Copy, Debug, PartialEq, Eq)]
pub struct BareView {
    /// Whether no instruction is told.
    pub quiet: bool,
    /// The number of the first instruction that may be told. Instructions are numbered from 1.
    pub from: u64,
    /// The number of the first that is not told any more, where there is one.
    pub to: Option<u64>,
    /// The one kind of instruction that is told; all where none is named.
    pub only: Option<BareOnly>,
    /// Whether a line tells where two slots of the buffer begin to match each other.
    pub matches: bool,
    /// Whether the end tells what is counted.
    pub counts: bool,
    /// The words of memory that the end tells.
    pub memory: Spans,
    /// How registers are called.
    pub names: RegisterNames,
}

impl BareView {
    /// All instructions, and nothing more of the end than there always is.
    pub fn whole() -> BareView
        ensures { IsWhole result }
    {
        BareView {
            quiet: false,
            from: 0,
            to: None,
            only: None,
            matches: false,
            counts: false,
            memory: Spans::none(),
            names: RegisterNames::Numbers,
        }
    }

    /// Whether anything may be told of the instruction with this number.
    pub fn reaches(&self, number: u64) -> bool
        ensures { result ≡ reaches self.now number }
    {
        !self.quiet
            && !matches!(self.only, Some(BareOnly::End))
            && self.from <= number
            && is_before(self.to, number)
    }
}
