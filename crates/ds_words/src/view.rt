//! Which lines of a trace are told.
ghost use Rattle.std.specs.Prelude.{◌≡◌, []};
ghost use Rattle.ds_words.specs.Views.{has_lines, is_before, shows_denials, shows_entries, shows_process, shows_rest, shows_switches, shows_turn, shows_unit, whole};

use crate::processes::Processes;
use ds_listing::{PageLines, RegisterNames};

/// The one kind of line that is told.
#[derive(Clone, Copy, Debug, PartialEq, Eq)]
pub enum Only {
    /// None of what happens, but how the run ends.
    End,
    /// The units that are calls.
    Calls,
    /// What was denied.
    Denials,
    /// Which process runs, and how each stands.
    Switches,
    /// The units.
    Units,
}

/// Which lines of a trace are told, and how. The others are left out, and nothing else is changed by
/// it.
#[derive(Clone, Copy)]
pub struct View<'a> {
    /// Nothing is told of a turn that began earlier, in ticks.
    pub from: u64,
    /// Nothing is told of a turn that began at this time or later, where there is one.
    pub to: Option<u64>,
    /// The processes of which is told; all where none is named.
    pub processes: Option<Processes>,
    /// The one kind of line that is told; all where none is named.
    pub only: Option<Only>,
    /// Whether the end tells what the processor did, which depends on Random.
    pub processor: bool,
    /// Whether it is told which entries of the permission table there are, and how each changes.
    pub entries: bool,
    /// How registers are called.
    pub names: RegisterNames,
    /// Whether units are told by their sources: each with its line and its label, a load with its
    /// address, and a call that is none with its number.
    pub source: bool,
    /// The lines of the sources whose parts the pages have, the first page's first. They are told where
    /// units are told by their sources.
    pub pages: &'a [Option<PageLines<'a>>],
}

/// Whether a time, or a number of an instruction, is before the end of what is told.
pub(crate) fn is_before(to: Option<u64>, began: u64) -> bool
    ensures { result ≡ is_before to began }
{
    match to {
        Some(to) => began < to,
        None => true,
    }
}

impl<'a> View<'a> {
    /// All lines.
    pub fn whole() -> View<'a>
        ensures view { result ≡ record whole { pages = result.pages } }
        ensures pages { result.pages.now ≡ [] }
    {
        View {
            from: 0,
            to: None,
            processes: None,
            only: None,
            processor: false,
            entries: false,
            names: RegisterNames::Numbers,
            source: false,
            pages: &[],
        }
    }

    /// Whether anything that happens is told, and not the end alone.
    pub fn has_lines(&self) -> bool
        ensures { result ≡ has_lines self.now }
    {
        !matches!(self.only, Some(Only::End))
    }

    /// Whether a turn that began at this time is told.
    pub fn shows_turn(&self, began: u64) -> bool
        ensures { result ≡ shows_turn self.now began }
    {
        self.from <= began && is_before(self.to, began)
    }

    /// Whether a process is told of.
    pub fn shows_process(&self, process: u32) -> bool
        ensures { result ≡ shows_process self.now process }
    {
        match &self.processes {
            Some(named) => named.contains(process),
            None => true,
        }
    }

    /// Whether the lines of a unit are told, by whether it is a call.
    pub fn shows_unit(&self, process: u32, is_call: bool) -> bool
        ensures { result ≡ shows_unit self.now process is_call }
    {
        let kind = match self.only {
            None | Some(Only::Units) => true,
            Some(Only::Calls) => is_call,
            _ => false,
        };
        kind && self.shows_process(process)
    }

    /// Whether it is told what was denied to a process.
    pub fn shows_denials(&self, process: u32) -> bool
        ensures { result ≡ shows_denials self.now process }
    {
        matches!(self.only, None | Some(Only::Denials)) && self.shows_process(process)
    }

    /// Whether it is told which process runs, and how each stands.
    pub fn shows_switches(&self) -> bool
        ensures { result ≡ shows_switches self.now }
    {
        matches!(self.only, None | Some(Only::Switches))
    }

    /// Whether it is told which entries there are, and how each changes.
    pub fn shows_entries(&self) -> bool
        ensures { result ≡ shows_entries self.now }
    {
        self.has_lines() && self.entries
    }

    /// Whether it is told what else happens at a boundary.
    pub fn shows_rest(&self) -> bool
        ensures { result ≡ shows_rest self.now }
    {
        self.only.is_none()
    }
}
