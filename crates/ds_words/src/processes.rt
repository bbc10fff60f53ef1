//! A set of processes, by their numbers.
ghost use Rattle.std.specs.Prelude.{◌≡◌, ℕ, List};
ghost use Rattle.ds_words.specs.Sets.{has_process, no_processes, processes_numbered, joined_process};
ghost use Rattle.ds_words.specs.Inner.Sets.{is_among};

/// The places for marks: that of process p is p, and no process has the first.
const PLACES: usize = 101;

/// A set of processes, by their numbers from 1 to 100.
#[derive(Clone, Copy, Debug, PartialEq, Eq)]
pub struct Processes {
    /// Whether each is in the set.
    marks: [bool; PLACES],
}

impl Processes {
    /// No process.
    pub fn none() -> Processes
        ensures { result ≡ no_processes }
    {
        Processes {
            marks: [false; PLACES],
        }
    }

    /// These, and the process of this number. Where no process can have the number, it is these.
    pub fn with(mut self, process: u32) -> Processes
        ensures { result ≡ joined_process self process }
    {
        let place = process as usize;
        if place < PLACES {
            self.marks[place] = true;
        }
        self
    }

    /// Whether a process is among them.
    #[tactic(auto, using(crate::proofs::Among::held))]
    pub fn contains(&self, process: u32) -> bool
        ensures value { result ≡ has_process self.now process }
        ensures among { (numbers : List ℕ) → self.now ≡ processes_numbered numbers
            → result ≡ is_among numbers process }
    {
        self.marks.get(process as usize).copied().unwrap_or(false)
    }
}
