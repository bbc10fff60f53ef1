//! What a run came to: which process has not ended.
ghost use Rattle.std.specs.Prelude.{◌≡◌};
ghost use Rattle.ds_pagemap.specs.Machine as machine;
ghost use Rattle.ds_pagemap.specs.Machine.{State};
ghost use Rattle.ds_refinement.specs.Stands.{Stands};
ghost use Rattle.ds_station.specs.Outcome.{first_unended};

use crate::station::Station;
use ds_procs::Standing;
use ds_tlb::Lookaside;

/// A process that has not ended, by its number from 1, and how it stands.
#[derive(Clone, Copy, Debug, PartialEq, Eq)]
pub struct Unended {
    pub process: u32,
    pub standing: Standing,
}

/// Whether a process has ended that stands so. One that is parked has not.
fn has_ended(standing: Standing) -> bool
    ensures { result ≡ machine.has_ended standing }
{
    match standing {
        Standing::Ended => true,
        Standing::Ready | Standing::Waiting | Standing::Parked => false,
    }
}

impl<L: Lookaside> Station<L> {
    /// The first process, by number, that has not ended: it is ready, waits for a character, or is
    /// parked. Where all have ended there is none.
    pub fn first_unended(&self) -> Option<Unended>
        ensures held { result ≡ first_unended self.now.held.kept.state }
        ensures stands { (m : State) → Stands self.now.held m → result ≡ first_unended m }
    {
        for process in 1..self.processes() + 1 {
            let standing = self.standing(process);
            if !has_ended(standing) {
                return Some(Unended { process, standing });
            }
        }
        None
    }
}
