//! What programs reached.

use ds_core::{Core, Event};
use ds_tlb::Lookaside;

/// How many steps there were, and of which kinds.
#[derive(Clone, Copy)]
pub struct Reached {
    pub steps: u32,
    /// Those after which the processor was in user mode.
    pub user: u32,
    pub branches: u32,
    /// Those after which a load was late.
    pub late: u32,
    /// Those that entered an exception, by its number.
    pub exceptions: [u32; 16],
}

impl Reached {
    /// Nothing yet.
    pub fn new() -> Reached {
        Reached {
            steps: 0,
            user: 0,
            branches: 0,
            late: 0,
            exceptions: [0; 16],
        }
    }

    /// Counts a step that ended so.
    pub fn note<L: Lookaside>(&mut self, event: Event, core: &Core<L>) {
        count(&mut self.steps, true);
        count(&mut self.user, core.cp0.user());
        count(&mut self.branches, event == Event::Branched);
        count(&mut self.late, core.late.is_some());
        if let Event::Raised(code) = event {
            count(&mut self.exceptions[code.number() as usize % 16], true);
        }
    }
}

/// Counts what is so.
fn count(counter: &mut u32, is_so: bool) {
    *counter = counter.wrapping_add(u32::from(is_so));
}
