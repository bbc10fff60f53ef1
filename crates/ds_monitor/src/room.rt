//! Room for what a unit and the boundary after it may write.
ghost use Rattle.std.specs.Prelude.{◌≡◌, ◌≤◌, true, false};
ghost use Rattle.ds_monitor.specs.Inner.Kept.{kept_of};
ghost use Rattle.ds_monitor.specs.Inner.Room.{HasRoom};

use crate::monitor::Monitor;
use ds_log::LINE_ROOM;

impl Monitor {
    /// Whether there is room for a byte on each console and for one line of the log.
    #[inline(always)]
    pub fn has_room(&self) -> bool
        ensures { result ≡ true → HasRoom 1 self.now }
    {
        self.consoles.have_room() && self.log.capacity() - self.log.len() >= LINE_ROOM
    }

    /// Makes room for a byte on each console and for so many lines of the log, if it can.
    pub fn reserve(&mut self, lines: usize) -> bool
        requires few { lines ≤ 10000 }
        ensures room { result ≡ true → HasRoom lines self.new }
        ensures full { HasRoom lines self.old → result ≡ true }
        ensures short { result ≡ false → HasRoom lines self.new → ⊥ }
        ensures kept { kept_of self.new ≡ kept_of self.old }
        ensures rest { self.new ≡ record self.old {
          consoles = self.new.consoles;
          log = self.new.log;
        } }
    {
        self.consoles.reserve() && self.log.reserve(lines * LINE_ROOM).is_ok()
    }
}
