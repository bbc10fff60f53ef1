//! What gdb debugs.
ghost use Rattle.std.specs.Prelude.{OnOk};
ghost use Rattle.ds_gdb.specs.Streams.{Adds};

use std::alloc::{AllocError, Global};

/// What gdb debugs, as far as it answers packets.
pub trait Target: Drop {
    ghost use Rattle.std.specs.Prelude.{ℕ, List};

    /// By the data of a packet, what it was before it, what it is after it, and the text that it answers.
    ghost answers: { List ℕ → Self → Self → List ℕ → Type 0 };

    /// Adds what it answers to the data of a packet. Where memory runs out the answer is not whole.
    fn reply(&mut self, alloc: Global, words: &[u8], out: &mut Vec<u8>) -> Result<(), AllocError>
        ensures { OnOk result (Adds (answers words.now self.old self.new)
            out.old.items out.new.items) };
}
