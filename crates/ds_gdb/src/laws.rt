//! What is answered to a stream, however it is cut.
ghost use Rattle.std.specs.Prelude.{◌≡◌, ◌++◌, ℕ, List};
ghost use Rattle.ds_packets.specs.Scanning.{start};
ghost use Rattle.ds_packets.specs.Scans.{Scan};
ghost use Rattle.ds_packets.specs.Inner.Streams.{Piece, Splits, all_said};
ghost use Rattle.ds_gdb.specs.Streams.{Hears, HearsAll, StreamState};

use crate::target::Target;

/// What is written to a chunk of a stream and then to the next is what is written to both at once; and
/// to a whole stream it is what is answered to that which its pieces say, one after another.
pub fn what_a_stream_is_answered<T: Target>()
    ensures joined { (xs ys : List ℕ) (old between new : StreamState T)
        (before text after : List ℕ) → Hears T.answers xs old between before text
        → Hears T.answers ys between new text after
        → Hears T.answers (xs ++ ys) old new before after }
    ensures said { (stream : List ℕ) (pieces : List Piece) (rest : Scan) (old new : StreamState T)
        (before after : List ℕ) → old.scan ≡ start → Splits stream pieces rest
        → Hears T.answers stream old new before after
        → HearsAll T.answers (all_said pieces) old.exchange new.exchange before after }
{}
