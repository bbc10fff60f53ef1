//! What streams of packets say.
ghost use Rattle.std.specs.Prelude.{◌≡◌, ◌≤◌, ℕ, List, [], ◌∷◌, length, Ok};
ghost use Rattle.std.specs.List.{AllByRecursion};
ghost use Rattle.ds_packets.specs.Framing.{escaped, frame};
ghost use Rattle.ds_packets.specs.Scans.{Scan};
ghost use Rattle.ds_packets.specs.Scanning.{start};
ghost use Rattle.ds_packets.specs.Streams.{all_came};
ghost use Rattle.ds_packets.specs.Inner.Streams.{IsSplit, Piece, Splits, all_said};

/// Each stream is pieces, and a packet that is not whole; and what comes of a stream is what these pieces
/// say, whatever pieces it is taken for.
pub fn what_a_stream_says()
    ensures split { (stream : List ℕ) → IsSplit stream }
    ensures said { (stream : List ℕ) (pieces : List Piece) (rest : Scan)
        → Splits stream pieces rest → all_came start stream ≡ all_said pieces }
{}

/// What was written as a packet is read again.
pub fn what_is_framed_comes()
    ensures { (bytes : List ℕ) → length (escaped bytes) ≤ 4096
        → all_came start (frame bytes) ≡ Ok bytes ∷ [] }
{}
