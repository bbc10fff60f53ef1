//! The words of memory that are written after the text of a run.
ghost use Rattle.std.specs.Prelude.{◌≡◌, IfErr, OnErr, OnOk, flat_map, length};
ghost use Rattle.std.specs.List.{All};
ghost use Rattle.std.specs.Io.KnownBytes.{Appends};
ghost use Rattle.ds_drive.specs.Windows.{lacking_of, window_lines_in, window_lines};
ghost use Rattle.ds_text.specs.Sent.{AppendsPart};
ghost use Rattle.ds_station.specs.Reads.{memory_held};
ghost use Rattle.ds_trace.specs.Inner.Handed.{IsLate};
ghost use Rattle.ds_words.specs.Windows.{IsWindow};

use ds_policy::PolicyProcess;
use ds_station::{Fault, Station};
use ds_text::Output;
use ds_tlb::Lookaside;
use ds_trace::send_memory;
use ds_words::Window;
use std::alloc::Global;

/// The first process that a window names and that is not among these.
pub(crate) fn lacking_of(windows: &[Window], processes: &[PolicyProcess]) -> Option<u32>
    ensures { result ≡ lacking_of (length processes.now) windows.now }
{
    let mut left = windows;
    while let [first, rest @ ..] = left {
        if processes.len() < first.process as usize {
            return Some(first.process);
        }
        left = rest;
    }
    None
}

/// Writes the lines of a window of a station's memory; of a process that is not there, none.
fn send_window<L: Lookaside, O: Output>(
    alloc: Global,
    station: &Station<L>,
    window: &Window,
    out: &mut O,
) -> Result<(), Fault>
    requires { IsWindow window.now }
    ensures ok { OnOk result (Appends (O.contents out.old) (O.contents out.new)
        (window_lines (length station.now.held.kept.state.processes)
        (memory_held station.now.held) window.now)) }
    ensures err { OnErr result (AppendsPart (O.contents out.old) (O.contents out.new)
        (window_lines (length station.now.held.kept.state.processes)
        (memory_held station.now.held) window.now)) }
    ensures late { IfErr result IsLate }
{
    if station.processes() < window.process {
        return Ok(());
    }
    send_memory(
        alloc,
        station,
        window.process,
        window.address,
        window.count,
        out,
    )
}

/// Writes the lines of windows of a station's memory, in their order. Where a write fails, or memory
/// runs out, a front of them is written.
pub(crate) fn send_windows<L: Lookaside, O: Output>(
    alloc: Global,
    station: &Station<L>,
    windows: &[Window],
    out: &mut O,
) -> Result<(), Fault>
    requires { All IsWindow windows.now }
    ensures ok { OnOk result (Appends (O.contents out.old) (O.contents out.new)
        (window_lines_in (length station.now.held.kept.state.processes)
        (memory_held station.now.held) windows.now)) }
    ensures err { OnErr result (AppendsPart (O.contents out.old) (O.contents out.new)
        (window_lines_in (length station.now.held.kept.state.processes)
        (memory_held station.now.held) windows.now)) }
    ensures late { IfErr result IsLate }
{
    for window in windows {
        send_window(alloc, station, window, out)?;
    }
    Ok(())
}
