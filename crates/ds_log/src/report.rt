//! The text that is written of a state, in pieces: no memory is taken for it.
ghost use Rattle.std.specs.Prelude.{OnOk, OnErr, is_err, map, ◌≡◌, length};
ghost use Rattle.std.specs.Io.KnownBytes.{Appends};
ghost use Rattle.ds_text.specs.Sent.{AppendsPart, IsAskedOnce};
ghost use Rattle.ds_log.specs.Report.{console_text, log_text, report_text};

use ds_text::{Buffer, Output, WriteFailed, send_all};

/// Hands a console's number, the count of its bytes and the bytes to a place.
#[tactic(auto, unfolding(crate::specs::Report::console_text))]
fn send_console<O: Output>(number: u32, bytes: &[u8], out: &mut O) -> Result<(), WriteFailed>
    ensures ok { OnOk result
        (Appends (O.contents out.old) (O.contents out.new) (console_text number bytes.now)) }
    ensures err { OnErr result
        (AppendsPart (O.contents out.old) (O.contents out.new) (console_text number bytes.now)) }
    ensures once { IsAskedOnce (O.answers out.old) (O.answers out.new) (is_err result) }
{
    let mut numbers = Buffer::new();
    let mut counts = Buffer::new();
    let pieces = [
        b"console ".as_slice(),
        numbers.format(number).as_bytes(),
        b" ".as_slice(),
        counts.format(bytes.len()).as_bytes(),
        b"\n".as_slice(),
        bytes,
        b"\n".as_slice(),
    ];
    send_all(out, &pieces)
}

/// Hands the count of the log's lines, the lines, and the time to a place.
#[tactic(auto, unfolding(crate::specs::Report::log_text))]
fn send_log<O: Output>(lines: u64, log: &[u8], time: u64, out: &mut O) -> Result<(), WriteFailed>
    ensures ok { OnOk result
        (Appends (O.contents out.old) (O.contents out.new) (log_text lines log.now time)) }
    ensures err { OnErr result
        (AppendsPart (O.contents out.old) (O.contents out.new) (log_text lines log.now time)) }
    ensures once { IsAskedOnce (O.answers out.old) (O.answers out.new) (is_err result) }
{
    let mut counts = Buffer::new();
    let mut times = Buffer::new();
    let pieces = [
        b"log ".as_slice(),
        counts.format(lines).as_bytes(),
        b"\n".as_slice(),
        log,
        b"time ".as_slice(),
        times.format(time).as_bytes(),
        b"\n".as_slice(),
    ];
    send_all(out, &pieces)
}

/// Hands the text of a state to a place: the consoles of the four lines, the log with the count
/// of its lines, and the time in ticks. It takes no memory.
///
/// Where the place answers by an error, or takes nothing, it is `WriteFailed`: the place has taken a
/// prefix of that text, and was not asked again.
#[tactic(auto, using(ds_text::proofs::Sends::asked_both))]
pub fn send_report<O: Output>(
    consoles: &[&[u8]; 4],
    lines: u64,
    log: &[u8],
    time: u64,
    out: &mut O,
) -> Result<(), WriteFailed>
    ensures ok { OnOk result
        (Appends (O.contents out.old) (O.contents out.new)
        (report_text (map (λ c. c.now) consoles.now) lines log.now time)) }
    ensures err { OnErr result
        (AppendsPart (O.contents out.old) (O.contents out.new)
        (report_text (map (λ c. c.now) consoles.now) lines log.now time)) }
    ensures once { IsAskedOnce (O.answers out.old) (O.answers out.new) (is_err result) }
{
    send_console(0, consoles[0], out)?;
    send_console(1, consoles[1], out)?;
    send_console(2, consoles[2], out)?;
    send_console(3, consoles[3], out)?;
    send_log(lines, log, time, out)
}
