//! How a character leaves by the serial lines.
ghost use Rattle.std.specs.Prelude.{◌≡◌, ◌<◌, true, Some};
ghost use Rattle.ds_monitor.specs.Inner.Sending.{leaving, with_sent};

use ds_dev::Bus;

/// Sends a character on a line: the line alone is enabled in TCR, and TDR takes the character for
/// the lowest line that is enabled. Returns what then leaves, as its line and its byte.
#[inline(always)]
pub(crate) fn send(bus: &mut Bus, line: u8, byte: u8) -> Option<(u8, u8)>
    requires line { line < 4 }
    requires on { bus.old.serial.master_scan ≡ true }
    ensures value { result ≡ Some (line, byte) }
    ensures left { result ≡ leaving bus.old line byte }
    ensures state { bus.new ≡ with_sent bus.old line }
{
    bus.set_enables(1 << line);
    bus.transmit(u32::from(byte));
    bus.sent()
}
