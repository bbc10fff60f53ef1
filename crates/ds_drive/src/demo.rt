//! The demonstration: one process that writes `A` to its console and exits.
ghost use Rattle.std.specs.Prelude.{IfErr, OnOk};
ghost use Rattle.ds_station.specs.Alone.{WritesEachAlone};
ghost use Rattle.ds_station.specs.Headline.{Along, Begins, EndsBy, Followed, Writes, WritesReally};
ghost use Rattle.ds_station.specs.Written.{WritesWholeGuarded};
ghost use Rattle.ds_drive.specs.Demo.{demo_inputs, demo_loaded};

use ds_station::{Fault, run_files};
use std::alloc::Global;
use std::io::Write;

const POLICY: &str = "version = 1
frames = 16
[[process]]
start = 0x00400000
line = 0
[[page]]
name = \"code\"
source = \"one.s\"
part = 0
[[page]]
name = \"data\"
[[rule]]
process = 1
address = 0x00400000
right = \"read\"
page = \"code\"
";

/// `addiu $4,$0,65`, `addiu $2,$0,1`, `syscall` puts `A`; `addiu $2,$0,0`, `syscall` exits.
const SOURCE: &str = ".word 0x24040041
.word 0x24020001
.word 0x0000000C
.word 0x24020000
.word 0x0000000C
";

/// The time at which the run ends at the latest.
const MOST_TIME: u64 = 100;

/// Where Random starts.
const RANDOM: u8 = 63;

/// Runs the demonstration and writes its consoles, its log and its time.
pub fn run_demo<W: Write>(alloc: Global, out: &mut W) -> Result<(), Fault>
    ensures ok { OnOk result (Begins demo_inputs
        (Writes (W.contents out.old) (W.contents out.new) 100)) }
    ensures real { OnOk result (Begins demo_loaded
        (WritesReally Along (W.contents out.old) (W.contents out.new) 100 63)) }
    ensures followed { OnOk result (Begins demo_loaded
        (WritesReally Followed (W.contents out.old) (W.contents out.new) 100 63)) }
    ensures guarded { OnOk result (Begins demo_inputs
        (WritesWholeGuarded (W.contents out.old) (W.contents out.new) 100)) }
    ensures alone { OnOk result
        (WritesEachAlone (W.contents out.old) (W.contents out.new) demo_inputs) }
    ensures err { IfErr result (λ fault.
        EndsBy fault demo_inputs (W.contents out.old) (W.contents out.new) 100) }
{
    let sources = [("one.s", SOURCE.as_bytes())];
    run_files(
        alloc,
        POLICY.as_bytes(),
        sources.as_slice(),
        &[],
        MOST_TIME,
        RANDOM,
        out,
    )
}
