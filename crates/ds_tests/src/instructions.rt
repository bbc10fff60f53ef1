//! Words of instructions whose operands are too large for their fields.

use ds_isa::{Instr, encode};

#[test]
fn an_operand_too_large_keeps_its_low_bits(rt: HostRuntime) {
    let mut right = true;
    for (instr, word) in [
        (
            Instr::Sll {
                rd: 41,
                rt: 40,
                shamt: 34,
            },
            0x0008_4880,
        ),
        (
            Instr::Sllv {
                rd: 0xff,
                rt: 0xff,
                rs: 0xff,
            },
            0x03ff_f804,
        ),
        (Instr::Syscall { code: 0x10_0001 }, 0x0000_004c),
        (Instr::J { target: 0x400_0001 }, 0x0800_0001),
        (Instr::Mtc0 { rt: 32, rd: 46 }, 0x4080_7000),
    ] {
        right = right && encode(&instr) == word;
    }
    assert!(rt; right);
}
