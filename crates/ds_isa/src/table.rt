//! The table of instructions as a macro: decoding, encoding, what an instruction does, and the
//! forms of a source text are each a pass over it.

/// The one table of instructions in code: `instruction_table!(pass)` calls the macro `pass` with it.
///
/// Its groups are operation 0, told apart by the function; operation 1, told apart by the number in
/// rt; the other operations; and of the system coprocessor the moves, told apart by the number in
/// rs, and the operations, told apart by the function.
///
/// A row has its code, its variant of `Instr`, its operands by the fields that hold them, the fields
/// that must be zero, and a condition on its registers where it has one. `uses` has the registers
/// that it reads, writes and links, and the shape of its effect, which is straight where none is
/// given. `written` has its name in a source text, and its operands as they are written there.
#[macro_export]
macro_rules! instruction_table {
    ($pass:ident $($subject:ident)?) => {
        $pass! {
            $($subject)?
            special {
                0 Sll [rd rt shamt] zero [rs] uses { reads [rt] writes [rd] } written { "sll" [rd rt shamt] };
                2 Srl [rd rt shamt] zero [rs] uses { reads [rt] writes [rd] } written { "srl" [rd rt shamt] };
                3 Sra [rd rt shamt] zero [rs] uses { reads [rt] writes [rd] } written { "sra" [rd rt shamt] };
                4 Sllv [rd rt rs] zero [shamt] uses { reads [rs rt] writes [rd] } written { "sllv" [rd rt rs] };
                6 Srlv [rd rt rs] zero [shamt] uses { reads [rs rt] writes [rd] } written { "srlv" [rd rt rs] };
                7 Srav [rd rt rs] zero [shamt] uses { reads [rs rt] writes [rd] } written { "srav" [rd rt rs] };
                8 Jr [rs] zero [rt rd shamt] uses { reads [rs] is [branch] } written { "jr" [rs] };
                9 Jalr [rd rs] zero [rt shamt] given { differ [rd rs] } uses { reads [rs] writes [rd] links [rd] is [branch] } written { "jalr" [link rs] };
                12 Syscall [code] zero [] uses { reads [] is [trap] } written { "syscall" [code] };
                13 Break [code] zero [] uses { reads [] is [trap] } written { "break" [code] };
                16 Mfhi [rd] zero [rs rt shamt] uses { reads [] writes [rd] } written { "mfhi" [rd] };
                17 Mthi [rs] zero [rt rd shamt] uses { reads [rs] } written { "mthi" [rs] };
                18 Mflo [rd] zero [rs rt shamt] uses { reads [] writes [rd] } written { "mflo" [rd] };
                19 Mtlo [rs] zero [rt rd shamt] uses { reads [rs] } written { "mtlo" [rs] };
                24 Mult [rs rt] zero [rd shamt] uses { reads [rs rt] } written { "mult" [rs rt] };
                25 Multu [rs rt] zero [rd shamt] uses { reads [rs rt] } written { "multu" [rs rt] };
                26 Div [rs rt] zero [rd shamt] uses { reads [rs rt] } written { "div" [rs rt] };
                27 Divu [rs rt] zero [rd shamt] uses { reads [rs rt] } written { "divu" [rs rt] };
                32 Add [rd rs rt] zero [shamt] uses { reads [rs rt] writes [rd] } written { "add" [rd rs rt] };
                33 Addu [rd rs rt] zero [shamt] uses { reads [rs rt] writes [rd] } written { "addu" [rd rs rt] };
                34 Sub [rd rs rt] zero [shamt] uses { reads [rs rt] writes [rd] } written { "sub" [rd rs rt] };
                35 Subu [rd rs rt] zero [shamt] uses { reads [rs rt] writes [rd] } written { "subu" [rd rs rt] };
                36 And [rd rs rt] zero [shamt] uses { reads [rs rt] writes [rd] } written { "and" [rd rs rt] };
                37 Or [rd rs rt] zero [shamt] uses { reads [rs rt] writes [rd] } written { "or" [rd rs rt] };
                38 Xor [rd rs rt] zero [shamt] uses { reads [rs rt] writes [rd] } written { "xor" [rd rs rt] };
                39 Nor [rd rs rt] zero [shamt] uses { reads [rs rt] writes [rd] } written { "nor" [rd rs rt] };
                42 Slt [rd rs rt] zero [shamt] uses { reads [rs rt] writes [rd] } written { "slt" [rd rs rt] };
                43 Sltu [rd rs rt] zero [shamt] uses { reads [rs rt] writes [rd] } written { "sltu" [rd rs rt] };
            }
            regimm {
                0 Bltz [rs immediate] zero [] uses { reads [rs] is [branch] } written { "bltz" [rs label] };
                1 Bgez [rs immediate] zero [] uses { reads [rs] is [branch] } written { "bgez" [rs label] };
                16 Bltzal [rs immediate] zero [] given { other_than_31 [rs] } uses { reads [rs] writes [31] links [31] is [branch] } written { "bltzal" [rs label] };
                17 Bgezal [rs immediate] zero [] given { other_than_31 [rs] } uses { reads [rs] writes [31] links [31] is [branch] } written { "bgezal" [rs label] };
            }
            major {
                2 J [target] zero [] uses { reads [] is [branch] } written { "j" [jump] };
                3 Jal [target] zero [] uses { reads [] writes [31] links [31] is [branch] } written { "jal" [jump] };
                4 Beq [rs rt immediate] zero [] uses { reads [rs rt] is [branch] } written { "beq" [rs rt label] };
                5 Bne [rs rt immediate] zero [] uses { reads [rs rt] is [branch] } written { "bne" [rs rt label] };
                6 Blez [rs immediate] zero [rt] uses { reads [rs] is [branch] } written { "blez" [rs label] };
                7 Bgtz [rs immediate] zero [rt] uses { reads [rs] is [branch] } written { "bgtz" [rs label] };
                8 Addi [rt rs immediate] zero [] uses { reads [rs] writes [rt] } written { "addi" [rt rs signed] };
                9 Addiu [rt rs immediate] zero [] uses { reads [rs] writes [rt] } written { "addiu" [rt rs signed] };
                10 Slti [rt rs immediate] zero [] uses { reads [rs] writes [rt] } written { "slti" [rt rs signed] };
                11 Sltiu [rt rs immediate] zero [] uses { reads [rs] writes [rt] } written { "sltiu" [rt rs signed] };
                12 Andi [rt rs immediate] zero [] uses { reads [rs] writes [rt] } written { "andi" [rt rs unsigned] };
                13 Ori [rt rs immediate] zero [] uses { reads [rs] writes [rt] } written { "ori" [rt rs unsigned] };
                14 Xori [rt rs immediate] zero [] uses { reads [rs] writes [rt] } written { "xori" [rt rs unsigned] };
                15 Lui [rt immediate] zero [rs] uses { reads [] writes [rt] } written { "lui" [rt unsigned] };
                32 Lb [rt rs immediate] zero [] uses { reads [rs] writes [rt] is [load Byte] } written { "lb" [rt indexed] };
                33 Lh [rt rs immediate] zero [] uses { reads [rs] writes [rt] is [load Half] } written { "lh" [rt indexed] };
                34 Lwl [rt rs immediate] zero [] uses { reads [rs rt] writes [rt] is [load Part] } written { "lwl" [rt indexed] };
                35 Lw [rt rs immediate] zero [] uses { reads [rs] writes [rt] is [load Word] } written { "lw" [rt indexed] };
                36 Lbu [rt rs immediate] zero [] uses { reads [rs] writes [rt] is [load Byte] } written { "lbu" [rt indexed] };
                37 Lhu [rt rs immediate] zero [] uses { reads [rs] writes [rt] is [load Half] } written { "lhu" [rt indexed] };
                38 Lwr [rt rs immediate] zero [] uses { reads [rs rt] writes [rt] is [load Part] } written { "lwr" [rt indexed] };
                40 Sb [rt rs immediate] zero [] uses { reads [rs rt] is [store Byte] } written { "sb" [rt indexed] };
                41 Sh [rt rs immediate] zero [] uses { reads [rs rt] is [store Half] } written { "sh" [rt indexed] };
                42 Swl [rt rs immediate] zero [] uses { reads [rs rt] is [store Part] } written { "swl" [rt indexed] };
                43 Sw [rt rs immediate] zero [] uses { reads [rs rt] is [store Word] } written { "sw" [rt indexed] };
                46 Swr [rt rs immediate] zero [] uses { reads [rs rt] is [store Part] } written { "swr" [rt indexed] };
            }
            transfer {
                0 Mfc0 [rt rd] zero [below_rd] uses { reads [] writes [rt] is [system] } written { "mfc0" [rt system] };
                4 Mtc0 [rt rd] zero [below_rd] uses { reads [rt] is [system] } written { "mtc0" [rt system] };
            }
            operation {
                1 Tlbr [] zero [] uses { reads [] is [system] } written { "tlbr" [] };
                2 Tlbwi [] zero [] uses { reads [] is [system] } written { "tlbwi" [] };
                6 Tlbwr [] zero [] uses { reads [] is [system] } written { "tlbwr" [] };
                8 Tlbp [] zero [] uses { reads [] is [system] } written { "tlbp" [] };
                16 Rfe [] zero [] uses { reads [] is [system] } written { "rfe" [] };
            }
        }
    };
}
