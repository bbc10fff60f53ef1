//! The words of each reason, and what to write in the place of what stands there.
//! `docs/mistakes.md` has the same in a table.

pub(crate) const BYTE_ORDER_MARK: &str = "\
The line begins with a byte order mark. Save the file without it.
";

pub(crate) const NO_DIRECTIVE: &str = "There is no directive `";

pub(crate) const MACRO: &str = "This assembler has no macros. Instead of `";

pub(crate) const NO_BYTE: &str = "No label and no statement may hold `";

pub(crate) const CARRIAGE_RETURN: &str = "\
A carriage return stands within the line. End each line by a line feed.
";

pub(crate) const SPACED_COLON: &str = "A blank stands before the colon. Write `";

pub(crate) const AFTER_SPACED_COLON: &str = ":`.\n";

pub(crate) const AFTER_NOT_A_LABEL: &str = "\
` is no label.
A label is a letter or `_`, and then at most 31 letters, digits and `_`.
";

pub(crate) const SECOND_COLON: &str = "\
A second colon stands in the line, which has at most one label.
Write the second label in a line of its own.
";

pub(crate) const AFTER_UPPER_CASE: &str = "\
` has letters in upper case. Mnemonics and directives are in lower case.
";

pub(crate) const NO_MNEMONIC: &str = "There is no mnemonic `";

pub(crate) const AFTER_NO_MNEMONIC: &str = "\
`.
A label has a colon directly after it, and a mnemonic a blank.
";

pub(crate) const OF_MIPS_II: &str = "\
`.
It came with MIPS II, and the R3000 has the instructions of MIPS I alone. Write
it with these; a compiler does so with `-march=r3000`.
";

pub(crate) const OF_MIPS_III: &str = "\
`.
It came with MIPS III, and the R3000 has the instructions of MIPS I alone.
Write it with these; a compiler does so with `-march=r3000`.
";

pub(crate) const OF_MIPS_IV: &str = "\
`.
It came with MIPS IV, and the R3000 has the instructions of MIPS I alone. Write
it with these; a compiler does so with `-march=r3000`.
";

pub(crate) const OF_MIPS_32: &str = "\
`.
It came with MIPS32, and the R3000 has the instructions of MIPS I alone. Write
it with these; a compiler does so with `-march=r3000`.
";

pub(crate) const OF_FLOATING_POINT: &str = "\
`.
It is of the floating-point unit, and there is none here. Compute with integers;
a compiler does so with `-msoft-float`.
";

pub(crate) const OF_COPROCESSOR: &str = "\
`.
It is of coprocessor 2 or 3, and there is none here but the system coprocessor.
";

pub(crate) const OPERANDS: &str = "The statement wants ";

pub(crate) const OPERANDS_FOUND: &str = " operands, and has ";

pub(crate) const AFTER_OPERANDS: &str = "\
.
Each operand is written, with commas between them: `addiu $v0, $zero, 1`.
";

pub(crate) const ONE_NUMBER: &str = "The statement wants 1 operands, and has ";

pub(crate) const AFTER_ONE_NUMBER: &str = "\
.
Write each number in a line of its own: `.word 1`, and `.word 2` below it.
";

pub(crate) const AFTER_TEXT: &str = "\
` stands after the statement.
A line has one statement, and a comment begins with `#`.
";

pub(crate) const NO_REGISTER: &str = "There is no register `";

pub(crate) const AFTER_NO_REGISTER: &str = "\
`.
Registers are `$0` to `$31`, or `$zero`, `$at`, `$v0`, `$v1`, `$a0` to `$a3`,
`$t0` to `$t9`, `$s0` to `$s7`, `$k0`, `$k1`, `$gp`, `$sp`, `$fp` and `$ra`.
";

pub(crate) const OPERAND: &str = "Operand ";

pub(crate) const OPERAND_FOUND: &str = ", `";

pub(crate) const WANTED_REGISTER: &str = "\
`, is to be a register.
A register is `$` and a number or a name: `$8` or `$t0`.
";

pub(crate) const WANTED_SYSTEM_REGISTER: &str = "\
`, is to be a register of the system coprocessor.
It is `$` and its number: `$12`.
";

pub(crate) const WANTED_NUMBER: &str = "\
`, is to be a number.
A number is decimal, with or without `-`, or hexadecimal after `0x`.
";

pub(crate) const WANTED_LABEL: &str = "\
`, is to be a label.
A label is a name that a line has before its colon.
";

pub(crate) const WANTED_ADDRESS: &str = "\
`, is to be an address.
An address is a number, and a register in parentheses: `0($t0)`.
";

pub(crate) const WANTED_NUMBER_OR_LABEL: &str = "\
`, is to be a number or a label.
A number is decimal, with or without `-`, or hexadecimal after `0x`.
";

pub(crate) const NO_LABEL: &str = "There is no label `";

pub(crate) const AFTER_NO_LABEL: &str = "`.\n";

pub(crate) const LIKE_LABEL: &str = "There is `";

pub(crate) const IN_LINE: &str = "` in line ";

pub(crate) const QUOTE: &str = "`";

pub(crate) const OUT_OF_RANGE: &str = "` is not from ";

pub(crate) const TO: &str = " to ";

pub(crate) const STOP: &str = ".\n";

pub(crate) const IN_TWO_STEPS: &str = "\
.
A greater number is built in two steps: `lui $1, 0x0041` and
`ori $1, $1, 0x0008`.
";

pub(crate) const NOT_ALIGNED: &str = "Words begin at multiples of four. Write `.space ";

pub(crate) const AFTER_NOT_ALIGNED: &str = "` before it.\n";

pub(crate) const AFTER_RESERVED: &str = "\
` may not have these registers.
The two of `jalr` differ, and that of `bltzal` and `bgezal` is not `$31`.
";

pub(crate) const TARGET: &str = "Label `";

pub(crate) const AFTER_TARGET: &str = "\
` can't be reached, since it stands at no multiple of four.
Fill up before it by `.space`.
";

pub(crate) const COMMENT: &str = "\
`.
A comment begins with `#`, and a line has one statement.
";

pub(crate) const CHARACTER: &str = "\
`.
Characters are written as numbers: `.byte 72`.
";

pub(crate) const EXPRESSION: &str = "\
`.
Numbers are written out, and an address is built by `lui` and `ori`.
";

pub(crate) const OTHER_BYTE: &str = "\
`.
They hold letters, digits, `_`, blanks and `$ ( ) , - . :`.
";
