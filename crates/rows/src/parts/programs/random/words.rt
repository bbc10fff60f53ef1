//! Random words of code, most of them instructions of the table.

use super::dice::Dice;
use ds_isa::instruction_table;

/// The number of rows of the table that neither load, nor store, nor use the system coprocessor.
const OTHER_ROWS: usize = 46;

/// The number of rows after them, which load and store.
const ACCESS_ROWS: usize = 12;

/// The number of the last rows, which are those of the system coprocessor.
const SYSTEM_ROWS: usize = 7;

/// The registers that hold addresses of data are 16 to 23.
const DATA_REGISTERS: u32 = 16 << 21;

/// The registers that hold addresses of code are 24 to 31.
const CODE_REGISTERS: u32 = 24 << 21;

/// The target of a jump to the first word of the code.
const FIRST_TARGET: u32 = 0x10_0000;

/// A row of the table of instructions: the bits that it fixes, and those of its operands.
#[derive(Clone, Copy)]
struct Row {
    fixed: u32,
    operands: u32,
}

/// The bits of an operand.
macro_rules! bits_of {
    (rs) => { 0x3e0_0000 };
    (rt) => { 0x1f_0000 };
    (rd) => { 0xf800 };
    (shamt) => { 0x7c0 };
    (immediate) => { 0xffff };
    (target) => { 0x3ff_ffff };
    (code) => { 0x3ff_ffc0 };
}

macro_rules! rows {
    (special { $($funct:literal $special:ident [$($field:ident)*] zero $zero:tt $(given $condition:tt)? uses $uses:tt written $text:tt;)* }
     regimm { $($sign:literal $regimm:ident [$($place:ident)*] zero $none:tt $(given $need:tt)? uses $using:tt written $line:tt;)* }
     major { $($op:literal $major:ident [$($part:ident)*] zero $nought:tt uses $used:tt written $form:tt;)* }
     transfer { $($way:literal $transfer:ident [$($end:ident)*] zero $nil:tt uses $using_these:tt written $words:tt;)* }
     operation { $($number:literal $operation:ident [] zero [] uses $using_none:tt written $name:tt;)* }) => {
        [
            $(Row { fixed: $funct, operands: 0 $(| bits_of!($field))* },)*
            $(Row { fixed: 0x400_0000 + $sign * 0x1_0000, operands: 0 $(| bits_of!($place))* },)*
            $(Row { fixed: $op * 0x400_0000, operands: 0 $(| bits_of!($part))* },)*
            $(Row { fixed: 0x4000_0000 + $way * 0x20_0000, operands: 0 $(| bits_of!($end))* },)*
            $(Row { fixed: 0x4200_0000 + $number, operands: 0 },)*
        ]
    };
}

/// The rows, in the table's order.
static ROWS: [Row; OTHER_ROWS + ACCESS_ROWS + SYSTEM_ROWS] = instruction_table!(rows);

impl Row {
    /// Its instruction with operands of a random word.
    fn with(self, random: u32) -> u32 {
        self.fixed | (random & self.operands)
    }

    /// Its instruction with operands that let a program go on: registers 0 to 15, of a register jump one
    /// that holds an address of code; a short way of a branch, a target in the code of a jump; of an
    /// access a register that holds an address of data, and a small distance.
    fn with_mild(self, random: u32) -> u32 {
        self.with(match self.fixed >> 26 {
            0 if self.fixed == 8 || self.fixed == 9 => CODE_REGISTERS | (random & 0xe0_7800),
            0 | 16 => random & 0x1ef_7fc0,
            2 | 3 => FIRST_TARGET + random % 2048,
            1 | 4..=7 => (random & 0x1ef_0000) | way(random),
            8..=15 => random & 0x1ef_ffff,
            _ => DATA_REGISTERS | (random & 0xef_0000) | distance(random),
        })
    }
}

/// The immediate of a short branch: up to 15 words forward from its slot on, or once in 8 times up
/// to 8 words backward.
fn way(random: u32) -> u32 {
    let forward = random % 16;
    if random >> 29 == 0 {
        (forward / 2).wrapping_sub(8) & 0xffff
    } else {
        forward
    }
}

/// The immediate of an access: below 256, and as a rule that of a whole word.
fn distance(random: u32) -> u32 {
    if random >> 28 == 0 {
        random & 0xff
    } else {
        random & 0xfc
    }
}

/// A random word of code: an instruction with operands that let its program go on, but now and then
/// one with any operands, or any word at all. Of 64 words `system` are for the system coprocessor.
pub fn random_word(dice: &mut Dice, system: u32) -> u32 {
    let row = random_row(dice, system);
    let random = dice.word();
    match dice.word() % 64 {
        0 => random,
        1 | 2 => row.with(random),
        _ => row.with_mild(random),
    }
}

/// A random row: of 64, `system` are for the system coprocessor, and 16 load or store.
fn random_row(dice: &mut Dice, system: u32) -> Row {
    let group = dice.word() % 64;
    let number = dice.word() as usize;
    if group < system {
        ROWS[OTHER_ROWS + ACCESS_ROWS + number % SYSTEM_ROWS]
    } else if group >= 48 {
        ROWS[OTHER_ROWS + number % ACCESS_ROWS]
    } else {
        ROWS[number % OTHER_ROWS]
    }
}
