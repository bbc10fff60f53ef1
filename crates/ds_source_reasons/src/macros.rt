//! Words of other assemblers that this one has not, and what is written in their place.
ghost use Rattle.std.specs.Prelude.{◌≡◌, bytes_eq, map, position};
ghost use Rattle.std.specs.List.{list_any};
ghost use Rattle.ds_source_reasons.specs.Reasons.{is_macro};
ghost use Rattle.ds_source_reasons.specs.Texts.{at_place, directive_instead, macro_instead};

use ds_text::{place_among, text_at};

/// The macros of other assemblers, each with what is said after its name.
macro_rules! macro_table {
    ($pass:ident) => {
        $pass! {
            "abs" "` write `bgez $t1, x`, `addu $t0, $t1, $zero`, `subu $t0, $zero, $t1` and `x:`.\n";
            "b" "` write `beq $zero, $zero, x`, and `nop` after it.\n";
            "bal" "` write `bgezal $zero, x`, and `nop` after it.\n";
            "beqz" "` write `beq $t0, $zero, x`.\n";
            "bge" "` write `slt $at, $t0, $t1` and `beq $at, $zero, x`.\n";
            "bgeu" "` write `sltu $at, $t0, $t1` and `beq $at, $zero, x`.\n";
            "bgt" "` write `slt $at, $t1, $t0` and `bne $at, $zero, x`.\n";
            "bgtu" "` write `sltu $at, $t1, $t0` and `bne $at, $zero, x`.\n";
            "ble" "` write `slt $at, $t1, $t0` and `beq $at, $zero, x`.\n";
            "bleu" "` write `sltu $at, $t1, $t0` and `beq $at, $zero, x`.\n";
            "blt" "` write `slt $at, $t0, $t1` and `bne $at, $zero, x`.\n";
            "bltu" "` write `sltu $at, $t0, $t1` and `bne $at, $zero, x`.\n";
            "bnez" "` write `bne $t0, $zero, x`.\n";
            "la" "` build the address that `dsmon list` shows for the label, by `lui` and `ori`.\n";
            "li" "` write `addiu $t0, $zero, 5` from -32768 to 32767, `ori $t0, $zero, 40000` from 0 to 65535, else `lui` and `ori`.\n";
            "move" "` write `addu $t0, $t1, $zero`.\n";
            "mul" "` write `mult $t1, $t2` and `mflo $t0`.\n";
            "mulo" "` write `mult $t1, $t2` and `mflo $t0`.\n";
            "neg" "` write `sub $t0, $zero, $t1`.\n";
            "negu" "` write `subu $t0, $zero, $t1`.\n";
            "not" "` write `nor $t0, $t1, $zero`.\n";
            "rem" "` write `div $t1, $t2` and `mfhi $t0`.\n";
            "remu" "` write `divu $t1, $t2` and `mfhi $t0`.\n";
            "rol" "` write `sll`, `srl` and `or`.\n";
            "ror" "` write `srl`, `sll` and `or`.\n";
            "seq" "` write `xor $t0, $t1, $t2` and `sltiu $t0, $t0, 1`.\n";
            "sge" "` write `slt $t0, $t1, $t2` and `xori $t0, $t0, 1`.\n";
            "sgt" "` write `slt $t0, $t2, $t1`.\n";
            "sle" "` write `slt $t0, $t2, $t1` and `xori $t0, $t0, 1`.\n";
            "sne" "` write `xor $t0, $t1, $t2` and `sltu $t0, $zero, $t0`.\n";
        }
    };
}

/// The directives of other assemblers, each with what is said after its name.
macro_rules! directive_table {
    ($pass:ident) => {
        $pass! {
            ".align" "`. Instead write `.space N`, with as many bytes as lack to the next multiple.\n";
            ".ascii" "`. Instead write each character as a number: `.byte 72`.\n";
            ".asciiz" "`. Instead write each character as a number, and a 0 after them: `.byte 72`, `.byte 0`.\n";
            ".data" "`. A source has one image: data stand after the code, or in a page of their own.\n";
            ".text" "`. A source has one image: leave it out.\n";
            ".globl" "`. Leave it out: the policy's `start` is the address at which a process begins.\n";
            ".half" "`. Instead write its two bytes, the lower first: `.byte 1`, `.byte 0`.\n";
            ".set" "`. Leave it out: nothing is reordered, and `$at` is a register like others.\n";
            ".string" "`. Instead write each character as a number, and a 0 after them: `.byte 72`, `.byte 0`.\n";
        }
    };
}

/// Words of other processors, each with what is said after it.
macro_rules! other_table {
    ($pass:ident) => {
        $pass! {
            "call" "`.\nA call is `jal x`, and `nop` after it.\n";
            "cmp" "`.\nThere are no flags. Write `slt $at, $t0, $t1`, and branch by `$at`.\n";
            "dec" "`.\nWrite `addiu $t0, $t0, -1`.\n";
            "ecall" "`.\nWrite `syscall`, with the call's number in `$v0`.\n";
            "eret" "`.\nIt came with MIPS III. Write `jr $k0`, and `rfe` after it.\n";
            "inc" "`.\nWrite `addiu $t0, $t0, 1`.\n";
            "int" "`.\nWrite `syscall`, with the call's number in `$v0`.\n";
            "je" "`.\nWrite `beq $t0, $t1, x`, and `nop` after it.\n";
            "jmp" "`.\nWrite `j x`, and `nop` after it.\n";
            "jne" "`.\nWrite `bne $t0, $t1, x`, and `nop` after it.\n";
            "mov" "`.\nWrite `addu $t0, $t1, $zero`, or `addiu $t0, $zero, 5` for a number.\n";
            "mv" "`.\nWrite `addu $t0, $t1, $zero`.\n";
            "pop" "`.\nWrite `lw $t0, 0($sp)` and `addiu $sp, $sp, 4`.\n";
            "push" "`.\nWrite `addiu $sp, $sp, -4` and `sw $t0, 0($sp)`.\n";
            "ret" "`.\nA return is `jr $ra`, and `nop` after it.\n";
            "sar" "`.\nWrite `sra $t0, $t1, 2`.\n";
            "shl" "`.\nWrite `sll $t0, $t1, 2`.\n";
            "shr" "`.\nWrite `srl $t0, $t1, 2`.\n";
            "subi" "`.\nWrite `addi` with the number below 0: `addi $t0, $t1, -8`.\n";
            "subiu" "`.\nWrite `addiu` with the number below 0: `addiu $t0, $t1, -8`.\n";
            "svc" "`.\nWrite `syscall`, with the call's number in `$v0`.\n";
            "swi" "`.\nWrite `syscall`, with the call's number in `$v0`.\n";
        }
    };
}

macro_rules! names {
    ($($name:literal $instead:literal;)*) => { [$($name),*] };
}

macro_rules! texts {
    ($($name:literal $instead:literal;)*) => { [$($instead),*] };
}

/// The names of the macros.
static MACROS: [&str; 30] = macro_table!(names);

/// What is said after the name of each macro.
static MACROS_INSTEAD: [&str; 30] = macro_table!(texts);

/// The names of the directives of other assemblers.
static DIRECTIVES: [&str; 9] = directive_table!(names);

/// What is said after the name of each.
static DIRECTIVES_INSTEAD: [&str; 9] = directive_table!(texts);

/// The words of other processors.
pub(crate) static OTHERS: [&str; 22] = other_table!(names);

/// What is said after each.
pub(crate) static OTHERS_INSTEAD: [&str; 22] = other_table!(texts);

/// What is said after the name of any other directive.
const OTHER_DIRECTIVE: &str = "`.\nThere are `.word x`, `.byte n` and `.space n`.\n";

/// Whether a word is a macro of other assemblers.
#[tactic(auto, unfolding(crate::specs::Reasons::is_macro))]
pub(crate) fn is_macro(name: &[u8]) -> bool
    ensures { result ≡ is_macro name.now }
{
    is_among(MACROS.as_slice(), name)
}

/// Whether a word is one of these names.
pub(crate) fn is_among(names: &[&str], name: &[u8]) -> bool
    ensures { result ≡ list_any (λ m. bytes_eq m.now name.now) names.now }
{
    names.iter().any(|m| m.as_bytes() == name)
}

/// What is said after the name of a macro.
#[tactic(auto, unfolding(crate::specs::Texts::macro_instead))]
pub(crate) fn macro_instead(name: &[u8]) -> &'static str
    ensures { result.now ≡ macro_instead name.now }
{
    instead_of(
        MACROS.as_slice(),
        MACROS_INSTEAD.as_slice(),
        OTHER_DIRECTIVE,
        name,
    )
}

/// What is said after the name of a directive that there is not.
#[tactic(auto, unfolding(crate::specs::Texts::directive_instead))]
pub(crate) fn directive_instead(name: &[u8]) -> &'static str
    ensures { result.now ≡ directive_instead name.now }
{
    instead_of(
        DIRECTIVES.as_slice(),
        DIRECTIVES_INSTEAD.as_slice(),
        OTHER_DIRECTIVE,
        name,
    )
}

/// The text at the place of a name, or another where the name has none.
pub(crate) fn instead_of(
    names: &[&str],
    texts: &[&'static str],
    other: &'static str,
    name: &[u8],
) -> &'static str
    ensures { result.now ≡ at_place (position (λ m. bytes_eq m.now name.now) names.now)
        (map (λ t. t.now) texts.now) other.now }
{
    match place_among(names, name) {
        None => other,
        Some(place) => text_at(texts, place, other),
    }
}
