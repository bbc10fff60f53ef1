//! What was found where a policy, a source or an input is refused, and how it is mended.
//! `docs/refusals.md` has the same words: `tools/refusals.py --check` tells whether it has.

/// 1 `BadRandom`.
pub(crate) const BAD_RANDOM: &str = "\
R is outside 8 to 63, where the register Random goes: the first 8 slots of
the translation buffer are wired. `--random 7` and `--random 64` are refused
so. Leave it out, and it is 63. A guest can tell one start from another only
by touches (`docs/machine.md`): by registers 26 and 27, and by a register
whose load is late.
";

/// 3 `Syntax`.
pub(crate) const SYNTAX: &str = "\
The line cannot be read. `addiu $v0, 1` lacks a register: write
`addiu $v0, $zero, 1`. `ADDIU` and `li $v0, 1` are refused too: mnemonics
are in lower case, and there are no macros. The address of a load is written
as `0($t0)`.
";

/// 4 `UnknownLabel`.
pub(crate) const UNKNOWN_LABEL: &str = "\
A branch, a jump or `.word` names a label that no line has, such as
`j there` with no line `there:`. Upper and lower case differ.
";

/// 5 `DoubleLabel`.
pub(crate) const DOUBLE_LABEL: &str = "\
An earlier line has the label already: with `x: nop` in line 1 and again in
line 2, line 2 is told.
";

/// 6 `Range`.
pub(crate) const RANGE: &str = "\
One of four things. A number does not fit: `addiu $1, $0, 40000`, since the
number goes from -32768 to 32767; build a greater one in two steps,
`lui $1, 0x0041` and `ori $1, $1, 0x0008`. A word is not at a multiple of
four, after `.byte` or `.space`; fill up by `.space`. The form is reserved,
such as `jalr $5, $5`. A target cannot be reached.
";

/// 7 `TooLong`.
pub(crate) const TOO_LONG: &str = "\
The image passes 65,536 bytes: `.space 65536`, `nop`. An image has 16 pages;
a page that is to be zero needs no source.
";

/// 8 `BadToml`.
pub(crate) const BAD_TOML: &str = "\
The text is no TOML document, such as `version =`, a name whose quotation
marks are not closed, or a key that stands twice. Numbers may be written as
0x00400000.
";

/// 9 `BadRule`.
pub(crate) const BAD_RULE: &str = "\
Rules count from 1 in the order in which they stand. A rule names a process
of the policy, an address that is a multiple of 0x1000 below 0x80000000, and
a right: `\"none\"` and nothing else, or `\"read\"` or `\"write\"` with a page of
the policy and perhaps `give = true`; in version 2 perhaps `until`, a number
of ticks from 1 to 1000000000. No earlier rule of its process has its
address; it is not the 257th of its process, and not in a fifth region of 4
MiB. `docs/policy.md`, \"A rule that is refused\", has examples.
";

/// 10 `Limit`.
pub(crate) const LIMIT: &str = "\
The value of the root key is missing, of another type, or out of range.
`version` is 1 or 2, `frames` from 1 to 1024, `rate` 0 or from 3 to 15;
there are 1 to 100 `[[process]]`, each with `start` and `line`, as many
`[[page]]` as `frames` at most, and 999 `[[rule]]` at most.
`docs/policy.md`, \"A key that is refused\", has examples. `Limit key` says
that there is a root key of another name. `Limit n` is of `run_files` and
`run_policy` alone: n is above 1000000000, which the program refuses among
its words.
";

/// 20 `InputFault`.
pub(crate) const INPUT_FAULT: &str = "\
The line is no event, comes earlier than the event before it, or is the
4,097th event; or it is a `grant` of a page that the policy has not, such as
`1 grant 1 00410000 dat read` where the page is `data`. Lines count from 1,
blank ones and comments too. To keep the line for later, begin it with `#`,
with nothing before it. `docs/policy.md`, \"An input\", has what a line may
be.
";

/// 24 `NoSource`.
pub(crate) const NO_SOURCE: &str = "\
`run_files` or `run_policy` was given no text of that name. The program
answers 26 in its place.
";

/// 25 `Memory`.
pub(crate) const MEMORY: &str = "\
The host has no memory left. End other programs there, or raise the limit
that the shell sets by `ulimit -v`.
";

/// 26 `Unreadable`.
pub(crate) const UNREADABLE: &str = "\
There is no such file, it may not be read, or it has more than 16,777,216
bytes. POLICY and INPUT are named by the words, a source by the policy, and
each name is looked up from the folder in which the command is given.

    dsmon: 26 Unreadable one.s

Where the file is there, go to its folder before the command, or write its
path: `source = \"guests/one.s\"`.
";
