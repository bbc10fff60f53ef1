//! The words for each reason of a denial, and for each refusal of a command: what they mean, and how
//! the policy, the input or the program is mended.
ghost use Rattle.std.specs.Prelude.{◌≡◌};
ghost use Rattle.ds_log_reasons.specs.Words.{command_mend, command_words, mend_words, reason_words};

use crate::reason::Reason;

/// What a reason means.
#[tactic(auto, unfolding(crate::specs::Words::reason_words))]
pub fn reason_words(reason: Reason) -> &'static [u8]
    ensures { result.now ≡ reason_words reason }
{
    match reason {
        Reason::NoEntry => b"nothing is granted at this page",
        Reason::NoCode => b"nothing is granted at this page",
        Reason::Forbidden => b"it grants nothing",
        Reason::Ended => b"it granted the page, and its `until` has come",
        Reason::Revoked => b"it took the right away",
        Reason::ReadAlone => b"it grants reading alone",
        Reason::Narrowed => b"it granted writing, and a `narrow` left reading alone",
        Reason::GrantedToRead => b"the page may be read alone",
        Reason::GivenToRead => b"it was given for reading, or narrowed",
        Reason::Unaligned => b"the address is not a multiple of the size",
        Reason::Kernel => b"no process may use an address from 80000000 on",
        Reason::CallInSlot => b"8: a call may not be in the slot of a branch",
        Reason::Breakpoint => b"9: a `break` parks its process",
        Reason::NoInstruction => b"10: the word is no instruction of the processor",
        Reason::BranchInSlot => b"10: a branch may not be in the slot of a branch",
        Reason::Coprocessor => b"11: a process may use no coprocessor",
        Reason::Overflow => b"12: the result does not fit into 32 bits with a sign",
        Reason::NoReceiver => {
            b"12: there is no process of the number in register 5, or it has ended"
        }
        Reason::NoPage => b"13: an address is not a multiple of 4096, or is 80000000 or more",
        Reason::NothingToGive => b"14: there is no right there to give",
        Reason::MayNotGive => b"15: the process may not give it on",
        Reason::WrongMode => {
            b"15: there is no such mode, or it asks to write what may only be read"
        }
        Reason::IsTaken => b"16: the receiver has an entry at its address already",
        Reason::IsFull => b"17: the receiver has 256 entries",
        Reason::FifthRegion => b"11: the receiver's address would be in a fifth region of 4 MiB",
        Reason::NoCopy => b"18: no page is left for a copy",
        Reason::Unknown => b"nothing more is known of it",
    }
}

/// How it is mended.
#[tactic(auto, unfolding(crate::specs::Words::mend_words))]
pub fn mend_words(reason: Reason) -> &'static [u8]
    ensures { result.now ≡ mend_words reason }
{
    match reason {
        Reason::NoEntry => {
            b"add a `[[rule]]` for this process and page address, or correct the address"
        }
        Reason::NoCode => {
            b"end the program by `exit` before it comes here, correct the jump, or add a `[[rule]]` for this page"
        }
        Reason::Forbidden => b"write another `right` in that rule, or correct the address",
        Reason::Ended => b"write a later `until` in that rule, or leave it out",
        Reason::Revoked => b"leave that command out, or grant the page anew by a later command",
        Reason::ReadAlone => b"write the right `write` there, or store to another page",
        Reason::Narrowed => b"leave the `narrow` out, or store before it comes",
        Reason::GrantedToRead => {
            b"write the right `write` in that command, leave out a `narrow`, or store to another page"
        }
        Reason::GivenToRead => {
            b"give it with mode 2 in register 7, leave out a `narrow`, or store to another page"
        }
        Reason::Unaligned => {
            b"correct the address: words are at multiples of 4, and halves at multiples of 2"
        }
        Reason::Kernel => b"correct the address: a process has those below 80000000",
        Reason::CallInSlot => b"move the `syscall` away, and put a `nop` after the branch",
        Reason::Breakpoint => b"leave the `break` out",
        Reason::NoInstruction => {
            b"end the program by `exit` before it runs into its data, or correct the target of the jump"
        }
        Reason::BranchInSlot => b"put a `nop` between the two",
        Reason::Coprocessor => {
            b"leave the instruction out: the system's registers are the monitor's, and there is no floating point"
        }
        Reason::Overflow => {
            b"write `addu`, `addiu` or `subu`, which wrap around, or use smaller numbers"
        }
        Reason::NoReceiver => {
            b"write the number of a process that runs into register 5, or give before it ends"
        }
        Reason::NoPage => b"write addresses of pages below 80000000 into registers 4 and 6",
        Reason::NothingToGive => {
            b"correct the address in register 4, or give before the right goes"
        }
        Reason::MayNotGive => b"write `give = true` in that rule, or `give` after that `grant`",
        Reason::WrongMode => {
            b"write 1, 2 or 3 into register 7; for 2 the giver needs the right `write`"
        }
        Reason::IsTaken => {
            b"write another address into register 6, or let the receiver `drop` that entry before"
        }
        Reason::IsFull => b"let the receiver `drop` one before",
        Reason::FifthRegion => b"write an address near one that the receiver has into register 6",
        Reason::NoCopy => {
            b"write a larger `frames` in the policy, or share the page by mode 1 or 2"
        }
        Reason::Unknown => b"nothing can be told",
    }
}

/// What the number of a command's refusal means.
#[tactic(auto, unfolding(crate::specs::Words::command_words))]
pub fn command_words(number: u32) -> &'static [u8]
    ensures { result.now ≡ command_words number }
{
    if number == 11 {
        b"the address would be in a fifth region of 4 MiB"
    } else if number == 12 {
        b"there is no such process, or it has ended"
    } else if number == 13 {
        b"the address is not a multiple of 4096, or is 80000000 or more"
    } else if number == 14 {
        b"there is no entry at the address, or its right is none"
    } else if number == 15 {
        b"the process is not parked"
    } else if number == 16 {
        b"an entry with a right stands there already"
    } else if number == 17 {
        b"the process has 256 entries"
    } else {
        b"nothing more is known of it"
    }
}

/// How it is mended.
#[tactic(auto, unfolding(crate::specs::Words::command_mend))]
pub fn command_mend(number: u32) -> &'static [u8]
    ensures { result.now ≡ command_mend number }
{
    if number == 11 {
        b"use an address near one that the process has"
    } else if number == 12 {
        b"name a process that runs still, or let the command come earlier"
    } else if number == 13 {
        b"write the address of a page, below 80000000"
    } else if number == 14 {
        b"write the address of an entry that the process has at that time"
    } else if number == 15 {
        b"let the command come after the process is parked"
    } else if number == 16 {
        b"let a `drop` of that address come before"
    } else if number == 17 {
        b"let a `drop` come before"
    } else {
        b"nothing can be told"
    }
}
