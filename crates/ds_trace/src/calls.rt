//! The words of a call.
ghost use Rattle.std.specs.Prelude.{◌≡◌, ◌++◌, OnOk};
ghost use Rattle.std.specs.String.{string_bytes};
ghost use Rattle.ds_trace.specs.Calls.{call_answer_text, call_text, call_told, is_unknown, mode_text, refusal_text, unknown_text, words_of_call};

use ds_procs::Call;
use ds_text::string::{push_byte, push_decimal, push_hex};
use ds_text::words;
use std::alloc::AllocError;

/// How a page is given: for reading, for writing, as a copy, or by a number that means nothing.
fn push_mode(line: &mut String, mode: u32) -> Result<(), AllocError>
    ensures { OnOk result (string_bytes line.new ≡ string_bytes line.old ++ mode_text mode) }
{
    match mode {
        1 => line.push_str(words::READ),
        2 => line.push_str(words::WRITE),
        3 => line.push_str("copy"),
        _ => push_decimal(line, u64::from(mode)),
    }
}

/// Adds a give with its arguments.
fn push_give(
    line: &mut String,
    address: u32,
    receiver: u32,
    to: u32,
    mode: u32,
) -> Result<(), AllocError>
    ensures { OnOk result (string_bytes line.new ≡ string_bytes line.old
        ++ words_of_call (Call.Give address receiver to mode)) }
{
    line.push_str("give ")?;
    push_hex(line, address)?;
    line.push_str(" ")?;
    push_decimal(line, u64::from(receiver))?;
    line.push_str(" ")?;
    push_hex(line, to)?;
    line.push_str(" ")?;
    push_mode(line, mode)
}

/// Adds a take with its arguments.
fn push_take(line: &mut String, process: u32, address: u32) -> Result<(), AllocError>
    ensures { OnOk result (string_bytes line.new ≡ string_bytes line.old
        ++ words_of_call (Call.Take process address)) }
{
    line.push_str("take ")?;
    push_decimal(line, u64::from(process))?;
    line.push_str(" ")?;
    push_hex(line, address)
}

/// Adds a call with its arguments.
fn push_words(line: &mut String, call: Call) -> Result<(), AllocError>
    ensures { OnOk result (string_bytes line.new ≡ string_bytes line.old ++ words_of_call call) }
{
    match call {
        Call::Exit => line.push_str("exit"),
        Call::Put { byte } => {
            line.push_str("put ")?;
            push_byte(line, byte)
        }
        Call::Get => line.push_str("get"),
        Call::Yield => line.push_str("yield"),
        Call::Time => line.push_str("time"),
        Call::Own => line.push_str("self"),
        Call::Give {
            address,
            receiver,
            to,
            mode,
        } => push_give(line, address, receiver, to, mode),
        Call::Take { process, address } => push_take(line, process, address),
        Call::Drop { address } => {
            line.push_str("drop ")?;
            push_hex(line, address)
        }
        Call::Wait => line.push_str("wait"),
        Call::Unknown => line.push_str("unknown"),
    }
}

/// Adds the call of a unit, if it is one.
fn push_call(line: &mut String, call: Option<Call>) -> Result<(), AllocError>
    ensures { OnOk result (string_bytes line.new ≡ string_bytes line.old ++ call_text call) }
{
    match call {
        Some(call) => {
            line.push_str("  ")?;
            push_words(line, call)
        }
        None => Ok(()),
    }
}

/// Whether a call is one whose number is no call's.
fn is_unknown(call: Option<Call>) -> bool
    ensures { result ≡ is_unknown call }
{
    match call {
        Some(Call::Unknown) => true,
        _ => false,
    }
}

/// Adds that a number is no call's.
fn push_unknown(line: &mut String, number: u32) -> Result<(), AllocError>
    ensures { OnOk result
        (string_bytes line.new ≡ string_bytes line.old ++ unknown_text number) }
{
    line.push_str("  unknown ")?;
    push_decimal(line, u64::from(number))?;
    line.push_str(": no call has this number")
}

/// Adds the call of a unit, if it is one, by whether it is told that a number is no call's, and by
/// that number.
pub(crate) fn push_told_call(
    line: &mut String,
    told: bool,
    number: u32,
    call: Option<Call>,
) -> Result<(), AllocError>
    ensures { OnOk result
        (string_bytes line.new ≡ string_bytes line.old ++ call_told told number call) }
{
    if told && is_unknown(call) {
        push_unknown(line, number)
    } else {
        push_call(line, call)
    }
}

/// The name of a refusal by its number, after a blank.
fn refusal_text(number: u32) -> &'static str
    ensures { result.now ≡ refusal_text number }
{
    match number {
        11 => " Regions",
        12 => " NoProcess",
        13 => " NotPage",
        14 => " NoGrant",
        15 => " NotAllowed",
        16 => " Taken",
        17 => " TableFull",
        18 => " NoFrames",
        19 => " NotGiven",
        _ => "",
    }
}

/// The refusal of a call about grants, where its answer is one.
fn call_answer_text(call: Option<Call>, answer: u32) -> &'static str
    ensures { result.now ≡ call_answer_text call answer }
{
    match call {
        Some(Call::Give { .. }) => refusal_text(answer),
        Some(Call::Take { .. }) => refusal_text(answer),
        Some(Call::Drop { .. }) => refusal_text(answer),
        _ => "",
    }
}

/// Adds the refusal of a call about grants, where its answer is one.
pub(crate) fn push_answer(
    line: &mut String,
    call: Option<Call>,
    answer: u32,
) -> Result<(), AllocError>
    ensures { OnOk result
        (string_bytes line.new ≡ string_bytes line.old ++ call_answer_text call answer) }
{
    line.push_str(call_answer_text(call, answer))
}
