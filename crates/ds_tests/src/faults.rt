//! The numbers and texts of faults.
use ds_asm::{AsmFault, SourceFault};
use ds_cp0::ExceptionCode;
use ds_dev::BusError;
use ds_kernel::Halt;
use ds_mem::OutOfMemory;
use ds_policy::{EventsFault, PolicyFault, Text};
use ds_station::Fault;
use ds_tables::Regions;
use ds_text::WriteFailed;
use ds_tlb::BadRandom;
use std::alloc::{AllocError, Global};

/// The faults of the text of a source, each in a line: its number, and its text.
const OF_A_TEXT: &str = "3 3 Syntax 2
4 4 UnknownLabel 1
5 5 DoubleLabel 7
6 6 Range 65
7 7 TooLong 2
25 25 Memory
";

const FAULTS: [AsmFault; 6] = [
    AsmFault::Source(SourceFault::Syntax(2)),
    AsmFault::Source(SourceFault::UnknownLabel(1)),
    AsmFault::Source(SourceFault::DoubleLabel(7)),
    AsmFault::Source(SourceFault::Range(65)),
    AsmFault::Source(SourceFault::TooLong(2)),
    AsmFault::Memory,
];

/// Adds the number and the text of a fault.
fn push_fault(told: &mut String, fault: &AsmFault) -> Result<(), AllocError> {
    let number = fault.number();
    write!(told, "{number} {fault}\n")
}

/// Whether they have their numbers and texts.
fn are_told(alloc: Global) -> bool {
    let mut told = String::new(alloc);
    for fault in FAULTS.iter() {
        if push_fault(&mut told, fault).is_err() {
            return false;
        }
    }
    told.as_str() == OF_A_TEXT
}

#[test]
fn faults_of_a_text_have_numbers_and_texts(rt: HostRuntime) {
    assert!(rt; are_told(rt.alloc()));
}

/// The texts of faults that carry nothing.
const OF_PARTS: &str = "out of memory, out of memory, bus error, the text could not be written";

/// These faults as one text.
fn texts(alloc: Global) -> Result<String, AllocError> {
    let (memory, log) = (OutOfMemory, ds_log::OutOfMemory);
    format!(in alloc; "{memory}, {log}, {BusError}, {WriteFailed}")
}

/// Whether these faults have their texts.
fn have_texts(alloc: Global) -> bool {
    match texts(alloc) {
        Ok(told) => told.as_str() == OF_PARTS,
        Err(_) => false,
    }
}

#[test]
fn faults_have_texts(rt: HostRuntime) {
    assert!(rt; have_texts(rt.alloc()));
}

#[test]
fn faults_have_numbers(rt: HostRuntime) {
    let numbers = [
        BadRandom.number(),
        BusError.number(),
        PolicyFault::BadToml.number(),
        PolicyFault::BadRule(1).number(),
        PolicyFault::Limit("key").number(),
        Regions.number(),
        EventsFault::InputFault(1).number(),
        PolicyFault::Memory.number(),
        EventsFault::Memory.number(),
        OutOfMemory.number(),
        ds_log::OutOfMemory.number(),
    ];
    let codes = [
        ExceptionCode::Interrupt.number(),
        ExceptionCode::LoadAddress.number(),
        ExceptionCode::Overflow.number(),
    ];
    let right = numbers == [1, 2, 8, 9, 10, 11, 20, 25, 25, 25, 25];
    assert!(rt; right && codes == [0, 4, 12]);
}

/// Each fault in a line: its number, and its text.
fn lines_of(alloc: Global, faults: &[Fault]) -> Result<String, AllocError> {
    let mut text = String::new(alloc);
    for fault in faults {
        let number = fault.number();
        write!(text, "{number} {fault}\n")?;
    }
    Ok(text)
}

const OF_A_RUN: &str = "1 1 BadRandom
8 8 BadToml
9 9 BadRule 17
10 10 Limit version
10 10 Limit n
20 20 InputFault 3
21 21 Stuck
22 22 Failed
23 23 WriteFault
24 24 NoSource one.s
25 25 Memory
25 25 Memory
25 25 Memory
25 25 Memory
25 25 Memory
22 22 Failed
";

#[test]
fn a_fault_is_told_by_its_number_and_name_and_what_it_carries(
    rt: HostRuntime,
) -> Result<(), AllocError> {
    let faults = [
        Fault::from(BadRandom),
        Fault::from(PolicyFault::BadToml),
        Fault::from(PolicyFault::BadRule(17)),
        Fault::from(PolicyFault::Limit("version")),
        Fault::Limit("n"),
        Fault::from(EventsFault::InputFault(3)),
        Fault::Stuck,
        Fault::Failed,
        Fault::from(WriteFailed),
        Fault::NoSource(Text::of("one.s")),
        Fault::from(AllocError),
        Fault::from(OutOfMemory),
        Fault::from(PolicyFault::Memory),
        Fault::from(EventsFault::Memory),
        Fault::from(Halt::Memory),
        Fault::from(Halt::Failed),
    ];
    assert!(rt; lines_of(rt.alloc(), faults.as_slice())?.as_str() == OF_A_RUN);
    Ok(())
}

const OF_A_SOURCE: &str = "3 3 Syntax one.s 2
4 4 UnknownLabel one.s 1
5 5 DoubleLabel one.s 7
6 6 Range one.s 4294967296
7 7 TooLong one.s 16385
25 25 Memory
";

#[test]
fn a_fault_of_a_source_is_told_with_its_name_and_line(rt: HostRuntime) -> Result<(), AllocError> {
    let name = Text::of("one.s");
    let faults = [
        Fault::in_source(&name, AsmFault::Source(SourceFault::Syntax(2))),
        Fault::in_source(&name, AsmFault::Source(SourceFault::UnknownLabel(1))),
        Fault::in_source(&name, AsmFault::Source(SourceFault::DoubleLabel(7))),
        Fault::in_source(&name, AsmFault::Source(SourceFault::Range(4_294_967_296))),
        Fault::in_source(&name, AsmFault::Source(SourceFault::TooLong(16385))),
        Fault::in_source(&name, AsmFault::Memory),
    ];
    assert!(rt; lines_of(rt.alloc(), faults.as_slice())?.as_str() == OF_A_SOURCE);
    Ok(())
}
