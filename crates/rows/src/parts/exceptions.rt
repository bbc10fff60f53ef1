//! The exceptions of the processor.

use ds_cp0::ExceptionCode;

/// The exceptions, each at its number.
pub static EXCEPTIONS: [ExceptionCode; 13] = [
    ExceptionCode::Interrupt,
    ExceptionCode::Modification,
    ExceptionCode::LoadMiss,
    ExceptionCode::StoreMiss,
    ExceptionCode::LoadAddress,
    ExceptionCode::StoreAddress,
    ExceptionCode::FetchBus,
    ExceptionCode::DataBus,
    ExceptionCode::SystemCall,
    ExceptionCode::Breakpoint,
    ExceptionCode::ReservedInstruction,
    ExceptionCode::CoprocessorUnusable,
    ExceptionCode::Overflow,
];
