//! Tests over public calls where a line of data is not enough: single calls whose answer nothing
//! writes, refused memory, writers that fail, and files and streams in memory. They stand apart from
//! the crates that they test, so that each of those is proved once. What is a table is data of `rows`.
#![tactic(auto)]

#[cfg(test)]
mod assembler;
#[cfg(test)]
mod buffers;
#[cfg(test)]
mod explained;
#[cfg(test)]
mod faults;
#[cfg(test)]
mod growths;
#[cfg(test)]
mod instructions;
#[cfg(test)]
mod limited;
#[cfg(test)]
mod log;
#[cfg(test)]
mod policy;
#[cfg(test)]
mod processes;
#[cfg(test)]
mod program;
#[cfg(test)]
mod report;
#[cfg(test)]
mod rows;
#[cfg(test)]
mod runs;
#[cfg(test)]
mod table;
