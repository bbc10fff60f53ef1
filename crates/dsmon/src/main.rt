//! The program `dsmon`: it runs a simulated MIPS workstation under a page policy.
#![tactic(auto)]

use ds_drive::{
    SystemFiles, drive_bare_debug, drive_with_input, is_bare_debug, program_words, refuse_words,
};
use std::process::ExitCode;

fn main(rt: HostRuntime) -> ExitCode {
    let mut files = SystemFiles::new(&rt);
    let mut input = rt.stdin();
    let mut out = rt.stdout();
    let mut err = rt.stderr();
    let status = match program_words(&rt) {
        Ok(words) => {
            let (alloc, words) = (rt.alloc(), words.as_slice());
            if is_bare_debug(words) {
                drive_bare_debug(alloc, words, &mut files, &mut input, &mut out, &mut err)
            } else {
                drive_with_input(alloc, words, &mut files, &mut input, &mut out, &mut err)
            }
        }
        Err(error) => refuse_words(&mut err, error.kind()),
    };
    ExitCode::from(status)
}
