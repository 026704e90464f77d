//! Reads lines from standard input, carries them out on a buffer of glyphs and prints the buffer.
#![tactic(auto)]

use hbhook_lines::run_lines;
use std::process::ExitCode;

fn main(rt: HostRuntime) -> ExitCode {
    ExitCode::from(run_lines(rt.alloc(), rt.stdin(), rt.stdout(), rt.stderr()))
}
