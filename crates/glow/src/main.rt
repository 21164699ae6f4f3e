// The program: its exit status is what the command answers.
#![tactic(auto)]

use std::process::ExitCode;

fn main(rt: HostRuntime) -> ExitCode {
    match command::glow_command(&rt) {
        0 => ExitCode::SUCCESS,
        _ => ExitCode::FAILURE,
    }
}
