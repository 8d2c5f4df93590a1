//! A tester for networks: `plan` reads a network and writes the probes that try every rule that can be tried, `trial` also sends
//! them through a field in which some rules lose their packets and says which rules that tells of, `run` serves a session at a desk
//! whose rules change, `check` tells which policies hold in a network, and `grow` what the plan of a large generated network comes to.
#![tactic(auto)]

#[cfg(test)]
mod check_tests;
mod faults;
#[cfg(test)]
mod grow_tests;
mod limits;
mod program;
#[cfg(test)]
mod program_tests;
mod run;
mod serving;
mod session_line;
#[cfg(test)]
mod session_tests;
mod status;
#[cfg(test)]
mod status_tests;
mod summary;
#[cfg(test)]
mod tests;
#[cfg(test)]
mod trial_tests;
mod tried;
mod words;

use byte_edges::{EnvWords, StdSink, StdSource};
use program::program;
use std::io;
use std::process::ExitCode;

fn main(rt: HostRuntime) -> ExitCode {
    let given = EnvWords::new(&rt);
    let mut source = StdSource::new(rt.reader());
    let mut sink = StdSink::new(io::writer(&rt));
    let mut errors = StdSink::new(rt.stderr());
    let ending = program(&rt, rt.alloc(), &given, &mut source, &mut sink, &mut errors);
    ExitCode::from(ending.number)
}
