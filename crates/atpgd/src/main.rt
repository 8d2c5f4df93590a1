//! A server for many agents at once: it reads a network, opens a desk over it, and serves sessions over TCP on 127.0.0.1. Each
//! reply is that of one history of all that was asked.
#![tactic(auto)]

mod daemon;
#[cfg(test)]
mod meeting_tests;
mod program;
mod ready;
mod serve;
mod serve_one;
mod status;
#[cfg(test)]
mod tcp_tests;
#[cfg(test)]
mod tests;
mod words;
mod work_end;

use byte_edges::{EnvWords, StdSink, StdSource, TcpHarbour};
use program::program;
use std::process::ExitCode;

fn main(rt: HostRuntime) -> ExitCode {
    let given = EnvWords::new(&rt);
    let mut source = StdSource::new(rt.reader());
    let mut harbour = TcpHarbour::new(&rt);
    let mut errors = StdSink::new(rt.stderr());
    let ending = program(
        &rt,
        rt.alloc(),
        &given,
        &mut source,
        &mut harbour,
        &mut errors,
    );
    ExitCode::from(ending.number)
}
