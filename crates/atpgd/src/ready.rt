//! What there is before lines are served.
ghost use Rattle.std.specs.Prelude.{◌≡◌, ◌↔◌, ℕ, List, map, IfOk, IfErr, IsErrOf};
ghost use Rattle.std.specs.List.{range_with_len};
ghost use Rattle.std.specs.String.{string_bytes};
ghost use Rattle.command_line.specs.Table.{IsLine};
ghost use Rattle.desk_turns.specs.Shared.{fresh};
ghost use Rattle.program_edges.specs.Input.{InputRefused};
ghost use Rattle.atpgd.specs.CommandLine.{names, IsAsked, IsBadAt, AreInRange};
ghost use Rattle.atpgd.specs.Opening.{new_desk, IsReady, ReadyRefused};

use crate::status::Status;
use crate::words::{Options, parse};
use byte_edges::Source;
use desk_core::Desk;
use desk_turns::{Pass, SharedDesk};
use net_types::Network;
use no_memory::NoMemory;
use program_edges::{InputFault, read_network};
use std::alloc::Global;

/// A desk over the network that was read, with the passes of those that are to serve.
#[derive(Drop)]
pub struct ReadyDesk {
    pub opts: Options,
    pub desk: SharedDesk,
    /// All passes of the desk, in the order of their numbers.
    pub passes: Vec<Pass>,
}

/// Reads a network from the source and opens a desk over it, as the words ask. The refusals come in the order words, reading,
/// length, network; being out of memory may come in place of any answer but `BadWords`.
pub fn ready<S: Source>(
    alloc: Global,
    words: &[String],
    source: &mut S,
) -> Result<ReadyDesk, Status>
    ensures ok { IfOk result (λ r. IsReady (map string_bytes words.now) S.left S.given S.ends source.old source.new r.opts r.desk r.passes.items) }
    ensures err { IfErr result (λ status. ReadyRefused (map string_bytes words.now) S.left S.given S.ends S.faults source.old source.new status) }
    ensures bad_words { (at : ℕ) → IsErrOf result (Status.BadWords at) ↔ IsBadAt (map string_bytes words.now) at }
    ensures range { IfOk result (λ r. AreInRange r.opts) }
{
    match parse(words) {
        Ok(opts) => ready_for(alloc, opts, source),
        Err(at) => Err(Status::BadWords { at }),
    }
}

/// The same for options, the words for which were good.
fn ready_for<S: Source>(alloc: Global, opts: Options, source: &mut S) -> Result<ReadyDesk, Status>
    requires { AreInRange opts }
    ensures ok { (words : List (List ℕ)) → IsAsked words opts → IfOk result (λ r. IsReady words S.left S.given S.ends source.old source.new r.opts r.desk r.passes.items) }
    ensures err { (words : List (List ℕ)) → IsLine names words → IfErr result (λ status. ReadyRefused words S.left S.given S.ends S.faults source.old source.new status) }
    ensures good { (at : ℕ) → IsErrOf result (Status.BadWords at) → ⊥ }
    ensures same { IfOk result (λ r. r.opts ≡ opts) }
{
    match read_network(alloc, source) {
        Ok(net) => match open(alloc, opts, net) {
            Ok(ready) => Ok(ready),
            Err(_) => Err(Status::NoMemory),
        },
        Err(InputFault::ReadFault) => Err(Status::ReadFault),
        Err(InputFault::TooLong) => Err(Status::TooLong),
        Err(InputFault::BadNet { line, fault }) => Err(Status::BadNet { line, fault }),
        Err(InputFault::NoMemory) => Err(Status::NoMemory),
    }
}

/// A new desk over a network, and its passes.
fn open(alloc: Global, opts: Options, net: Network) -> Result<ReadyDesk, NoMemory>
    requires { AreInRange opts }
    ensures opts { IfOk result (λ r. r.opts ≡ opts) }
    ensures desk { IfOk result (λ r. (r.desk.opening ≡ new_desk net opts) × (r.desk.seats ≡ opts.seats)) }
    ensures passes { IfOk result (λ r. r.passes.items ≡ map (fresh r.desk) (range_with_len 1 opts.seats)) }
{
    let desk = Desk::new(alloc, net, opts.hops, opts.log)?;
    let (desk, passes) = SharedDesk::of_desk(alloc, desk, opts.seats)?;
    Ok(ReadyDesk { opts, desk, passes })
}
