//! The run of the program over a source and a sink.
ghost use Rattle.std.specs.Prelude.{◌≡◌, false, ◌↔◌, ◌⊎◌, ◌+◌, ◌<◌, ◌≤◌, ℕ, List, map, length, take, Some, None, IfOk, IfErr, IfSome, OnOk};
ghost use Rattle.std.specs.String.{string_bytes};
ghost use Rattle.byte_edges.specs.Counts.{raised, Rose};
ghost use Rattle.byte_edges.specs.Writing.{Took};
ghost use Rattle.network_model.specs.Network as model;
ghost use Rattle.network_model.specs.Plan.{IsPlan};
ghost use Rattle.network_model.specs.WellFormed.{IsWellFormed};
ghost use Rattle.network_model.specs.Table.{IsOver};
ghost use Rattle.plan_text.specs.PlanText.{plan_text};
ghost use Rattle.atpg.specs.CommandLine.{begins_with_run, WorkersFit, CommandFits};
ghost use Rattle.net_text.specs.Text.{Spells};
ghost use Rattle.policy_text.specs.Lines.{policy_lines};
ghost use Rattle.policy_text.specs.Answers.{AreAnswers};
ghost use Rattle.atpg.specs.Run.{IsOutput, IsUpgraded, IsWanted, network_bytes, PlanRefused, UpgradeRefused, CheckRefused, NetRefused, TextRefused, InputRefused, HasText, RefusesInput, IsWriting, HasAnswer, IsRefused, IsBatch};
ghost use Rattle.atpg.specs.SessionRun.{IsRun};

use crate::serving::run_session;
use crate::status::Status;
use crate::summary::run_growth;
use crate::tried::text_of_trial;
use crate::words::{self, Command, Growth, Options, Request, begins_with_run};
use byte_edges::{ReadAll, Sink, Source, WriteWhole, read_all, write_whole};
use frontier_waves::FreeGate;
use net_text::ReadNet;
use net_types::Network;
use plan_build::build;
use policy_text::{CheckFault, answers, network_part};
use program_edges::MOST_BYTES;
use rule_cover::{Plan, PlanFault};
use std::alloc::Global;
use std::sync::Arc;
use std::thread::Threads;

/// Runs as the words ask. For the command `run` it reads a network and the session after it, serves the session at a desk over that
/// network, and writes its replies; every other list of words is run by `batch`. A line of the session that is too long, and a
/// failure to write, come in the order of the session.
pub fn run<R: Threads + Sync, S: Source, K: Sink>(
    rt: &R,
    alloc: Global,
    words: &[String],
    source: &mut S,
    sink: &mut K,
) -> Status
    ensures { IsRun (map string_bytes words.now) S.left S.given S.ends S.faults K.taken K.faults source.old source.new sink.old sink.new result }
{
    if begins_with_run(words) {
        run_session(rt, alloc, words, source, sink)
    } else {
        batch(rt, alloc, words, source, sink)
    }
}

/// Reads a network from the source and writes the text of its plan, of a trial of it, its own text, or the answers to the policies
/// after it to the sink, as the words ask; or reads nothing and writes a line on the plan of a generated network. The refusals
/// come in the order words, reading, length, network, policies or listed rules, table, writing; being out of memory may come in
/// place of any answer but `BadWords`.
pub fn batch<R: Threads + Sync, S: Source, K: Sink>(
    rt: &R,
    alloc: Global,
    words: &[String],
    source: &mut S,
    sink: &mut K,
) -> Status
    requires { begins_with_run (map string_bytes words.now) ≡ false }
    ensures { IsBatch (map string_bytes words.now) S.left S.given S.ends S.faults K.taken K.faults source.old source.new sink.old sink.new result }
{
    match words::parse(alloc, words) {
        Ok(request) => run_request(rt, alloc, request, source, sink),
        Err(status) => status,
    }
}

/// Writes the text that the words ask for.
fn run_request<R: Threads + Sync, S: Source, K: Sink>(
    rt: &R,
    alloc: Global,
    request: Request,
    source: &mut S,
    sink: &mut K,
) -> Status
    requires { WorkersFit request }
    ensures stays { (growth : Growth) → request ≡ Request.Grow growth → source.new ≡ source.old }
    ensures refused { RefusesInput result → IsRefused S.left S.given S.ends S.faults source.old source.new request result × (sink.new ≡ sink.old) }
    ensures write_fault { (written : ℕ) → result ≡ Status.WriteFault written → Rose (K.faults sink.old) (K.faults sink.new)
        × ((text : List ℕ) × HasAnswer S.left S.given S.ends source.old source.new request text
        × (written < length text) × Took (K.taken sink.old) (K.taken sink.new) (take written text)) }
    ensures no_memory { result ≡ Status.NoMemory → (K.taken sink.new ≡ K.taken sink.old)
        ⊎ ((text : List ℕ) × HasAnswer S.left S.given S.ends source.old source.new request text
        × ((n : ℕ) × (n < length text) × Took (K.taken sink.old) (K.taken sink.new) (take n text))) }
    ensures done { result ≡ Status.Done → (text : List ℕ) × HasAnswer S.left S.given S.ends source.old source.new request text
        × Took (K.taken sink.old) (K.taken sink.new) text }
    ensures good_words { (at : ℕ) → result ≡ Status.BadWords at → ⊥ }
{
    match request {
        Request::Read(command) => run_command(rt, alloc, command, source, sink),
        Request::Grow(growth) => run_growth(rt, alloc, growth, sink),
    }
}

/// Reads a network and writes the text that a command asks for.
fn run_command<R: Threads + Sync, S: Source, K: Sink>(
    rt: &R,
    alloc: Global,
    command: Command,
    source: &mut S,
    sink: &mut K,
) -> Status
    requires { CommandFits command }
    ensures refused { RefusesInput result → InputRefused S.left S.given S.ends S.faults source.old source.new command result × (sink.new ≡ sink.old) }
    ensures write_fault { (written : ℕ) → result ≡ Status.WriteFault written → Rose (K.faults sink.old) (K.faults sink.new)
        × ((text : List ℕ) × HasText S.left S.given S.ends source.old source.new command text
        × (written < length text) × Took (K.taken sink.old) (K.taken sink.new) (take written text)) }
    ensures no_memory { result ≡ Status.NoMemory → (K.taken sink.new ≡ K.taken sink.old)
        ⊎ ((text : List ℕ) × HasText S.left S.given S.ends source.old source.new command text
        × ((n : ℕ) × (n < length text) × Took (K.taken sink.old) (K.taken sink.new) (take n text))) }
    ensures done { result ≡ Status.Done → (text : List ℕ) × HasText S.left S.given S.ends source.old source.new command text
        × Took (K.taken sink.old) (K.taken sink.new) text }
    ensures good_words { (at : ℕ) → result ≡ Status.BadWords at → ⊥ }
{
    match text_of_source(rt, alloc, command, source) {
        Ok(text) => write_text(sink, &text),
        Err(status) => status,
    }
}

/// The text that a command asks for, of the network that the source holds.
fn text_of_source<R: Threads + Sync, S: Source>(
    rt: &R,
    alloc: Global,
    command: Command,
    source: &mut S,
) -> Result<Vec<u8>, Status>
    requires { CommandFits command }
    ensures ok { IfOk result (λ text. HasText S.left S.given S.ends source.old source.new command text.items) }
    ensures err { IfErr result (λ status. InputRefused S.left S.given S.ends S.faults source.old source.new command status) }
{
    match read_all(alloc, source, MOST_BYTES) {
        Ok(bytes) => text_of_bytes(rt, alloc, command, &bytes),
        Err(ReadAll::ReadFault) => Err(Status::ReadFault),
        Err(ReadAll::TooLong) => Err(Status::TooLong),
        Err(ReadAll::NoMemory) => Err(Status::NoMemory),
    }
}

/// The same of the network that the bytes spell.
fn text_of_bytes<R: Threads + Sync>(
    rt: &R,
    alloc: Global,
    command: Command,
    bytes: &[u8],
) -> Result<Vec<u8>, Status>
    requires { CommandFits command }
    ensures ok { IfOk result (λ text. (net : model.Network) × Spells (network_bytes command bytes.now) net × IsWellFormed net × IsWanted net command bytes.now text.items) }
    ensures err { IfErr result (λ status. TextRefused bytes.now command status) }
{
    match net_text::read(alloc, network_bytes(&command, bytes)) {
        Ok(net) => text_of_net(rt, alloc, command, net, bytes),
        Err(ReadNet::BadNet { line, fault }) => Err(Status::BadNet { line, fault }),
        Err(ReadNet::NoMemory) => Err(Status::NoMemory),
    }
}

/// What of an input is the network text.
fn network_bytes<'a>(command: &Command, bytes: &'a [u8]) -> &'a [u8]
    ensures { result.now ≡ network_bytes command.now bytes.now }
{
    match command {
        Command::Plan(_) | Command::Trial(_) | Command::Upgrade => bytes,
        Command::Check { .. } => network_part(bytes),
    }
}

/// The text that a command asks for, of a network and the whole input.
fn text_of_net<R: Threads + Sync>(
    rt: &R,
    alloc: Global,
    command: Command,
    net: Network,
    bytes: &[u8],
) -> Result<Vec<u8>, Status>
    requires { CommandFits command }
    ensures ok { IfOk result (λ text. IsWellFormed net × IsWanted net command bytes.now text.items) }
    ensures err { IfErr result (λ status. NetRefused net command bytes.now status) }
{
    match command {
        Command::Plan(options) => text_of_plan(rt, alloc, options, net),
        Command::Trial(trial) => text_of_trial(rt, alloc, &trial, net),
        Command::Upgrade => upgraded(alloc, &net),
        Command::Check { hops } => checked(alloc, &net, hops, bytes),
    }
}

/// The answers to the policies of an input.
fn checked(alloc: Global, net: &Network, hops: u32, bytes: &[u8]) -> Result<Vec<u8>, Status>
    ensures ok { IfOk result (λ text. IsWellFormed net.now × AreAnswers net.now hops (policy_lines bytes.now) text.items) }
    ensures err { IfErr result (λ status. CheckRefused net.now bytes.now status) }
{
    // Asked for what it says of the network as a whole.
    let _bits = net.bits();
    match answers(alloc, net, hops, bytes) {
        Ok(text) => Ok(text),
        Err(CheckFault::BadPolicy { line, fault }) => Err(Status::BadPolicy { line, fault }),
        Err(CheckFault::NoMemory) => Err(Status::NoMemory),
    }
}

/// The text of a network, as it is printed.
fn upgraded(alloc: Global, net: &Network) -> Result<Vec<u8>, Status>
    ensures ok { IfOk result (λ text. IsWellFormed net.now × IsUpgraded net.now text.items) }
    ensures err { IfErr result (λ status. UpgradeRefused status) }
{
    // Asked for what it says of the network as a whole.
    let _bits = net.bits();
    match net_text::print(alloc, net) {
        Ok(text) => Ok(text),
        Err(_) => Err(Status::NoMemory),
    }
}

/// The text of the plan of a network.
fn text_of_plan<R: Threads + Sync>(
    rt: &R,
    alloc: Global,
    options: Options,
    net: Network,
) -> Result<Vec<u8>, Status>
    requires { (1 ≤ options.workers) × (options.workers ≤ 64) }
    ensures ok { IfOk result (λ text. IsWellFormed net × IsOutput net options text.items) }
    ensures err { IfErr result (λ status. PlanRefused net options status) }
{
    let plan = plan_of(rt, alloc, options, net)?;
    match plan_text::print(alloc, &plan) {
        Ok(text) => Ok(text),
        Err(_) => Err(Status::NoMemory),
    }
}

/// The plan of a network.
fn plan_of<R: Threads + Sync>(
    rt: &R,
    alloc: Global,
    options: Options,
    net: Network,
) -> Result<Plan, Status>
    requires { (1 ≤ options.workers) × (options.workers ≤ 64) }
    ensures plan { IfOk result (λ plan. (plan.net ≡ net) × (plan.hops ≡ options.hops) × IsPlan net options.hops plan.plan × (length plan.plan.table ≤ options.entries)) }
    ensures well_formed { OnOk result (IsWellFormed net) }
    ensures err { IfErr result (λ status. PlanRefused net options status) }
{
    // Asked for what it says of the network as a whole.
    let _bits = net.bits();
    let Ok(net) = Arc::new(alloc, net) else {
        return Err(Status::NoMemory);
    };
    match build(
        rt,
        alloc,
        net,
        options.hops,
        options.entries,
        options.workers,
        &FreeGate,
    ) {
        Ok(plan) => Ok(plan),
        Err(PlanFault::TableFull { limit }) => Err(Status::TableFull { limit }),
        Err(PlanFault::NoMemory) => Err(Status::NoMemory),
    }
}

/// Writes a text whole.
pub(crate) fn write_text<K: Sink>(sink: &mut K, text: &[u8]) -> Status
    ensures write_fault { (written : ℕ) → result ≡ Status.WriteFault written → Rose (K.faults sink.old) (K.faults sink.new)
        × (written < length text.now) × Took (K.taken sink.old) (K.taken sink.new) (take written text.now) }
    ensures no_memory { result ≡ Status.NoMemory → (n : ℕ) × (n < length text.now) × Took (K.taken sink.old) (K.taken sink.new) (take n text.now) }
    ensures done { result ≡ Status.Done → Took (K.taken sink.old) (K.taken sink.new) text.now }
    ensures written { IsWriting result }
{
    match write_whole(sink, text) {
        Ok(()) => Status::Done,
        Err(WriteWhole::WriteFault { written }) => Status::WriteFault { written },
        Err(WriteWhole::NoMemory) => Status::NoMemory,
    }
}
