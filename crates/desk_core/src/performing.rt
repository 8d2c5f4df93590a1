ghost use Rattle.std.specs.Prelude.{◌≡◌};
ghost use Rattle.desk_core.specs.Performing.{Performed};

use super::desks::Desks;
use super::event::Event;
use super::reply::Reply;
use rule_cover::{Plan, PlanFault, Planner};
use std::alloc::Global;
use std::sync::Arc;

/// What a session asks for.
#[derive(Drop)]
pub enum Command {
    Ask(Event),
    /// A plan for a round, made of the network that the round keeps, and posted.
    Plan { round: u32 },
    Quit,
    Stop,
}

/// What a command comes to.
#[derive(Drop)]
pub enum Answer {
    Replied(Reply),
    /// The plan is posted.
    Planned {
        round: u32,
        version: u32,
        plan: Arc<Plan>,
    },
    /// The table has more entries than this limit.
    TableFull {
        limit: u32,
    },
    NoMemory,
    Bye,
}

/// Performs a command at a desk whose plans have this hop limit.
pub fn perform<D: Desks, P: Planner>(
    alloc: Global,
    desk: &mut D,
    planner: &mut P,
    hops: u32,
    command: Command,
) -> Answer
    requires { P.ready planner.old }
    ensures performed { Performed D.asked (P.limit planner.old) hops desk.old command result desk.new }
    ensures limit { P.limit planner.new ≡ P.limit planner.old }
    ensures ready { P.ready planner.new }
{
    match command {
        Command::Ask(event) => Answer::Replied(desk.ask(event)),
        Command::Plan { round } => plan_round(alloc, desk, planner, hops, round),
        Command::Quit | Command::Stop => Answer::Bye,
    }
}

fn plan_round<D: Desks, P: Planner>(
    alloc: Global,
    desk: &mut D,
    planner: &mut P,
    hops: u32,
    round: u32,
) -> Answer
    requires { P.ready planner.old }
    ensures performed { Performed D.asked (P.limit planner.old) hops desk.old (Command.Plan round) result desk.new }
    ensures limit { P.limit planner.new ≡ P.limit planner.old }
    ensures ready { P.ready planner.new }
{
    let (version, net) = match desk.ask(Event::Pin { round }) {
        Reply::Pinned { version, net } => (version, net),
        reply => return Answer::Replied(reply),
    };
    let plan = match planner.plan(net, hops) {
        Ok(plan) => plan,
        Err(PlanFault::TableFull { limit }) => return Answer::TableFull { limit },
        Err(PlanFault::NoMemory) => return Answer::NoMemory,
    };
    let Ok(plan) = Arc::new(alloc, plan) else {
        return Answer::NoMemory;
    };
    let Ok(posted) = plan.clone() else {
        return Answer::NoMemory;
    };
    match desk.ask(Event::Post {
        round,
        plan: posted,
    }) {
        Reply::Posted { .. } => Answer::Planned {
            round,
            version,
            plan,
        },
        reply => Answer::Replied(reply),
    }
}
