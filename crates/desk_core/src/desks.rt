ghost use Rattle.std.specs.Prelude.{◌≡◌, ◌<◌, ◌≤◌, ℕ};
ghost use Rattle.desk_core.specs.Asking.{FitsEvent};

use super::desk::Desk;
use super::event::Event;
use super::reply::Reply;

/// A desk of any kind: one of its own, a seat at a shared one, or one that keeps a journal.
pub trait Desks {
    ghost use Rattle.desk_core.specs.declared.event.Event.{Event as Asked};
    ghost use Rattle.desk_core.specs.declared.reply.Reply.{Reply as Given};

    /// How often it has failed.
    ghost faults: { Self → ℕ };

    /// How an event asked of it, its reply and the desk after it stand to the desk before it.
    ghost asked: { Self → Asked → Given → Self → Type 0 };

    fn ask(&mut self, event: Event) -> Reply
        ensures asked { asked self.old event result self.new }
        ensures fits { FitsEvent event result }
        ensures unkept { result ≡ Reply.Unkept → 0 < faults self.new }
        ensures no_fall { faults self.old ≤ faults self.new };
}

/// A desk that one caller has for itself.
pub struct OwnDesk<'a> {
    pub desk: &'a mut Desk,
    pub caller: u32,
}

impl<'a> OwnDesk<'a> {
    pub fn new(desk: &'a mut Desk, caller: u32) -> OwnDesk<'a>
        ensures caller { result.caller ≡ caller }
        ensures desk { result.desk.now ≡ desk.entry.now }
        ensures same_reference { result.desk.ghost_name ≡ desk.entry.ghost_name }
    {
        OwnDesk { desk, caller }
    }
}

impl Drop for OwnDesk<'_> {
    fn drop(self) {
        let OwnDesk { desk: _, caller: _ } = self;
    }
}

impl Desks for OwnDesk<'_> {
    ghost use Rattle.std.specs.Prelude.{◌≡◌};
    ghost use Rattle.desk_core.specs.Applying.{Applied};

    ghost faults = { λ _. 0 };

    ghost asked = { λ before event reply after. (after.caller ≡ before.caller) × (after.desk.ghost_name ≡ before.desk.ghost_name)
        × Applied before.desk.now before.caller event reply after.desk.now };

    fn ask(&mut self, event: Event) -> Reply {
        self.desk.apply(self.caller, event)
    }
}
