//! A harbour of two such doors.
ghost use Rattle.std.specs.Prelude.{◌≡◌, None};

use super::door::MeetingDoor;
use byte_edges::{EdgeFault, Harbour};

/// Two doors, which it doesn't tell.
#[derive(Drop)]
pub(super) struct MeetingHarbour<'a> {
    pub(super) next: Option<MeetingDoor<'a>>,
    pub(super) last: Option<MeetingDoor<'a>>,
}

impl<'a> Harbour for MeetingHarbour<'a> {
    type Made = MeetingDoor<'a>;

    ghost doors = { λ _. None };

    ghost faults = { λ _. 0 };

    fn open(&mut self, _port: u16) -> Result<MeetingDoor<'a>, EdgeFault> {
        if let Some(door) = self.next.take() {
            return Ok(door);
        }
        match self.last.take() {
            Some(door) => Ok(door),
            None => Err(EdgeFault::NoMemory),
        }
    }
}
