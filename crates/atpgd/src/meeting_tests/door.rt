//! A door of one line that waits.
ghost use Rattle.std.specs.Prelude.{◌≡◌, ⊤, None};

use super::line::MeetingLine;
use byte_edges::{Door, EdgeFault};

/// A door of one such line, which it doesn't tell.
#[derive(Drop)]
pub(super) struct MeetingDoor<'a> {
    pub(super) left: Option<MeetingLine<'a>>,
    pub(super) back: Option<MeetingLine<'a>>,
    pub(super) given: u64,
    pub(super) shut: u64,
}

impl<'a> Door for MeetingDoor<'a> {
    type Conn = MeetingLine<'a>;

    ghost lines = { λ _. None };

    ghost back = { λ _. None };

    ghost lent = { λ _. ⊤ };

    ghost faults = { λ _. 0 };

    ghost given = { λ door. door.given };

    ghost shut = { λ door. door.shut };

    fn accept(&mut self) -> Result<Option<MeetingLine<'a>>, EdgeFault> {
        match self.left.take() {
            Some(line) => {
                self.given = self.given.saturating_add(1);
                Ok(Some(line))
            }
            None => {
                self.shut = self.shut.saturating_add(1);
                Ok(None)
            }
        }
    }

    fn done(&mut self, conn: MeetingLine<'a>) {
        self.back = Some(conn);
    }
}
