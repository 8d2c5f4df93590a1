ghost use Rattle.std.specs.Prelude.{◌≡◌};

/// Whether packets start at a terminal, end there, or both.
#[derive(Clone, Copy, Debug, PartialEq, Eq)]
pub enum Role {
    Send,
    Receive,
    Both,
}

impl Role {
    ghost use Rattle.network_model.specs.Classes.{sends};
    ghost use Rattle.network_model.specs.Walk.{receives};
    ghost use Rattle.net_types.specs.Terminals.{role_of};

    /// Whether packets start there.
    pub fn sends(self) -> bool
        ensures { result ≡ sends (role_of self) }
    {
        match self {
            Role::Send | Role::Both => true,
            Role::Receive => false,
        }
    }

    /// Whether packets end there.
    pub fn receives(self) -> bool
        ensures { result ≡ receives (role_of self) }
    {
        match self {
            Role::Receive | Role::Both => true,
            Role::Send => false,
        }
    }
}
