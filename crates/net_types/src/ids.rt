ghost use Rattle.std.specs.Prelude.{◌≡◌, ℕ};

use std::marker::Model;

/// The number of a terminal.
#[derive(Clone, Copy, Debug, PartialEq, Eq, PartialOrd, Ord, Hash)]
pub struct TermId {
    number: u32,
}

impl Model for TermId {
    ghost Value = { ℕ };

    ghost view = { λ id. id.number };

    ghost inverse = { λ n. record { number = n } };
}

impl TermId {
    pub fn of(number: u32) -> Self
        ensures { result ≡ number }
    {
        TermId { number }
    }

    pub fn get(self) -> u32
        ensures { result ≡ self }
    {
        self.number
    }
}

/// The number of a port.
#[derive(Clone, Copy, Debug, PartialEq, Eq, PartialOrd, Ord, Hash)]
pub struct PortId {
    number: u32,
}

impl Model for PortId {
    ghost Value = { ℕ };

    ghost view = { λ id. id.number };

    ghost inverse = { λ n. record { number = n } };
}

impl PortId {
    pub fn of(number: u32) -> Self
        ensures { result ≡ number }
    {
        PortId { number }
    }

    pub fn get(self) -> u32
        ensures { result ≡ self }
    {
        self.number
    }
}

/// The number of a box.
#[derive(Clone, Copy, Debug, PartialEq, Eq, PartialOrd, Ord, Hash)]
pub struct BoxId {
    number: u32,
}

impl Model for BoxId {
    ghost Value = { ℕ };

    ghost view = { λ id. id.number };

    ghost inverse = { λ n. record { number = n } };
}

impl BoxId {
    pub fn of(number: u32) -> Self
        ensures { result ≡ number }
    {
        BoxId { number }
    }

    pub fn get(self) -> u32
        ensures { result ≡ self }
    {
        self.number
    }
}

/// The number of a rule.
#[derive(Clone, Copy, Debug, PartialEq, Eq, PartialOrd, Ord, Hash)]
pub struct RuleId {
    number: u32,
}

impl Model for RuleId {
    ghost Value = { ℕ };

    ghost view = { λ id. id.number };

    ghost inverse = { λ n. record { number = n } };
}

impl RuleId {
    pub fn of(number: u32) -> Self
        ensures { result ≡ number }
    {
        RuleId { number }
    }

    pub fn get(self) -> u32
        ensures { result ≡ self }
    {
        self.number
    }
}
