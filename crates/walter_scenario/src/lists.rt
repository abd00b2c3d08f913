//! The clients, arms and steps of a scenario, in order.
ghost use Rattle.std.specs.Prelude.{◌≡◌};

use crate::scenario::{Arm, Client, Step};
use std::marker::Model;

/// The clients of a scenario, by their numbers. Contracts see the list of them.
#[derive(Debug, Drop)]
pub struct Clients {
    items: Vec<Client>,
}

impl Model for Clients {
    ghost use Rattle.std.specs.Prelude.{List};
    ghost use Rattle.walter_scenario.specs.declared.scenario.Client.{Client};

    ghost Value = { List Client };

    ghost view = { λ c. c.items.items };
}

impl Clients {
    pub fn as_slice(&self) -> &[Client]
        ensures { result.now ≡ self.now }
    {
        &self.items
    }
}

impl From<Vec<Client>> for Clients {
    ghost from_gives = { λ v c. c ≡ v.items };

    fn from(items: Vec<Client>) -> Clients {
        Clients { items }
    }
}

/// The arms of a scenario, in order. Contracts see the list of them.
#[derive(Debug, Drop)]
pub struct Arms {
    items: Vec<Arm>,
}

impl Model for Arms {
    ghost use Rattle.std.specs.Prelude.{List};
    ghost use Rattle.walter_scenario.specs.declared.scenario.Arm.{Arm};

    ghost Value = { List Arm };

    ghost view = { λ a. a.items.items };
}

impl Arms {
    pub fn as_slice(&self) -> &[Arm]
        ensures { result.now ≡ self.now }
    {
        &self.items
    }
}

impl From<Vec<Arm>> for Arms {
    ghost from_gives = { λ v a. a ≡ v.items };

    fn from(items: Vec<Arm>) -> Arms {
        Arms { items }
    }
}

/// The steps of a script, in order. Contracts see the list of them.
#[derive(Debug, Drop)]
pub struct Steps {
    items: Vec<Step>,
}

impl Model for Steps {
    ghost use Rattle.std.specs.Prelude.{List};
    ghost use Rattle.walter_scenario.specs.declared.scenario.Step.{Step};

    ghost Value = { List Step };

    ghost view = { λ s. s.items.items };
}

impl Steps {
    pub fn as_slice(&self) -> &[Step]
        ensures { result.now ≡ self.now }
    {
        &self.items
    }
}

impl From<Vec<Step>> for Steps {
    ghost from_gives = { λ v s. s ≡ v.items };

    fn from(items: Vec<Step>) -> Steps {
        Steps { items }
    }
}
