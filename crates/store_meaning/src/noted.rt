//! A call as the record of the cells has it.
use serial_terms::Done;
use std::marker::Model;

/// A call, and the position of its key where it has one. Of a call without a key no one reads the position.
///
/// Contracts see it as a call with the key's position for a name.
#[derive(Clone, Copy)]
pub struct Noted {
    pub done: Done,
    pub position: u32,
}

impl Model for Noted {
    ghost use Rattle.serial_terms.specs.Renaming.{NamedDone};

    ghost Value = { NamedDone };

    ghost view = { λ n. record { done = n.done; name = n.position } };

    ghost inverse = { λ d. record { done = d.done; position = d.name } };
}
