//! A vector that contracts see as a plain list.

ghost use Rattle.std.specs.Prelude.{◌≡◌, List};

use std::marker::Model;

/// A `Vec` whose capacity no contract sees: two of them with the same elements are the same value.
#[derive(Debug, Drop)]
pub struct PlainList<T> {
    items: Vec<T>,
}

impl<T> Model for PlainList<T> {
    ghost Value = { List T };

    ghost view = { λ l. l.items.items };
}

impl<T> PlainList<T> {
    /// The list of the vector's elements. Takes no memory.
    pub fn from_vec(items: Vec<T>) -> PlainList<T>
        ensures { result ≡ items.items }
    {
        PlainList { items }
    }

    /// The vector again. Takes no memory.
    pub fn into_vec(self) -> Vec<T>
        ensures { result.items ≡ self }
    {
        let PlainList { items } = self;
        items
    }

    pub fn as_slice(&self) -> &[T]
        ensures { result.now ≡ self.now }
    {
        self.items.as_slice()
    }
}
