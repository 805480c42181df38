//! The items of the queue.
ghost use Rattle.std.specs.Prelude.{◌≡◌, ◌<◌, ◌^◌};

/// A datagram that is ready to be matched, by a number.
#[derive(Clone, Copy, Debug, PartialEq, Eq)]
pub enum Item {
    /// That of a whole task.
    Whole(u32),
    /// That of a group.
    Group(u32),
}

impl Item {
    ghost use Rattle.run_purpose.specs.Words.{value_of};

    /// The datagram that a value of the queue below 2^33 stands for.
    pub fn of(value: u64) -> Item
        requires { value < 2 ^ 33 }
        ensures { value_of result ≡ value }
    {
        let number = (value / 2) as u32;
        if value % 2 == 0 {
            Item::Whole(number)
        } else {
            Item::Group(number)
        }
    }

    /// The value that stands for it in the queue.
    pub fn value(self) -> u64
        ensures value { result ≡ value_of self }
        ensures small { result < 2 ^ 33 }
    {
        match self {
            Item::Whole(task) => 2 * u64::from(task),
            Item::Group(group) => 2 * u64::from(group) + 1,
        }
    }
}
