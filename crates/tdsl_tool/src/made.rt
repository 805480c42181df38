// What a command made.
use inspect_workers::History;

/// What a command made, before any of it is written.
#[derive(Drop)]
pub struct Made {
    /// The text to write.
    pub text: Vec<u8>,
    /// The records of the workers, where it has any.
    pub history: Option<History>,
}
