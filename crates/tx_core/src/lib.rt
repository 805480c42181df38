//! Attempts over cells: each value that is read is the cell's value at the attempt's version, own writes first, and a
//! commit stands at one place.
#![tactic(auto)]

#[cfg(test)]
mod addition_tests;
mod additions;
mod check;
mod child;
#[cfg(test)]
mod child_tests;
mod commit;
mod gives;
mod hold;
#[cfg(test)]
mod increment;
mod late;
mod laws;
mod locks;
mod peek;
mod resolve_end;
mod spare;
mod steps;
mod stop;
mod stores;
#[cfg(test)]
mod tests;
mod tx;
mod untold;

pub use resolve_end::ResolveEnd;
pub use spare::Spare;
pub use stop::{Stop, TxState};
pub use tx::Tx;
pub use untold::Untold;
