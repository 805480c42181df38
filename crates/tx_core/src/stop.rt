//! Why an attempt is stopped, and how it stands.
ghost use Rattle.std.specs.Prelude.{◌≡◌};

use std::alloc::AllocError;

/// Why an attempt can't go on.
#[derive(Clone, Copy, Debug, PartialEq, Eq)]
pub enum Stop {
    /// Another caller holds the cell.
    Held { cell: u32, owner: u32 },
    /// The cell has a version above the attempt's, or above one that the attempt had found.
    Newer { cell: u32, found: u64 },
    /// Want of memory.
    Memory,
}

/// Which calls of an attempt may follow.
#[derive(Clone, Copy, Debug, PartialEq, Eq)]
pub enum TxState {
    /// No child is open.
    Running,
    /// A child is open.
    Child,
    /// A call of the open child answered a `Stop`.
    ChildStopped,
    /// The attempt answered a `Stop`: only `abort` may follow.
    Stopped,
}

impl From<AllocError> for Stop {
    ghost use Rattle.tx_core.specs.declared.stop.Stop.TheVariants.{Memory};

    ghost from_gives = { λ _ stop. stop ≡ Memory };

    fn from(_memory: AllocError) -> Stop {
        Stop::Memory
    }
}

impl TxState {
    ghost use Rattle.tx_core.specs.Calls.{stopped_from, spared_from};

    /// What a stop leaves of the state.
    pub(crate) fn stopped(self) -> TxState
        ensures { result ≡ stopped_from self }
    {
        match self {
            TxState::Running | TxState::Stopped => TxState::Stopped,
            TxState::Child | TxState::ChildStopped => TxState::ChildStopped,
        }
    }

    /// What a stop that spares the attempt leaves of the state: want of memory alone stops it.
    pub(crate) fn spared(self, stop: Stop) -> TxState
        ensures { result ≡ spared_from self stop }
    {
        match stop {
            Stop::Held { .. } | Stop::Newer { .. } => self,
            Stop::Memory => self.stopped(),
        }
    }
}
