//! What stands where in the table, and what it means.
use cell_table::Meaning;
use tx_log::LogPart;
use tx_map::MapPart;

/// The accounts that amounts are taken from.
pub const SENDERS: MapPart = MapPart {
    base: 0,
    region: 0,
    capacity: 4,
};

/// The accounts that amounts go to.
pub const RECEIVERS: MapPart = MapPart {
    base: 4,
    region: 1,
    capacity: 4,
};

/// A receipt for each transfer: its amount.
pub const RECEIPTS: LogPart = LogPart {
    part: 0,
    end: 8,
    capacity: 32,
};

/// The cells at the opening: 100 in each account, whose word is 1 more, and no receipt.
pub const OPENING: [u64; 41] = [
    101, 101, 101, 101, 101, 101, 101, 101, 0, 0, 0, 0, 0, 0, 0, 0, 0, 0, 0, 0, 0, 0, 0, 0, 0, 0,
    0, 0, 0, 0, 0, 0, 0, 0, 0, 0, 0, 0, 0, 0, 0,
];

/// An amount that is to go from one account to another.
#[derive(Clone, Copy, Debug)]
pub struct Order {
    pub sender: u32,
    pub receiver: u32,
    pub amount: u32,
}

/// The accounts have this sum between any two transactions, and the receipts tell what the receivers gained.
#[derive(Drop)]
pub struct FixedTotal {
    pub total: u64,
}

impl Meaning for FixedTotal {
    type Done = ();

    ghost use Rattle.std.specs.Prelude.{[]};
    ghost use Rattle.transfer_example.specs.Bank.{IsBank, Keeps};

    ghost lawful = { λ m cells. IsBank m.total cells [] };

    ghost explains = { λ m observations writes dones. Keeps m.total [] observations writes };

    ghost keeps_lawful = { λ m cells observations writes dones lawful holds explained. explained cells lawful holds };
}
