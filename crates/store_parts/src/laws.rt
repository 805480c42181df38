//! What each call on a structure of a store is. Each function does nothing; what it ensures is the law.
ghost use Rattle.std.specs.Prelude.{◌≡◌, ℕ, ◌<◌, ◌≤◌, length};
ghost use Rattle.store_layout.specs.Shapes.{Shape, cells_of, most_cells};
ghost use Rattle.store_parts.specs.Parts.{map_part, queue_part, pool_part, log_part};
ghost use Rattle.store_parts.specs.Laws.{MapCalls, QueueCalls, PoolCalls, LogCalls, CellCalls};

use store_layout::laws::{parts_are_apart_law, words_are_cells_law};
use tx_log::LogPart;
use tx_map::MapPart;
use tx_pool::PoolPart;
use tx_queue::QueuePart;

/// A call of a map is that call of the serial map of its number, with the position of the key for the key.
pub fn map_calls_law(part: &MapPart)
    ensures { (s : Shape) (m : ℕ) → part.now ≡ map_part s m → 0 < part.now.capacity → MapCalls s m part.now }
{
    part.serial_law();
    words_are_cells_law();
    parts_are_apart_law();
}

/// A call of a pool is that call of the serial pool of its number, wherever its walk began.
pub fn pool_calls_law(part: &PoolPart)
    ensures { (s : Shape) (p : ℕ) → part.now ≡ pool_part s p → 0 < part.now.slots → PoolCalls s p part.now }
{
    tx_pool::serial_law();
    parts_are_apart_law();
}

/// A call of a log is that call of the serial log of its number, in which what waits stands behind the entries. The placing of
/// what waits changes nothing of it.
pub fn log_calls_law(part: &LogPart)
    ensures { (s : Shape) (l : ℕ) → part.now ≡ log_part s l → l < length s.logs → cells_of s ≤ most_cells → LogCalls s l part.now }
{
    tx_log::serial_law();
    parts_are_apart_law();
}

/// A call of a queue is that call of the serial queue of its number, in which what waits stands behind the items. The placing of
/// what waits changes nothing of it.
pub fn queue_calls_law(part: &QueuePart)
    ensures { (s : Shape) (q : ℕ) → part.now ≡ queue_part s q → q < length s.queues → cells_of s ≤ most_cells → QueueCalls s q part.now }
{
    part.layout_law();
    tx_queue::serial_law();
    parts_are_apart_law();
}

/// A call of a plain cell is that call of the serial cell of its number.
pub fn cell_calls_law()
    ensures { (s : Shape) (c : ℕ) → c < s.cells → CellCalls s c }
{
    words_are_cells_law();
    parts_are_apart_law();
}
