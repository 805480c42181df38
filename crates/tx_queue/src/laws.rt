//! What is true of every queue in cells. Each function does nothing; what it ensures is the law.
ghost use Rattle.std.specs.Prelude.{◌≡◌, ◌↔◌, ℕ, ◌+◌, ◌<◌, false, List, [], length, slice_index, Option};
ghost use Rattle.cell_table.specs.Cells.{after, writes_to};
ghost use Rattle.serial_terms.specs.Serial.{State, put_queue, found, Allows};
ghost use Rattle.serial_terms.specs.Serial as serial;
ghost use Rattle.serial_terms.specs.declared.call.Call.TheVariants.{Enqueue, Dequeue, QueueLen};
ghost use Rattle.serial_terms.specs.declared.call.Reply.TheVariants.{Nothing, Value};
ghost use Rattle.store_layout.specs.States as layout;
ghost use Rattle.tx_core.specs.Sequences.{Appends, HasLength};
ghost use Rattle.tx_queue.specs.Queue.{IsQueue, IsOfQueue, values_in, words_in, Dequeues};

use crate::part::QueuePart;

impl QueuePart {
    /// Cells that are all 0 stand for the empty queue, where it may have any item.
    pub fn opens_empty_law(&self)
        ensures { (cells : List ℕ) → 0 < self.now.capacity → self.now.end + self.now.capacity < length cells → ((c : ℕ) → IsOfQueue self.now c → slice_index cells c ≡ 0) → IsQueue self.now cells × (values_in self.now cells ≡ []) }
    {}

    /// Cells that are the same in the queue's part stand for the same queue.
    pub fn same_cells_law(&self)
        ensures { (cells others : List ℕ) → length others ≡ length cells → ((c : ℕ) → IsOfQueue self.now c → slice_index others c ≡ slice_index cells c) → IsQueue self.now cells → IsQueue self.now others × (values_in self.now others ≡ values_in self.now cells) }
    {}

    /// Writes of other cells change nothing of the queue.
    pub fn keeps_apart_law(&self)
        ensures { (cells : List ℕ) (writes : List (ℕ × ℕ)) → ((c : ℕ) → IsOfQueue self.now c → writes_to writes c ≡ false) → IsQueue self.now cells → IsQueue self.now (after cells writes) × (values_in self.now (after cells writes) ≡ values_in self.now cells) }
    {}

    /// The words of the part's cells, its end first, are those of the same queue in the layout of a store.
    pub fn layout_law(&self)
        ensures formed { (cells : List ℕ) → self.now.end + self.now.capacity < length cells → IsQueue self.now cells ↔ layout.IsQueue (words_in self.now cells) }
        ensures values { (cells : List ℕ) → self.now.end + self.now.capacity < length cells → layout.queue_in (words_in self.now cells) ≡ values_in self.now cells }
    {}
}

/// What each call makes of the values of the queue, as the attempt has it, is what the serial queue replies and becomes.
pub fn serial_law()
    ensures enqueue { (s : State) (q value : ℕ) (then : List ℕ) → Appends value (s.queues q).items then → Allows s (Enqueue q value) Nothing × (serial.after s (Enqueue q value) Nothing ≡ put_queue s q then) }
    ensures dequeue { (s : State) (q : ℕ) (x : Option ℕ) (then : List ℕ) → Dequeues x (s.queues q).items then → Allows s (Dequeue q) (found x) × (serial.after s (Dequeue q) (found x) ≡ put_queue s q then) }
    ensures len { (s : State) (q n : ℕ) (then : List ℕ) → HasLength n (s.queues q).items then → Allows s (QueueLen q) (Value n) × (serial.after s (QueueLen q) (Value n) ≡ put_queue s q then) }
{}
