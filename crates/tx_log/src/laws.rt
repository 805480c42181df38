//! What is true of every log in cells. Each function does nothing; what it ensures is the law.
ghost use Rattle.std.specs.Prelude.{◌≡◌, ℕ, ◌+◌, ◌<◌, false, List, [], length, slice_index, Option};
ghost use Rattle.cell_table.specs.Cells.{after, writes_to};
ghost use Rattle.serial_terms.specs.Serial.{State, put_log, found, Allows};
ghost use Rattle.serial_terms.specs.Serial as serial;
ghost use Rattle.serial_terms.specs.declared.call.Call.TheVariants.{Append, AppendPlaced, LogRead, LogLen};
ghost use Rattle.serial_terms.specs.declared.call.Reply.TheVariants.{Nothing, Value};
ghost use Rattle.tx_core.specs.Sequences.{Appends, HasLength};
ghost use Rattle.tx_log.specs.Log.{IsLog, IsOfLog, values_in, AppendsAt, HasAt};

use crate::part::LogPart;

impl LogPart {
    /// Cells that are all 0 stand for the empty log.
    pub fn opens_empty_law(&self)
        ensures { (cells : List ℕ) → self.now.end + self.now.capacity < length cells → ((c : ℕ) → IsOfLog self.now c → slice_index cells c ≡ 0) → IsLog self.now cells × (values_in self.now cells ≡ []) }
    {}

    /// Cells that are the same in the log's part stand for the same log.
    pub fn same_cells_law(&self)
        ensures { (cells others : List ℕ) → length others ≡ length cells → ((c : ℕ) → IsOfLog self.now c → slice_index others c ≡ slice_index cells c) → IsLog self.now cells → IsLog self.now others × (values_in self.now others ≡ values_in self.now cells) }
    {}

    /// Writes of other cells change nothing of the log.
    pub fn keeps_apart_law(&self)
        ensures { (cells : List ℕ) (writes : List (ℕ × ℕ)) → ((c : ℕ) → IsOfLog self.now c → writes_to writes c ≡ false) → IsLog self.now cells → IsLog self.now (after cells writes) × (values_in self.now (after cells writes) ≡ values_in self.now cells) }
    {}
}

/// What each call makes of the values of the log, as the attempt has it, is what the serial log replies and becomes.
pub fn serial_law()
    ensures append { (s : State) (l value : ℕ) (then : List ℕ) → Appends value (s.logs l).items then → Allows s (Append l value) Nothing × (serial.after s (Append l value) Nothing ≡ put_log s l then) }
    ensures append_placed { (s : State) (l value place : ℕ) (then : List ℕ) → AppendsAt value place (s.logs l).items then → Allows s (AppendPlaced l value) (Value place) × (serial.after s (AppendPlaced l value) (Value place) ≡ put_log s l then) }
    ensures read { (s : State) (l i : ℕ) (x : Option ℕ) (then : List ℕ) → HasAt i x (s.logs l).items then → Allows s (LogRead l i) (found x) × (serial.after s (LogRead l i) (found x) ≡ put_log s l then) }
    ensures len { (s : State) (l n : ℕ) (then : List ℕ) → HasLength n (s.logs l).items then → Allows s (LogLen l) (Value n) × (serial.after s (LogLen l) (Value n) ≡ put_log s l then) }
{}
