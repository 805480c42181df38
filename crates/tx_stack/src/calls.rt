//! The calls on a stack.
ghost use Rattle.std.specs.Prelude.{◌≡◌, IfOk};
ghost use Rattle.tx_stack.specs.Calls.{IsStackOf, MayCallStack, IsCalledOn};
ghost use Rattle.tx_stack.specs.Stacks.{counted, pushes, shows, pops, IsLength, IsPutOn, IsItemOf};

use crate::part::StackPart;
use crate::purpose::Stacks;
use tx_core::Stop;
use tx_store::StoreTx;

/// Each call reads the length first. It stops as the calls of cells do that it makes: by Held, Newer or want of memory.
impl StackPart {
    /// How many items the stack has.
    pub fn len(&self, tx: &mut StoreTx<'_, Stacks>) -> Result<u64, Stop>
        requires ready { MayCallStack tx.old }
        requires stack { IsStackOf tx.old.store self.now }
        ensures called { IsCalledOn tx.old tx.new self.now (λ n. counted) (IsLength self.now.capacity) result }
        ensures ready { IfOk result (λ n. MayCallStack tx.new × (tx.new.store ≡ tx.old.store)) }
    {
        match tx.cell_get(self.base) {
            Ok(length) => {
                tx.seen_law();
                tx.tells_law();
                Ok(length)
            }
            Err(stop) => Err(stop),
        }
    }

    /// Puts an item on top: `false` exactly where the stack is full, and then nothing is put.
    pub fn push(&self, tx: &mut StoreTx<'_, Stacks>, value: u64) -> Result<bool, Stop>
        requires ready { MayCallStack tx.old }
        requires stack { IsStackOf tx.old.store self.now }
        ensures called { IsCalledOn tx.old tx.new self.now (pushes value) (IsPutOn self.now.capacity) result }
        ensures ready { IfOk result (λ added. MayCallStack tx.new × (tx.new.store ≡ tx.old.store)) }
    {
        let length = self.len(tx)?;
        if length >= u64::from(self.capacity) {
            return Ok(false);
        }
        tx.cell_put(self.base + 1 + length as u32, value)?;
        tx.cell_put(self.base, length + 1)?;
        Ok(true)
    }

    /// The item on top: `None` exactly where the stack is empty.
    pub fn top(&self, tx: &mut StoreTx<'_, Stacks>) -> Result<Option<u64>, Stop>
        requires ready { MayCallStack tx.old }
        requires stack { IsStackOf tx.old.store self.now }
        ensures called { IsCalledOn tx.old tx.new self.now shows (IsItemOf self.now.capacity) result }
        ensures ready { IfOk result (λ item. MayCallStack tx.new × (tx.new.store ≡ tx.old.store)) }
    {
        let length = self.len(tx)?;
        if length == 0 {
            return Ok(None);
        }
        let item = tx.cell_get(self.base + length as u32)?;
        Ok(Some(item))
    }

    /// Takes the item off the top: `None` exactly where the stack is empty.
    pub fn pop(&self, tx: &mut StoreTx<'_, Stacks>) -> Result<Option<u64>, Stop>
        requires ready { MayCallStack tx.old }
        requires stack { IsStackOf tx.old.store self.now }
        ensures called { IsCalledOn tx.old tx.new self.now pops (IsItemOf self.now.capacity) result }
        ensures ready { IfOk result (λ item. MayCallStack tx.new × (tx.new.store ≡ tx.old.store)) }
    {
        let length = self.len(tx)?;
        if length == 0 {
            return Ok(None);
        }
        let value = tx.cell_get(self.base + length as u32)?;
        tx.cell_put(self.base, length - 1)?;
        Ok(Some(value))
    }
}
