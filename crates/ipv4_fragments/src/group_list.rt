ghost use Rattle.std.specs.Prelude.{◌≡◌, ◌-◌, ◌<◌, ◌^◌, List, [], ◌∷◌, ◌++◌, length, not, false, IfOk, OnOk, OnErr, if◌then◌else◌};
ghost use Rattle.std.specs.List.{list_any, position_or_len, IsDistinct};
ghost use Rattle.capture_terms.specs.declared.plan.Group.{Group};
ghost use Rattle.capture_terms.specs.Kept.{is_same_group};

use capture_terms::Group;
use std::alloc::{AllocError, Global};
use std::marker::Model;

/// Different groups in the order in which they came, which contracts see as a list.
#[derive(Drop)]
pub struct GroupList {
    groups: Vec<Group>,
}

impl Model for GroupList {
    ghost Value = { List Group };

    ghost view = { λ l. l.groups.items };

    ghost invariant = { λ l. IsDistinct is_same_group l.groups.items };
}

impl GroupList {
    /// No groups.
    pub fn new(alloc: Global) -> GroupList
        ensures { result ≡ [] }
    {
        GroupList {
            groups: Vec::new(alloc),
        }
    }

    /// The number of groups.
    pub fn len(&self) -> usize
        ensures { result ≡ length self.now }
    {
        self.groups.len()
    }

    /// Whether the group of this place is new, in which case it is put behind the others.
    pub fn insert(&mut self, group: Group, place: u32) -> Result<bool, AllocError>
        requires { place ≡ position_or_len (is_same_group group) self.old }
        ensures added { IfOk result (λ is_new. is_new ≡ not (list_any (is_same_group group) self.old)) }
        ensures groups { OnOk result (self.new ≡ (if list_any (is_same_group group) self.old then self.old else self.old ++ group ∷ [])) }
        ensures within { IfOk result (λ is_new. is_new ≡ false → place < length self.old) }
        ensures unique { IsDistinct is_same_group self.new }
        ensures err { OnErr result (self.new ≡ self.old) }
    {
        if (place as usize) < self.groups.len() {
            return Ok(false);
        }
        self.groups.push(group)?;
        Ok(true)
    }

    /// The groups in their order.
    pub fn into_groups(self) -> Vec<Group>
        ensures { result.items ≡ self }
    {
        self.groups
    }
}
