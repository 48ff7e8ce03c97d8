ghost use Rattle.std.specs.Prelude.{◌≡◌, IfOk};

use crate::flow_status::FlowStatus;
use std::alloc::AllocError;
use std::marker::Model;

/// The state of all flows, in order of their numbers. Contracts see the list.
#[derive(Debug, Drop)]
pub struct Statuses {
    items: Vec<FlowStatus>,
}

impl Model for Statuses {
    ghost use Rattle.std.specs.Prelude.{List};
    ghost use Rattle.dn_types.specs.declared.flow_status.FlowStatus.{FlowStatus};

    ghost Value = { List FlowStatus };

    ghost view = { λ a. a.items.items };
}

// Two lists are equal where their items are, one by one.
impl PartialEq for Statuses {
    ghost use Rattle.std.specs.Cmp.Lexicographic.{pointwise, lists_per};
    ghost use Rattle.dn_types.specs.contracts.flow_status.FlowStatusPartialEq.TheImpl.{ghosts};
    ghost use Rattle.dn_types.specs.contracts.flow_status.FlowStatusPartialEq.TheImpl.Laws.{laws-law};

    ghost eq = { pointwise ghosts.eq };

    ghost laws = { lists_per laws-law };

    fn eq(&self, other: &Statuses) -> bool {
        self.items == other.items
    }
}

impl Eq for Statuses {
    ghost use Rattle.std.specs.Cmp.Lexicographic.{lists_equiv};
    ghost use Rattle.dn_types.specs.contracts.flow_status.FlowStatusEq.TheImpl.Laws.{laws-law};

    ghost laws = { lists_equiv laws-law };
}

impl Statuses {
    /// The list of the vector's items. It takes no memory.
    pub fn from_vec(items: Vec<FlowStatus>) -> Statuses
        ensures { result ≡ items.items }
    {
        Statuses { items }
    }

    /// The items, as a vector. It takes no memory.
    pub fn into_vec(self) -> Vec<FlowStatus>
        ensures { result.items ≡ self }
    {
        let Statuses { items } = self;
        items
    }

    /// The items.
    pub fn as_slice(&self) -> &[FlowStatus]
        ensures { result.now ≡ self.now }
    {
        self.items.as_slice()
    }

    /// An equal list, or an error where memory was refused.
    pub fn try_clone(&self) -> Result<Statuses, AllocError>
        ensures { IfOk result (λ copy. copy ≡ self.now) }
    {
        Ok(Statuses::from_vec(self.items.clone()?))
    }
}
