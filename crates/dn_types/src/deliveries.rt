ghost use Rattle.std.specs.Prelude.{◌≡◌, IfOk};

use crate::delivery::Delivery;
use std::alloc::AllocError;
use std::marker::Model;

/// The packets that one Collect gives, in order. Contracts see the list.
#[derive(Debug, Drop)]
pub struct Deliveries {
    items: Vec<Delivery>,
}

impl Model for Deliveries {
    ghost use Rattle.std.specs.Prelude.{List};
    ghost use Rattle.dn_types.specs.declared.delivery.Delivery.{Delivery};

    ghost Value = { List Delivery };

    ghost view = { λ a. a.items.items };
}

// Two lists are equal where their items are, one by one.
impl PartialEq for Deliveries {
    ghost use Rattle.std.specs.Cmp.Lexicographic.{pointwise, lists_per};
    ghost use Rattle.dn_types.specs.contracts.delivery.DeliveryPartialEq.TheImpl.{ghosts};
    ghost use Rattle.dn_types.specs.contracts.delivery.DeliveryPartialEq.TheImpl.Laws.{laws-law};

    ghost eq = { pointwise ghosts.eq };

    ghost laws = { lists_per laws-law };

    fn eq(&self, other: &Deliveries) -> bool {
        self.items == other.items
    }
}

impl Eq for Deliveries {
    ghost use Rattle.std.specs.Cmp.Lexicographic.{lists_equiv};
    ghost use Rattle.dn_types.specs.contracts.delivery.DeliveryEq.TheImpl.Laws.{laws-law};

    ghost laws = { lists_equiv laws-law };
}

impl Deliveries {
    /// The list of the vector's items. It takes no memory.
    pub fn from_vec(items: Vec<Delivery>) -> Deliveries
        ensures { result ≡ items.items }
    {
        Deliveries { items }
    }

    /// The items, as a vector. It takes no memory.
    pub fn into_vec(self) -> Vec<Delivery>
        ensures { result.items ≡ self }
    {
        let Deliveries { items } = self;
        items
    }

    /// The items.
    pub fn as_slice(&self) -> &[Delivery]
        ensures { result.now ≡ self.now }
    {
        self.items.as_slice()
    }

    /// An equal list, or an error where memory was refused.
    pub fn try_clone(&self) -> Result<Deliveries, AllocError>
        ensures { IfOk result (λ copy. copy ≡ self.now) }
    {
        Ok(Deliveries::from_vec(self.items.clone()?))
    }
}
