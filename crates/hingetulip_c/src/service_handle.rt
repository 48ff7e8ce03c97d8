ghost use Rattle.std.specs.Prelude.{◌≡◌, List, [], ◌∷◌};
ghost use Rattle.std.specs.Option.{MatchOption};
ghost use Rattle.std_alloc.specs.Box.Ownership.{box_owns};
ghost use Rattle.hingetulip_c.specs.Handles.{freed, owned_by};
ghost use Rattle.hingetulip_c.specs.contracts.ledger.Ledger.{the_row};
ghost use Rattle.hingetulip_c.specs.declared.ledger.Ledger.{Ledger as LedgerValue};
ghost use base.Stored.{coded_list};

use crate::ledger::Ledger;
use crate::raw_box::RawBox;
use std::alloc::Global;
use std::marker::Model;

/// A service that C holds, or nothing: `dn_service`.
#[repr(C)]
pub struct ServiceHandle {
    at: *mut u8,
    there: bool,
    pub ghost held: { List LedgerValue } by { coded_list the_row.coded },
}

impl Model for ServiceHandle {
    ghost also_owns = { λ h. owned_by (box_owns freed the_row h.at) h.there h.held };
}

impl ServiceHandle {
    /// A handle that holds what the pointer owns.
    fn of(ledger: RawBox<Ledger, Global>) -> ServiceHandle
        ensures { result.held ≡ ledger.held ∷ [] }
    {
        let RawBox { pointer, alloc: _ } = ledger;
        ServiceHandle {
            at: pointer as *mut u8,
            there: true,
        }
    }

    /// A handle that holds nothing.
    fn closed() -> ServiceHandle
        ensures { result.held ≡ [] }
    {
        ServiceHandle {
            at: std::ptr::null_mut(),
            there: false,
        }
    }

    /// What the handle holds.
    fn into_raw_box(self, alloc: Global) -> Option<RawBox<Ledger, Global>>
        ensures { MatchOption result (self.held ≡ []) (λ b. self.held ≡ b.held ∷ []) }
    {
        let ServiceHandle { at, there } = self;
        if there {
            Some(RawBox {
                pointer: at as *mut Ledger,
                alloc,
            })
        } else {
            None
        }
    }

    /// Takes the service, and leaves the handle closed.
    pub(crate) fn take(&mut self, alloc: Global) -> Option<Box<Ledger>>
        ensures taken { MatchOption result (self.old.held ≡ []) (λ ledger. self.old.held ≡ ledger.value ∷ []) }
        ensures closed { self.new.held ≡ [] }
    {
        let old = std::mem::replace(self, ServiceHandle::closed());
        match old.into_raw_box(alloc) {
            Some(ledger) => Some(ledger.whole()),
            None => None,
        }
    }

    /// Puts a service into the handle, and gives back what it held.
    pub(crate) fn put(&mut self, alloc: Global, ledger: Box<Ledger>) -> Option<Box<Ledger>>
        ensures { self.new.held ≡ ledger.value ∷ [] }
    {
        let old = std::mem::replace(self, ServiceHandle::of(RawBox::apart(ledger)));
        match old.into_raw_box(alloc) {
            Some(ledger) => Some(ledger.whole()),
            None => None,
        }
    }
}
