ghost use Rattle.std.specs.Prelude.{◌≡◌, List, [], ◌∷◌};
ghost use Rattle.std.specs.Option.{MatchOption};
ghost use Rattle.std_alloc.specs.Box.Ownership.{box_owns};
ghost use Rattle.hingetulip_c.specs.Handles.{freed, owned_by};
ghost use Rattle.hingetulip_c.specs.contracts.client.Client.{the_row};
ghost use Rattle.hingetulip_c.specs.declared.client.Client.{Client as ClientValue};
ghost use base.Stored.{coded_list};

use crate::client::Client;
use crate::raw_box::RawBox;
use std::alloc::Global;
use std::marker::Model;

/// A caller of a service that C holds, or nothing: `dn_caller`.
#[repr(C)]
pub struct CallerHandle {
    at: *mut u8,
    there: bool,
    pub ghost held: { List ClientValue } by { coded_list the_row.coded },
}

impl Model for CallerHandle {
    ghost also_owns = { λ h. owned_by (box_owns freed the_row h.at) h.there h.held };
}

impl CallerHandle {
    /// A handle that holds what the pointer owns.
    fn of(client: RawBox<Client, Global>) -> CallerHandle
        ensures { result.held ≡ client.held ∷ [] }
    {
        let RawBox { pointer, alloc: _ } = client;
        CallerHandle {
            at: pointer as *mut u8,
            there: true,
        }
    }

    /// A handle that holds nothing.
    fn closed() -> CallerHandle
        ensures { result.held ≡ [] }
    {
        CallerHandle {
            at: std::ptr::null_mut(),
            there: false,
        }
    }

    /// What the handle holds.
    fn into_raw_box(self, alloc: Global) -> Option<RawBox<Client, Global>>
        ensures { MatchOption result (self.held ≡ []) (λ b. self.held ≡ b.held ∷ []) }
    {
        let CallerHandle { at, there } = self;
        if there {
            Some(RawBox {
                pointer: at as *mut Client,
                alloc,
            })
        } else {
            None
        }
    }

    /// Takes the caller, and leaves the handle closed.
    pub(crate) fn take(&mut self, alloc: Global) -> Option<Box<Client>>
        ensures taken { MatchOption result (self.old.held ≡ []) (λ client. self.old.held ≡ client.value ∷ []) }
        ensures closed { self.new.held ≡ [] }
    {
        let old = std::mem::replace(self, CallerHandle::closed());
        match old.into_raw_box(alloc) {
            Some(client) => Some(client.whole()),
            None => None,
        }
    }

    /// Puts a caller into the handle, and gives back what it held.
    pub(crate) fn put(&mut self, alloc: Global, client: Box<Client>) -> Option<Box<Client>>
        ensures { self.new.held ≡ client.value ∷ [] }
    {
        let old = std::mem::replace(self, CallerHandle::of(RawBox::apart(client)));
        match old.into_raw_box(alloc) {
            Some(client) => Some(client.whole()),
            None => None,
        }
    }
}
