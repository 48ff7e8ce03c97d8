ghost use Rattle.std.specs.Prelude.{◌≡◌, List, [], ◌∷◌};
ghost use Rattle.std.specs.Option.{MatchOption};
ghost use Rattle.std_alloc.specs.Box.Ownership.{box_owns};
ghost use Rattle.dn_history.specs.contracts.file_audit.file_audit.FileAudit.{the_row};
ghost use Rattle.dn_history.specs.declared.file_audit.file_audit.FileAudit.{FileAudit as FileAuditValue};
ghost use Rattle.hingetulip_c.specs.Handles.{freed, owned_by};
ghost use base.Stored.{coded_list};

use crate::raw_box::RawBox;
use dn_history::FileAudit;
use std::alloc::Global;
use std::marker::Model;

/// An audit that C holds, or nothing: `dn_audit`.
#[repr(C)]
pub struct AuditHandle {
    at: *mut u8,
    there: bool,
    pub ghost held: { List FileAuditValue } by { coded_list the_row.coded },
}

impl Model for AuditHandle {
    ghost also_owns = { λ h. owned_by (box_owns freed the_row h.at) h.there h.held };
}

impl AuditHandle {
    /// A handle that holds what the pointer owns.
    fn of(audit: RawBox<FileAudit, Global>) -> AuditHandle
        ensures { result.held ≡ audit.held ∷ [] }
    {
        let RawBox { pointer, alloc: _ } = audit;
        AuditHandle {
            at: pointer as *mut u8,
            there: true,
        }
    }

    /// A handle that holds nothing.
    fn closed() -> AuditHandle
        ensures { result.held ≡ [] }
    {
        AuditHandle {
            at: std::ptr::null_mut(),
            there: false,
        }
    }

    /// What the handle holds.
    fn into_raw_box(self, alloc: Global) -> Option<RawBox<FileAudit, Global>>
        ensures { MatchOption result (self.held ≡ []) (λ b. self.held ≡ b.held ∷ []) }
    {
        let AuditHandle { at, there } = self;
        if there {
            Some(RawBox {
                pointer: at as *mut FileAudit,
                alloc,
            })
        } else {
            None
        }
    }

    /// Takes the audit, and leaves the handle closed.
    pub(crate) fn take(&mut self, alloc: Global) -> Option<Box<FileAudit>>
        ensures taken { MatchOption result (self.old.held ≡ []) (λ audit. self.old.held ≡ audit.value ∷ []) }
        ensures closed { self.new.held ≡ [] }
    {
        let old = std::mem::replace(self, AuditHandle::closed());
        match old.into_raw_box(alloc) {
            Some(audit) => Some(audit.whole()),
            None => None,
        }
    }

    /// Puts an audit into the handle, and gives back what it held.
    pub(crate) fn put(&mut self, alloc: Global, audit: Box<FileAudit>) -> Option<Box<FileAudit>>
        ensures { self.new.held ≡ audit.value ∷ [] }
    {
        let old = std::mem::replace(self, AuditHandle::of(RawBox::apart(audit)));
        match old.into_raw_box(alloc) {
            Some(audit) => Some(audit.whole()),
            None => None,
        }
    }
}
