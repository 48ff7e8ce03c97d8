ghost use Rattle.std.specs.Prelude.{◌≡◌, ◌≢◌, ◌⊎◌, ℕ, List, [], Err};
ghost use Rattle.dn_files.specs.declared.replay_fault.ReplayFault.TheVariants.{BadRecord};
ghost use Rattle.dn_history.specs.HistoryFile.{history_in};
ghost use Rattle.hingetulip_c.specs.Audits.{HoldsText, IsFound, c_verdict};

use crate::audit_handle::AuditHandle;
use crate::records::CVerdict;
use crate::status::{BAD_RECORD, CLOSED, MEMORY, OK};
use dn_files::ReplayFault;
use dn_history::Verdict;
use std::alloc::Global;

/// The verdict, with the numbers of the header.
fn verdict_of(verdict: Verdict, entries: usize) -> CVerdict
    ensures { result ≡ c_verdict verdict entries }
{
    match verdict {
        Verdict::Lawful => CVerdict {
            entries: entries as u64,
            first: 0,
            finding: 0,
            reserved: 0,
        },
        Verdict::Differs(index) => CVerdict {
            entries: entries as u64,
            first: index as u64,
            finding: 1,
            reserved: 0,
        },
    }
}

/// Tells the verdict on the history file whose text has come, and closes the handle.
#[tactic(auto, using(crate::proofs::Audits::found, crate::proofs::Audits::faulty))]
#[unsafe(no_mangle)]
pub extern "C" fn dn_audit_finish(
    alloc: Global,
    audit: &mut AuditHandle,
    verdict: &mut CVerdict,
    number: &mut u64,
) -> u32
    ensures found { result ≡ 0 → (limit : ℕ) (text : List ℕ) → HoldsText limit audit.old.held text → IsFound text verdict.new }
    ensures fault { result ≡ 24 → (limit : ℕ) (text : List ℕ) → HoldsText limit audit.old.held text → history_in text ≡ Err (BadRecord number.new) }
    ensures ended { audit.new.held ≡ [] }
    ensures no_verdict { result ≢ 0 → verdict.new ≡ verdict.old }
    ensures no_fault { result ≢ 24 → number.new ≡ number.old }
    ensures why { result ≢ 0 → ((result ≡ 5) × (audit.old.held ≡ [])) ⊎ (((result ≡ 6) ⊎ (result ≡ 24)) × (audit.old.held ≢ [])) }
    ensures closed { audit.old.held ≡ [] → result ≡ 5 }
{
    let Some(begun) = audit.take(alloc) else {
        return CLOSED;
    };
    match Box::into_inner(begun).finish() {
        Ok((found, entries)) => {
            *verdict = verdict_of(found, entries);
            OK
        }
        Err(ReplayFault::BadRecord(bad)) => {
            *number = bad;
            BAD_RECORD
        }
        Err(_) => MEMORY,
    }
}
