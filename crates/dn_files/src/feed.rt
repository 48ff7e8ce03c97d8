ghost use Rattle.std.specs.Prelude.{◌≡◌, ◌≤◌, ◌<◌, ◌+◌, ◌++◌, ℕ, List, [], Result, false, length, OnOk, IfErr};
ghost use Rattle.dn_files.specs.Reading.{IsFaultOf, IsRefusal, IsTextOf};
ghost use Rattle.dn_files.specs.declared.replay_fault.ReplayFault.{ReplayFault as FaultValue};
ghost use Rattle.dn_files.specs.declared.source.Source.{Source as SourceValue};

use crate::replay_fault::ReplayFault;
use crate::source::Source;
use dn_records::Inlet;
use std::alloc::Global;

// How many bytes one read asks for at most.
const PART: usize = 65536;

/// What takes a text in parts of any length.
///
/// What it has taken is known by more than its value, such as the text that came before this one: `Known` is that.
pub trait Feed {
    ghost Known: { Type 0 };

    ghost Value: { Type 0 };

    // What a whole text is read as, or its first fault.
    ghost reading: { Known → List ℕ → Result Value FaultValue };

    // The name of the text in a fault.
    ghost source_of: { Known → SourceValue };

    // This text has come.
    ghost has_come: { Known → Self → List ℕ → Type 0 };

    // How many bytes may come yet.
    ghost room: { Self → ℕ };

    /// Takes the next part. After a fault it is of no more use.
    fn feed(&mut self, part: &[u8]) -> Result<(), ReplayFault>
        ensures ok { OnOk result ((known : Known) (text : List ℕ) → has_come known self.old text → has_come known self.new (text ++ part.now)) }
        ensures room { OnOk result (length part.now + room self.new ≤ room self.old) }
        ensures err { IfErr result (λ fault. (known : Known) (text more : List ℕ) → has_come known self.old text
            → IsFaultOf (reading known (text ++ (part.now ++ more))) fault) };

    /// The name of the text in a fault.
    fn source(&self) -> Source
        ensures { (known : Known) (text : List ℕ) → has_come known self.now text → result ≡ source_of known };
}

/// Feeds what an inlet has left, a read of at most the length of `chunk` at a time.
fn feed_by<I: Inlet, F: Feed>(
    inlet: &mut I,
    feed: &mut F,
    chunk: &mut [u8],
) -> Result<(), ReplayFault>
    requires sound { I.has_failed inlet.old ≡ false }
    requires room { 0 < length chunk.old }
    ensures ok { OnOk result ((text : List ℕ) × IsTextOf (I.remaining inlet.old) text
        × ((known : F.Known) → F.has_come known feed.old [] → F.has_come known feed.new text)) }
    ensures sound { OnOk result (I.has_failed inlet.new ≡ false) }
    ensures err { IfErr result (λ fault. (known : F.Known) → F.has_come known feed.old []
        → IsRefusal (F.source_of known) (F.reading known) (I.remaining inlet.old) (I.has_failed inlet.new) fault) }
{
    loop {
        let Some(count) = inlet.read(chunk) else {
            return Err(ReplayFault::Read(feed.source()));
        };
        if count == 0 {
            return Ok(());
        }
        match feed.feed(&chunk[..count]) {
            Ok(()) => {}
            Err(fault) => return Err(fault),
        }
    }
}

/// Feeds what an inlet has left, in parts of at most 65,536 bytes.
///
/// The faults are those of `feed`, after which nothing more is read, Read if a read failed, and OutOfMemory.
pub fn feed_all<I: Inlet, F: Feed>(
    alloc: Global,
    inlet: &mut I,
    feed: &mut F,
) -> Result<(), ReplayFault>
    requires sound { I.has_failed inlet.old ≡ false }
    ensures ok { OnOk result ((text : List ℕ) × IsTextOf (I.remaining inlet.old) text
        × ((known : F.Known) → F.has_come known feed.old [] → F.has_come known feed.new text)) }
    ensures sound { OnOk result (I.has_failed inlet.new ≡ false) }
    ensures err { IfErr result (λ fault. (known : F.Known) → F.has_come known feed.old []
        → IsRefusal (F.source_of known) (F.reading known) (I.remaining inlet.old) (I.has_failed inlet.new) fault) }
{
    let Ok(mut chunk) = vec![in alloc; 0u8; PART] else {
        return Err(ReplayFault::OutOfMemory);
    };
    feed_by(inlet, feed, chunk.as_mut_slice())
}
