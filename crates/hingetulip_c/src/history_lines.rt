//! The text of an entry, as lines of a history file.

ghost use Rattle.std.specs.Prelude.{◌≡◌, ◌≢◌, ◌≤◌, ◌<◌, ◌+◌, ◌⊎◌, [], drop, length, take, IfOk};
ghost use Rattle.dn_history.specs.HistoryText.{entry_records, part_text};
ghost use Rattle.dn_records.specs.Records.{text_of};
ghost use Rattle.hingetulip_c.specs.Services.{next_text};

use crate::put::put_text;
use crate::status::MEMORY;
use dn_history::write_entry;
use dn_records::RecordWriter;
use dn_types::Entry;
use std::alloc::{AllocError, Global};

/// The text of an entry in a history file.
pub(crate) fn entry_text(alloc: Global, entry: &Entry) -> Result<Vec<u8>, AllocError>
    ensures { IfOk result (λ text. text.items ≡ text_of (entry_records entry.now)) }
{
    let mut writer = RecordWriter::new(alloc);
    write_entry(alloc, &mut writer, entry)?;
    Ok(writer.into_text())
}

/// The texts of entries, one after the other.
#[derive(Drop)]
pub(crate) struct Texts {
    /// Those of the entries that fit, and then that of the next one, if there is one.
    pub(crate) text: Vec<u8>,
    /// How many entries fit.
    pub(crate) count: usize,
    /// How many bytes these have.
    pub(crate) size: usize,
}

/// The texts of the first entries, as many as fit into so many bytes.
pub(crate) fn texts_within(
    alloc: Global,
    entries: &[Entry],
    room: usize,
) -> Result<Texts, AllocError>
    ensures count { IfOk result (λ made. made.count ≤ length entries.now) }
    ensures fits { IfOk result (λ made. made.size ≤ room) }
    ensures text { IfOk result (λ made. take made.size made.text.items ≡ part_text (take made.count entries.now)) }
    ensures within { IfOk result (λ made. made.size ≤ length made.text.items) }
    ensures most { IfOk result (λ made. (drop made.count entries.now ≡ []) ⊎ ((room < length made.text.items)
        × (length made.text.items ≡ made.size + length (next_text (drop made.count entries.now))))) }
{
    let mut writer = RecordWriter::new(alloc);
    let mut size = 0;
    for count in 0..entries.len() {
        write_entry(alloc, &mut writer, &entries[count])?;
        if room < writer.text_len() {
            let text = writer.into_text();
            return Ok(Texts { text, count, size });
        }
        size = writer.text_len();
    }
    let text = writer.into_text();
    let count = entries.len();
    Ok(Texts { text, count, size })
}

/// Writes the text of an entry if it has room, and how many bytes it has.
pub(crate) fn put_entry(alloc: Global, entry: &Entry, text: &mut [u8], size: &mut u64) -> u32
    ensures statuses { (result ≡ 0) ⊎ (result ≡ 6) ⊎ (result ≡ 7) }
    ensures wrote { result ≡ 0 → take size.new text.new ≡ text_of (entry_records entry.now) }
    ensures others { result ≡ 0 → drop size.new text.new ≡ drop size.new text.old }
    ensures refused { result ≢ 0 → text.new ≡ text.old }
    ensures size { result ≢ 6 → size.new ≡ length (text_of (entry_records entry.now)) }
    ensures room { result ≡ 7 → length text.old < size.new }
    ensures memory { result ≡ 6 → size.new ≡ size.old }
{
    let Ok(line) = entry_text(alloc, entry) else {
        return MEMORY;
    };
    put_text(line.as_slice(), text, size)
}
