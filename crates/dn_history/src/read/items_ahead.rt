use memchr::memrchr;

// No line of a list is longer than this, in bytes.
const LONGEST: usize = 1024;

/// Whether the last whole line of a text is one of a reply's list, behind which more of them are likely to come.
///
/// It is only asked whether reading is worth it: no result rests on it. It looks at the end of the text
/// alone, so that parts of a line without an end cost no more than they are.
pub(crate) fn ends_in_item(text: &[u8]) -> bool {
    let text = &text[text.len().saturating_sub(LONGEST)..];
    let Some(end) = memrchr(b'\n', text) else {
        return false;
    };
    let start = match memrchr(b'\n', &text[..end]) {
        Some(feed) => feed + 1,
        None => 0,
    };
    let line = &text[start..end];
    line.starts_with(b"d,") || line.starts_with(b"f,")
}
