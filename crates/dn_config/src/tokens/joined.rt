ghost use Rattle.std.specs.Prelude.{◌≡◌, option_map};
ghost use Rattle.dn_config.specs.Tokens.Joined.{after_end, after_mark, joined_parts};

/// What stands after the end of a line at the front of a text.
fn after_line_end(text: &[u8]) -> Option<&[u8]>
    ensures { option_map (λ rest. rest.now) result ≡ after_end text.now }
{
    match text {
        [] => Some(text),
        [b'\n', rest @ ..] => Some(rest),
        [b'\r', b'\n', rest @ ..] => Some(rest),
        _ => None,
    }
}

/// What stands after a line `--` at the front of a text.
fn after_mark_line(text: &[u8]) -> Option<&[u8]>
    ensures { option_map (λ rest. rest.now) result ≡ after_mark text.now }
{
    match text {
        [b'-', b'-', rest @ ..] => after_line_end(rest),
        _ => None,
    }
}

/// The configuration and the packet file of a joined input.
///
/// The configuration is the text before the first line `--`, and the packet file the text after that line. Without such a
/// line the whole is the configuration.
pub fn split_joined(text: &[u8]) -> (&[u8], &[u8])
    ensures config { result.0.now ≡ (joined_parts text.now).0 }
    ensures packets { result.1.now ≡ (joined_parts text.now).1 }
{
    let mut starts_line = true;
    for (i, byte) in text.iter().enumerate() {
        if starts_line {
            match after_mark_line(&text[i..]) {
                Some(rest) => return (&text[..i], rest),
                None => {}
            }
        }
        starts_line = *byte == b'\n';
    }
    (text, &[])
}
