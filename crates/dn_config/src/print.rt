ghost use Rattle.std.specs.Prelude.{[], ◌∷◌, ◌++◌, ◌≡◌, codes, OnOk, IfOk, decimal, string_bytes};
ghost use Rattle.dn_config.specs.Text.{behind_spaces, link_words, share_words};
ghost use Rattle.dn_config.specs.Text.{text as canonical};

use crate::pieces::{push_changed, push_numeral, push_word};
use crate::print_options::push_both;
use dn_types::{Bandwidth, Command, Delay, Number, Weight};
use std::alloc::{AllocError, Global};

/// Writes the head of a `config` line.
#[tactic(auto, using(crate::proofs::Appends::appends))]
fn push_head(text: &mut String, kind: &str, number: Number) -> Result<(), AllocError>
    ensures { OnOk result (string_bytes text.new ≡ string_bytes text.old ++ (kind.now ++ behind_spaces (decimal number ∷ codes "config" ∷ []))) }
{
    text.push_str(kind)?;
    push_numeral(text, u64::from(number.get()))?;
    push_word(text, "config")
}

/// Writes the options that only the line of a pipe has.
#[tactic(auto, using(crate::proofs::Appends::appends), unfolding(crate::specs::Text::link_words))]
fn push_link(text: &mut String, bw: Bandwidth, delay: Delay) -> Result<(), AllocError>
    ensures { OnOk result (string_bytes text.new ≡ string_bytes text.old ++ behind_spaces (link_words bw delay)) }
{
    push_changed(text, "bw", bw.get(), "bit/s", 0)?;
    push_changed(text, "delay", u64::from(delay.get()), "", 0)
}

/// Writes the options that only the line of a queue has.
#[tactic(auto, using(crate::proofs::Appends::appends), unfolding(crate::specs::Text::share_words))]
fn push_share(text: &mut String, pipe: Number, weight: Weight) -> Result<(), AllocError>
    ensures { OnOk result (string_bytes text.new ≡ string_bytes text.old ++ behind_spaces (share_words pipe weight)) }
{
    push_word(text, "pipe")?;
    push_numeral(text, u64::from(pipe.get()))?;
    push_changed(text, "weight", u64::from(weight.get()), "", 1)
}

/// Writes a deletion.
#[tactic(auto, using(crate::proofs::Appends::appends))]
fn push_deletion(text: &mut String, kind: &str, number: Number) -> Result<(), AllocError>
    ensures { OnOk result (string_bytes text.new ≡ string_bytes text.old ++ (kind.now ++ behind_spaces (codes "delete" ∷ decimal number ∷ []))) }
{
    text.push_str(kind)?;
    push_word(text, "delete")?;
    push_numeral(text, u64::from(number.get()))
}

/// Writes a command.
#[tactic(auto, using(crate::proofs::Appends::appends), unfolding(crate::specs::Text::text, crate::specs::Text::text_words))]
fn push_command(text: &mut String, command: Command) -> Result<(), AllocError>
    ensures { OnOk result (string_bytes text.new ≡ string_bytes text.old ++ canonical command) }
{
    match command {
        Command::Pipe {
            number,
            bw,
            delay,
            limit,
            loss,
            buckets,
            mask,
        } => {
            push_head(text, "pipe", number)?;
            push_link(text, bw, delay)?;
            push_both(text, limit, loss, buckets, mask)
        }
        Command::Queue {
            number,
            pipe,
            weight,
            limit,
            loss,
            buckets,
            mask,
        } => {
            push_head(text, "queue", number)?;
            push_share(text, pipe, weight)?;
            push_both(text, limit, loss, buckets, mask)
        }
        Command::DeletePipe(number) => push_deletion(text, "pipe", number),
        Command::DeleteQueue(number) => push_deletion(text, "queue", number),
    }
}

/// The canonical text of a command: the options that differ from their default, in a fixed order.
///
/// `parse_line` reads it back as the command. No line feed ends it.
pub fn print_command(alloc: Global, command: &Command) -> Result<String, AllocError>
    ensures text { IfOk result (λ s. string_bytes s ≡ canonical command.now) }
{
    let mut text = String::new(alloc);
    push_command(&mut text, *command)?;
    Ok(text)
}
