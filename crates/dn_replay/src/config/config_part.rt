ghost use Rattle.std.specs.Prelude.{◌≡◌, ◌∷◌, ◌++◌, ℕ, List, [], true, false, IfOk, OnOk, MatchOption};
ghost use Rattle.dn_config.specs.Tokens.Joined.{joined_parts};
ghost use Rattle.dn_replay.specs.OnePass.{IsConfigSoFar, is_mark};
ghost use Rattle.dn_replay.specs.Feeding.{IsCutIn, TakesLines};

use std::alloc::{AllocError, Global};

/// What has come of the configuration of a joined input: its whole lines, and the line that may go on.
#[derive(Drop)]
pub(crate) struct ConfigPart {
    pub(crate) lines: Vec<u8>,
    pub(crate) line: Vec<u8>,
}

impl ConfigPart {
    pub(crate) fn new(alloc: Global) -> ConfigPart
        ensures { IsConfigSoFar result [] }
    {
        ConfigPart {
            lines: Vec::new(alloc),
            line: Vec::new(alloc),
        }
    }

    /// Whether the line is `--`, with a carriage return or without, where a line feed ends it.
    fn is_mark(&self) -> bool
        ensures { result ≡ is_mark self.now.line.items }
    {
        self.line.as_slice() == b"--".as_slice() || self.line.as_slice() == b"--\r".as_slice()
    }

    /// Takes one byte, and answers whether it ended the line `--`.
    fn take_byte(&mut self, byte: u8) -> Result<bool, AllocError>
        ensures marked { IfOk result (λ ended. ended ≡ true → (text : List ℕ) → IsConfigSoFar self.old text
            → (more : List ℕ) → joined_parts (text ++ byte ∷ more) ≡ (self.new.lines.items, more)) }
        ensures goes_on { IfOk result (λ ended. ended ≡ false → (text : List ℕ) → IsConfigSoFar self.old text
            → IsConfigSoFar self.new (text ++ byte ∷ [])) }
    {
        if byte != b'\n' {
            self.line.push(byte)?;
            return Ok(false);
        }
        if self.is_mark() {
            return Ok(true);
        }
        self.lines.extend_from_slice(self.line.as_slice())?;
        self.lines.push(byte)?;
        self.line.clear();
        Ok(false)
    }

    /// Takes what a part of the input has of the configuration.
    ///
    /// Once the line `--` has ended, the lines are the configuration, and what follows in the part is returned.
    pub(crate) fn feed<'a>(&mut self, part: &'a [u8]) -> Result<Option<&'a [u8]>, AllocError>
        ensures { IfOk result (λ found. MatchOption found (TakesLines part.now self.old self.new) (λ rest. IsCutIn part.now self.old self.new.lines.items rest.now)) }
    {
        for (i, byte) in part.iter().enumerate() {
            if self.take_byte(*byte)? {
                return Ok(Some(&part[i + 1..]));
            }
        }
        Ok(None)
    }

    /// Takes the end of the input.
    ///
    /// The lines are then the configuration: if the last line is `--`, it is no part of it, and no packets follow.
    pub(crate) fn finish(&mut self) -> Result<(), AllocError>
        ensures { OnOk result ((text : List ℕ) → IsConfigSoFar self.old text → joined_parts text ≡ (self.new.lines.items, [])) }
    {
        if self.line.as_slice() == b"--".as_slice() {
            return Ok(());
        }
        self.lines.extend_from_slice(self.line.as_slice())?;
        Ok(())
    }
}
