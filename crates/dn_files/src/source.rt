ghost use Rattle.std.specs.Prelude.{◌≡◌};
ghost use Rattle.dn_files.specs.Faults.{source_name};

use std::fmt;

/// What is read or written.
#[derive(Clone, Copy, Debug, PartialEq, Eq)]
pub enum Source {
    /// A joined input: a configuration and a packet file in one text.
    Input,
    /// A configuration.
    Config,
    /// A packet file.
    Packets,
    /// A history file.
    History,
    /// A report.
    Report,
}

impl Source {
    /// The name under which fault lines speak of it.
    pub fn name(self) -> &'static str
        ensures { result.now ≡ source_name self }
    {
        match self {
            Source::Input => "input",
            Source::Config => "config",
            Source::Packets => "packets",
            Source::History => "history",
            Source::Report => "report",
        }
    }
}

impl fmt::Display for Source {
    fn fmt<W: fmt::Write>(&self, f: &mut fmt::Formatter<W>) -> fmt::Result {
        f.write_str(self.name())
    }
}
