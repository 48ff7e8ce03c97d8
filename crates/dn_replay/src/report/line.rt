ghost use Rattle.std.specs.Prelude.{◌≡◌};
ghost use Rattle.dn_replay.specs.Report.{due_of, is_out, packet_of, row_number};

/// A line of a report: what became of the packet of one row.
///
/// `at` is the effective moment of its Submit; moments are in nanoseconds.
#[derive(Clone, Copy, Debug)]
pub enum ReportLine {
    /// The packet was delivered.
    Out {
        row: u128,
        flow: usize,
        packet: u64,
        at: u64,
        start: u64,
        due: u64,
    },
    /// It was accepted, and no Collect gave it.
    Held {
        row: u128,
        flow: usize,
        packet: u64,
        at: u64,
    },
    /// It was lost by the loss rate.
    Lost {
        row: u128,
        flow: usize,
        at: u64,
    },
    /// It was refused by a full queue.
    Full {
        row: u128,
        flow: usize,
        at: u64,
    },
    /// Its target had no configuration.
    NoTarget {
        row: u128,
        at: u64,
    },
}

impl ReportLine {
    pub(crate) fn is_out(&self) -> bool
        ensures { result ≡ is_out self.now }
    {
        matches!(self, ReportLine::Out { .. })
    }

    /// When the packet of an `out` line is due.
    pub(crate) fn due(&self) -> u64
        ensures { result ≡ due_of self.now }
    {
        match self {
            ReportLine::Out { due, .. } => *due,
            _ => 0,
        }
    }

    /// The packet number of an `out` line.
    pub(crate) fn packet(&self) -> u64
        ensures { result ≡ packet_of self.now }
    {
        match self {
            ReportLine::Out { packet, .. } => *packet,
            _ => 0,
        }
    }

    pub(crate) fn row(&self) -> u128
        ensures { result ≡ row_number self.now }
    {
        match self {
            ReportLine::Out { row, .. }
            | ReportLine::Held { row, .. }
            | ReportLine::Lost { row, .. }
            | ReportLine::Full { row, .. }
            | ReportLine::NoTarget { row, .. } => *row,
        }
    }
}
