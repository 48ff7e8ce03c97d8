use dn_files::ReplayFault;

/// How far the reading of a history has come.
#[derive(Clone, Copy, Debug)]
pub(crate) enum Progress {
    /// Its end hasn't been read.
    Reading,
    /// It was read to its end.
    Ended,
    /// It was read up to this fault.
    Failed(ReplayFault),
}
