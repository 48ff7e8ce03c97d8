use crate::destination::Destination;
use crate::sent::Sent;
use dn_config::parse_line;
use dn_types::{Call, Command, Moment};
use std::test::Fail;

/// A call in texts and plain numbers.
#[derive(Clone, Copy)]
pub enum Asked<'a> {
    /// A Configure of a configuration line.
    Line(&'a str),
    Submit {
        destination: Destination,
        packet: Sent,
        at: u64,
    },
    Advance(u64),
    Collect(u64),
    Show,
}

fn command(line: &str) -> Result<Command, Fail> {
    let command = parse_line(line).ok().flatten();
    Ok(command.ok_or("a configuration line")?)
}

fn moment(value: u64) -> Result<Moment, Fail> {
    Ok(Moment::new(value).ok_or("a moment")?)
}

impl Asked<'_> {
    /// The call.
    pub fn call(&self) -> Result<Call, Fail> {
        match self {
            Asked::Line(line) => Ok(Call::Configure(command(line)?)),
            Asked::Submit {
                destination,
                packet,
                at,
            } => Ok(Call::Submit {
                target: destination.target()?,
                packet: packet.packet()?,
                moment: moment(*at)?,
            }),
            Asked::Advance(at) => Ok(Call::Advance(moment(*at)?)),
            Asked::Collect(at) => Ok(Call::Collect(moment(*at)?)),
            Asked::Show => Ok(Call::Show),
        }
    }
}
