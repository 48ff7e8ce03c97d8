ghost use Rattle.std.specs.Prelude.{IfErr};
ghost use Rattle.dummynet.specs.Requests.{IsUnread};

use crate::refusal::Refusal;
use std::rt::Env;
use std::{env, io};

/// The words of the command line with which the program was started, its name first.
pub fn words_of<R: Env + AllocGlobal>(rt: &R) -> Result<Vec<String>, Refusal>
    ensures err { IfErr result IsUnread }
{
    match env::args(rt) {
        Ok(args) => Ok(args.collect::<Vec<String>>(rt.alloc())?),
        Err(error) => match error.kind() {
            io::ErrorKind::OutOfMemory => Err(Refusal::OutOfMemory),
            _ => Err(Refusal::NotUtf8),
        },
    }
}
