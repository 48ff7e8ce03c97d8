//! What a call answers, as the header names it.

ghost use Rattle.std.specs.Prelude.{◌≡◌, ◌≤◌, ◌++◌, codes, decimal, length, IfSome, IfNone};
ghost use Rattle.hingetulip_c.specs.Reasons.{status_words};

pub(crate) const OK: u32 = 0;

pub(crate) const EXHAUSTED: u32 = 1;

pub(crate) const NO_SUCH_PIPE: u32 = 2;

pub(crate) const PIPE_HAS_QUEUES: u32 = 3;

pub(crate) const NO_SUCH_QUEUE: u32 = 4;

pub(crate) const CLOSED: u32 = 5;

pub(crate) const MEMORY: u32 = 6;

pub(crate) const ROOM: u32 = 7;

pub(crate) const LINE: u32 = 8;

pub(crate) const BAD_MOMENT: u32 = 9;

pub(crate) const BAD_RULE: u32 = 10;

pub(crate) const BAD_KIND: u32 = 11;

pub(crate) const BAD_NUMBER: u32 = 12;

pub(crate) const BAD_LENGTH: u32 = 13;

pub(crate) const BAD_RESERVED: u32 = 14;

pub(crate) const BUSY: u32 = 15;

pub(crate) const BAD_COUNT: u32 = 16;

pub(crate) const UNWRITTEN: u32 = 17;

pub(crate) const NO_ENTRY: u32 = 18;

pub(crate) const NEW_FLOW: u32 = 19;

pub(crate) const BAD_CALLER: u32 = 20;

pub(crate) const BAD_OUTCOME: u32 = 21;

pub(crate) const BAD_ROW: u32 = 22;

pub(crate) const TOO_LONG: u32 = 23;

pub(crate) const BAD_RECORD: u32 = 24;

/// The words for a status, or None for a number that is none.
pub(crate) fn status_words(status: u32) -> Option<&'static str>
    ensures some { IfSome result (λ words. (words.now ≡ status_words status) × (length words.now ≤ 60)) }
    ensures none { IfNone result (status_words status ≡ codes "status " ++ decimal status) }
{
    match status {
        OK => Some("done"),
        EXHAUSTED => Some("the shaper answered 2^62 calls before"),
        NO_SUCH_PIPE => Some("no such pipe"),
        PIPE_HAS_QUEUES => Some("pipe has queues"),
        NO_SUCH_QUEUE => Some("no such queue"),
        CLOSED => Some("the handle is closed"),
        MEMORY => Some("out of memory"),
        ROOM => Some("the room is too short"),
        LINE => Some("the line is no command"),
        BAD_MOMENT => Some("a moment isn't in 0 to 2^62 ns"),
        BAD_RULE => Some("no rule"),
        BAD_KIND => Some("a kind that is neither 0, for a pipe, nor 1, for a queue"),
        BAD_NUMBER => Some("the number of a pipe or queue isn't in 1 to 65535"),
        BAD_LENGTH => Some("a length isn't in 1 to 65535 bytes"),
        BAD_RESERVED => Some("a reserved field that isn't 0"),
        BUSY => Some("another caller was in a call"),
        BAD_COUNT => Some("the number of callers isn't in 1 to 15"),
        UNWRITTEN => Some("an entry waits to be written"),
        NO_ENTRY => Some("no entry waits to be written"),
        NEW_FLOW => Some("the packet's flow is new"),
        BAD_CALLER => Some("the number of a history's caller isn't in 0 to 15"),
        BAD_OUTCOME => Some("an outcome that is none"),
        BAD_ROW => Some("a row of a packet file that is none"),
        TOO_LONG => Some("history too long"),
        BAD_RECORD => Some("a record of a history that is none"),
        _ => None,
    }
}
