ghost use Rattle.std.specs.Prelude.{◌≡◌, [], IfOk, reverse};
ghost use Rattle.dn_types.specs.Replies.{replies};
ghost use Rattle.dn_types.specs.declared.rule.Rule.TheVariants.{Ordered};
ghost use Rattle.dn_shaper.specs.Shaper.{StandsAfter};

use crate::shaper::Shaper;
use dn_types::{Call, Reply};
use std::alloc::{AllocError, Global};

/// The replies of a shaper before its first call to a list of calls.
fn answer_all(alloc: Global, shaper: &mut Shaper, calls: &[Call]) -> Result<Vec<Reply>, AllocError>
    ensures { IfOk result (λ list. StandsAfter Ordered shaper.old [] → list.items ≡ reverse (replies Ordered (reverse calls.now))) }
{
    let mut replies = Vec::with_capacity(alloc, calls.len())?;
    for call in calls {
        replies.push_reserved(shaper.apply(call)?);
    }
    Ok(replies)
}

/// The replies to a list of calls, from a new shaper on.
///
/// Err says that memory was refused, for a call or for the list.
pub fn run(alloc: Global, calls: &[Call]) -> Result<Vec<Reply>, AllocError>
    ensures { IfOk result (λ list. list.items ≡ reverse (replies Ordered (reverse calls.now))) }
{
    let mut shaper = Shaper::new(alloc);
    let replies = answer_all(alloc, &mut shaper, calls);
    // The proof of a drop by a call has one step, where that of a drop at the end has one for each field.
    drop(shaper);
    replies
}
