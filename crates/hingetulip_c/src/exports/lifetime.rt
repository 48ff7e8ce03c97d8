ghost use Rattle.std.specs.Prelude.{◌≡◌, ◌<◌, ◌≤◌, ◌⊎◌, [], cond, nat_eq, IfNone, IfOk, IfSome};
ghost use Rattle.dn_types.specs.declared.rule.Rule.TheVariants.{Ordered, Free};
ghost use Rattle.dn_shaper.specs.Shaper.{StandsAfter};
ghost use Rattle.hingetulip_c.specs.Handles.{HeldAfter, Opens};

use crate::handle::Handle;
use crate::status::{BAD_RULE, MEMORY, OK};
use dn_shaper::{HashKey, Shaper};
use dn_types::Rule;
use std::alloc::{AllocError, Global};

const VERSION: u32 = 2_000_000;

/// The version of the library: major * 1,000,000 + minor * 1,000 + patch.
#[unsafe(no_mangle)]
pub extern "C" fn dn_version() -> u32
    ensures { result ≡ 2000000 }
{
    VERSION
}

/// The rule of a number, and None where no rule has it.
fn rule_of(number: u32) -> Option<Rule>
    ensures rule { IfSome result (λ rule. rule ≡ cond (nat_eq number 0) Ordered Free) }
    ensures known { IfSome result (λ rule. number ≤ 1) }
    ensures none { IfNone result (1 < number) }
{
    match number {
        0 => Some(Rule::Ordered),
        1 => Some(Rule::Free),
        _ => None,
    }
}

/// A new shaper in a box.
fn new_shaper(alloc: Global, rule: Rule, key: HashKey) -> Result<Box<Shaper>, AllocError>
    ensures { IfOk result (λ shaper. StandsAfter rule shaper.value []) }
{
    Ok(Box::new(alloc, Shaper::with_key(alloc, rule, key))?)
}

/// Opens a handle by a rule and the key of its flows' hash. What it held is let go.
fn open_by(alloc: Global, handle: &mut Handle, rule: Rule, key: HashKey) -> u32
    ensures opened { result ≡ 0 → HeldAfter rule handle.new.held [] }
    ensures memory { result ≡ 6 → handle.new.held ≡ [] }
    ensures statuses { (result ≡ 0) ⊎ (result ≡ 6) }
{
    let _old = handle.take(alloc);
    match new_shaper(alloc, rule, key) {
        Ok(shaper) => {
            let _none = handle.put(alloc, shaper);
            OK
        }
        Err(_) => MEMORY,
    }
}

/// Opens a handle by the number of a rule and the key of its flows' hash. What it held is let go.
fn open(alloc: Global, handle: &mut Handle, rule: u32, key: HashKey) -> u32
    ensures { Opens rule result handle.old.held handle.new.held }
{
    match rule_of(rule) {
        Some(rule) => open_by(alloc, handle, rule, key),
        None => BAD_RULE,
    }
}

/// Opens a handle, without a pipe, a queue or a packet. What it held is let go.
#[unsafe(no_mangle)]
pub extern "C" fn dn_open(alloc: Global, handle: &mut Handle, rule: u32) -> u32
    ensures { Opens rule result handle.old.held handle.new.held }
{
    open(alloc, handle, rule, HashKey(0))
}

/// As `dn_open`, with a secret of 128 bits for the table of its flows, for packets that a stranger chooses.
///
/// No reply depends on it.
#[unsafe(no_mangle)]
pub extern "C" fn dn_open_with_key(
    alloc: Global,
    handle: &mut Handle,
    rule: u32,
    high: u64,
    low: u64,
) -> u32
    ensures { Opens rule result handle.old.held handle.new.held }
{
    let key = HashKey(u128::from(high) << 64 | u128::from(low));
    open(alloc, handle, rule, key)
}
