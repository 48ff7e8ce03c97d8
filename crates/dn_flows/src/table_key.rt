ghost use Rattle.std.specs.Prelude.{◌≡◌, ◌/◌};
ghost use Rattle.dn_flows.specs.KeyWords.{high, low, first_port, last_port, target_of, pipe_in, mask_protocol, tuple_protocol, key_writes, IsNumber};
ghost use Rattle.std.specs.Cmp.Rules.{hashing};
ghost use Rattle.std.proofs.Common.{rules};

use dn_types::{FiveTuple, FlowKey, Mask, Number, Target};
use std::hash::{Hash, Hasher};
use std::marker::Model;

/// The key of a flow as the table keeps it. Contracts see the key itself.
///
/// All its fields stand in four words of 64 bits, since most of a look-up goes into the hashing of a
/// key and the comparison with one that is seldom in a cache: the dozen fields by themselves take 44
/// bytes, and each would be hashed and compared.
#[derive(Drop)]
pub struct TableKey {
    /// The target in the upper half; in the lower one the pipe and the protocols of the mask and the tuple.
    numbers: u64,
    /// The mask's source and destination.
    mask_addresses: u64,
    /// The mask's source and destination, and the tuple's.
    both_ports: u64,
    /// The tuple's source and destination.
    addresses: u64,
}

impl Model for TableKey {
    ghost use Rattle.dn_types.specs.declared.flow_key.FlowKey.{FlowKey};
    ghost use Rattle.dn_flows.specs.KeyWords.{key_of_words, HoldsNumbers};

    ghost Value = { FlowKey };

    ghost view = { λ a. key_of_words a.numbers a.mask_addresses a.both_ports a.addresses };

    ghost invariant = { λ a. HoldsNumbers a.numbers };
}

impl TableKey {
    /// The key of a flow in the form of the table.
    #[inline(always)]
    pub fn new(key: FlowKey) -> TableKey
        ensures { result ≡ key }
    {
        let FlowKey {
            target,
            pipe,
            mask,
            tuple,
        } = key;
        TableKey {
            numbers: beside(
                target_code(target),
                pipe_number(pipe, mask.proto, tuple.proto),
            ),
            mask_addresses: beside(mask.src, mask.dst),
            both_ports: beside(
                ports(mask.sport, mask.dport),
                ports(tuple.sport, tuple.dport),
            ),
            addresses: beside(tuple.src, tuple.dst),
        }
    }

    /// The key of the flow.
    pub fn get(&self) -> FlowKey
        ensures { result ≡ self.now }
    {
        let half = low(self.numbers);
        FlowKey {
            target: target_of(high(self.numbers)),
            pipe: Number::new(half / 0x1_0000).unwrap(),
            mask: Mask {
                src: high(self.mask_addresses),
                dst: low(self.mask_addresses),
                proto: (half % 0x1_0000 / 0x100) as u8,
                sport: first_port(high(self.both_ports)),
                dport: last_port(high(self.both_ports)),
            },
            tuple: FiveTuple {
                src: high(self.addresses),
                dst: low(self.addresses),
                proto: (half % 0x100) as u8,
                sport: first_port(low(self.both_ports)),
                dport: last_port(low(self.both_ports)),
            },
        }
    }
}

impl PartialEq for TableKey {
    ghost use Rattle.dn_types.specs.contracts.flow_key.FlowKeyPartialEq.TheImpl.{ghosts};
    ghost use Rattle.dn_types.specs.contracts.flow_key.FlowKeyPartialEq.TheImpl.Laws.{laws-law};

    ghost eq = { ghosts.eq };

    ghost laws = { laws-law };

    fn eq(&self, other: &TableKey) -> bool {
        self.addresses == other.addresses
            && self.both_ports == other.both_ports
            && self.mask_addresses == other.mask_addresses
            && self.numbers == other.numbers
    }
}

impl Eq for TableKey {
    ghost use Rattle.dn_types.specs.contracts.flow_key.FlowKeyEq.TheImpl.Laws.{laws-law};

    ghost laws = { laws-law };
}

impl Hash for TableKey {
    ghost hash_input = { key_writes };

    ghost respects_eq = { Prim.search (hashing, rules) };

    fn hash<H: Hasher>(&self, state: &mut H) {
        state.write_u64(self.numbers);
        state.write_u64(self.mask_addresses);
        state.write_u64(self.both_ports);
        state.write_u64(self.addresses);
    }
}

fn beside(upper: u32, lower: u32) -> u64
    ensures high { high result ≡ upper }
    ensures low { low result ≡ lower }
{
    u64::from(upper) * 0x1_0000_0000 + u64::from(lower)
}

fn high(word: u64) -> u32
    ensures { result ≡ high word }
{
    (word / 0x1_0000_0000) as u32
}

fn low(word: u64) -> u32
    ensures { result ≡ low word }
{
    (word % 0x1_0000_0000) as u32
}

fn ports(first: u16, last: u16) -> u32
    ensures first { first_port result ≡ first }
    ensures last { last_port result ≡ last }
{
    u32::from(first) * 0x1_0000 + u32::from(last)
}

fn first_port(half: u32) -> u16
    ensures { result ≡ first_port half }
{
    (half / 0x1_0000) as u16
}

fn last_port(half: u32) -> u16
    ensures { result ≡ last_port half }
{
    (half % 0x1_0000) as u16
}

/// Twice the target's number, and one more for a queue.
fn target_code(target: Target) -> u32
    ensures target { target_of result ≡ target }
    ensures number { IsNumber (result / 2) }
{
    match target {
        Target::Pipe(number) => number.get() * 2,
        Target::Queue(number) => number.get() * 2 + 1,
    }
}

fn target_of(target: u32) -> Target
    requires { IsNumber (target / 2) }
    ensures { result ≡ target_of target }
{
    let number = Number::new(target / 2).unwrap();
    if target % 2 == 0 {
        Target::Pipe(number)
    } else {
        Target::Queue(number)
    }
}

fn pipe_number(pipe: Number, mask: u8, tuple: u8) -> u32
    ensures pipe { pipe_in result ≡ pipe }
    ensures mask { mask_protocol result ≡ mask }
    ensures tuple { tuple_protocol result ≡ tuple }
    ensures number { IsNumber (pipe_in result) }
{
    pipe.get() * 0x1_0000 + (u32::from(mask) * 0x100 + u32::from(tuple))
}
