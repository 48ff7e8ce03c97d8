//! The two divisions of WF2Q+. Both fit 32 bits, where a processor divides fastest.
ghost use Rattle.std.specs.Prelude.{◌≡◌, ◌<◌, ◌≤◌};
ghost use Rattle.dn_types.specs.Wf2q.{scaled};

/// What a packet of `len` bytes costs a flow of this weight, in units of 1/65536 byte per weight.
pub(crate) fn cost(len: u16, weight: u8) -> u32
    requires some { 0 < weight }
    ensures value { result ≡ scaled len weight }
{
    len as u32 * 65536 / weight as u32
}

/// By how much a packet of `len` bytes lets virtual time grow, if the heads weigh so much.
///
/// It is 0 if the sum of weights doesn't fit 32 bits, since `len * 65536` does.
pub(crate) fn growth(len: u16, weights: u128) -> u32
    requires some { 0 < weights }
    ensures value { result ≡ scaled len weights }
{
    if weights < 4294967296 {
        len as u32 * 65536 / weights as u32
    } else {
        0
    }
}
