ghost use Rattle.std.specs.Prelude.{◌≡◌, ◌==◌, ◌∷◌, ◌++◌, ℕ, List, false};
ghost use Rattle.std.specs.List.{list_any};
ghost use Rattle.dn_records.specs.WholeRecords.{BeginsRecords};

use memchr::{memchr, memrchr};

/// What follows the records that have come whole of a text: those up to its last line feed, if no quote comes before that.
///
/// Else that is the text.
pub fn behind_records(text: &[u8]) -> &[u8]
    ensures begins { BeginsRecords text.now result.now }
    ensures last { (front rest : List ℕ) → text.now ≡ front ++ 10 ∷ rest → list_any (λ b. b == 10) rest ≡ false
        → list_any (λ b. b == 34) front ≡ false → result.now ≡ rest }
{
    let Some(last) = memrchr(b'\n', text) else {
        return text;
    };
    let (lines, rest) = text.split_at(last + 1);
    if memchr(b'"', lines).is_some() {
        return text;
    }
    rest
}
