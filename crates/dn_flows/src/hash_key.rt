/// The secret of a table's hash, 128 bits that a stranger can't guess: without it nobody can choose flows that collide.
///
/// No reply depends on it. It has no `Debug`, so that no log tells it.
#[derive(Clone, Copy)]
pub struct HashKey(pub u128);
