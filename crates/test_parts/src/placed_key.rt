use dn_heap::Numbered;

/// A key by its tag, and then by its number.
#[derive(Clone, Copy, Debug, PartialEq, Eq, PartialOrd, Ord)]
pub struct Key {
    pub tag: u32,
    pub number: u32,
}

impl Numbered for Key {
    ghost number = { λ k. k.number };

    fn number(&self) -> usize {
        self.number as usize
    }
}
