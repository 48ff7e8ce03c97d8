use dn_types::{KbyteCount, Limit, SlotCount};

// The columns are a count, and what it is of slots and of Kbytes.
static COUNTS: [(u16, Option<u16>, Option<u16>); 6] = [
    (0, None, None),
    (1, Some(1), Some(1)),
    (1_024, Some(1_024), Some(1_024)),
    (1_025, Some(1_025), None),
    (10_000, Some(10_000), None),
    (10_001, None, None),
];

#[test]
fn limits_at_their_bounds(rt: HostRuntime) {
    for (count, slots, kbytes) in COUNTS.iter() {
        assert!(rt; SlotCount::new(*count).map(SlotCount::get) == *slots);
        assert!(rt; Limit::slots(*count).and_then(Limit::as_slots) == *slots);
        assert!(rt; Limit::slots(*count).and_then(Limit::as_kbytes) == None);
        assert!(rt; KbyteCount::new(*count).map(KbyteCount::get) == *kbytes);
        assert!(rt; Limit::kbytes(*count).and_then(Limit::as_kbytes) == *kbytes);
        assert!(rt; Limit::kbytes(*count).and_then(Limit::as_slots) == None);
    }
}
