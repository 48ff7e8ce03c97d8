use dn_config::{
    Lines, NumberFault, Words, address_until, number_until, read_address, read_number,
    read_numeral, split_digits, split_joined,
};

// The columns are a text, the least and the greatest value, and the answer of the reference, a Python program that
// was written from the same rules.
static NUMBERS: [(&[u8], u64, u64, Result<u64, NumberFault>); 12] = [
    (b"0", 0, 5, Ok(0)),
    (b"5", 0, 5, Ok(5)),
    (b"6", 0, 5, Err(NumberFault::Range)),
    (b"0", 1, 5, Err(NumberFault::Range)),
    (b"", 0, 5, Err(NumberFault::Shape)),
    (b"00", 0, 5, Err(NumberFault::Shape)),
    (b"09", 0, 5, Err(NumberFault::Shape)),
    (b"9x", 0, 5, Err(NumberFault::Shape)),
    (b"-1", 0, 5, Err(NumberFault::Shape)),
    (b"18446744073709551615", 0, u64::MAX, Ok(u64::MAX)),
    (
        b"18446744073709551616",
        0,
        u64::MAX,
        Err(NumberFault::Range),
    ),
    (
        b"99999999999999999999999999999999999999999999999999",
        0,
        u64::MAX,
        Err(NumberFault::Range),
    ),
];

#[test]
fn numbers_have_a_shape_and_then_a_range(rt: HostRuntime) {
    for (text, least, greatest, answer) in NUMBERS.iter() {
        assert!(rt; read_number(text, *least, *greatest) == *answer);
    }
}

#[test]
fn numerals_of_any_radix(rt: HostRuntime) {
    assert!(rt; read_numeral(b"00fF", 16, 255) == Ok(255));
    assert!(rt; read_numeral(b"100", 16, 255) == Err(NumberFault::Range));
    assert!(rt; read_numeral(b"g", 16, 255) == Err(NumberFault::Shape));
    assert!(rt; split_digits(b"20KB") == (b"20".as_slice(), b"KB".as_slice()));
}

// A text, the greatest value, and what is read up to a comma, with what follows it. Worked out by hand: 2^64 - 1 has 20
// digits.
static UNTIL: [(&[u8], u64, Option<(u64, &[u8])>); 10] = [
    (b"7,8,", 9, Some((7, b"8,"))),
    (b"0,", 9, Some((0, b""))),
    (b"10,", 9, None),
    (b"7;", 9, None),
    (b"7", 9, None),
    (b",", 9, None),
    (b"18446744073709551615,", u64::MAX, Some((u64::MAX, b""))),
    (b"18446744073709551616,", u64::MAX, None),
    (b"111111111111111111111,", u64::MAX, None),
    (b"000000000000000000001,", u64::MAX, None),
];

#[test]
fn numbers_up_to_a_byte(rt: HostRuntime) {
    for (text, greatest, answer) in UNTIL.iter() {
        assert!(rt; number_until(text, b',', 0, *greatest) == *answer);
    }
    assert!(rt; number_until(b"7,", b',', 8, 9).is_none());
    assert!(rt; address_until(b"10.0.0.1,7", b',') == Some((0x0a00_0001, b"7".as_slice())));
    assert!(rt; address_until(b"10.0.0.1111111111111111111111,", b',').is_none());
}

static ADDRESSES: [(&[u8], Option<u32>); 8] = [
    (b"10.0.0.1", Some(0x0a00_0001)),
    (b"255.255.255.255", Some(0xffff_ffff)),
    (b"10.0.0", None),
    (b"10.0.0.1.1", None),
    (b"10.0.0.01", None),
    (b"256.0.0.1", None),
    (b"1..0.1", None),
    (b"", None),
];

#[test]
fn addresses_have_four_numbers(rt: HostRuntime) {
    for (text, answer) in ADDRESSES.iter() {
        assert!(rt; read_address(text) == *answer);
    }
}

#[test]
fn words_have_positions(rt: HostRuntime) {
    let words = Words::new(b" pipe\t1\r");
    assert!(rt; words.position == 1);
    let Some((first, words)) = words.next() else {
        panic!(rt; "a word is left")
    };
    assert!(rt; first == b"pipe".as_slice() && words.position == 2);
    let Some((second, words)) = words.next() else {
        panic!(rt; "a word is left")
    };
    assert!(rt; second == b"1".as_slice() && words.position == 3);
    assert!(rt; words.next().is_none());
}

#[test]
fn lines_have_numbers(rt: HostRuntime) {
    let lines = Lines::new(b"\nb\r\n--");
    assert!(rt; lines.number == 1);
    let Some((first, lines)) = lines.next() else {
        panic!(rt; "a line is left")
    };
    assert!(rt; first.is_empty() && lines.number == 2);
    let Some((second, lines)) = lines.next() else {
        panic!(rt; "a line is left")
    };
    assert!(rt; second == b"b\r".as_slice() && lines.number == 3);
    let Some((third, lines)) = lines.next() else {
        panic!(rt; "a line is left")
    };
    assert!(rt; third == b"--".as_slice() && lines.next().is_none());
}

// The columns are an input and the two parts into which its first line of two dashes cuts it.
static JOINED: [(&[u8], &[u8], &[u8]); 7] = [
    (b"a\n--\nb\n--\n", b"a\n", b"b\n--\n"),
    (b"a\n--\r\nb", b"a\n", b"b"),
    (b"a --\n", b"a --\n", b""),
    (b"a\n--", b"a\n", b""),
    (b"a\n--\r", b"a\n--\r", b""),
    (b"---\n", b"---\n", b""),
    (b"", b"", b""),
];

#[test]
fn a_joined_input_is_cut_at_its_first_line_of_two_dashes(rt: HostRuntime) {
    for (text, config, packets) in JOINED.iter() {
        assert!(rt; split_joined(text) == (*config, *packets));
    }
}
