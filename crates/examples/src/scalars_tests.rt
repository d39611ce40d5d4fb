// What the functions answer on examples.
use scalars::integer::parse_integer;
use scalars::nulls::scalar_is_nullish;
use scalars::trim::yaml_trim;

const SPELLINGS: [(&[u8], bool, u64); 8] = [
    (b"0", false, 0),
    (b"-0", false, 0),
    (b"0x0", false, 0),
    (b" -0x10\n", true, 16),
    (b"1_000", false, 1000),
    (b"+0b1", false, 1),
    (b"0o17", false, 15),
    (b"18446744073709551615", false, u64::MAX),
];

const OTHERS: [&[u8]; 10] = [
    b"",
    b"-",
    b"0x",
    b"0X_1",
    b"_1",
    b"1_",
    b"1__0",
    b"007",
    b"0o8",
    b"18446744073709551616",
];

#[test]
fn reads_integers(rt: HostRuntime) {
    for (text, negative, magnitude) in SPELLINGS {
        assert_eq!(rt; parse_integer(text), Some((negative, magnitude)));
    }
}

#[test]
fn refuses_other_texts(rt: HostRuntime) {
    for text in OTHERS {
        assert_eq!(rt; parse_integer(text), None);
    }
}

#[test]
fn trims(rt: HostRuntime) {
    assert_eq!(rt; yaml_trim(b" \t1\r\n"), b"1".as_slice());
}

#[test]
fn knows_nulls(rt: HostRuntime) {
    let nulls: [&[u8]; 3] = [b"", b"~", b"NULL"];
    for text in nulls {
        assert!(rt; scalar_is_nullish(text));
    }
    assert!(rt; !scalar_is_nullish(b"nulll"));
}
