//! Numbers in lines.
use bounded_lines::number;

#[test]
fn a_number_is_digits_alone(rt: HostRuntime) {
    for (word, wanted) in [
        ("0", 0),
        ("7", 7),
        ("007", 7),
        ("18446744073709551615", 18_446_744_073_709_551_615),
        (
            "00000000000000000000018446744073709551615",
            18_446_744_073_709_551_615,
        ),
    ] {
        assert!(rt; number(word) == Some(wanted), "{word}");
    }
    for word in [
        "",
        "+7",
        "-7",
        "7 ",
        " 7",
        "7a",
        "0x7",
        "٧",
        "18446744073709551616",
    ] {
        assert!(rt; number(word).is_none(), "{word}");
    }
}
