//! Worked values from outside: the tables of the Unicode Standard §3.9 and the quoted form.

use super::*;
use std::cmp::Ordering;
use std::test::Fail;

#[test]
fn well_formed_bytes(rt: HostRuntime) -> Result<(), Fail> {
    let cases: [(&[u8], &[u16]); 13] = [
        (b"", &[]),
        (b"a\n~", &[0x61, 0x0A, 0x7E]),
        (&[0xC2, 0x80], &[0x80]),
        (&[0xDF, 0xBF], &[0x7FF]),
        (&[0xE0, 0xA0, 0x80], &[0x800]),
        (&[0xE2, 0x82, 0xAC], &[0x20AC]),
        (&[0xED, 0x9F, 0xBF], &[0xD7FF]),
        (&[0xEE, 0x80, 0x80], &[0xE000]),
        (&[0xEF, 0xBB, 0xBF], &[0xFEFF]),
        (&[0xEF, 0xBF, 0xBF], &[0xFFFF]),
        (&[0xF0, 0x90, 0x80, 0x80], &[0xD800, 0xDC00]),
        (
            &[0x41, 0xF0, 0x9F, 0x98, 0x80, 0x42],
            &[0x41, 0xD83D, 0xDE00, 0x42],
        ),
        (&[0xF4, 0x8F, 0xBF, 0xBF], &[0xDBFF, 0xDFFF]),
    ];
    for (bytes, units) in cases {
        let text = from_utf8(rt.alloc(), bytes)?;
        assert_eq!(rt; as_units(&text), units);
        assert_eq!(rt; to_utf8(rt.alloc(), &text)?.as_slice(), bytes);
    }
    Ok(())
}

#[test]
fn ill_formed_bytes(rt: HostRuntime) {
    let cases: [(&[u8], usize); 20] = [
        (&[0x80], 0),
        (&[0xC3, 0xA9, 0x80], 2),
        (&[0xC0, 0x80], 0),
        (&[0x41, 0xC1, 0xBF], 1),
        (&[0xC3, 0x41], 0),
        (&[0xE0, 0x80, 0x80], 0),
        (&[0xE0, 0x9F, 0xBF], 0),
        (&[0x41, 0xED, 0xA0, 0x80], 1),
        (&[0xED, 0xBF, 0xBF], 0),
        (&[0xF0, 0x80, 0x80, 0xAF], 0),
        (&[0xF0, 0x8F, 0xBF, 0xBF], 0),
        (&[0xF4, 0x90, 0x80, 0x80], 0),
        (&[0xF5, 0x80, 0x80, 0x80], 0),
        (&[0xF8, 0x88, 0x80, 0x80, 0x80], 0),
        (&[0xFF], 0),
        (&[0x41, 0xC3], 1),
        (&[0xE2, 0x82], 0),
        (&[0x41, 0x42, 0xF0, 0x9F, 0x98], 2),
        (&[0xEF, 0xBB, 0xBF, 0xFE], 3),
        (&[0x61, 0xF1, 0x80, 0x80, 0xE1, 0x80, 0xC2, 0x62], 1),
    ];
    for (bytes, at) in cases {
        let refused = from_utf8(rt.alloc(), bytes).map(|_| ());
        assert_eq!(rt; refused, Err(TextError::BadUtf8 { at }), "of {bytes:?}");
    }
}

#[test]
fn lone_surrogates(rt: HostRuntime) -> Result<(), Fail> {
    let cases: [(&[u16], &[u8]); 5] = [
        (&[0xD83D], &[0xEF, 0xBF, 0xBD]),
        (&[0xD83D, 0x41], &[0xEF, 0xBF, 0xBD, 0x41]),
        (&[0xDE00, 0xD83D], &[0xEF, 0xBF, 0xBD, 0xEF, 0xBF, 0xBD]),
        (
            &[0xD83D, 0xD83D, 0xDE00],
            &[0xEF, 0xBF, 0xBD, 0xF0, 0x9F, 0x98, 0x80],
        ),
        (
            &[0xD83D, 0xDE00, 0xDE00],
            &[0xF0, 0x9F, 0x98, 0x80, 0xEF, 0xBF, 0xBD],
        ),
    ];
    for (units, bytes) in cases {
        let text = from_units(units.to_vec(rt.alloc())?);
        assert_eq!(rt; to_utf8(rt.alloc(), &text)?.as_slice(), bytes);
    }
    Ok(())
}

#[test]
fn quoted_texts(rt: HostRuntime) -> Result<(), Fail> {
    let cases: [(&str, &str); 5] = [
        ("", r#""""#),
        ("a b~", r#""a b~""#),
        ("a\"\\\n\u{1F600}", r#""a\"\\\u000a\ud83d\ude00""#),
        ("'\t\u{1F}\u{7F}", r#""'\u0009\u001f\u007f""#),
        ("\u{E9}\u{ABCD}\u{FFFF}", r#""\u00e9\uabcd\uffff""#),
    ];
    for (text, wanted) in cases {
        let text = from_utf8(rt.alloc(), text.as_bytes())?;
        assert_eq!(rt; quoted(rt.alloc(), &text)?.as_slice(), wanted.as_bytes());
    }
    Ok(())
}

#[test]
fn pieces_of_texts(rt: HostRuntime) -> Result<(), Fail> {
    let front = from_utf8(rt.alloc(), b"one")?;
    let back = from_utf8(rt.alloc(), b" two")?;
    let both = concat(rt.alloc(), &front, &back)?;
    assert_eq!(rt;
        to_utf8(rt.alloc(), &both)?.as_slice(),
        b"one two".as_slice()
    );
    assert_eq!(rt; len(&both), 7);
    assert_eq!(rt; at(&both, 6), Some(0x6F));
    assert_eq!(rt; at(&both, 7), None);
    let part = slice(rt.alloc(), &both, 2, 5)?;
    assert_eq!(rt; to_utf8(rt.alloc(), &part)?.as_slice(), b"e t".as_slice());
    let again = copy(rt.alloc(), &both)?;
    assert!(rt; same(&both, &again));
    assert!(rt; !same(&both, &front));
    Ok(())
}

#[test]
fn order_of_texts(rt: HostRuntime) -> Result<(), Fail> {
    // By units, U+1F600 (D83D DE00) comes before U+FFFF.
    let cases = [
        ("", "", Ordering::Equal),
        ("a", "ab", Ordering::Less),
        ("b", "ab", Ordering::Greater),
        ("a", "B", Ordering::Greater),
        ("\u{1F600}", "\u{FFFF}", Ordering::Less),
    ];
    for (a, b, order) in cases {
        let a = from_utf8(rt.alloc(), a.as_bytes())?;
        let b = from_utf8(rt.alloc(), b.as_bytes())?;
        assert_eq!(rt; compare(&a, &b), order);
    }
    Ok(())
}

#[test]
fn numbers_as_texts(rt: HostRuntime) -> Result<(), Fail> {
    for (n, wanted) in [
        (0, "0"),
        (-120, "-120"),
        (9007199254740991, "9007199254740991"),
    ] {
        let text = number_text(rt.alloc(), n)?;
        assert_eq!(rt; to_utf8(rt.alloc(), &text)?.as_slice(), wanted.as_bytes());
    }
    Ok(())
}

#[test]
fn bodies_by_number(rt: HostRuntime) {
    assert_eq!(rt; BodyId(3), BodyId(3));
    assert_ne!(rt; BodyId(3), BodyId(4));
}
