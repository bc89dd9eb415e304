//! What no contract says: that there is memory for a field, and that the definitions read the examples
//! of the standard and each production of its grammar as they should.
use crate::{Bare, Dictionary, Item, Member, Param, Value, parse_dictionary};
use std::alloc::{AllocError, Global};
use std::test::Fail;

fn is_read(alloc: Global, text: &str) -> Result<bool, AllocError> {
    Ok(parse_dictionary(alloc, text.as_bytes())?.is_some())
}

/// The number of the key `a`, and whether it is a decimal.
fn number(alloc: Global, text: &str) -> Result<Option<(bool, i64)>, AllocError> {
    let Some(found) = parse_dictionary(alloc, text.as_bytes())? else {
        return Ok(None);
    };
    match found.get(b"a") {
        Some(
            Member {
                value: Value::Item(Bare::Integer(n)),
                params: _,
            },
        ) => Ok(Some((false, *n))),
        Some(
            Member {
                value: Value::Item(Bare::Decimal(n)),
                params: _,
            },
        ) => Ok(Some((true, *n))),
        _ => Ok(None),
    }
}

/// Whether the key `a` has these bytes, as a string, a token or a byte sequence by this letter.
fn has_bytes(alloc: Global, text: &str, kind: u8, bytes: &[u8]) -> Result<bool, AllocError> {
    let Some(found) = parse_dictionary(alloc, text.as_bytes())? else {
        return Ok(false);
    };
    match found.get(b"a") {
        Some(
            Member {
                value: Value::Item(bare),
                params: _,
            },
        ) => Ok(is_bytes(bare, kind, bytes)),
        _ => Ok(false),
    }
}

fn is_bytes(bare: &Bare<'_>, kind: u8, bytes: &[u8]) -> bool {
    match bare {
        Bare::Text(text) => kind == b's' && text.as_slice() == bytes,
        Bare::Token(token) => kind == b't' && token.as_slice() == bytes,
        Bare::Binary(binary) => kind == b'b' && binary.as_slice() == bytes,
        _ => false,
    }
}

fn is_truth(found: &Dictionary<'_>, key: &[u8], truth: bool) -> bool {
    match found.get(key) {
        Some(
            Member {
                value: Value::Item(Bare::Truth(found)),
                params: _,
            },
        ) => *found == truth,
        _ => false,
    }
}

#[test]
fn the_last_member_of_a_key(rt: HostRuntime) -> Result<(), Fail> {
    let found = parse_dictionary(rt.alloc(), b"a=1, b;x=2, a=?0")?.ok_or("it is a dictionary")?;
    assert!(rt; is_truth(&found, b"a", false));
    assert!(rt; is_truth(&found, b"b", true));
    assert!(rt; found.get(b"x").is_none());
    let empty = parse_dictionary(rt.alloc(), b"")?.ok_or("nothing is a dictionary")?;
    assert!(rt; empty.get(b"a").is_none());
    Ok(())
}

#[test]
fn what_is_read(rt: HostRuntime) -> Result<(), Fail> {
    let texts = [
        "",
        "  ",
        "a",
        "  a=1",
        "a=1 \t",
        "a=1\t,\tb=2",
        "a=1 ,b",
        "*a",
        "a*-_.9",
        "a;x",
        "a=?1",
        "a=1;x=?0;  y;x",
        "a=()",
        "a=(  )",
        "a=( 1 2 )",
        "a=(1  2)",
        "a=(1;x;y=2 b)",
        "a=(1;  x)",
        "a=();x",
        "a=123456789012345",
        "a=-1",
        "a=123456789012.123",
        "a=\"\"",
        "a=\" ~\"",
        "a=::",
        "a=*",
        "a=:aZ09+/==:",
        "en=\"Applepie\", da=:w4ZibGV0w6ZydGU=:",
        "a=?0, b, c; foo=bar",
        "rating=1.5, feelings=(joy sadness)",
        "a=(1 2), b=3, c=4;aa=bb, d=(5 6);valid",
        "a=(\"foo\";a=1;b=2);lvl=5",
    ];
    for text in texts {
        assert!(rt; is_read(rt.alloc(), text)?, "{text}");
    }
    Ok(())
}

#[test]
fn what_is_not_read(rt: HostRuntime) -> Result<(), Fail> {
    let texts = [
        "\t",
        "\ta=1",
        ",",
        ",a",
        "a=1,",
        "camera=(),",
        "a=1,,b",
        "a=1, ,b",
        "a= 1",
        "a =1",
        "a=",
        "A=1",
        "1a",
        "-a",
        "aA",
        "a=1 2",
        "a b",
        "a;",
        "a;=1",
        "a;X",
        "a;\tx",
        "a;x=",
        "a ;x",
        "a;x=(1)",
        "a=(1\t2)",
        "a=(\t1)",
        "a=(1\t)",
        "a=(1 2",
        "a=(1,2)",
        "a=((1))",
        "a=(1)2",
        "a=(1 ;x)",
        "a=1234567890123456",
        "a=-",
        "a=--1",
        "a=+1",
        "a=1234567890123.1",
        "a=1.",
        "a=1.2345",
        "a=.1",
        "a=1.2.3",
        "a=\"",
        "a=\"x",
        "a=\"\\x\"",
        "a=\"\\",
        "a=\"\x7f\"",
        "a=\"é\"",
        "a=\"\t\"",
        "a=:a",
        "a=:a-:",
        "a=:a b:",
        "a=?",
        "a=?2",
        "a=?11",
        "a=b(",
        "a=&",
        "a=_b",
        "a=1\r",
        "a\n",
    ];
    for text in texts {
        assert!(rt; !is_read(rt.alloc(), text)?, "{text}");
    }
    Ok(())
}

#[test]
fn numbers(rt: HostRuntime) -> Result<(), Fail> {
    let cases = [
        ("a=0", false, 0),
        ("a=-0", false, 0),
        ("a=007", false, 7),
        ("a=-42", false, -42),
        ("a=999999999999999", false, 999_999_999_999_999),
        ("a=-999999999999999", false, -999_999_999_999_999),
        ("a=1.5", true, 1500),
        ("a=-0.25", true, -250),
        ("a=0.001", true, 1),
        ("a=2.010", true, 2010),
        ("a=999999999999.999", true, 999_999_999_999_999),
    ];
    for (text, is_decimal, n) in cases {
        assert_eq!(rt; number(rt.alloc(), text)?, Some((is_decimal, n)), "{text}");
    }
    Ok(())
}

#[test]
fn bytes(rt: HostRuntime) -> Result<(), Fail> {
    let cases: [(&str, u8, &[u8]); 7] = [
        ("a=\"\"", b's', b""),
        ("a=\"x y\"", b's', b"x y"),
        ("a=\"\\\"q\\\\\"", b's', b"\"q\\"),
        ("a=*", b't', b"*"),
        ("a=Az09!#$%&'*+-.^_`|~:/", b't', b"Az09!#$%&'*+-.^_`|~:/"),
        ("a=::", b'b', b""),
        ("a=:cHJldGVuZA==:", b'b', b"cHJldGVuZA=="),
    ];
    for (text, kind, bytes) in cases {
        assert!(rt; has_bytes(rt.alloc(), text, kind, bytes)?, "{text}");
    }
    Ok(())
}

fn has_key(param: &Param<'_>, key: &[u8]) -> bool {
    param.key.as_slice() == key
}

fn is_item(item: &Item<'_>, kind: u8, bytes: &[u8], params: usize) -> bool {
    is_bytes(&item.bare, kind, bytes) && item.params.as_slice().len() == params
}

#[test]
fn inner_lists_and_parameters(rt: HostRuntime) -> Result<(), Fail> {
    let text = b"a=(x \"y\";p;q=z);r;r=:a:";
    let found = parse_dictionary(rt.alloc(), text)?.ok_or("it is a dictionary")?;
    let Some(
        Member {
            value: Value::Inner(items),
            params,
        },
    ) = found.get(b"a")
    else {
        return Err("it is an inner list".into());
    };
    assert_eq!(rt; items.as_slice().len(), 2);
    assert!(rt; is_item(&items.as_slice()[0], b't', b"x", 0));
    assert!(rt; is_item(&items.as_slice()[1], b's', b"y", 2));
    assert_eq!(rt; params.as_slice().len(), 2);
    assert!(rt; has_key(&params.as_slice()[0], b"r"));
    assert!(rt; is_bytes(&params.as_slice()[1].value, b'b', b"a"));
    Ok(())
}
