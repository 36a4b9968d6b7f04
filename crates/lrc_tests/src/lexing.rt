//! Tokens and their values, and the first fault of a text that has none.

use lrc_base::limits::TEXT_LIMIT;
use lrc_lex::{LexFault, Token, TokenClass, natural, negative, path, tokens, unquoted};
use std::alloc::Global;
use std::process::Abort;
use std::test::Fail;

/// The tokens of the text have these classes and places.
fn assert_tokens(
    rt: &impl Abort,
    alloc: Global,
    text: &[u8],
    wanted: &[(TokenClass, u32, u32)],
) -> Result<(), Fail> {
    assert!(rt; text.len() <= TEXT_LIMIT);
    let found = tokens(alloc, text)?;
    let found = found.as_slice();
    assert_eq!(rt; found.len(), wanted.len());
    for (token, (class, at, end)) in found.iter().zip(wanted) {
        assert_eq!(rt;
            *token,
            Token {
                class: *class,
                at: *at,
                end: *end
            }
        );
    }
    Ok(())
}

#[test]
fn takes_words_numbers_and_symbols(rt: HostRuntime) -> Result<(), Fail> {
    assert_tokens(
        &rt,
        rt.alloc(),
        b"_a1{};==<\t\r\n007b - 9223372036854775807-9223372036854775808",
        &[
            (TokenClass::Word, 0, 3),
            (TokenClass::Symbol, 3, 4),
            (TokenClass::Symbol, 4, 5),
            (TokenClass::Symbol, 5, 6),
            (TokenClass::Symbol, 6, 8),
            (TokenClass::Symbol, 8, 9),
            (TokenClass::Natural, 12, 15),
            (TokenClass::Word, 15, 16),
            (TokenClass::Symbol, 17, 18),
            (TokenClass::Natural, 19, 38),
            (TokenClass::Negative, 38, 58),
        ],
    )
}

#[test]
fn takes_names_texts_and_paths(rt: HostRuntime) -> Result<(), Fail> {
    assert_tokens(
        &rt,
        rt.alloc(),
        b"'if \"a\\\"\\\\ #\"# a \"\n//007/255/ \xc3\xa9t\xc3\xa9'\xce\xb1#",
        &[
            (TokenClass::NameLit, 0, 3),
            (TokenClass::Text, 4, 13),
            (TokenClass::Path, 19, 20),
            (TokenClass::Path, 20, 28),
            (TokenClass::Path, 28, 29),
            (TokenClass::Word, 30, 35),
            (TokenClass::NameLit, 35, 38),
        ],
    )
}

#[test]
fn finds_the_first_fault(rt: HostRuntime) {
    let long_word = [b'a'; 65];
    let mut long_name = [b'a'; 66];
    long_name[0] = b'\'';
    let faults = [
        (b"a $ \xff".as_slice(), LexFault::NotUtf8 { at: 4 }),
        (b"a\xc3", LexFault::NotUtf8 { at: 1 }),
        (b"a $ 256", LexFault::BadChar { at: 2 }),
        (b"a\0", LexFault::BadChar { at: 1 }),
        (b"\xe2\x82\xac", LexFault::BadChar { at: 0 }),
        (b"' a", LexFault::BadChar { at: 1 }),
        (b"'\xe2\x82\xac", LexFault::BadChar { at: 1 }),
        (b"a '", LexFault::BadChar { at: 3 }),
        (b"\"a\nb\"", LexFault::BadChar { at: 2 }),
        (b"\"a\\nb\"", LexFault::BadChar { at: 3 }),
        (b"\"\xc3\xa9\"", LexFault::BadChar { at: 1 }),
        (b"\"a", LexFault::BadChar { at: 2 }),
        (b"\"a\\", LexFault::BadChar { at: 3 }),
        (b"1 9223372036854775808", LexFault::NumberRange { at: 2 }),
        (b"-9223372036854775809 $", LexFault::NumberRange { at: 0 }),
        (b" /256", LexFault::NumberRange { at: 1 }),
        (b"/0/999999999999999999999", LexFault::NumberRange { at: 0 }),
        (long_word.as_slice(), LexFault::NameLong { at: 0 }),
        (long_name.as_slice(), LexFault::NameLong { at: 0 }),
    ];
    for (text, fault) in faults {
        assert!(rt; text.len() <= TEXT_LIMIT);
        assert_eq!(rt; tokens(rt.alloc(), text).err(), Some(fault));
    }
}

#[test]
fn reads_values(rt: HostRuntime) -> Result<(), Fail> {
    assert_eq!(rt; natural(b"007"), 7);
    assert_eq!(rt; negative(b"-007"), -7);
    assert_eq!(rt; negative(b"-0"), 0);
    assert_eq!(rt; negative(b"-9223372036854775808"), i64::MIN);
    let bytes = unquoted(rt.alloc(), b"\"a\\\"\\\\ #\"")?;
    assert_eq!(rt; bytes.as_slice(), b"a\"\\ #".as_slice());
    let steps = path(rt.alloc(), b"/007/255")?.steps;
    assert_eq!(rt; steps.as_slice(), b"\x07\xff".as_slice());
    Ok(())
}
