use spf_base::{Name, Place};
use spf_lex::{Cursor, Kind, LexFault, Lexeme, ReadFault, Words, number, tokens};
use std::alloc::Global;
use std::process::Abort;
use std::test::Fail;

/// The texts of a text's tokens, each with a `'` behind it.
fn marked(rt: &impl Abort, alloc: Global, text: &[u8]) -> Result<Vec<u8>, Fail> {
    assert!(rt; text.len() <= 67_108_864);
    let tokens = tokens(alloc, text)?;
    let mut all = Vec::new(alloc);
    for n in 0..tokens.len() {
        all.extend_from_slice(tokens.text(n))?;
        all.push(b'\'')?;
    }
    Ok(all)
}

/// The line and the column at which a text lacks a token.
fn fault(rt: &impl Abort, alloc: Global, text: &[u8]) -> Option<(u32, u32)> {
    assert!(rt; text.len() <= 67_108_864);
    match tokens(alloc, text) {
        Err(LexFault::NoToken { place }) => Some((place.line, place.column)),
        _ => None,
    }
}

#[test]
fn texts_are_cut_into_the_longest_tokens(rt: HostRuntime) -> Result<(), Fail> {
    let table: [(&[u8], &[u8]); 14] = [
        (b"", b""),
        (b"spf 1", b"spf'1'"),
        (b"a->b", b"a'->'b'"),
        (b"x+=1", b"x'+='1'"),
        (b"1..2", b"1'..'2'"),
        (b"i<=n>=0!=1==2", b"i'<='n'>='0'!='1'=='2'"),
        (b"{}[](),;:=+-*<>|", b"{'}'[']'(')',';':'='+'-'*'<'>'|'"),
        (b"# c\n;", b";'"),
        (b"a#b", b"a'"),
        (b"\ta\r\n\r\t b_2\r", b"a'b_2'"),
        (b"12ab", b"12'ab'"),
        (
            b"a23456789_123456789_123456789_12",
            b"a23456789_123456789_123456789_12'",
        ),
        (b"9223372036854775808", b"9223372036854775808'"),
        (
            b"000000000000000000000000000007",
            b"000000000000000000000000000007'",
        ),
    ];
    for (text, expected) in table {
        assert_eq!(rt; marked(&rt, rt.alloc(), text)?.as_slice(), expected);
    }
    Ok(())
}

#[test]
fn the_first_place_without_a_token_is_refused(rt: HostRuntime) {
    let table: [(&[u8], (u32, u32)); 7] = [
        (b"spf 1\n@", (2, 1)),
        (b"a !b", (1, 3)),
        (b"x.y", (1, 2)),
        (b"a23456789_123456789_123456789_123", (1, 1)),
        (b"; 9223372036854775809", (1, 3)),
        (b"# @\n\n  _", (3, 3)),
        (b"a@ !", (1, 2)),
    ];
    for (text, place) in table {
        assert_eq!(rt; fault(&rt, rt.alloc(), text), Some(place));
    }
}

#[test]
fn tokens_know_their_places(rt: HostRuntime) -> Result<(), Fail> {
    let tokens = tokens(rt.alloc(), b"spf 1\n\tx")?;
    assert_eq!(rt; tokens.len(), 3);
    assert_eq!(rt; tokens.place(1), Place { line: 1, column: 5 });
    assert_eq!(rt; tokens.place(2), Place { line: 2, column: 2 });
    assert_eq!(rt; tokens.end(), Place { line: 2, column: 3 });
    Ok(())
}

#[test]
fn numbers_have_values(rt: HostRuntime) {
    let table: [(&[u8], Option<u64>); 8] = [
        (b"0", Some(0)),
        (b"007", Some(7)),
        (b"9223372036854775808", Some(9_223_372_036_854_775_808)),
        (b"9223372036854775809", None),
        (b"99999999999999999999999999", None),
        (b"", None),
        (b"1a", None),
        (b"-1", None),
    ];
    for (text, value) in table {
        assert_eq!(rt; number(text), value);
    }
}

#[test]
fn tokens_are_words_numbers_or_symbols(rt: HostRuntime) -> Result<(), Fail> {
    let tokens = tokens(rt.alloc(), b"kernel x1 007 9223372036854775808 .. ;")?;
    assert_eq!(rt; tokens.len(), 6);
    assert!(rt; matches!(tokens.lexeme(0), Lexeme::Word));
    assert!(rt; matches!(tokens.lexeme(1), Lexeme::Word));
    assert!(rt; matches!(tokens.lexeme(2), Lexeme::Number(7)));
    assert!(rt; matches!(tokens.lexeme(3), Lexeme::Number(9_223_372_036_854_775_808)));
    assert!(rt; matches!(tokens.lexeme(4), Lexeme::Symbol));
    assert!(rt; matches!(tokens.lexeme(5), Lexeme::Symbol));
    Ok(())
}

/// What the grammar of bundles quotes, and its kind.
const QUOTED: [(&[u8], Kind); 48] = [
    (b"{", Kind::OpenBrace),
    (b"}", Kind::CloseBrace),
    (b"[", Kind::OpenBracket),
    (b"]", Kind::CloseBracket),
    (b"(", Kind::OpenParenthesis),
    (b")", Kind::CloseParenthesis),
    (b",", Kind::Comma),
    (b";", Kind::Semicolon),
    (b"..", Kind::Range),
    (b"=", Kind::Equals),
    (b"+=", Kind::PlusEquals),
    (b"+", Kind::Plus),
    (b"-", Kind::Minus),
    (b"*", Kind::Star),
    (b"==", Kind::Equal),
    (b"!=", Kind::Unequal),
    (b"<", Kind::Less),
    (b"<=", Kind::AtMost),
    (b">", Kind::Greater),
    (b">=", Kind::AtLeast),
    (b"spf", Kind::Spf),
    (b"kernel", Kind::Kernel),
    (b"param", Kind::Param),
    (b"index", Kind::Index),
    (b"in", Kind::In),
    (b"monotone", Kind::Monotone),
    (b"strict", Kind::Strict),
    (b"data", Kind::Data),
    (b"steps", Kind::Steps),
    (b"loop", Kind::Loop),
    (b"for", Kind::For),
    (b"if", Kind::If),
    (b"and", Kind::And),
    (b"script", Kind::Script),
    (b"cpack", Kind::Cpack),
    (b"by", Kind::By),
    (b"lexgroup", Kind::Lexgroup),
    (b"lexsort", Kind::Lexsort),
    (b"bucket", Kind::Bucket),
    (b"size", Kind::Size),
    (b"tile", Kind::Tile),
    (b"at", Kind::At),
    (b"seed", Kind::Seed),
    (b"block", Kind::Block),
    (b"spread", Kind::Spread),
    (b"plug", Kind::Plug),
    (b"tilepack", Kind::Tilepack),
    (b"input", Kind::Input),
];

/// Other tokens, and their kinds.
const UNQUOTED: [(&[u8], Kind); 12] = [
    (b"1", Kind::One),
    (b"001", Kind::One),
    (b"0", Kind::Number),
    (b"2", Kind::Number),
    (b"10", Kind::Number),
    (b"x", Kind::Name),
    (b"Spf", Kind::Name),
    (b"kernels", Kind::Name),
    (b"halving", Kind::Name),
    (b"->", Kind::Other),
    (b":", Kind::Other),
    (b"|", Kind::Other),
];

/// Whether the text is a token of the kind, and of no other of the quoted kinds.
fn has_kind_alone(rt: &impl Abort, alloc: Global, text: &[u8], kind: Kind) -> Result<bool, Fail> {
    assert!(rt; text.len() <= 67_108_864);
    let tokens = tokens(alloc, text)?;
    let mut cursor = Cursor::<Kind>::new(&tokens, 0);
    let alone = QUOTED
        .iter()
        .all(|(_, other)| cursor.sees(*other) == (*other == kind));
    Ok(alone && cursor.eat(kind) && cursor.left() == 0 && !cursor.sees(kind))
}

#[test]
fn each_token_of_a_bundle_has_its_kind(rt: HostRuntime) -> Result<(), Fail> {
    for (text, kind) in QUOTED {
        assert!(rt; has_kind_alone(&rt, rt.alloc(), text, kind)?);
    }
    for (text, kind) in UNQUOTED {
        assert!(rt; has_kind_alone(&rt, rt.alloc(), text, kind)?);
    }
    Ok(())
}

#[test]
fn a_cursor_stays_where_it_finds_another_token(rt: HostRuntime) -> Result<(), Fail> {
    let tokens = tokens(rt.alloc(), b"; x = 7")?;
    let mut cursor = Cursor::<Kind>::new(&tokens, 1);
    assert_eq!(rt; cursor.left(), 3);
    assert!(rt; cursor.expect(Kind::Equals).is_err());
    assert!(rt; !cursor.eat(Kind::Equals));
    assert!(rt; !cursor.sees_any(&[Kind::Equals, Kind::Number]));
    assert!(rt; cursor.sees_any(&[Kind::Equals, Kind::Name]));
    assert_eq!(rt; cursor.left(), 3);
    assert_eq!(rt; cursor.name(rt.alloc())?.bytes(), b"x".as_slice());
    assert!(rt; matches!(cursor.name(rt.alloc()), Err(ReadFault::Syntax)));
    assert_eq!(rt; cursor.expect(Kind::Equals)?.at, 2);
    let token = cursor.expect(Kind::Number)?;
    assert_eq!(rt; (token.at, token.value), (3, 7));
    assert_eq!(rt; cursor.left(), 0);
    assert!(rt; cursor.expect(Kind::Number).is_err());
    assert!(rt; matches!(cursor.name(rt.alloc()), Err(ReadFault::Syntax)));
    Ok(())
}

#[test]
fn one_blank_stands_between_two_words(rt: HostRuntime) -> Result<(), Fail> {
    let mut words = Words::new(rt.alloc());
    assert_eq!(rt; words.into_text().len(), 0);
    words = Words::new(rt.alloc());
    words.push(b"steps")?;
    words.push_name(&Name::copy(rt.alloc(), b"n_0")?)?;
    words.push_number(40)?;
    words.push_names(&[])?;
    words.push(b";")?;
    words.push_names(&[
        Name::copy(rt.alloc(), b"x")?,
        Name::copy(rt.alloc(), b"Y")?,
        Name::copy(rt.alloc(), b"x")?,
    ])?;
    assert_eq!(rt;
        words.into_text().as_slice(),
        b"steps n_0 40 ; x , Y , x".as_slice()
    );
    Ok(())
}
