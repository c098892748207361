//! Tokens of sample texts, in tables: on each line a text, and after `⇒` its tokens: `^` for the first on its line, the
//! places, what it is. `<A>` stands for the unit U+000A, and so on for other units.

use crate::token::{LexError, Token, TokenKind};
use crate::{one_list, order_of_tokens, tokens};
use actx_text::{Units, as_units, from_units};
use std::alloc::{AllocError, Global};
use std::process::Abort;
use std::test::Fail;

fn hex_value(byte: u8) -> u16 {
    if byte <= b'9' {
        (byte as u16).wrapping_sub(48)
    } else {
        (byte as u16).wrapping_sub(55)
    }
}

/// The units of a text of a table.
fn units(alloc: Global, source: &str) -> Result<Units, AllocError> {
    let mut units = Vec::new(alloc);
    let mut value: Option<u16> = None;
    for byte in source.as_bytes() {
        value = match value {
            None => {
                if *byte == b'<' {
                    Some(0)
                } else {
                    units.push(*byte as u16)?;
                    None
                }
            }
            Some(number) => {
                if *byte == b'>' {
                    units.push(number)?;
                    None
                } else {
                    Some(number.wrapping_mul(16).wrapping_add(hex_value(*byte)))
                }
            }
        };
    }
    Ok(from_units(units))
}

/// Adds the units as in a table.
fn show_units(out: &mut String, units: &Units) -> Result<(), AllocError> {
    for unit in as_units(units) {
        if 32 <= *unit && *unit < 127 {
            out.push(*unit as u8 as char)?;
        } else {
            write!(out, "<{:X}>", *unit)?;
        }
    }
    Ok(())
}

fn show_quoted(out: &mut String, name: &str, units: &Units) -> Result<(), AllocError> {
    out.push_str(name)?;
    out.push_str(" [")?;
    show_units(out, units)?;
    out.push(']')?;
    Ok(())
}

fn piece_name(opens: bool, closes: bool) -> &'static str {
    match (opens, closes) {
        (true, true) => "template",
        (true, false) => "head",
        (false, false) => "middle",
        (false, true) => "tail",
    }
}

fn show(out: &mut String, token: &Token) -> Result<(), AllocError> {
    if token.first {
        out.push('^')?;
    }
    write!(out, "{}-{} ", token.from, token.to)?;
    match &token.kind {
        TokenKind::Name(units) => {
            out.push_str("name ")?;
            show_units(out, units)
        }
        TokenKind::Reserved(units) => {
            out.push_str("reserved ")?;
            show_units(out, units)
        }
        TokenKind::Number(n) => {
            write!(out, "number {}", *n)?;
            Ok(())
        }
        TokenKind::Text(units) => show_quoted(out, "text", units),
        TokenKind::Template {
            text,
            opens,
            closes,
        } => show_quoted(out, piece_name(*opens, *closes), text),
        TokenKind::Punct(sign) => {
            write!(out, "{:?}", *sign)?;
            Ok(())
        }
    }
}

/// The tokens of a text as in a table.
fn shown(alloc: Global, source: &str) -> Result<String, AllocError> {
    let text = units(alloc, source)?;
    let mut out = String::new(alloc);
    match tokens(alloc, &text) {
        Ok(found) => {
            for token in &found {
                if !out.is_empty() {
                    out.push_str(", ")?;
                }
                show(&mut out, token)?;
            }
            if found.is_empty() {
                out.push_str("none")?;
            }
        }
        Err(LexError::BadToken { at }) => write!(out, "bad at {}", at)?,
        Err(LexError::Memory) => return Err(AllocError),
    }
    Ok(out)
}

/// Checks each line of the table, and answers how many there are.
fn check_rows(rt: &impl Abort, alloc: Global, table: &str) -> Result<u32, AllocError> {
    let mut rows = 0u32;
    for line in table.lines() {
        if let Some((source, want)) = line.split_once(" ⇒ ") {
            let found = shown(alloc, source)?;
            assert_eq!(rt; found.as_str(), want, "of {source}");
            rows = rows.wrapping_add(1);
        }
    }
    Ok(rows)
}

const WORDS: &str = r#"
abc ⇒ ^0-3 name abc
$ _ $_a9 ⇒ ^0-1 name $, 2-3 name _, 4-8 name $_a9
if iff If ⇒ ^0-2 reserved if, 3-6 name iff, 7-9 name If
of async get static ⇒ ^0-2 name of, 3-8 name async, 9-12 name get, 13-19 reserved static
undefined NaN eval ⇒ ^0-9 name undefined, 10-13 name NaN, 14-18 reserved eval
<E9>t<E9> ⇒ ^0-3 name <E9>t<E9>
a<E33> ⇒ ^0-2 name a<E33>
<E33> ⇒ bad at 0
let <37A> ⇒ bad at 4
a<200C>b<200D> ⇒ ^0-4 name a<200C>b<200D>
<200C>a ⇒ bad at 0
<D840><DC00> ⇒ ^0-2 name <D840><DC00>
a<D840><DC00>b; ⇒ ^0-4 name a<D840><DC00>b, 4-5 Semicolon
a <D83D><DE00> ⇒ bad at 2
a<D83D><DE00> ⇒ bad at 1
\u0061 ⇒ bad at 0
"#;

#[test]
fn words(rt: HostRuntime) -> Result<(), Fail> {
    assert_eq!(rt; check_rows(&rt, rt.alloc(), WORDS)?, 16);
    Ok(())
}

const NUMBERS: &str = r#"
0 ⇒ ^0-1 number 0
7 10 007 ⇒ bad at 5
1234567890 ⇒ ^0-10 number 1234567890
9007199254740991 ⇒ ^0-16 number 9007199254740991
9007199254740992 ⇒ bad at 0
99999999999999999999999999 ⇒ bad at 0
1+2 ⇒ ^0-1 number 1, 1-2 Plus, 2-3 number 2
-1 ⇒ ^0-1 Minus, 1-2 number 1
1.5 ⇒ bad at 0
[ 1.5 ] ⇒ bad at 2
1 .a ⇒ ^0-1 number 1, 2-3 Dot, 3-4 name a
.5 ⇒ ^0-1 Dot, 1-2 number 5
1a ⇒ bad at 0
1$ ⇒ bad at 0
1<200D> ⇒ bad at 0
1<D840><DC00> ⇒ bad at 0
01 ⇒ bad at 0
0x10 ⇒ bad at 0
1e3 ⇒ bad at 0
1n ⇒ bad at 0
1_000 ⇒ bad at 0
1"a" ⇒ ^0-1 number 1, 1-4 text [a]
"#;

#[test]
fn numbers(rt: HostRuntime) -> Result<(), Fail> {
    assert_eq!(rt; check_rows(&rt, rt.alloc(), NUMBERS)?, 22);
    Ok(())
}

const TEXTS: &str = r#"
'' "" ⇒ ^0-2 text [], 3-5 text []
'a' + 'b' ⇒ ^0-3 text [a], 4-5 Plus, 6-9 text [b]
'a"b' "a'b" ⇒ ^0-5 text [a"b], 6-11 text [a'b]
'<D83D><DE00>' ⇒ ^0-4 text [<D83D><DE00>]
'\n\t\r\b\f\v' ⇒ ^0-14 text [<A><9><D><8><C><B>]
'\0' '\0a' ⇒ ^0-4 text [<0>], 5-10 text [<0>a]
'\x41\xfF' ⇒ ^0-10 text [A<FF>]
'\u0041\uFEff' ⇒ ^0-14 text [A<FEFF>]
'\u{41}\u{1F600}\u{0000010FFFF}' ⇒ ^0-32 text [A<D83D><DE00><DBFF><DFFF>]
'\uD83D\u{d800}' ⇒ ^0-16 text [<D83D><D800>]
'\'\"\\\a\c\`' ⇒ ^0-14 text ['"\ac`]
'a\<A>b\<D><A>c\<D>d\<2028>e' ⇒ ^0-16 text [abcde]
'a<2028>b<2029>' ⇒ ^0-6 text [a<2028>b<2029>]
'\01' ⇒ bad at 0
'\1' ⇒ bad at 0
'\8' ⇒ bad at 0
'\x4' ⇒ bad at 0
'\u123' ⇒ bad at 0
'\u{}' ⇒ bad at 0
'\u{12' ⇒ bad at 0
'\u{110000}' ⇒ bad at 0
'a ⇒ bad at 0
'a" ⇒ bad at 0
'a<A>b' ⇒ bad at 0
'a<D>b' ⇒ bad at 0
'\ ⇒ bad at 0
'' 'a ⇒ bad at 3
"#;

#[test]
fn texts(rt: HostRuntime) -> Result<(), Fail> {
    assert_eq!(rt; check_rows(&rt, rt.alloc(), TEXTS)?, 27);
    Ok(())
}

const TEMPLATES: &str = r#"
`` ⇒ ^0-2 template []
`a<A>b\n` ⇒ ^0-7 template [a<A>b<A>]
`a<D><A>b<D>c` ⇒ ^0-8 template [a<A>b<A>c]
`$ \${ \` $a {` ⇒ ^0-15 template [$ ${ ` $a {]
`<D83D><DE00>\<D><A>` ⇒ ^0-7 template [<D83D><DE00>]
`a${b}c` ⇒ ^0-4 head [a], 4-5 name b, 5-8 tail [c]
`${1}${2}` ⇒ ^0-3 head [], 3-4 number 1, 4-7 middle [], 7-8 number 2, 8-10 tail []
`a${`b${c}`}d` ⇒ ^0-4 head [a], 4-8 head [b], 8-9 name c, 9-11 tail [], 11-14 tail [d]
`${{}}` } ⇒ ^0-3 head [], 3-4 OpenBrace, 4-5 CloseBrace, 5-7 tail [], 8-9 CloseBrace
`${(}` ⇒ ^0-3 head [], 3-4 OpenParenthesis, 4-6 tail []
`a${ b ⇒ ^0-4 head [a], 5-6 name b
{}` ⇒ bad at 2
`a${b} ⇒ bad at 5
`a${b}c${ ⇒ ^0-4 head [a], 4-5 name b, 5-9 middle [c]
`\1` ⇒ bad at 0
`a ⇒ bad at 0
`${<A>1<A>}` ⇒ ^0-3 head [], ^4-5 number 1, ^6-8 tail []
"#;

#[test]
fn templates(rt: HostRuntime) -> Result<(), Fail> {
    assert_eq!(rt; check_rows(&rt, rt.alloc(), TEMPLATES)?, 17);
    Ok(())
}

const GAPS: &str = r#"
 ⇒ none
 <9><B><C><A0><1680><2000><200A><202F><205F><3000><FEFF>a ⇒ ^12-13 name a
a<A>b<D>c<2028>d<2029>e ⇒ ^0-1 name a, ^2-3 name b, ^4-5 name c, ^6-7 name d, ^8-9 name e
a<D><A>b c ⇒ ^0-1 name a, ^3-4 name b, 5-6 name c
a//b<A>c ⇒ ^0-1 name a, ^5-6 name c
a//b<2029>c ⇒ ^0-1 name a, ^5-6 name c
// a ⇒ none
/* a */b ⇒ ^7-8 name b
a/* b */c ⇒ ^0-1 name a, 8-9 name c
a/* b<A> */c ⇒ ^0-1 name a, ^9-10 name c
a/**/b/***/c ⇒ ^0-1 name a, 5-6 name b, 11-12 name c
a/*/b/*/c ⇒ ^0-1 name a, 8-9 name c
a/* b ⇒ bad at 1
/* a * ⇒ bad at 0
/* // */a ⇒ ^8-9 name a
#! a<A>b ⇒ ^5-6 name b
#! ⇒ none
 #!a ⇒ bad at 1
<FEFF>#!a ⇒ bad at 1
# ! ⇒ bad at 0
a<3C>!--b ⇒ ^0-1 name a, 1-2 Less, 2-3 Not, 3-5 MinusMinus, 5-6 name b
a<A>-->b ⇒ ^0-1 name a, ^2-4 MinusMinus, 4-5 Greater, 5-6 name b
1;<200B>2 ⇒ bad at 2
1;<85>2 ⇒ bad at 2
"#;

#[test]
fn gaps(rt: HostRuntime) -> Result<(), Fail> {
    assert_eq!(rt; check_rows(&rt, rt.alloc(), GAPS)?, 24);
    Ok(())
}

const SIGNS: &str = r#"
{ } ( ) [ ] . ... ; , ⇒ ^0-1 OpenBrace, 2-3 CloseBrace, 4-5 OpenParenthesis, 6-7 CloseParenthesis, 8-9 OpenBracket, 10-11 CloseBracket, 12-13 Dot, 14-17 Ellipsis, 18-19 Semicolon, 20-21 Comma
<3C> > <3C>= >= == != === !== ⇒ ^0-1 Less, 2-3 Greater, 4-6 LessOrEqual, 7-9 GreaterOrEqual, 10-12 Equal, 13-15 NotEqual, 16-19 StrictEqual, 20-23 StrictNotEqual
+ - * / % ++ -- ⇒ ^0-1 Plus, 2-3 Minus, 4-5 Star, 6-7 Slash, 8-9 Percent, 10-12 PlusPlus, 13-15 MinusMinus
! && || ?? ? ?. : ⇒ ^0-1 Not, 2-4 And, 5-7 Or, 8-10 Coalesce, 11-12 Question, 13-15 OptionalDot, 16-17 Colon
= += -= *= /= %= &&= ||= ??= => ⇒ ^0-1 Assign, 2-4 PlusAssign, 5-7 MinusAssign, 8-10 StarAssign, 11-13 SlashAssign, 14-16 PercentAssign, 17-20 AndAssign, 21-24 OrAssign, 25-28 CoalesceAssign, 29-31 Arrow
a?.b ⇒ ^0-1 name a, 1-3 OptionalDot, 3-4 name b
a?.5:b ⇒ ^0-1 name a, 1-2 Question, 2-3 Dot, 3-4 number 5, 4-5 Colon, 5-6 name b
a+++b ⇒ ^0-1 name a, 1-3 PlusPlus, 3-4 Plus, 4-5 name b
a====b ⇒ ^0-1 name a, 1-4 StrictEqual, 4-5 Assign, 5-6 name b
.. ⇒ ^0-1 Dot, 1-2 Dot
.... ⇒ ^0-3 Ellipsis, 3-4 Dot
a**b ⇒ ^0-1 name a, 1-2 Star, 2-3 Star, 3-4 name b
a>>=b ⇒ ^0-1 name a, 1-2 Greater, 2-4 GreaterOrEqual, 4-5 name b
a/b/c ⇒ ^0-1 name a, 1-2 Slash, 2-3 name b, 3-4 Slash, 4-5 name c
a&&&b ⇒ bad at 3
a&b ⇒ bad at 1
a|b ⇒ bad at 1
a^b ⇒ bad at 1
~a ⇒ bad at 0
@ ⇒ bad at 0
a  @ ⇒ bad at 3
'<D83D><DE00>'; # ⇒ bad at 6
"#;

#[test]
fn signs(rt: HostRuntime) -> Result<(), Fail> {
    assert_eq!(rt; check_rows(&rt, rt.alloc(), SIGNS)?, 22);
    Ok(())
}

#[test]
fn reserved_words(rt: HostRuntime) -> Result<(), Fail> {
    let source =
        "arguments await break case catch class const continue debugger default delete do else enum eval \
        export extends false finally for function if implements import in instanceof interface let new null package \
        private protected public return static super switch this throw true try typeof var void while with yield";
    let text = units(rt.alloc(), source)?;
    let found = tokens(rt.alloc(), &text).ok().ok_or("no tokens")?;
    assert_eq!(rt; found.len(), 48);
    for token in &found {
        assert!(rt;
            matches!(&token.kind, TokenKind::Reserved(_)),
            "from {}",
            token.from
        );
    }
    Ok(())
}

#[test]
fn lone_surrogates(rt: HostRuntime) -> Result<(), Fail> {
    let alone = from_units([0xD840, 97].to_vec(rt.alloc())?);
    assert!(rt;
        matches!(
            tokens(rt.alloc(), &alone),
            Err(LexError::BadToken { at: 0 })
        )
    );
    let after = from_units([97, 0xDC00, 97].to_vec(rt.alloc())?);
    assert!(rt;
        matches!(
            tokens(rt.alloc(), &after),
            Err(LexError::BadToken { at: 1 })
        )
    );
    let quoted = from_units([39, 0xDC00, 0xD840, 39].to_vec(rt.alloc())?);
    let found = tokens(rt.alloc(), &quoted).ok().ok_or("no tokens")?;
    assert_eq!(rt; found.len(), 1);
    one_list();
    order_of_tokens();
    Ok(())
}

#[test]
fn large(rt: HostRuntime) -> Result<(), Fail> {
    let row = units(rt.alloc(), "x = [1, 'y'];\n")?;
    let mut all = Vec::new(rt.alloc());
    for _ in 0..70000 {
        all.extend_from_slice(as_units(&row))?;
    }
    let found = tokens(rt.alloc(), &from_units(all))
        .ok()
        .ok_or("no tokens")?;
    assert_eq!(rt; found.len(), 560000);
    let last = found.last().ok_or("no last token")?;
    assert_eq!(rt; last.to, 979999);
    Ok(())
}
