//! Tokens and refusals of lz_lex.

use lz_lex::{LexError, lex};
use lz_tree::{Form, Punct, Token, TokenKind};
use std::alloc::Global;
use std::process::Abort;
use std::test::Fail;

const MAX: u64 = u64::MAX;

/// The tokens of a text that is no longer than a file may be.
fn cut(alloc: Global, text: &str) -> Result<lz_tree::Tokens, LexError> {
    if text.len() as u64 > lz_base::FILE_LIMIT {
        return Err(LexError::Memory);
    }
    lex(alloc, text.as_bytes())
}

const fn token(kind: TokenKind, line: u32, place: u32) -> Token {
    Token { kind, line, place }
}

/// Each form of a constant, with its value, whether it is decimal, whether it has a `u`, and how many `l`.
const CONSTANTS: [(&str, u64, bool, bool, u8); 38] = [
    ("0", 0, false, false, 0),
    ("0u", 0, false, true, 0),
    ("00", 0, false, false, 0),
    ("1", 1, true, false, 0),
    ("2147483648", 2_147_483_648, true, false, 0),
    ("18446744073709551615", MAX, true, false, 0),
    ("01777777777777777777777", MAX, false, false, 0),
    ("0xffffffffffffffff", MAX, false, false, 0),
    ("0XFFFFFFFFFFFFFFFFU", MAX, false, true, 0),
    ("0x00000000000000000001", 1, false, false, 0),
    ("017", 15, false, false, 0),
    ("0xaF", 175, false, false, 0),
    ("7u", 7, true, true, 0),
    ("7U", 7, true, true, 0),
    ("7l", 7, true, false, 1),
    ("7L", 7, true, false, 1),
    ("7ll", 7, true, false, 2),
    ("7LL", 7, true, false, 2),
    ("7ul", 7, true, true, 1),
    ("7uL", 7, true, true, 1),
    ("7Ul", 7, true, true, 1),
    ("7UL", 7, true, true, 1),
    ("7ull", 7, true, true, 2),
    ("7uLL", 7, true, true, 2),
    ("7Ull", 7, true, true, 2),
    ("7ULL", 7, true, true, 2),
    ("7lu", 7, true, true, 1),
    ("7lU", 7, true, true, 1),
    ("7Lu", 7, true, true, 1),
    ("7LU", 7, true, true, 1),
    ("7llu", 7, true, true, 2),
    ("7llU", 7, true, true, 2),
    ("7LLu", 7, true, true, 2),
    ("7LLU", 7, true, true, 2),
    ("07ll", 7, false, false, 2),
    ("0x7lu", 7, false, true, 1),
    ("' '", 32, true, false, 0),
    ("'~'", 126, true, false, 0),
];

fn read_constants(
    rt: &impl Abort,
    alloc: Global,
    rows: &[(&str, u64, bool, bool, u8)],
) -> Result<(), Fail> {
    for (text, value, decimal, unsigned, longs) in rows {
        let tokens = cut(alloc, text).ok().ok_or("a constant")?;
        let form = Form {
            decimal: *decimal,
            unsigned: *unsigned,
            longs: *longs,
        };
        let kind = TokenKind::Constant {
            value: *value,
            form,
        };
        let wanted = Token {
            kind,
            line: 1,
            place: 0,
        };
        assert_eq!(rt; tokens.list.items(), [wanted].as_slice(), "{text}");
    }
    Ok(())
}

#[test]
fn constants(rt: HostRuntime) -> Result<(), Fail> {
    read_constants(&rt, rt.alloc(), &CONSTANTS)
}

/// Each escape, and characters that stand for themselves.
const CHARACTERS: [(&str, u64, bool, bool, u8); 13] = [
    (r"'\n'", 10, true, false, 0),
    (r"'\t'", 9, true, false, 0),
    (r"'\r'", 13, true, false, 0),
    (r"'\0'", 0, true, false, 0),
    (r"'\a'", 7, true, false, 0),
    (r"'\b'", 8, true, false, 0),
    (r"'\f'", 12, true, false, 0),
    (r"'\v'", 11, true, false, 0),
    (r"'\\'", 92, true, false, 0),
    (r"'\''", 39, true, false, 0),
    (r#"'\"'"#, 34, true, false, 0),
    ("'\"'", 34, true, false, 0),
    ("'/'", 47, true, false, 0),
];

#[test]
fn characters(rt: HostRuntime) -> Result<(), Fail> {
    read_constants(&rt, rt.alloc(), &CHARACTERS)
}

/// Texts that have no cut: where the longest cut ends, on which line, and why.
const REFUSED: [(&str, u32, u32, &str); 67] = [
    ("int x = 08;", 8, 1, "8 is no octal digit"),
    ("int x = 12ab;", 8, 1, "a letter behind a constant"),
    ("0x", 0, 1, "no hexadecimal digit"),
    ("0xg", 0, 1, "no hexadecimal digit"),
    ("1e5", 0, 1, "no exponent"),
    ("1lL", 0, 1, "two kinds of l"),
    ("1lul", 0, 1, "l twice"),
    ("1uu", 0, 1, "u twice"),
    ("1lll", 0, 1, "three l"),
    ("1_", 0, 1, "a `_` behind a constant"),
    ("1.5", 1, 1, "a dot is no piece"),
    ("18446744073709551616", 0, 1, "2 to the 64"),
    ("02000000000000000000000", 0, 1, "2 to the 64, octal"),
    ("0x10000000000000000", 0, 1, "2 to the 64, hexadecimal"),
    ("'", 0, 1, "no character"),
    ("''", 0, 1, "no character"),
    ("'a", 0, 1, "no end"),
    ("'ab'", 0, 1, "two characters"),
    (r"'\x'", 0, 1, "no such escape"),
    (r"'\'", 0, 1, "an escaped end"),
    (r"'\", 0, 1, "no end"),
    ("'\t'", 0, 1, "not printable"),
    ("'\u{7f}'", 0, 1, "not printable"),
    ("'\n'", 0, 1, "a newline"),
    ("\"a", 0, 1, "no end"),
    ("\"a\nb\"", 0, 1, "a newline in a text"),
    ("\"a\\\nb\"", 0, 1, "an escaped newline"),
    (r#""a\""#, 0, 1, "an escaped end"),
    ("x /* y", 2, 1, "a comment that does not end"),
    ("/*/", 0, 1, "the slash opens and cannot end it"),
    ("/* *", 0, 1, "a comment that does not end"),
    ("a\n\nb @", 5, 3, "no piece, on the third line"),
    ("/*\n\n*/ @", 7, 3, "the newlines of a comment count"),
    ("\u{e9}", 0, 1, "a letter that is not ASCII"),
    ("1\u{e9}", 1, 1, "a constant, and then no piece"),
    ("$", 0, 1, "no piece"),
    ("`", 0, 1, "no piece"),
    ("\\", 0, 1, "no piece"),
    (".", 0, 1, "no piece"),
    ("\u{0}", 0, 1, "no piece"),
    ("#pragma once", 0, 1, "no directive"),
    ("#", 0, 1, "no directive"),
    ("#\ninclude", 0, 1, "the word stands on the next line"),
    ("x #include", 2, 1, "not the first on its line"),
    ("/**/ #include", 5, 1, "behind a comment"),
    (
        "/*\n*/ #include",
        6,
        2,
        "behind a comment, on its last line",
    ),
    ("\r#include", 1, 1, "behind a carriage return"),
    ("\u{c}#include", 1, 1, "behind a form feed"),
    ("#includ <x>", 0, 1, "no directive"),
    ("#define", 0, 1, "no name"),
    ("#define ", 0, 1, "no name"),
    ("#definex 1", 0, 1, "no blank behind the word"),
    ("#define 1", 0, 1, "no name"),
    ("#define int 1", 0, 1, "a keyword"),
    ("#define N(x) 1", 0, 1, "no blank behind the name"),
    ("#define N x", 0, 1, "no constant"),
    ("#define N 08", 0, 1, "no constant"),
    ("#define N 1 2", 0, 1, "two constants"),
    ("#define N (1", 0, 1, "no end"),
    ("#define N 1)", 0, 1, "no opening"),
    ("#define N --1", 0, 1, "two signs"),
    ("#define N /* a */ 1", 0, 1, "a comment before the body"),
    ("#define N 1 /* a */ /* b */", 0, 1, "two comments"),
    (
        "#define N 1 /* a",
        0,
        1,
        "a comment that goes on past the line",
    ),
    ("#define N 1\r\n", 0, 1, "a carriage return"),
    ("#define N 1\n#define N 1", 12, 2, "defined a second time"),
    ("#define A 1\n#define B A1", 12, 2, "a name is no body"),
];

fn refuse(rt: &impl Abort, alloc: Global, rows: &[(&str, u32, u32, &str)]) -> Result<(), Fail> {
    for (text, place, line, reason) in rows {
        match cut(alloc, text) {
            Err(error) => {
                let wanted = LexError::Bad {
                    place: *place,
                    line: *line,
                };
                assert_eq!(rt; error, wanted, "{text}: {reason}");
            }
            Ok(_) => return Err("no refusal".into()),
        }
    }
    Ok(())
}

#[test]
fn refused(rt: HostRuntime) -> Result<(), Fail> {
    refuse(&rt, rt.alloc(), &REFUSED)
}

/// Marks, each the longest that can stand, with their places.
const MARKS: [(&str, Punct, u32, Punct, u32); 11] = [
    ("+++", Punct::Increment, 0, Punct::Plus, 2),
    ("<<=<", Punct::ShlAssign, 0, Punct::Less, 3),
    (">> >=", Punct::ShiftRight, 0, Punct::GreaterEqual, 3),
    ("/=/", Punct::DivAssign, 0, Punct::Slash, 2),
    ("===", Punct::Equal, 0, Punct::Assign, 2),
    ("!==", Punct::NotEqual, 0, Punct::Assign, 2),
    ("&&&", Punct::AndAnd, 0, Punct::And, 2),
    ("|||=", Punct::OrOr, 0, Punct::OrAssign, 2),
    ("---", Punct::Decrement, 0, Punct::Minus, 2),
    ("^^=", Punct::Xor, 0, Punct::XorAssign, 1),
    (">>=>", Punct::ShrAssign, 0, Punct::Greater, 3),
];

fn read_marks(
    rt: &impl Abort,
    alloc: Global,
    rows: &[(&str, Punct, u32, Punct, u32)],
) -> Result<(), Fail> {
    for (text, first, at, second, behind) in rows {
        let tokens = cut(alloc, text).ok().ok_or("marks")?;
        let one = token(TokenKind::Punct { mark: *first }, 1, *at);
        let two = token(TokenKind::Punct { mark: *second }, 1, *behind);
        assert_eq!(rt; tokens.list.items(), [one, two].as_slice(), "{text}");
    }
    Ok(())
}

#[test]
fn marks(rt: HostRuntime) -> Result<(), Fail> {
    read_marks(&rt, rt.alloc(), &MARKS)
}

/// Texts with so many tokens, and why.
const COUNTED: [(&str, usize, &str); 23] = [
    ("", 0, "nothing"),
    (" \t\n\u{b}\u{c}\r", 0, "white space"),
    ("// a", 0, "a line comment at the end"),
    ("// a \\\nb", 1, "a backslash has no meaning in a comment"),
    ("/* a * / \n // \" ' */b", 1, "a comment may hold anything"),
    ("/***/a/**/b", 2, "comments between names"),
    ("/* a */ b */", 3, "it ends at the first end"),
    (
        "const volatile inline register a",
        1,
        "words that are passed over",
    ),
    (
        "#include <a.h>\n#includex\n # include\n\t#\tinclude /* \r",
        0,
        "includes",
    ),
    ("#include /*\na", 1, "no comment begins in a directive"),
    ("#define A\nA", 0, "an empty body"),
    ("#define A \t \nA", 0, "an empty body behind blanks"),
    ("#define A// c\nA", 0, "a comment directly behind the name"),
    (
        "#define A/* c */ \nA",
        0,
        "a comment directly behind the name",
    ),
    ("#define A 1\nA", 1, "a constant"),
    ("#define A -1\nA", 2, "a sign"),
    ("#define A ( 1 ) // c\nA", 3, "in parentheses"),
    (
        " # \tdefine \t A (-\t'a')/* c */ \t\nA",
        4,
        "blanks wherever they may stand",
    ),
    ("#define A '\\''// c\nA", 1, "an escape in a body"),
    ("\"\" \"a\\\"b\" \"/* // '\"", 3, "texts"),
    ("'a'b", 2, "a name directly behind a character"),
    ("a\"b\"1'c'", 4, "pieces without white space"),
    ("_a1 __ A9_", 3, "names"),
];

fn count(rt: &impl Abort, alloc: Global, rows: &[(&str, usize, &str)]) -> Result<(), Fail> {
    for (text, count, reason) in rows {
        let tokens = cut(alloc, text).ok().ok_or("a cut")?;
        assert_eq!(rt; tokens.list.items().len(), *count, "{text}: {reason}");
    }
    Ok(())
}

#[test]
fn counted(rt: HostRuntime) -> Result<(), Fail> {
    count(&rt, rt.alloc(), &COUNTED)
}

/// Names are numbered as they first come as tokens; a defined name has the line and the place of its use.
#[test]
fn names_and_places(rt: HostRuntime) -> Result<(), Fail> {
    let text = "b N\n#define N (-3)\n#define main\n b,N;main c";
    let tokens = cut(rt.alloc(), text).ok().ok_or("a cut")?;
    let form = Form {
        decimal: true,
        unsigned: false,
        longs: 0,
    };
    let wanted = [
        token(TokenKind::Name { number: 0 }, 1, 0),
        token(TokenKind::Name { number: 1 }, 1, 2),
        token(TokenKind::Name { number: 0 }, 4, 33),
        token(TokenKind::Punct { mark: Punct::Comma }, 4, 34),
        token(
            TokenKind::Punct {
                mark: Punct::OpenParen,
            },
            4,
            35,
        ),
        token(TokenKind::Punct { mark: Punct::Minus }, 4, 35),
        token(TokenKind::Constant { value: 3, form }, 4, 35),
        token(
            TokenKind::Punct {
                mark: Punct::CloseParen,
            },
            4,
            35,
        ),
        token(
            TokenKind::Punct {
                mark: Punct::Semicolon,
            },
            4,
            36,
        ),
        token(TokenKind::Name { number: 2 }, 4, 42),
    ];
    assert_eq!(rt; tokens.list.items(), wanted.as_slice());
    assert_eq!(rt; tokens.end_line, 4);
    assert_eq!(rt; tokens.names.items().len(), 3);
    Ok(())
}
