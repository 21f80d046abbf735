//! Programs and refusals of lz_parse, from tokens that stand for letters.

use lz_base::{Name, Sequence};
use lz_parse::{ParseError, parse};
use lz_tree::{External, Form, Keyword, Lead, Program, Punct, Token, TokenKind, Tokens};
use std::alloc::Global;
use std::process::Abort;
use std::test::*;

/// The token that a letter stands for.
fn token_of(letter: u8) -> TokenKind {
    let form = Form {
        decimal: true,
        unsigned: false,
        longs: 0,
    };
    let mark = match letter {
        b'(' => Punct::OpenParen,
        b')' => Punct::CloseParen,
        b'{' => Punct::OpenBrace,
        b'}' => Punct::CloseBrace,
        b'[' => Punct::OpenBracket,
        b']' => Punct::CloseBracket,
        b';' => Punct::Semicolon,
        b',' => Punct::Comma,
        b'=' => Punct::Assign,
        b'*' => Punct::Star,
        b'0' => return TokenKind::Constant { value: 0, form },
        other => return word_of(other),
    };
    TokenKind::Punct { mark }
}

/// The keyword or the name that a letter stands for.
fn word_of(letter: u8) -> TokenKind {
    let word = match letter {
        b'S' => Keyword::Static,
        b'X' => Keyword::Extern,
        b'I' => Keyword::Int,
        b'V' => Keyword::Void,
        b'R' => Keyword::Return,
        b'G' => Keyword::Goto,
        other => return TokenKind::Name {
            number: other as u32,
        },
    };
    TokenKind::Keyword { word }
}

/// One token a letter, each on a line of its own, and the file ends on the line behind them.
fn tokens_of(alloc: Global, letters: &str) -> Result<Tokens, lz_base::Memory> {
    let mut list = Sequence::new(alloc);
    let mut line = 1u32;
    for letter in letters.as_bytes() {
        let kind = token_of(*letter);
        list.push(Token {
            kind,
            line,
            place: 0,
        })?;
        line = line.saturating_add(1);
    }
    let mut names = Sequence::new(alloc);
    names.push(Name::new(alloc, "main")?)?;
    Ok(Tokens {
        list,
        names,
        end_line: line,
    })
}

/// What an external declaration is: its form, its line and how many declarators or parameters it has.
fn form_of(alloc: Global, external: &External) -> Result<String, Fail> {
    match external {
        External::Objects { hidden, of } => {
            let word = if *hidden { "static " } else { "" };
            let count = of.declarators.items().len();
            Ok(format!(in alloc; "{word}objects {} {count}", of.line)?)
        }
        External::Prototype {
            line,
            lead,
            params,
            void_word,
            ..
        } => {
            let word = match lead {
                Lead::Nothing => "",
                Lead::Hidden => "static ",
                Lead::Outside => "extern ",
            };
            let none = if *void_word { " void" } else { "" };
            let count = params.items().len();
            Ok(format!(in alloc; "{word}prototype {line} {count}{none}")?)
        }
        External::Function {
            line,
            hidden,
            params,
            void_word,
            ..
        } => {
            let word = if *hidden { "static " } else { "" };
            let none = if *void_word { " void" } else { "" };
            let count = params.items().len();
            Ok(format!(in alloc; "{word}function {line} {count}{none}")?)
        }
    }
}

/// The forms of a program's external declarations, each behind a `;`.
fn forms_of(alloc: Global, program: &Program) -> Result<String, Fail> {
    let mut text = String::new(alloc);
    for external in program.externals.items() {
        text.push_str(form_of(alloc, external)?.as_str())?;
        text.push_str(";")?;
    }
    Ok(text)
}

/// What is answered for the letters: the forms, or the refused token and its line.
fn answer(alloc: Global, letters: &str) -> Result<String, Fail> {
    let tokens = tokens_of(alloc, letters)?;
    match parse(alloc, &tokens) {
        Ok(program) => forms_of(alloc, &program),
        Err(ParseError::NotAProgram { token, line }) => Ok(format!(in alloc; "no {token} {line}")?),
        Err(ParseError::Memory) => Ok(format!(in alloc; "memory")?),
    }
}

/// Compares what is answered for each row's letters.
fn programs_agree(rt: &impl Abort, alloc: Global, rows: &[(&str, &str, &str)]) -> Result<(), Fail> {
    for (letters, wanted, why) in rows {
        assert_eq!(rt;
            answer(alloc, letters)?.as_str(),
            *wanted,
            "{letters}: {why}"
        );
    }
    Ok(())
}

#[test]
fn programs(rt: HostRuntime) -> Result<(), Fail> {
    let rows = [
        ("", "no 0 1", "no token is no program"),
        ("Ix;", "objects 1 1;", "one object"),
        (
            "SIx=0,y[0];",
            "static objects 2 2;",
            "the line is the type's",
        ),
        ("XIx;", "no 3 4", "`extern` stands before no object"),
        ("Im(V){R0;}", "function 1 0 void;", "a function"),
        ("SIm(){}", "static function 1 0;", "no parameter, no word"),
        ("V*f(V*a){}", "function 1 1;", "a parameter with a name"),
        ("If(Ia,I){}", "no 8 9", "a definition names its parameters"),
        ("XIf(){}", "no 5 6", "`extern` stands before no body"),
        ("If(I,Ia);", "prototype 1 2;", "a prototype need not"),
        (
            "SVf(V);",
            "static prototype 1 0 void;",
            "`void` alone is no parameter",
        ),
        (
            "XVf(V,I);",
            "extern prototype 1 2;",
            "but beside another it is",
        ),
        (
            "Ix;Im(V){}",
            "objects 1 1;function 4 0 void;",
            "one behind another",
        ),
        ("Im(V){Go;}", "no 6 7", "`goto` is no statement"),
        ("Ix;;", "no 3 4", "nothing begins with a semicolon"),
        ("Ix", "no 2 3", "past the last token on the line of the end"),
        ("S", "no 1 2", "a type is missing"),
    ];
    programs_agree(&rt, rt.alloc(), &rows)
}

/// `int main(void) { return 0; }` with so many parentheses around the `0`.
fn nested(alloc: Global, depth: u32) -> Result<String, Fail> {
    let mut letters = String::new(alloc);
    letters.push_str("Im(V){R")?;
    for _ in 0..depth {
        letters.push_str("(")?;
    }
    letters.push_str("0")?;
    for _ in 0..depth {
        letters.push_str(")")?;
    }
    letters.push_str(";}")?;
    Ok(letters)
}

/// Compares what is answered for so many parentheses.
fn depths_agree(rt: &impl Abort, alloc: Global, rows: &[(u32, &str, &str)]) -> Result<(), Fail> {
    for (depth, wanted, why) in rows {
        let letters = nested(alloc, *depth)?;
        assert_eq!(rt;
            answer(alloc, letters.as_str())?.as_str(),
            *wanted,
            "{depth}: {why}"
        );
    }
    Ok(())
}

#[test]
fn heights(rt: HostRuntime) -> Result<(), Fail> {
    let rows = [
        (197, "function 1 0 void;", "a tree of height 200"),
        (198, "no 204 205", "one parenthesis has no room"),
    ];
    depths_agree(&rt, rt.alloc(), &rows)
}

#[test]
fn names_are_kept(rt: HostRuntime) -> Result<(), Fail> {
    let tokens = tokens_of(rt.alloc(), "Ix;")?;
    let program = parse(rt.alloc(), &tokens).ok().ok_or("memory")?;
    let names = program.names.items();
    assert_eq!(rt; names.len(), 1);
    let first = names.get(0).ok_or("a name")?;
    assert_eq!(rt; first.text(), "main");
    Ok(())
}
