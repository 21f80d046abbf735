//! Statements, declarations and parameters: what is read of a row of tokens, with the lines that trees keep, and where
//! it ends, or the refused token.

use lz_expr::Refusal;
use lz_expr_tests::letters::tokens_of;
use lz_grammar::{read_params, read_statement};
use lz_tree::{Declarator, Expr, First, Objects, Param, Stmt, TypeName};
use std::alloc::{AllocError, Global};
use std::process::Abort;
use std::test::*;

/// The height that a program may have.
const HEIGHT: u32 = 200;

/// The letter of a name.
fn letter(name: u32) -> &'static str {
    match name {
        97 => "a",
        98 => "b",
        99 => "c",
        _ => "?",
    }
}

/// An expression by its kind.
fn shape(of: &Expr) -> &'static str {
    match of {
        Expr::Object { target } => letter(target.name),
        Expr::Constant { .. } => "1",
        Expr::Assign { .. } => "=",
        Expr::Call { .. } => "f",
        _ => "?",
    }
}

/// An expression that may be left out.
fn shape_or_none(of: &Option<Expr>) -> &'static str {
    match of {
        Some(of) => shape(of),
        None => "-",
    }
}

/// A type by the letters of its words.
fn type_shape(of: TypeName) -> &'static str {
    match of {
        TypeName::Int => "N",
        TypeName::UnsignedLongLongInt => "ULLN",
        TypeName::UnsignedShortInt => "UHN",
        TypeName::Void => "V",
        TypeName::VoidPointer => "V*",
        TypeName::Thread => "T",
        TypeName::Mutex => "M",
        TypeName::Cond => "K",
        _ => "?",
    }
}

/// Writes texts one after the other.
fn put(text: &mut String, parts: &[&str]) -> Result<(), AllocError> {
    for part in parts {
        text.push_str(part)?;
    }
    Ok(())
}

/// Writes a line behind an open parenthesis, and what comes next.
fn put_line(
    text: &mut String,
    alloc: Global,
    open: &str,
    line: u32,
    next: &str,
) -> Result<(), AllocError> {
    text.push_str(open)?;
    text.push_str(format!(in alloc; "{line}")?.as_str())?;
    text.push_str(next)
}

/// Writes an initializer.
fn put_first(text: &mut String, of: &First) -> Result<(), AllocError> {
    match of {
        First::Nothing => Ok(()),
        First::Value { value } => text.push_str(shape(value)),
        First::Listed { values, comma } => {
            text.push_str("{")?;
            for value in values {
                text.push_str(shape(value))?;
            }
            text.push_str(if *comma { ",}" } else { "}" })
        }
        First::Mutex => text.push_str("X"),
        First::Cond => text.push_str("Y"),
    }
}

/// Writes a declarator with its line, its length and its initializer.
fn put_declarator(text: &mut String, alloc: Global, of: &Declarator) -> Result<(), AllocError> {
    put_line(text, alloc, " ", of.line, letter(of.name))?;
    put(text, &["[", shape_or_none(&of.length), "]"])?;
    put_first(text, &of.first)
}

/// Writes a declaration with its line, its type and its declarators.
fn put_objects(text: &mut String, alloc: Global, of: &Objects) -> Result<(), AllocError> {
    put_line(text, alloc, "(", of.line, type_shape(of.base))?;
    for declarator in of.declarators.items() {
        put_declarator(text, alloc, declarator)?;
    }
    text.push_str(")")
}

/// Writes a statement with each node in parentheses and its line before it.
#[cycle(put_statement)]
fn put_statement(text: &mut String, alloc: Global, of: &Stmt) -> Result<(), AllocError> {
    match of {
        Stmt::Empty => text.push_str("(;)"),
        Stmt::Eval { value } => put(text, &["(", shape(value), ";)"]),
        Stmt::Block { parts } => {
            text.push_str("({")?;
            for part in parts {
                put_statement(text, alloc, part)?;
            }
            text.push_str("})")
        }
        Stmt::Declare { of } => put_objects(text, alloc, of),
        Stmt::If {
            line,
            test,
            yes,
            no,
        } => {
            put_line(text, alloc, "(", *line, "I")?;
            text.push_str(shape(test))?;
            put_statement(text, alloc, yes)?;
            put_branch(text, alloc, no)?;
            text.push_str(")")
        }
        Stmt::While { line, test, body } => {
            put_line(text, alloc, "(", *line, "W")?;
            text.push_str(shape(test))?;
            put_statement(text, alloc, body)?;
            text.push_str(")")
        }
        Stmt::Do { line, body, test } => {
            put_line(text, alloc, "(", *line, "D")?;
            put_statement(text, alloc, body)?;
            put(text, &[shape(test), ")"])
        }
        Stmt::For {
            line,
            first,
            test,
            step,
            body,
        } => {
            put_line(text, alloc, "(", *line, "F")?;
            put_statement(text, alloc, first)?;
            put(text, &[shape_or_none(test), shape_or_none(step)])?;
            put_statement(text, alloc, body)?;
            text.push_str(")")
        }
        Stmt::Break { line } => put_line(text, alloc, "(", *line, "B)"),
        Stmt::Continue { line } => put_line(text, alloc, "(", *line, "C)"),
        Stmt::Return { line, value } => {
            put_line(text, alloc, "(", *line, "R")?;
            put(text, &[shape_or_none(value), ")"])
        }
        Stmt::Label { name, of } => {
            put(text, &["(", letter(*name), ":"])?;
            put_statement(text, alloc, of)?;
            text.push_str(")")
        }
    }
}

/// Writes what stands behind `else`.
#[cycle(put_statement)]
fn put_branch(text: &mut String, alloc: Global, of: &Option<Box<Stmt>>) -> Result<(), AllocError> {
    match of {
        None => Ok(()),
        Some(of) => put_statement(text, alloc, of),
    }
}

/// A statement as text.
fn statement_shape(alloc: Global, of: &Stmt) -> Result<String, AllocError> {
    let mut text = String::new(alloc);
    put_statement(&mut text, alloc, of)?;
    Ok(text)
}

/// Parameters with their lines, and whether they are the word `void`.
fn params_shape(alloc: Global, params: &[Param], void_word: bool) -> Result<String, AllocError> {
    let mut text = String::new(alloc);
    for param in params {
        let line = param.line;
        let base = type_shape(param.base);
        let name = match param.name {
            Some(name) => letter(name),
            None => "-",
        };
        put_line(&mut text, alloc, "(", line, base)?;
        put(&mut text, &[name, ")"])?;
    }
    if void_word {
        text.push_str("void")?;
    }
    Ok(text)
}

/// What was read and the place behind it, or the refused token.
fn told(
    alloc: Global,
    all: usize,
    read: Result<(String, usize), Refusal>,
) -> Result<String, AllocError> {
    match read {
        Ok((text, left)) => {
            let at = all.saturating_sub(left);
            format!(in alloc; "{text} {at}")
        }
        Err(Refusal::Refused { left }) => {
            let at = all.saturating_sub(left);
            format!(in alloc; "no {at}")
        }
        Err(Refusal::Memory) => format!(in alloc; "memory"),
    }
}

/// What is answered for a statement.
fn statement_answer(alloc: Global, letters: &[u8], height: u32) -> Result<String, Fail> {
    let tokens = tokens_of(alloc, letters)?;
    let read = match read_statement(alloc, tokens.list.items(), height) {
        Ok((of, rest)) => Ok((statement_shape(alloc, &of)?, rest.len())),
        Err(refusal) => Err(refusal),
    };
    Ok(told(alloc, letters.len(), read)?)
}

/// What is answered for parameters.
fn params_answer(alloc: Global, letters: &[u8]) -> Result<String, Fail> {
    let tokens = tokens_of(alloc, letters)?;
    let read = match read_params(alloc, tokens.list.items()) {
        Ok((params, void_word, rest)) => {
            Ok((params_shape(alloc, params.items(), void_word)?, rest.len()))
        }
        Err(refusal) => Err(refusal),
    };
    Ok(told(alloc, letters.len(), read)?)
}

/// What a row's letters are, what is answered for them, and why.
type Row = (&'static str, &'static str, &'static str);

/// Each row's answer for a statement.
fn statements_agree(rt: &impl Abort, alloc: Global, rows: &[Row]) -> Result<(), Fail> {
    for (letters, wanted, why) in rows {
        assert_eq!(rt;
            statement_answer(alloc, letters.as_bytes(), HEIGHT)?.as_str(),
            *wanted,
            "{letters}: {why}"
        );
    }
    Ok(())
}

/// Each row's answer for parameters.
fn params_agree(rt: &impl Abort, alloc: Global, rows: &[Row]) -> Result<(), Fail> {
    for (letters, wanted, why) in rows {
        assert_eq!(rt;
            params_answer(alloc, letters.as_bytes())?.as_str(),
            *wanted,
            "{letters}: {why}"
        );
    }
    Ok(())
}

#[test]
fn statements(rt: HostRuntime) -> Result<(), Fail> {
    let rows = [
        (";", "(;) 1", "nothing"),
        ("a;", "(a;) 2", "an expression"),
        ("a=1;", "(=;) 4", "an assignment"),
        ("{}", "({}) 2", "a block of no part"),
        ("{;a;{}}", "({(;)(a;)({})}) 7", "a block of three"),
        ("I(a);b", "(1Ia(;)) 5", "an `if` alone"),
        ("I(a)b;Ec;", "(1Ia(b;)(c;)) 9", "an `if` with `else`"),
        (
            "I(a)I(b);E;",
            "(1Ia(5Ib(;)(;))) 11",
            "`else` at the nearest `if`",
        ),
        (
            "I(a){I(b);}E;",
            "(1Ia({(6Ib(;))})(;)) 13",
            "a block ends an `if`",
        ),
        (
            "I(a)DI(b);W(c);E;",
            "(1Ia(5D(6Ib(;))c)(;)) 17",
            "so does a `do`",
        ),
        (
            "I(a)W(b)I(c);E;",
            "(1Ia(5Wb(9Ic(;)(;)))) 15",
            "a loop does not",
        ),
        ("W(a=1)b;", "(1W=(b;)) 8", "a test is an assignment"),
        ("Da;W(b);", "(1D(a;)b) 8", "the test behind its body"),
        ("F(;;);", "(1F(;)--(;)) 6", "a `for` of no part"),
        ("F(a;b;c)B;", "(1F(a;)bc(9B)) 10", "a `for` of all parts"),
        (
            "F(Na=1;;c)C;",
            "(1F(3N 4a[-]1)-c(11C)) 12",
            "a declaration begins it",
        ),
        ("R;", "(1R-) 2", "no value"),
        ("Ra;", "(1Ra) 3", "a value"),
        ("a:b:c;", "(a:(b:(c;))) 6", "labels"),
        ("a();", "(f;) 4", "a call is no label"),
        ("1:;", "no 1", "a constant is none"),
        ("(a):;", "no 3", "nor is a name in parentheses"),
        (
            "I(a)Na;E;",
            "(1Ia(5N 6a[-])(;)) 9",
            "a declaration as a body",
        ),
        ("E;", "no 0", "`else` begins nothing"),
        ("Da;W(b)", "no 7", "a `do` ends in `;`"),
        ("", "no 0", "nothing at all"),
    ];
    statements_agree(&rt, rt.alloc(), &rows)
}

#[test]
fn declarations(rt: HostRuntime) -> Result<(), Fail> {
    let rows = [
        ("Na;", "(1N 2a[-]) 3", "one object"),
        ("Na,b,c;", "(1N 2a[-] 4b[-] 6c[-]) 7", "three of one type"),
        ("ULLNa;", "(1ULLN 5a[-]) 6", "a type of four words"),
        ("UHNa;", "(1UHN 4a[-]) 5", "a type of three words"),
        ("V*a;", "(1V* 3a[-]) 4", "a pointer"),
        ("Va;", "(1V 2a[-]) 3", "a type that the rules refuse"),
        ("Na[1];", "(1N 2a[1]) 6", "an array"),
        ("Na[b=1];", "no 4", "a length is no assignment"),
        ("Na=b=1;", "(1N 2a[-]=) 7", "an initializer is one"),
        ("Na[1]={1,b};", "(1N 2a[1]{1b}) 12", "values"),
        (
            "Na[1]={1,};",
            "(1N 2a[1]{1,}) 11",
            "a comma behind the last",
        ),
        ("Na[1]={};", "no 7", "at least one value"),
        ("Na={1,,};", "no 6", "one comma alone"),
        ("Ma=X;", "(1M 2a[-]X) 5", "a mutex"),
        ("Ka=Y;", "(1K 2a[-]Y) 5", "a condition"),
        ("Ta;", "(1T 2a[-]) 3", "a thread"),
        ("Na,;", "no 3", "no comma behind the last object"),
        ("N;", "no 1", "at least one object"),
        ("Na=;", "no 3", "no initializer"),
    ];
    statements_agree(&rt, rt.alloc(), &rows)
}

#[test]
fn parameters(rt: HostRuntime) -> Result<(), Fail> {
    let rows = [
        (")", " 1", "none"),
        ("V)", "void 2", "none by a word"),
        ("Na)", "(1Na) 3", "one"),
        ("Na,V*b)", "(1Na)(4V*b) 7", "two"),
        ("N,V)", "(1N-)(3V-) 4", "names may be left out"),
        ("Va)", "(1Va) 3", "a named `void` is one"),
        ("Na,)", "no 3", "no comma behind the last"),
        ("a)", "no 0", "a type first"),
        ("Nab)", "no 2", "one name each"),
    ];
    params_agree(&rt, rt.alloc(), &rows)
}

/// The letters so often, and then one that can't stand.
fn cut_off(alloc: Global, letters: &[u8]) -> Result<Vec<u8>, AllocError> {
    let mut cut = Vec::new(alloc);
    cut.extend_from_slice(letters)?;
    cut.push(b'Z')?;
    Ok(cut)
}

/// Letters that are cut off before each of their tokens: the token that is put there is refused, but where a statement
/// is whole before it.
fn cut_everywhere(rt: &impl Abort, alloc: Global, letters: &str, whole: usize) -> Result<(), Fail> {
    let bytes = letters.as_bytes();
    for at in 0..bytes.len() {
        let cut = cut_off(alloc, &bytes[..at])?;
        let answer = statement_answer(alloc, &cut, HEIGHT)?;
        if at != whole {
            let wanted = format!(in alloc; "no {at}")?;
            assert_eq!(rt; answer.as_str(), wanted.as_str(), "{letters} cut at {at}");
        } else {
            assert_eq!(rt; answer.as_str(), "(1Ia(;)) 5", "{letters} cut at {at}");
        }
    }
    Ok(())
}

/// The same of each row, which has its letters and the token before which a statement is whole.
fn all_cut_everywhere(rt: &impl Abort, alloc: Global, rows: &[(&str, usize)]) -> Result<(), Fail> {
    for (letters, whole) in rows {
        cut_everywhere(rt, alloc, letters, *whole)?;
    }
    Ok(())
}

/// Each kind of statement, cut off before each of its tokens: the token that is put there is refused. An `if` that
/// is cut off behind its first statement is whole.
#[test]
fn cuts(rt: HostRuntime) -> Result<(), Fail> {
    let rows = [
        (";", 9usize),
        ("a=1;", 9),
        ("{a;}", 9),
        ("Na[1]={1,b,},c;", 99),
        ("I(a);E;", 5),
        ("W(a);", 9),
        ("D;W(a);", 9),
        ("F(Na;b;c);", 99),
        ("F(a;;);", 9),
        ("B;", 9),
        ("C;", 9),
        ("Ra;", 9),
        ("a:;", 9),
    ];
    all_cut_everywhere(&rt, rt.alloc(), &rows)
}

/// Letters so many times, others, and letters so many times again.
fn nested(
    alloc: Global,
    front: &[u8],
    middle: &[u8],
    back: &[u8],
    times: usize,
) -> Result<Vec<u8>, AllocError> {
    let mut letters = Vec::new(alloc);
    for _ in 0..times {
        letters.extend_from_slice(front)?;
    }
    letters.extend_from_slice(middle)?;
    for _ in 0..times {
        letters.extend_from_slice(back)?;
    }
    Ok(letters)
}

/// Where a statement ends, or the refused token.
fn end_of(alloc: Global, letters: &[u8]) -> Result<String, Fail> {
    let tokens = tokens_of(alloc, letters)?;
    let read = match read_statement(alloc, tokens.list.items(), HEIGHT) {
        Ok((_, rest)) => Ok((format!(in alloc; "to")?, rest.len())),
        Err(refusal) => Err(refusal),
    };
    Ok(told(alloc, letters.len(), read)?)
}

/// Letters before, between and behind, how often those around are nested, where that ends, the refused token where they are
/// nested once more, and why.
type HeightRow = (
    &'static str,
    &'static str,
    &'static str,
    usize,
    &'static str,
    &'static str,
    &'static str,
);

/// Compares where the nested letters of a row end.
fn compare_height(
    rt: &impl Abort,
    alloc: Global,
    row: &HeightRow,
    times: usize,
    wanted: &str,
) -> Result<(), Fail> {
    let (front, middle, back, _, _, _, why) = row;
    let letters = nested(
        alloc,
        front.as_bytes(),
        middle.as_bytes(),
        back.as_bytes(),
        times,
    )?;
    let answer = end_of(alloc, &letters)?;
    assert_eq!(rt;
        answer.as_str(),
        wanted,
        "{front}{middle}{back} {times} times: {why}"
    );
    Ok(())
}

/// Compares each row as it is, and nested once more.
fn heights_agree(rt: &impl Abort, alloc: Global, rows: &[HeightRow]) -> Result<(), Fail> {
    for row in rows {
        compare_height(rt, alloc, row, row.3, row.4)?;
        compare_height(rt, alloc, row, row.3.saturating_add(1), row.5)?;
    }
    Ok(())
}

/// The highest statement of each kind is read, and the next higher one refused where its height shows.
#[test]
fn heights(rt: HostRuntime) -> Result<(), Fail> {
    let rows = [
        (
            "{",
            "",
            "}",
            200usize,
            "to 400",
            "no 200",
            "a block that holds nothing is one high",
        ),
        (
            "{",
            ";",
            "}",
            199,
            "to 399",
            "no 200",
            "a block is higher than its statement",
        ),
        (
            "I(a)",
            ";",
            "",
            199,
            "to 797",
            "no 796",
            "an if is higher than its first branch",
        ),
        (
            "I(a);E",
            ";",
            "",
            199,
            "to 1195",
            "no 1194",
            "an if is higher than its second branch",
        ),
        (
            "W(a)",
            ";",
            "",
            199,
            "to 797",
            "no 796",
            "a while is higher than its body",
        ),
        (
            "D",
            ";",
            "W(a);",
            199,
            "to 1195",
            "no 199",
            "a do is higher than its body",
        ),
        (
            "F(;;)",
            ";",
            "",
            199,
            "to 996",
            "no 995",
            "a for is higher than its body",
        ),
        (
            "a:",
            ";",
            "",
            199,
            "to 399",
            "no 398",
            "a label is higher than its statement",
        ),
    ];
    heights_agree(&rt, rt.alloc(), &rows)
}
