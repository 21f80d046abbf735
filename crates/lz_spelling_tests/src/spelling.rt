//! Trees back to tokens: for each line of the grammar a text is read, and the tokens of its tree, written down as the
//! grammar writes them, are those that were read.

use lz_base::{FILE_LIMIT, Memory, Sequence};
use lz_lex::lex;
use lz_parse::parse;
use lz_tree::{
    Binary, Declarator, Expr, External, First, Keyword, Lead, Objects, Param, Program, Punct, Stmt,
    Target, TokenKind, Tokens, TypeName, Unary,
};
use std::alloc::Global;
use std::process::Abort;
use std::test::Fail;

/// Tokens without their places.
type Kinds = Sequence<TokenKind>;

/// Adds a punctuator.
fn put_mark(kinds: &mut Kinds, mark: Punct) -> Result<(), Memory> {
    kinds.push(TokenKind::Punct { mark })
}

/// Adds a keyword.
fn put_word(kinds: &mut Kinds, word: Keyword) -> Result<(), Memory> {
    kinds.push(TokenKind::Keyword { word })
}

/// Adds a name.
fn put_name(kinds: &mut Kinds, number: u32) -> Result<(), Memory> {
    kinds.push(TokenKind::Name { number })
}

/// The words of a type; `void *` has a `*` behind its word.
fn type_words(base: TypeName) -> &'static [Keyword] {
    match base {
        TypeName::Int => &[Keyword::Int],
        TypeName::Signed => &[Keyword::Signed],
        TypeName::SignedInt => &[Keyword::Signed, Keyword::Int],
        TypeName::Unsigned => &[Keyword::Unsigned],
        TypeName::UnsignedInt => &[Keyword::Unsigned, Keyword::Int],
        TypeName::Bool => &[Keyword::Bool],
        TypeName::Char => &[Keyword::Char],
        TypeName::SignedChar => &[Keyword::Signed, Keyword::Char],
        TypeName::UnsignedChar => &[Keyword::Unsigned, Keyword::Char],
        TypeName::Short => &[Keyword::Short],
        TypeName::ShortInt => &[Keyword::Short, Keyword::Int],
        TypeName::UnsignedShort => &[Keyword::Unsigned, Keyword::Short],
        TypeName::UnsignedShortInt => &[Keyword::Unsigned, Keyword::Short, Keyword::Int],
        TypeName::Long => &[Keyword::Long],
        TypeName::LongInt => &[Keyword::Long, Keyword::Int],
        TypeName::UnsignedLong => &[Keyword::Unsigned, Keyword::Long],
        TypeName::UnsignedLongInt => &[Keyword::Unsigned, Keyword::Long, Keyword::Int],
        TypeName::LongLong => &[Keyword::Long, Keyword::Long],
        TypeName::LongLongInt => &[Keyword::Long, Keyword::Long, Keyword::Int],
        TypeName::UnsignedLongLong => &[Keyword::Unsigned, Keyword::Long, Keyword::Long],
        TypeName::UnsignedLongLongInt => {
            &[
                Keyword::Unsigned,
                Keyword::Long,
                Keyword::Long,
                Keyword::Int,
            ]
        }
        TypeName::Void | TypeName::VoidPointer => &[Keyword::Void],
        TypeName::Thread => &[Keyword::Thread],
        TypeName::Mutex => &[Keyword::Mutex],
        TypeName::Cond => &[Keyword::Cond],
    }
}

/// Adds a type.
fn put_type(kinds: &mut Kinds, base: TypeName) -> Result<(), Memory> {
    for word in type_words(base) {
        put_word(kinds, *word)?;
    }
    if base == TypeName::VoidPointer {
        put_mark(kinds, Punct::Star)?;
    }
    Ok(())
}

/// A unary operator.
fn unary_mark(op: Unary) -> Punct {
    match op {
        Unary::Plus => Punct::Plus,
        Unary::Minus => Punct::Minus,
        Unary::Invert => Punct::Tilde,
        Unary::Not => Punct::Not,
    }
}

/// A binary operator.
fn binary_mark(op: Binary) -> Punct {
    match op {
        Binary::Mul => Punct::Star,
        Binary::Div => Punct::Slash,
        Binary::Rem => Punct::Percent,
        Binary::Add => Punct::Plus,
        Binary::Sub => Punct::Minus,
        Binary::Shl => Punct::ShiftLeft,
        Binary::Shr => Punct::ShiftRight,
        Binary::Lt => Punct::Less,
        Binary::Gt => Punct::Greater,
        Binary::Le => Punct::LessEqual,
        Binary::Ge => Punct::GreaterEqual,
        Binary::Eq => Punct::Equal,
        Binary::Ne => Punct::NotEqual,
        Binary::BitAnd => Punct::And,
        Binary::BitXor => Punct::Xor,
        Binary::BitOr => Punct::Or,
        Binary::Both => Punct::AndAnd,
        Binary::Either => Punct::OrOr,
    }
}

/// An assignment operator; those that no grammar has are told as `;`.
fn assign_mark(op: Option<Binary>) -> Punct {
    match op {
        None => Punct::Assign,
        Some(Binary::Add) => Punct::AddAssign,
        Some(Binary::Sub) => Punct::SubAssign,
        Some(Binary::Mul) => Punct::MulAssign,
        Some(Binary::Div) => Punct::DivAssign,
        Some(Binary::Rem) => Punct::RemAssign,
        Some(Binary::BitAnd) => Punct::AndAssign,
        Some(Binary::BitOr) => Punct::OrAssign,
        Some(Binary::BitXor) => Punct::XorAssign,
        Some(Binary::Shl) => Punct::ShlAssign,
        Some(Binary::Shr) => Punct::ShrAssign,
        Some(_) => Punct::Semicolon,
    }
}

/// Adds a target.
#[cycle(put)]
fn put_target(kinds: &mut Kinds, of: &Target) -> Result<(), Memory> {
    put_name(kinds, of.name)?;
    match &of.index {
        None => Ok(()),
        Some(index) => {
            put_mark(kinds, Punct::OpenBracket)?;
            put(kinds, index)?;
            put_mark(kinds, Punct::CloseBracket)
        }
    }
}

/// Adds expressions with a comma between each two.
#[cycle(put)]
fn put_all(kinds: &mut Kinds, items: &[Expr]) -> Result<(), Memory> {
    let mut first = true;
    for item in items {
        if !first {
            put_mark(kinds, Punct::Comma)?;
        }
        first = false;
        put(kinds, item)?;
    }
    Ok(())
}

/// Adds an expression.
#[cycle(put)]
fn put(kinds: &mut Kinds, e: &Expr) -> Result<(), Memory> {
    match e {
        Expr::Constant { value, form, .. } => kinds.push(TokenKind::Constant {
            value: *value,
            form: *form,
        }),
        Expr::Null { .. } => put_word(kinds, Keyword::Null),
        Expr::Text { .. } => kinds.push(TokenKind::Text),
        Expr::Object { target } => put_target(kinds, target),
        Expr::Address { target, .. } => {
            put_mark(kinds, Punct::And)?;
            put_target(kinds, target)
        }
        Expr::Paren { inner, .. } => {
            put_mark(kinds, Punct::OpenParen)?;
            put(kinds, inner)?;
            put_mark(kinds, Punct::CloseParen)
        }
        Expr::Unary { op, of, .. } => {
            put_mark(kinds, unary_mark(*op))?;
            put(kinds, of)
        }
        Expr::Cast { to, of, .. } => {
            put_mark(kinds, Punct::OpenParen)?;
            put_type(kinds, *to)?;
            put_mark(kinds, Punct::CloseParen)?;
            put(kinds, of)
        }
        Expr::Binary {
            op,
            left,
            right,
            ..
        } => {
            put(kinds, left)?;
            put_mark(kinds, binary_mark(*op))?;
            put(kinds, right)
        }
        Expr::Choose { test, yes, no, .. } => {
            put(kinds, test)?;
            put_mark(kinds, Punct::Question)?;
            put(kinds, yes)?;
            put_mark(kinds, Punct::Colon)?;
            put(kinds, no)
        }
        Expr::Assign {
            op,
            target,
            value,
            ..
        } => {
            put_target(kinds, target)?;
            put_mark(kinds, assign_mark(*op))?;
            put(kinds, value)
        }
        Expr::Step {
            target,
            up,
            before,
            ..
        } => {
            let mark = if *up {
                Punct::Increment
            } else {
                Punct::Decrement
            };
            if *before {
                put_mark(kinds, mark)?;
                put_target(kinds, target)
            } else {
                put_target(kinds, target)?;
                put_mark(kinds, mark)
            }
        }
        Expr::Call { name, args, .. } => {
            put_name(kinds, *name)?;
            put_mark(kinds, Punct::OpenParen)?;
            put_all(kinds, args)?;
            put_mark(kinds, Punct::CloseParen)
        }
    }
}

/// Adds an expression that may be left out.
fn put_optional(kinds: &mut Kinds, e: &Option<Expr>) -> Result<(), Memory> {
    match e {
        None => Ok(()),
        Some(e) => put(kinds, e),
    }
}

/// Adds an initializer.
fn put_first(kinds: &mut Kinds, first: &First) -> Result<(), Memory> {
    match first {
        First::Nothing => Ok(()),
        First::Value { value } => {
            put_mark(kinds, Punct::Assign)?;
            put(kinds, value)
        }
        First::Listed { values, comma } => {
            put_mark(kinds, Punct::Assign)?;
            put_mark(kinds, Punct::OpenBrace)?;
            put_all(kinds, values)?;
            if *comma {
                put_mark(kinds, Punct::Comma)?;
            }
            put_mark(kinds, Punct::CloseBrace)
        }
        First::Mutex => {
            put_mark(kinds, Punct::Assign)?;
            put_word(kinds, Keyword::MutexInitializer)
        }
        First::Cond => {
            put_mark(kinds, Punct::Assign)?;
            put_word(kinds, Keyword::CondInitializer)
        }
    }
}

/// Adds a declarator.
fn put_declarator(kinds: &mut Kinds, of: &Declarator) -> Result<(), Memory> {
    put_name(kinds, of.name)?;
    if let Some(length) = &of.length {
        put_mark(kinds, Punct::OpenBracket)?;
        put(kinds, length)?;
        put_mark(kinds, Punct::CloseBracket)?;
    }
    put_first(kinds, &of.first)
}

/// Adds a declaration.
fn put_objects(kinds: &mut Kinds, of: &Objects) -> Result<(), Memory> {
    put_type(kinds, of.base)?;
    let mut first = true;
    for item in of.declarators.items() {
        if !first {
            put_mark(kinds, Punct::Comma)?;
        }
        first = false;
        put_declarator(kinds, item)?;
    }
    put_mark(kinds, Punct::Semicolon)
}

/// Adds `word ( test )`.
fn put_test(kinds: &mut Kinds, word: Keyword, test: &Expr) -> Result<(), Memory> {
    put_word(kinds, word)?;
    put_mark(kinds, Punct::OpenParen)?;
    put(kinds, test)?;
    put_mark(kinds, Punct::CloseParen)
}

/// Adds what stands behind an `if` and its first statement.
#[cycle(put_statement)]
fn put_branch(kinds: &mut Kinds, of: &Option<Box<Stmt>>) -> Result<(), Memory> {
    match of {
        None => Ok(()),
        Some(of) => {
            put_word(kinds, Keyword::Else)?;
            put_statement(kinds, of)
        }
    }
}

/// Adds a statement.
#[cycle(put_statement)]
fn put_statement(kinds: &mut Kinds, s: &Stmt) -> Result<(), Memory> {
    match s {
        Stmt::Empty => put_mark(kinds, Punct::Semicolon),
        Stmt::Eval { value } => {
            put(kinds, value)?;
            put_mark(kinds, Punct::Semicolon)
        }
        Stmt::Block { parts } => {
            put_mark(kinds, Punct::OpenBrace)?;
            for part in parts {
                put_statement(kinds, part)?;
            }
            put_mark(kinds, Punct::CloseBrace)
        }
        Stmt::Declare { of } => put_objects(kinds, of),
        Stmt::If { test, yes, no, .. } => {
            put_test(kinds, Keyword::If, test)?;
            put_statement(kinds, yes)?;
            put_branch(kinds, no)
        }
        Stmt::While { test, body, .. } => {
            put_test(kinds, Keyword::While, test)?;
            put_statement(kinds, body)
        }
        Stmt::Do { body, test, .. } => {
            put_word(kinds, Keyword::Do)?;
            put_statement(kinds, body)?;
            put_test(kinds, Keyword::While, test)?;
            put_mark(kinds, Punct::Semicolon)
        }
        Stmt::For {
            first,
            test,
            step,
            body,
            ..
        } => {
            put_word(kinds, Keyword::For)?;
            put_mark(kinds, Punct::OpenParen)?;
            put_statement(kinds, first)?;
            put_optional(kinds, test)?;
            put_mark(kinds, Punct::Semicolon)?;
            put_optional(kinds, step)?;
            put_mark(kinds, Punct::CloseParen)?;
            put_statement(kinds, body)
        }
        Stmt::Break { .. } => {
            put_word(kinds, Keyword::Break)?;
            put_mark(kinds, Punct::Semicolon)
        }
        Stmt::Continue { .. } => {
            put_word(kinds, Keyword::Continue)?;
            put_mark(kinds, Punct::Semicolon)
        }
        Stmt::Return { value, .. } => {
            put_word(kinds, Keyword::Return)?;
            put_optional(kinds, value)?;
            put_mark(kinds, Punct::Semicolon)
        }
        Stmt::Label { name, of } => {
            put_name(kinds, *name)?;
            put_mark(kinds, Punct::Colon)?;
            put_statement(kinds, of)
        }
    }
}

/// Adds parameters in parentheses.
fn put_params(kinds: &mut Kinds, params: &[Param], void_word: bool) -> Result<(), Memory> {
    put_mark(kinds, Punct::OpenParen)?;
    if void_word {
        put_word(kinds, Keyword::Void)?;
    }
    let mut first = true;
    for param in params {
        if !first {
            put_mark(kinds, Punct::Comma)?;
        }
        first = false;
        put_type(kinds, param.base)?;
        if let Some(name) = param.name {
            put_name(kinds, name)?;
        }
    }
    put_mark(kinds, Punct::CloseParen)
}

/// Adds `static`, where it stands.
fn put_hidden(kinds: &mut Kinds, hidden: bool) -> Result<(), Memory> {
    if hidden {
        put_word(kinds, Keyword::Static)
    } else {
        Ok(())
    }
}

/// Adds the word that a prototype begins with, if any.
fn put_lead(kinds: &mut Kinds, lead: Lead) -> Result<(), Memory> {
    match lead {
        Lead::Nothing => Ok(()),
        Lead::Hidden => put_word(kinds, Keyword::Static),
        Lead::Outside => put_word(kinds, Keyword::Extern),
    }
}

/// Adds an external declaration.
fn put_external(kinds: &mut Kinds, of: &External) -> Result<(), Memory> {
    match of {
        External::Objects { hidden, of } => {
            put_hidden(kinds, *hidden)?;
            put_objects(kinds, of)
        }
        External::Prototype {
            lead,
            gives,
            name,
            params,
            void_word,
            ..
        } => {
            put_lead(kinds, *lead)?;
            put_type(kinds, *gives)?;
            put_name(kinds, *name)?;
            put_params(kinds, params.items(), *void_word)?;
            put_mark(kinds, Punct::Semicolon)
        }
        External::Function {
            hidden,
            gives,
            name,
            params,
            void_word,
            body,
            ..
        } => {
            put_hidden(kinds, *hidden)?;
            put_type(kinds, *gives)?;
            put_name(kinds, *name)?;
            put_params(kinds, params.items(), *void_word)?;
            put_statement(kinds, body)
        }
    }
}

/// The tokens of a tree.
fn spelled(alloc: Global, program: &Program) -> Result<Kinds, Memory> {
    let mut kinds = Kinds::new(alloc);
    for external in program.externals.items() {
        put_external(&mut kinds, external)?;
    }
    Ok(kinds)
}

/// The tokens of a text without their places.
fn kinds_of(alloc: Global, tokens: &Tokens) -> Result<Kinds, Memory> {
    let mut kinds = Kinds::new(alloc);
    for token in tokens.list.items() {
        kinds.push(token.kind)?;
    }
    Ok(kinds)
}

/// The tokens of a text that is no longer than a file may be.
fn cut(alloc: Global, text: &str) -> Option<Tokens> {
    if text.len() as u64 > FILE_LIMIT {
        return None;
    }
    lex(alloc, text.as_bytes()).ok()
}

/// Reads a text with this before it and this behind it, and compares the tokens of its tree with those that were read.
fn compare(
    rt: &impl Abort,
    alloc: Global,
    before: &str,
    row: (&str, &str),
    behind: &str,
) -> Result<(), Fail> {
    let (middle, line) = row;
    let text = format!(in alloc; "{before}{middle}{behind}")?;
    let tokens = cut(alloc, text.as_str()).ok_or("a cut")?;
    let program = parse(alloc, &tokens).ok().ok_or("a tree")?;
    let back = spelled(alloc, &program).ok().ok_or("memory")?;
    let kinds = kinds_of(alloc, &tokens).ok().ok_or("memory")?;
    assert_eq!(rt; back.items(), kinds.items(), "{middle}: {line}");
    Ok(())
}

/// Compares the tokens of each row's text with this before it and this behind it.
fn compare_rows(
    rt: &impl Abort,
    alloc: Global,
    before: &str,
    rows: &[(&str, &str)],
    behind: &str,
) -> Result<(), Fail> {
    for row in rows {
        compare(rt, alloc, before, *row, behind)?;
    }
    Ok(())
}

/// Texts of external declarations, and the line of the grammar.
const EXTERNALS: [(&str, &str); 41] = [
    (
        "int x; int f(); int f() { }",
        "several external declarations",
    ),
    ("int x;", "objects"),
    ("static int x;", "objects behind `static`"),
    ("int f() { }", "a function"),
    ("static int f() { }", "a function behind `static`"),
    ("int f();", "a prototype"),
    ("static int f();", "a prototype behind `static`"),
    ("extern int f();", "a prototype behind `extern`"),
    ("void f();", "the type `void`"),
    ("void *f();", "the type `void *`"),
    ("pthread_t x;", "a thread"),
    ("pthread_mutex_t x;", "a mutex"),
    ("pthread_cond_t x;", "a condition"),
    ("signed x; signed int y;", "signed"),
    ("unsigned x; unsigned int y;", "unsigned"),
    ("_Bool x;", "_Bool"),
    ("char x; signed char y; unsigned char z;", "characters"),
    ("short x; short int y;", "short"),
    ("unsigned short x; unsigned short int y;", "unsigned short"),
    ("long x; long int y;", "long"),
    ("unsigned long x; unsigned long int y;", "unsigned long"),
    ("long long x; long long int y;", "long long"),
    ("unsigned long long x;", "unsigned long long"),
    ("unsigned long long int x;", "unsigned long long int"),
    ("int f(void) { }", "no parameter, by a word"),
    ("int f(int a) { }", "a parameter"),
    ("int f(int a, unsigned b, void *c) { }", "parameters"),
    ("int f(void);", "no parameter of a prototype, by a word"),
    ("int f(int a);", "a parameter of a prototype"),
    ("int f(int, void, int a);", "parameters without names"),
    ("int x, y, z;", "declarators"),
    ("int x[2];", "a length"),
    ("int x[y ? 1 : 2];", "a length that is a choice"),
    ("int x[2] = { 1 }, y = 2;", "a length and an initializer"),
    ("int x = 1;", "an initializer"),
    ("int x = y = 1;", "an initializer that is an assignment"),
    ("int x = { 1 };", "a list"),
    ("int x = { 1, y = 2, 3 };", "a longer list"),
    ("int x = { 1, };", "a list with a comma behind it"),
    (
        "pthread_mutex_t x = PTHREAD_MUTEX_INITIALIZER;",
        "a mutex's initializer",
    ),
    (
        "pthread_cond_t x = PTHREAD_COND_INITIALIZER;",
        "a condition's initializer",
    ),
];

/// Statements, and the line of the grammar.
const STATEMENTS: [(&str, &str); 27] = [
    ("", "an empty block"),
    (";", "the empty statement"),
    ("x;", "an expression"),
    ("{ }", "a block"),
    ("{ ; { x; } }", "blocks"),
    ("int x, y = 1;", "a declaration"),
    ("if (x) ;", "an `if`"),
    ("if (x) ; else y;", "an `if` with `else`"),
    ("if (x) if (y) ; else z;", "`else` at the nearest `if`"),
    ("if (x) { if (y) ; } else z;", "`else` behind a block"),
    ("if (x) int y; else int z;", "declarations as bodies"),
    ("while (x = 1) y;", "a `while`"),
    ("do x; while (y);", "a `do`"),
    ("for (;;) ;", "a `for` of no part"),
    ("for (x = 1; x < 2; x++) ;", "a `for` of all parts"),
    ("for (int i = 0; i; ) ;", "a `for` with a declaration"),
    ("for (; ; x) y;", "a `for` without a test"),
    ("break;", "`break`"),
    ("continue;", "`continue`"),
    ("return;", "`return`"),
    ("return x = 1;", "`return` of a value"),
    ("l: ;", "a label"),
    ("l: m: int x;", "labels"),
    ("x: x;", "a name as a label and as an object"),
    ("l: if (x) m: ; else n: ;", "labels in branches"),
    ("do if (x) ; while (y);", "an `if` in a `do`"),
    ("while (x) for (;;) do ; while (y);", "loops in loops"),
];

/// Expressions, and the line of the grammar.
const EXPRESSIONS: [(&str, &str); 57] = [
    ("x = 1", "="),
    ("x += 1", "+="),
    ("x -= 1", "-="),
    ("x *= 1", "*="),
    ("x /= 1", "/="),
    ("x %= 1", "%="),
    ("x &= 1", "&="),
    ("x |= 1", "|="),
    ("x ^= 1", "^="),
    ("x <<= 1", "<<="),
    ("x >>= 1", ">>="),
    ("x[1] = y[2] += 3", "an assignment groups to the right"),
    ("x ? y : z", "a choice"),
    ("x ? y = 1 : z ? 2 : 3", "a choice groups to the right"),
    ("x || y", "||"),
    ("x && y", "&&"),
    ("x | y", "|"),
    ("x ^ y", "^"),
    ("x & y", "&"),
    ("x == y", "=="),
    ("x != y", "!="),
    ("x < y", "<"),
    ("x > y", ">"),
    ("x <= y", "<="),
    ("x >= y", ">="),
    ("x << y", "<<"),
    ("x >> y", ">>"),
    ("x + y", "+"),
    ("x - y", "-"),
    ("x * y", "*"),
    ("x / y", "/"),
    ("x % y", "%"),
    (
        "a || b && c | d ^ e & f == g < h << i + j * k",
        "from loose to tight",
    ),
    (
        "a * b + c << d < e == f & g ^ h | i && j || k",
        "from tight to loose",
    ),
    ("a - b - c", "levels group to the left"),
    ("x++", "a step up behind"),
    ("x[1]--", "a step down behind"),
    ("++x[1]", "a step up before"),
    ("--x", "a step down before"),
    ("+x", "unary +"),
    ("-x", "unary -"),
    ("~x", "~"),
    ("!x", "!"),
    ("- -x + +x", "signs"),
    ("&x", "&"),
    ("&x[y = 1]", "& of an element"),
    ("(int) x", "a cast"),
    ("(unsigned long long int) -x", "a cast to four words"),
    ("(void *) x", "a cast to `void *`"),
    ("017u", "a constant"),
    ("NULL", "NULL"),
    ("\"text\"", "a text"),
    ("x[y[1]]", "elements"),
    ("((x = 1))", "parentheses"),
    ("f()", "a call"),
    ("f(x)", "a call with an argument"),
    ("f(x = 1, (int) y, g(z, 2))", "a call with arguments"),
];

#[test]
fn trees_to_tokens(rt: HostRuntime) -> Result<(), Fail> {
    let alloc = rt.alloc();
    compare_rows(&rt, alloc, "", &EXTERNALS, "")?;
    compare_rows(&rt, alloc, "int f() { ", &STATEMENTS, " }")?;
    compare_rows(&rt, alloc, "int f() { ", &EXPRESSIONS, "; }")
}
