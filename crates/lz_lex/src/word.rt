ghost use Rattle.std.specs.Prelude.{◌≡◌, find};
ghost use Rattle.std.specs.Str.{bytes_eq};
ghost use Rattle.lz_tree.specs.Pieces as pieces;

use lz_tree::{Keyword, Punct};

/// The bytes of a keyword (C99 6.4.1).
fn keyword_text(word: Keyword) -> &'static str
    ensures { result.now ≡ pieces.keyword_text word }
{
    match word {
        Keyword::Auto => "auto",
        Keyword::Break => "break",
        Keyword::Case => "case",
        Keyword::Char => "char",
        Keyword::Const => "const",
        Keyword::Continue => "continue",
        Keyword::Default => "default",
        Keyword::Do => "do",
        Keyword::Double => "double",
        Keyword::Else => "else",
        Keyword::Enum => "enum",
        Keyword::Extern => "extern",
        Keyword::Float => "float",
        Keyword::For => "for",
        Keyword::Goto => "goto",
        Keyword::If => "if",
        Keyword::Inline => "inline",
        Keyword::Int => "int",
        Keyword::Long => "long",
        Keyword::Register => "register",
        Keyword::Restrict => "restrict",
        Keyword::Return => "return",
        Keyword::Short => "short",
        Keyword::Signed => "signed",
        Keyword::Sizeof => "sizeof",
        Keyword::Static => "static",
        Keyword::Struct => "struct",
        Keyword::Switch => "switch",
        Keyword::Typedef => "typedef",
        Keyword::Union => "union",
        Keyword::Unsigned => "unsigned",
        Keyword::Void => "void",
        Keyword::Volatile => "volatile",
        Keyword::While => "while",
        Keyword::Bool => "_Bool",
        Keyword::Complex => "_Complex",
        Keyword::Imaginary => "_Imaginary",
        Keyword::Thread => "pthread_t",
        Keyword::Mutex => "pthread_mutex_t",
        Keyword::Cond => "pthread_cond_t",
        Keyword::Null => "NULL",
        Keyword::MutexInitializer => "PTHREAD_MUTEX_INITIALIZER",
        Keyword::CondInitializer => "PTHREAD_COND_INITIALIZER",
    }
}

/// The keywords.
const KEYWORDS: [Keyword; 43] = [
    Keyword::Auto,
    Keyword::Break,
    Keyword::Case,
    Keyword::Char,
    Keyword::Const,
    Keyword::Continue,
    Keyword::Default,
    Keyword::Do,
    Keyword::Double,
    Keyword::Else,
    Keyword::Enum,
    Keyword::Extern,
    Keyword::Float,
    Keyword::For,
    Keyword::Goto,
    Keyword::If,
    Keyword::Inline,
    Keyword::Int,
    Keyword::Long,
    Keyword::Register,
    Keyword::Restrict,
    Keyword::Return,
    Keyword::Short,
    Keyword::Signed,
    Keyword::Sizeof,
    Keyword::Static,
    Keyword::Struct,
    Keyword::Switch,
    Keyword::Typedef,
    Keyword::Union,
    Keyword::Unsigned,
    Keyword::Void,
    Keyword::Volatile,
    Keyword::While,
    Keyword::Bool,
    Keyword::Complex,
    Keyword::Imaginary,
    Keyword::Thread,
    Keyword::Mutex,
    Keyword::Cond,
    Keyword::Null,
    Keyword::MutexInitializer,
    Keyword::CondInitializer,
];

fn find_keyword(words: &[Keyword], letters: &str) -> Option<Keyword>
    ensures { result ≡ find (λ word. bytes_eq letters.now (pieces.keyword_text word)) words.now }
{
    words
        .iter()
        .copied()
        .find(|word| letters == keyword_text(*word))
}

/// The keyword that these letters are, if they are one.
#[tactic(auto, unfolding(lz_tree::specs::Pieces::keyword_of))]
pub fn keyword_of(letters: &str) -> Option<Keyword>
    ensures { result ≡ pieces.keyword_of letters.now }
{
    find_keyword(&KEYWORDS, letters)
}

/// The bytes of a punctuator (C99 6.4.6).
fn punct_text(mark: Punct) -> &'static [u8]
    ensures { result.now ≡ pieces.punct_text mark }
{
    match mark {
        Punct::OpenParen => b"(",
        Punct::CloseParen => b")",
        Punct::OpenBrace => b"{",
        Punct::CloseBrace => b"}",
        Punct::OpenBracket => b"[",
        Punct::CloseBracket => b"]",
        Punct::Semicolon => b";",
        Punct::Comma => b",",
        Punct::Colon => b":",
        Punct::Question => b"?",
        Punct::Assign => b"=",
        Punct::AddAssign => b"+=",
        Punct::SubAssign => b"-=",
        Punct::MulAssign => b"*=",
        Punct::DivAssign => b"/=",
        Punct::RemAssign => b"%=",
        Punct::AndAssign => b"&=",
        Punct::OrAssign => b"|=",
        Punct::XorAssign => b"^=",
        Punct::ShlAssign => b"<<=",
        Punct::ShrAssign => b">>=",
        Punct::OrOr => b"||",
        Punct::AndAnd => b"&&",
        Punct::Or => b"|",
        Punct::Xor => b"^",
        Punct::And => b"&",
        Punct::Equal => b"==",
        Punct::NotEqual => b"!=",
        Punct::Less => b"<",
        Punct::Greater => b">",
        Punct::LessEqual => b"<=",
        Punct::GreaterEqual => b">=",
        Punct::ShiftLeft => b"<<",
        Punct::ShiftRight => b">>",
        Punct::Plus => b"+",
        Punct::Minus => b"-",
        Punct::Star => b"*",
        Punct::Slash => b"/",
        Punct::Percent => b"%",
        Punct::Not => b"!",
        Punct::Tilde => b"~",
        Punct::Increment => b"++",
        Punct::Decrement => b"--",
    }
}

/// The punctuators.
const PUNCTS: [Punct; 43] = [
    Punct::OpenParen,
    Punct::CloseParen,
    Punct::OpenBrace,
    Punct::CloseBrace,
    Punct::OpenBracket,
    Punct::CloseBracket,
    Punct::Semicolon,
    Punct::Comma,
    Punct::Colon,
    Punct::Question,
    Punct::Assign,
    Punct::AddAssign,
    Punct::SubAssign,
    Punct::MulAssign,
    Punct::DivAssign,
    Punct::RemAssign,
    Punct::AndAssign,
    Punct::OrAssign,
    Punct::XorAssign,
    Punct::ShlAssign,
    Punct::ShrAssign,
    Punct::OrOr,
    Punct::AndAnd,
    Punct::Or,
    Punct::Xor,
    Punct::And,
    Punct::Equal,
    Punct::NotEqual,
    Punct::Less,
    Punct::Greater,
    Punct::LessEqual,
    Punct::GreaterEqual,
    Punct::ShiftLeft,
    Punct::ShiftRight,
    Punct::Plus,
    Punct::Minus,
    Punct::Star,
    Punct::Slash,
    Punct::Percent,
    Punct::Not,
    Punct::Tilde,
    Punct::Increment,
    Punct::Decrement,
];

fn find_punct(marks: &[Punct], bytes: &[u8]) -> Option<Punct>
    ensures { result ≡ find (λ mark. bytes_eq bytes.now (pieces.punct_text mark)) marks.now }
{
    marks
        .iter()
        .copied()
        .find(|mark| bytes == punct_text(*mark))
}

/// The punctuator that these bytes are, if they are one.
#[tactic(auto, unfolding(lz_tree::specs::Pieces::punct_of))]
pub fn punct_of(bytes: &[u8]) -> Option<Punct>
    ensures { result ≡ pieces.punct_of bytes.now }
{
    find_punct(&PUNCTS, bytes)
}
