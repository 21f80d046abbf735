use lz_base::{Name, Sequence};

/// A token (C99 6.4): what it is, its line, counted from 1, and the place of its first byte, counted from 0.
/// A token that stands for a defined name has the line and the place where that name is used.
#[derive(Clone, Copy, Debug, PartialEq, Eq)]
pub struct Token {
    pub kind: TokenKind,
    pub line: u32,
    pub place: u32,
}

/// What a token is.
#[derive(Clone, Copy, Debug, PartialEq, Eq)]
pub enum TokenKind {
    /// A name (C99 6.4.2), by its number among the names of the file.
    Name { number: u32 },
    /// An integer constant (C99 6.4.4.1) or a character constant (C99 6.4.4.4).
    Constant { value: u64, form: Form },
    /// A text (C99 6.4.5), whose bytes are not kept.
    Text,
    /// A keyword (C99 6.4.1, and those of this project).
    Keyword { word: Keyword },
    /// A punctuator (C99 6.4.6).
    Punct { mark: Punct },
}

/// How a constant is written, which decides its type (C99 6.4.4.1).
#[derive(Clone, Copy, Debug, PartialEq, Eq)]
pub struct Form {
    /// Whether it is decimal, as a character constant is; otherwise it is octal or hexadecimal.
    pub decimal: bool,
    /// Whether it has the suffix `u`.
    pub unsigned: bool,
    /// How many `l` its suffix has: 0, 1 or 2.
    pub longs: u8,
}

/// A keyword: those of C99 6.4.1, and six that this project reserves.
#[derive(Clone, Copy, Debug, PartialEq, Eq)]
pub enum Keyword {
    Auto,
    Break,
    Case,
    Char,
    Const,
    Continue,
    Default,
    Do,
    Double,
    Else,
    Enum,
    Extern,
    Float,
    For,
    Goto,
    If,
    Inline,
    Int,
    Long,
    Register,
    Restrict,
    Return,
    Short,
    Signed,
    Sizeof,
    Static,
    Struct,
    Switch,
    Typedef,
    Union,
    Unsigned,
    Void,
    Volatile,
    While,
    /// `_Bool`
    Bool,
    /// `_Complex`
    Complex,
    /// `_Imaginary`
    Imaginary,
    /// `pthread_t`
    Thread,
    /// `pthread_mutex_t`
    Mutex,
    /// `pthread_cond_t`
    Cond,
    /// `NULL`
    Null,
    /// `PTHREAD_MUTEX_INITIALIZER`
    MutexInitializer,
    /// `PTHREAD_COND_INITIALIZER`
    CondInitializer,
}

/// A punctuator (C99 6.4.6).
#[derive(Clone, Copy, Debug, PartialEq, Eq)]
pub enum Punct {
    /// `(`
    OpenParen,
    /// `)`
    CloseParen,
    /// `{`
    OpenBrace,
    /// `}`
    CloseBrace,
    /// `[`
    OpenBracket,
    /// `]`
    CloseBracket,
    /// `;`
    Semicolon,
    /// `,`
    Comma,
    /// `:`
    Colon,
    /// `?`
    Question,
    /// `=`
    Assign,
    /// `+=`
    AddAssign,
    /// `-=`
    SubAssign,
    /// `*=`
    MulAssign,
    /// `/=`
    DivAssign,
    /// `%=`
    RemAssign,
    /// `&=`
    AndAssign,
    /// `|=`
    OrAssign,
    /// `^=`
    XorAssign,
    /// `<<=`
    ShlAssign,
    /// `>>=`
    ShrAssign,
    /// `||`
    OrOr,
    /// `&&`
    AndAnd,
    /// `|`
    Or,
    /// `^`
    Xor,
    /// `&`
    And,
    /// `==`
    Equal,
    /// `!=`
    NotEqual,
    /// `<`
    Less,
    /// `>`
    Greater,
    /// `<=`
    LessEqual,
    /// `>=`
    GreaterEqual,
    /// `<<`
    ShiftLeft,
    /// `>>`
    ShiftRight,
    /// `+`
    Plus,
    /// `-`
    Minus,
    /// `*`
    Star,
    /// `/`
    Slash,
    /// `%`
    Percent,
    /// `!`
    Not,
    /// `~`
    Tilde,
    /// `++`
    Increment,
    /// `--`
    Decrement,
}

/// Tokens in the order of the text.
pub type TokenList = Sequence<Token>;

/// The names of a file, each once, in the order in which they first come as tokens.
pub type Names = Sequence<Name>;

/// The tokens of a file.
#[derive(Debug, Drop)]
pub struct Tokens {
    pub list: TokenList,
    pub names: Names,
    /// The line on which the file ends: 1 plus the number of its newline bytes.
    pub end_line: u32,
}
