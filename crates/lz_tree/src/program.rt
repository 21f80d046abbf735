use crate::expression::TypeName;
use crate::statement::{Objects, Stmt};
use crate::token::Names;
use lz_base::Sequence;

/// A parameter (C99 6.7.5.3), whose name may be left out in a prototype.
#[derive(Clone, Copy, Debug, PartialEq, Eq)]
pub struct Param {
    pub line: u32,
    pub base: TypeName,
    pub name: Option<u32>,
}

/// Parameters in the order of the text.
pub type Params = Sequence<Param>;

/// The word that a prototype begins with, if any (C99 6.7.1).
#[derive(Clone, Copy, Debug, PartialEq, Eq)]
pub enum Lead {
    Nothing,
    /// `static`
    Hidden,
    /// `extern`
    Outside,
}

/// An external declaration (C99 6.9). `hidden` says that `static` stands before it, and `void_word` that its
/// empty parameter list is written `void`. Each line is that of the first token.
#[derive(Debug, Drop)]
pub enum External {
    /// A declaration of objects at file scope (C99 6.9.2).
    Objects {
        hidden: bool,
        of: Objects,
    },
    /// A function without its body (C99 6.7.5.3).
    Prototype {
        line: u32,
        lead: Lead,
        gives: TypeName,
        name: u32,
        params: Params,
        void_word: bool,
    },
    /// A function with its body (C99 6.9.1).
    Function {
        line: u32,
        hidden: bool,
        gives: TypeName,
        name: u32,
        params: Params,
        void_word: bool,
        body: Stmt,
    },
}

/// External declarations in the order of the text.
pub type Externals = Sequence<External>;

/// A translation unit (C99 6.9), with the names that its trees number.
#[derive(Debug, Drop)]
pub struct Program {
    pub externals: Externals,
    pub names: Names,
}
