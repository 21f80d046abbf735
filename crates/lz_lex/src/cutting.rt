ghost use Rattle.std.specs.Prelude.{◌≡◌, ◌<◌, ◌≤◌, ◌+◌, ◌++◌, ◌∷◌, [], length, count_by, OnOk, IfOk, Some, None, true, not, option_map};
ghost use Rattle.lz_base.specs.Limits.{file_limit};
ghost use Rattle.lz_tree.specs.Pieces as pieces;
ghost use Rattle.lz_tree.specs.Tokens.{behind_piece, body_kinds, opening, constant_kind};
ghost use Rattle.lz_tree.specs.Tokens as tokens;
ghost use Rattle.lz_tree.specs.declared.token.TokenKind.TheVariants as kinds;
ghost use Rattle.lz_lex.specs.Views.{cutting, texts};
ghost use Rattle.lz_lex.specs.Views as views;
ghost use Rattle.lz_lex.specs.Steps.{added, named, worded, pieced, IsWithin};

use crate::bytes as at;
use crate::constant::Constant;
use crate::directive::Body;
use crate::piece::Piece;
use crate::word::keyword_of;
use indexmap::{IndexMap, IndexSet};
use lz_base::{Memory, Name};
use lz_tree::{Keyword, Names, Punct, Token, TokenKind, TokenList, Tokens};
use std::alloc::Global;

/// Where the cutting of a file stands: the line and the place of the next byte, whether nothing but blanks
/// stands before it on its line, the names that are defined, and the names and the tokens so far.
#[derive(Drop)]
pub struct Cutting<'a> {
    pub line: u32,
    pub place: u32,
    fresh: bool,
    defined: IndexMap<&'a str, Option<Body>>,
    names: IndexSet<&'a str>,
    tokens: TokenList,
}

fn is_passed_over(word: Keyword) -> bool
    ensures { result ≡ tokens.is_passed_over word }
{
    matches!(
        word,
        Keyword::Const | Keyword::Volatile | Keyword::Inline | Keyword::Register
    )
}

fn newlines(bytes: &[u8]) -> usize
    ensures count { result ≡ count_by pieces.is_newline bytes.now }
    ensures within { result ≤ length bytes.now }
{
    bytes.iter().filter(|byte| at::is_newline(**byte)).count()
}

/// Whether nothing but blanks stands on the line behind a piece.
fn fresh_behind(fresh: bool, piece: Piece<'_>) -> bool
    ensures { result ≡ tokens.fresh_behind fresh (views.piece piece.entry) }
{
    match piece {
        Piece::White { byte } => at::is_newline(byte) || (at::is_blank(byte) && fresh),
        _ => false,
    }
}

fn names_of(alloc: Global, words: &[&str]) -> Result<Names, Memory>
    ensures { IfOk result (λ names. names ≡ texts words.now) }
{
    let mut names = Names::new(alloc);
    for word in words {
        names.push(Name::new(alloc, word)?)?;
    }
    Ok(names)
}

impl<'a> Cutting<'a> {
    /// At the front of a file.
    pub fn new(alloc: Global) -> Self
        ensures { cutting result ≡ opening }
    {
        Cutting {
            line: 1,
            place: 0,
            fresh: true,
            defined: IndexMap::new(alloc),
            names: IndexSet::new(alloc),
            tokens: TokenList::new(alloc),
        }
    }

    /// Whether the piece can stand here: a directive is the first on its line, and defines a name for the
    /// first time.
    pub fn may_stand(&self, piece: Piece<'a>) -> bool
        ensures { result ≡ tokens.may_stand (cutting self.now) (views.piece piece.entry) }
    {
        match piece {
            Piece::Include => self.fresh,
            Piece::Define { name, .. } => self.fresh && !self.defined.contains_key(&name),
            _ => true,
        }
    }

    fn push(&mut self, kind: TokenKind) -> Result<(), Memory>
        ensures { OnOk result (cutting self.new ≡ added (cutting self.old) (kind ∷ [])) }
    {
        self.tokens.push(Token {
            kind,
            line: self.line,
            place: self.place,
        })
    }

    fn push_mark(&mut self, mark: Punct) -> Result<(), Memory>
        ensures { OnOk result (cutting self.new ≡ added (cutting self.old) (kinds.Punct mark ∷ [])) }
    {
        self.push(TokenKind::Punct { mark })
    }

    fn push_constant(&mut self, c: Constant) -> Result<(), Memory>
        ensures { OnOk result (cutting self.new ≡ added (cutting self.old) (constant_kind (views.constant c) ∷ [])) }
    {
        self.push(TokenKind::Constant {
            value: c.value,
            form: c.form,
        })
    }

    fn push_body(&mut self, b: Body) -> Result<(), Memory>
        ensures { OnOk result (cutting self.new ≡ added (cutting self.old) (body_kinds (Some (views.body b)))) }
    {
        if b.wrapped {
            self.push_mark(Punct::OpenParen)?;
        }
        if b.negated {
            self.push_mark(Punct::Minus)?;
        }
        self.push_constant(b.constant)?;
        if b.wrapped {
            self.push_mark(Punct::CloseParen)?;
        }
        Ok(())
    }

    /// The tokens of a defined name.
    fn push_defined(&mut self, b: Option<Body>) -> Result<(), Memory>
        ensures { OnOk result (cutting self.new ≡ added (cutting self.old) (body_kinds (option_map views.body b))) }
    {
        match b {
            Some(b) => self.push_body(b),
            None => Ok(()),
        }
    }

    fn push_name(&mut self, name: &'a str) -> Result<(), Memory>
        requires { length (cutting self.old).names < file_limit }
        ensures { OnOk result (cutting self.new ≡ named (cutting self.old) name.now) }
    {
        let (index, _) = self.names.insert_full(name)?;
        self.push(TokenKind::Name {
            number: index as u32,
        })
    }

    /// The tokens of a name that is no keyword.
    fn push_other(&mut self, letters: &'a str) -> Result<(), Memory>
        requires room { length (cutting self.old).names < file_limit }
        requires plain { pieces.keyword_of letters.now ≡ None }
        ensures { OnOk result (cutting self.new ≡ worded (cutting self.old) letters.now) }
    {
        match self.defined.get(&letters).copied() {
            Some(body) => self.push_defined(body),
            None => self.push_name(letters),
        }
    }

    fn push_keyword(&mut self, word: Keyword) -> Result<(), Memory>
        ensures { OnOk result (cutting self.new ≡ added (cutting self.old) (tokens.where_true (not (tokens.is_passed_over word)) (kinds.Keyword word))) }
    {
        if is_passed_over(word) {
            return Ok(());
        }
        self.push(TokenKind::Keyword { word })
    }

    fn push_word(&mut self, letters: &'a str) -> Result<(), Memory>
        requires { length (cutting self.old).names < file_limit }
        ensures { OnOk result (cutting self.new ≡ worded (cutting self.old) letters.now) }
    {
        match keyword_of(letters) {
            Some(word) => self.push_keyword(word),
            None => self.push_other(letters),
        }
    }

    fn define(&mut self, name: &'a str, b: Option<Body>) -> Result<(), Memory>
        requires { tokens.may_stand (cutting self.old) (pieces.define name.now (option_map views.body b)) ≡ true }
        ensures { OnOk result (cutting self.new ≡ pieced (cutting self.old) (pieces.define name.now (option_map views.body b))) }
    {
        self.defined.insert(name, b)?;
        Ok(())
    }

    fn push_piece(&mut self, piece: Piece<'a>) -> Result<(), Memory>
        requires room { length (cutting self.old).names < file_limit }
        requires stands { tokens.may_stand (cutting self.old) (views.piece piece) ≡ true }
        ensures { OnOk result (cutting self.new ≡ pieced (cutting self.old) (views.piece piece.entry)) }
    {
        match piece {
            Piece::White { .. } | Piece::BlockComment | Piece::LineComment | Piece::Include => Ok(
                (),
            ),
            Piece::Define { name, body } => self.define(name, body),
            Piece::Word { letters } => self.push_word(letters),
            Piece::Integer { constant } => self.push_constant(constant),
            Piece::Character { constant } => self.push_constant(constant),
            Piece::Text => self.push(TokenKind::Text),
            Piece::Mark { punct } => self.push_mark(punct),
        }
    }

    /// Goes behind a piece of these bytes.
    pub fn take(&mut self, piece: Piece<'a>, bytes: &[u8]) -> Result<(), Memory>
        requires within { IsWithin (cutting self.old) }
        requires some { 0 < length bytes.now }
        requires room { self.old.place + length bytes.now ≤ file_limit }
        requires stands { tokens.may_stand (cutting self.old) (views.piece piece) ≡ true }
        ensures { OnOk result (cutting self.new ≡ behind_piece (cutting self.old) (views.piece piece.entry) bytes.now) }
    {
        let line = self.line + newlines(bytes) as u32;
        let place = self.place + bytes.len() as u32;
        let fresh = fresh_behind(self.fresh, piece);
        self.push_piece(piece)?;
        self.line = line;
        self.place = place;
        self.fresh = fresh;
        Ok(())
    }

    /// The tokens, at the end of the file.
    pub fn finish(self, alloc: Global) -> Result<Tokens, Memory>
        ensures list { IfOk result (λ found. found.list ≡ (cutting self.entry).tokens) }
        ensures names { IfOk result (λ found. found.names ≡ (cutting self.entry).names) }
        ensures end_line { IfOk result (λ found. found.end_line ≡ (cutting self.entry).line) }
    {
        let names = names_of(alloc, self.names.as_slice())?;
        Ok(Tokens {
            list: self.tokens,
            names,
            end_line: self.line,
        })
    }
}
