//! Declarations, statements and parameters read from tokens, exactly: each reader of tokens, and that no two trees
//! spell the same tokens.
#![tactic(auto)]

mod declaration;
mod params;
mod statement;
mod types;

ghost use Rattle.std.specs.Prelude.{◌≡◌, ℕ, List};
ghost use Rattle.lz_tree.specs.declared.token.Token.{Token};
ghost use Rattle.lz_tree.specs.Trees.{Declaration, Statement};
ghost use Rattle.lz_tree.specs.WellFormed.{InDeclaration, InStatement};

pub use declaration::{read_declaration, read_declarator_from, read_more_declarators};
pub use params::read_params;
pub use statement::{read_block, read_statement};
pub use types::{begins_type, read_type};

/// No two statements of at most some height spell the same tokens (C99 6.8): an `else` belongs to one `if` alone.
pub fn one_statement()
    ensures { (h : ℕ) (s t : Statement) (ts : List Token) → InStatement h s ts → InStatement h t ts → s ≡ t }
{}

/// No two declarations of at most some height spell the same tokens (C99 6.7).
pub fn one_declaration()
    ensures { (h : ℕ) (d e : Declaration) (ts : List Token) → InDeclaration h d ts → InDeclaration h e ts → d ≡ e }
{}
