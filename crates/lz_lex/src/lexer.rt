ghost use Rattle.std.specs.Prelude.{◌≡◌, ◌≤◌, ◌^◌, ℕ, length, IfOk, Err};
ghost use Rattle.lz_base.specs.Limits.{file_limit};
ghost use Rattle.lz_tree.specs.Tokens.{HasTokens, cut, stopped};
ghost use Rattle.lz_lex.specs.declared.error.LexError.TheVariants.{Bad};

use crate::cutting::Cutting;
use crate::error::LexError;
use crate::piece::scan;
use lz_tree::Tokens;
use std::alloc::Global;

fn bad(place: u32, line: u32) -> LexError
    ensures { result ≡ Bad place line }
{
    LexError::Bad { place, line }
}

/// The tokens of a file (C99 6.4): its bytes are cut into pieces, each the longest that can stand where it
/// begins, and defined names are replaced. Takes time and memory linear in the file.
pub fn lex(alloc: Global, bytes: &[u8]) -> Result<Tokens, LexError>
    requires { length bytes.now ≤ file_limit }
    // What is answered are the tokens of the bytes.
    ensures tokens { IfOk result (HasTokens bytes.now) }
    // The bytes have no cut exactly where this is answered; the place is where the longest cut ends.
    ensures bad { (place line : ℕ) → result ≡ Err (Bad place line) → cut bytes.now ≡ stopped place line }
{
    let mut at = Cutting::new(alloc);
    let mut rest = bytes;
    while !rest.is_empty() {
        let Some(front) = scan(rest) else {
            return Err(bad(at.place, at.line));
        };
        if !at.may_stand(front.piece) {
            return Err(bad(at.place, at.line));
        }
        let (piece, behind) = rest.split_at(front.size);
        at.take(front.piece, piece)?;
        rest = behind;
    }
    Ok(at.finish(alloc)?)
}
