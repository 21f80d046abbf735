//! Lazy sequentialization (Lazy-CSeq): so many rounds of resumable threads as one straight program. In each
//! round each thread guesses how far it comes, and then goes on from its saved place, instruction by
//! instruction, while visible instructions stand below the guess.
#![tactic(auto)]

mod encode;
mod rounds;

pub use rounds::sequentialize;
