//! The tree of a thread as structured code: each construct of expressions and of bounded trees.
#![tactic(auto)]
