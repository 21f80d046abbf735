//! Processes that do the same but for Loc and for the numbers of what their creates start: the one is violated if the other is.
#![tactic(auto)]
