//! Code that does the same in two forms: the rules by which a translation is compared with what it was made of.
#![tactic(auto)]
