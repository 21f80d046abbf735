//! Structured code between trees and flat code: what it does, and that laid out one item a place it does the same.
#![tactic(auto)]
