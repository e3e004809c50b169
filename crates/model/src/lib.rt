// Grounds and sheets as contracts speak of them. This crate has definitions and lemmas only.
#![tactic(auto)]
