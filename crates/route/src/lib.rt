// Legal paths, least costs and the wire: definitions, and the theory of the search. This crate has no functions; its
// theorems stand on the contracts of the calls that search.
#![tactic(auto)]
