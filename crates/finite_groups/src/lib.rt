//! Laws of finite groups: words, closed lists, cosets, actions, averages, conjugates, keys and covers, for any
//! elements. Standard algebra, nothing of crystals. It has no code: other crates cite its specs and proofs.
#![tactic(auto)]
