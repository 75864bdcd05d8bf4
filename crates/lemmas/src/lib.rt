//! Lemmas of lists, options, results and orders, which std lacks and several crates cite. There is no code.
#![tactic(auto)]
