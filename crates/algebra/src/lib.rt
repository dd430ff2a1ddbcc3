// The mathematics of products of codes: definitions and lemmas, and no code.
#![tactic(auto)]
