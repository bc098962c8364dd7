// Exact fractions: definitions and laws alone, no code.
#![tactic(auto)]
