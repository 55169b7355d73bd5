//! Sums as constraints with costs: the definitions, over the bytes of a file, and their laws. No code is needed for them.
#![tactic(auto)]
