//! Languages over tokens of any type: which tokens spell which syntax trees, and the readers that agree with them.
#![tactic(auto)]
