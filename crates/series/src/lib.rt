// No code: theorems over the definitions of the other crates.
#![tactic(auto)]
