#![tactic(auto)]

// What the owner is promised, as theorems about the rules: no function.
