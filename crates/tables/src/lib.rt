#![tactic(auto)]

// What a message's table is, in words over its own numbers and the message's octets, as theorems about the rules: no function.
