#![tactic(auto)]

// When each verdict is given, over the numbers of the message's table, as theorems about the rules: no function.
