// What read, write and commit share: rules and laws. There is no code here.

#![tactic(auto)]
