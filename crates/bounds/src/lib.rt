// What a sound pool bounds: theorems over the definitions of `lookup`, `notices` and `commit`. There is no code here.

#![tactic(auto)]
