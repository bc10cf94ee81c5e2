// That read, write and commit treat each object as an array of its own, keep a pool sound and lose no notice: theorems over definitions. There is no code here.

#![tactic(auto)]
