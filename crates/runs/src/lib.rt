// That a run of calls treats each object as an array of its own, whatever the other objects do: theorems over definitions. There is no code here.

#![tactic(auto)]
