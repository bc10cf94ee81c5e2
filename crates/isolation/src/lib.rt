// That each object is a private array: theorems over the definitions of `lookup` and `sound`. There is no code here.

#![tactic(auto)]
