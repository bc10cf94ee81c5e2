// That start, new, create_child and the calls on mappings keep pools sound and arrays private: theorems over their rules. There is no code here.

#![tactic(auto)]
