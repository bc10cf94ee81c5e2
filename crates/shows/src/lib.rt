// That peek shows the bytes that a read of the page would give, and the object's array: theorems over definitions. There is no code here.

#![tactic(auto)]
