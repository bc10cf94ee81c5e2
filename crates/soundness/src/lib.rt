// That the test of a lent pool means what document 01 says: theorems over the definitions of `sound`. There is no code here.

#![tactic(auto)]
