// Document 01's worked cases, computed over the definitions at a small page length. There is no code here.

#![tactic(auto)]
