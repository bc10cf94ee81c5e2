// This crate is definitions and laws. There is no code here.

#![tactic(auto)]
