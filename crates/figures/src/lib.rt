// Document 01's figures, proved about the definitions: no code.

#![tactic(auto)]
