// Definitions and laws over the indexes below a count, and over lists of rows. There is no code here: specs/ holds the definitions, proofs/ the laws.
#![tactic(auto)]
