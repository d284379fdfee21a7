// Document 01's thirteen claims of image B as a table, and beside it what reading finds after a change, what is said of bases and the strict verdict: one theorem. Definitions and theorems only.
#![tactic(auto)]
