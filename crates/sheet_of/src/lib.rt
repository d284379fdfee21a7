// The sheet made of rows: a head, and for each row a kind and a body. Definitions and laws only: the sheet gives back what went in, it is readable exactly where head and rows
// are in order, its verdict is one of head and rows, and a readable sheet is made of its own rows.
#![tactic(auto)]
