// Demand 3: two sheets with the same head and headers, each list in an order of its own, get the same answers. Definitions and theorems only.
#![tactic(auto)]
