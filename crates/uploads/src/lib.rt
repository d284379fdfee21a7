// An upload: revision, arch and page size, then rows one by one; and what a desk answers while it comes. These are definitions and laws alone, in specs/ and
// proofs/; the desk's code stands in the crates above.
#![tactic(auto)]
