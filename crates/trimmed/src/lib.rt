// Request 14: an accepted sheet with initialization rows and directive rows dropped is accepted, and answers as before without the dropped regions. Definitions and theorems only.
#![tactic(auto)]
