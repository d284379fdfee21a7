// The limits before 8,192 directive rows and 67,108,864 bytes, which a host keeps that has not been updated, and what it answers beside this library. Definitions
// and theorems only.
#![tactic(auto)]
