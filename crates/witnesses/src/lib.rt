// Small calls that the checker computes, so that no promise is about nothing. No code.
#![tactic(auto)]
