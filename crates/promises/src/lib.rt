// What was asked of the library, and the theorems that it holds: a page for each demand (specs/), with no code.

#![tactic(auto)]
