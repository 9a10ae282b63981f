// The rows of a tree: which keys they have, what they hold, and how they come to be complete. Definitions and laws only.
#![tactic(auto)]
