// Tests of trees at the edges of their ranges. The expected values were worked out by hand.
#![tactic(auto)]

#[cfg(test)]
mod tests;
