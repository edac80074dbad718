// Stories of three computations, run through the code that serves every one.
#![tactic(auto)]

#[cfg(test)]
mod tests;
