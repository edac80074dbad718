// Examples of rows, heaps, timers and the panel, worked out by hand or drawn at random.
#![tactic(auto)]

#[cfg(test)]
mod heaps;
#[cfg(test)]
mod random;
#[cfg(test)]
mod rows_and_bytes;
