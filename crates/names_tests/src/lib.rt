// Stories about the name sets: the sorted table, the hash table, and the Bloom layer over each.
#![tactic(auto)]

#[cfg(test)]
mod agree;
#[cfg(test)]
mod layer;
#[cfg(test)]
mod tables;
