//! The ends that no script is long enough to reach, and what a board does to the memory that it is lent, tried on small boards.
#![tactic(auto)]

#[cfg(test)]
mod asking;
#[cfg(test)]
mod ends;
#[cfg(test)]
mod marked;
#[cfg(test)]
mod memory;
