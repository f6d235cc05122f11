//! A publisher and a subscriber, run: what the laws of devices say of all their calls, seen of a few.
#![tactic(auto)]

#[cfg(test)]
mod losing;
#[cfg(test)]
mod small;
