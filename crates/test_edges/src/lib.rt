//! Folders, streams and links, in memory and of the system: each call once.
#![tactic(auto)]

#[cfg(test)]
mod mem_edge_calls;
#[cfg(test)]
mod steps;
#[cfg(test)]
mod streams;
#[cfg(test)]
mod udp_edge_calls;
