//! Tests that cross crates: the program's one call over objects in memory, against packets, logs and reports whose
//! bytes were worked out by hand; and packets that are cut, put together again.
//!
//! A test of the program is a table of cases and one call of the driver, which makes the only call of the program.
#![tactic(auto)]

#[cfg(test)]
mod case;
#[cfg(test)]
mod configs;
#[cfg(test)]
mod connections;
#[cfg(test)]
mod cut_packets;
#[cfg(test)]
mod cuts;
#[cfg(test)]
mod driver;
#[cfg(test)]
mod echoes;
#[cfg(test)]
mod errors;
#[cfg(test)]
mod expiry;
#[cfg(test)]
mod faults;
#[cfg(test)]
mod first_path;
#[cfg(test)]
mod fragments;
#[cfg(test)]
mod grants;
#[cfg(test)]
mod hairpins;
#[cfg(test)]
mod identifications;
#[cfg(test)]
mod inputs;
#[cfg(test)]
mod logs;
#[cfg(test)]
mod made_errors;
#[cfg(test)]
mod making;
#[cfg(test)]
mod many_leases;
#[cfg(test)]
mod octets;
#[cfg(test)]
mod packets;
#[cfg(test)]
mod piece_limits;
#[cfg(test)]
mod piece_orders;
#[cfg(test)]
mod piece_times;
#[cfg(test)]
mod pieces;
#[cfg(test)]
mod prefixes;
#[cfg(test)]
mod public_pieces;
#[cfg(test)]
mod queries;
#[cfg(test)]
mod quotas;
#[cfg(test)]
mod refusals;
#[cfg(test)]
mod replies;
#[cfg(test)]
mod restarts;
#[cfg(test)]
mod segments;
#[cfg(test)]
mod states;
#[cfg(test)]
mod stops;
#[cfg(test)]
mod words;
