//! Tests of public calls that no play reaches. What a play can show is data of `trials`, and costs no proof.
#![tactic(auto)]

#[cfg(test)]
mod differences;
#[cfg(test)]
mod expressions;
#[cfg(test)]
mod fixtures;
#[cfg(test)]
mod flags;
#[cfg(test)]
mod histories;
#[cfg(test)]
mod moving;
#[cfg(test)]
mod operators;
#[cfg(test)]
mod outside;
#[cfg(test)]
mod polls;
#[cfg(test)]
mod ports;
#[cfg(test)]
mod scripts;
