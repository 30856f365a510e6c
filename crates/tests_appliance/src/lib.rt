//! Tests of appliances and of work on leases, which are answered by hand, ask by ask.
#![tactic(auto)]

#[cfg(test)]
mod asks;
#[cfg(test)]
mod boot;
#[cfg(test)]
mod content;
#[cfg(test)]
mod damage;
#[cfg(test)]
mod leases;
#[cfg(test)]
mod machine;
#[cfg(test)]
mod trouble;
