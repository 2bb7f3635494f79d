#![tactic(auto)]

//! A test of merges that go on after a call of the files that fails.

#[cfg(test)]
mod failing;
#[cfg(test)]
mod links;
#[cfg(test)]
mod runs;
#[cfg(test)]
mod spelled;
#[cfg(test)]
mod telling;
