//! Lanes and workers over one running array: the tests of `lanes`.
#![tactic(auto)]

#[cfg(test)]
mod blocks;
#[cfg(test)]
mod full;
#[cfg(test)]
mod joining;
#[cfg(test)]
mod samples;
#[cfg(test)]
mod shortage;
#[cfg(test)]
mod telling;
