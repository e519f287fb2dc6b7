//! Tests of `layout`, `reshape_geometry`, `reshape_plan`, `parity` and `raid_parity_simd`: places, reshapes, plans and rows of parity, against tables from elsewhere or by
//! hand, and each call of the lanes, over one row and over many, beside that of `parity`.
#![tactic(auto)]

#[cfg(test)]
mod known;
#[cfg(test)]
mod lanes;
#[cfg(test)]
mod layouts;
#[cfg(test)]
mod plans;
#[cfg(test)]
mod reshapes;
#[cfg(test)]
mod runs;
