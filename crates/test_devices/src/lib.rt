//! Tests of what stands by a device: `bank` and `bank_file`, `backup`, `sb_codec` and `script_io`, against tables by hand and what mdadm wrote.
#![tactic(auto)]

#[cfg(test)]
mod adapters;
#[cfg(test)]
mod backups;
#[cfg(test)]
mod devices;
#[cfg(test)]
mod files;
#[cfg(test)]
mod marks;
#[cfg(test)]
mod memory;
#[cfg(test)]
mod superblocks;
