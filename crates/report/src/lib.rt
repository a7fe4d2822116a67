// The lines of a report, as other programs read them.
//
// `explain` tells of each entry of a tape how it ends for the client, and of a server error its code, the
// retry method and the redirect; `entry_ranges` tells of one entry the ranges of the slot table that it
// gives. What they write is equal to the definitions in specs/, byte for byte, unless memory fails. Reading
// files and printing are left to the program.
#![tactic(auto)]

mod meaning;
mod ranges;
mod show;
#[cfg(test)]
mod tests;
mod words;

pub use meaning::explain;
pub use ranges::entry_ranges;
