// Texts that are read and written, in a crate of their own so that the text crate is not proved again for them.
#![tactic(auto)]

#[cfg(test)]
mod faults;
#[cfg(test)]
mod full;
#[cfg(test)]
mod reading;
#[cfg(test)]
mod shelf;
#[cfg(test)]
mod showing;
#[cfg(test)]
mod writing;
