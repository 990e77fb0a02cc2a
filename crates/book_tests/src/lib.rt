// The book's calls on worked examples, in a crate of their own so that the book is not proved again for them.
#![tactic(auto)]

#[cfg(test)]
mod filling;
#[cfg(test)]
mod lending;
#[cfg(test)]
mod refusing;
#[cfg(test)]
mod rows;
#[cfg(test)]
mod showing;
#[cfg(test)]
mod withdrawing;
