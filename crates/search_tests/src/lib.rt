// The search on worked examples, in a crate of their own so that the search is not proved again for them.
#![tactic(auto)]

#[cfg(test)]
mod asking;
#[cfg(test)]
mod edges;
#[cfg(test)]
mod filled_book;
#[cfg(test)]
mod refusing;
#[cfg(test)]
mod showing;
#[cfg(test)]
mod travelling;
