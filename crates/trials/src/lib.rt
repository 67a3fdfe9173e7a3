// Sessions run as tests: tables of calls, each with the answer that is expected.
#![tactic(auto)]

#[cfg(test)]
mod kinds_of_value;
#[cfg(test)]
mod limits;
#[cfg(test)]
mod listed;
#[cfg(test)]
mod marked;
#[cfg(test)]
mod order;
#[cfg(test)]
mod trial;
