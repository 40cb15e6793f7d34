//! Examples of the libraries: the public calls that no command makes, the streams that fail and those of std, and the kinds
//! of operations beside the classical table. The crate has tests alone.
#![tactic(auto)]

#[cfg(test)]
mod averages;
#[cfg(test)]
mod bases;
#[cfg(test)]
mod failing_streams;
#[cfg(test)]
mod groups;
#[cfg(test)]
mod kinds;
#[cfg(test)]
mod library_calls;
#[cfg(test)]
mod odd_inputs;
#[cfg(test)]
mod std_streams;
