//! Worked examples of requests: values and their copies, words and numbers of lines, and requests of both dialects with their
//! refusals. They stand above the crates that they show, so that a change of an example proves the example alone.
#![tactic(auto)]

#[cfg(test)]
mod codec;
#[cfg(test)]
mod escapes;
#[cfg(test)]
mod parts;
#[cfg(test)]
mod reads;
#[cfg(test)]
mod requests_classic;
#[cfg(test)]
mod requests_meta;
#[cfg(test)]
mod requests_mixed;
#[cfg(test)]
mod texts;
#[cfg(test)]
mod values;
