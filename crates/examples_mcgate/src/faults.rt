//! Worked examples of words with which nothing is wrong, of names that are near, and of addresses;
//! and the names that are told.

#[cfg(test)]
mod configurations;
#[cfg(test)]
mod words;
