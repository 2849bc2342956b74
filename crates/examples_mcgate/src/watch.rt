//! Worked examples of what a running proxy tells, and is told: requests, answers, and numbers as texts.

#[cfg(test)]
mod control;
#[cfg(test)]
mod numbers;
#[cfg(test)]
mod requests;
#[cfg(test)]
mod times;
