//! How a running proxy is told things: what a line on its control socket asks for, the bytes that answer it, and those who ask.

pub mod answers;
pub mod callers;
pub mod exchange;
pub mod paths;
pub mod requests;
