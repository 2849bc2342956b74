//! The pages that a running proxy answers over HTTP: what a request asks for, the bytes that answer it, and the clients that ask.

pub mod answers;
pub mod exchange;
pub mod home;
pub mod request;
pub mod visitors;
