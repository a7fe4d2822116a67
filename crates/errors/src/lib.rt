// What an answer means for the client: its ending, and of a server error the kind, code and detail; each
// refusal's number and kind; the retry method of an error; the address that a redirect names.
//
// Each is proved equal to its definition in specs/. Names and rules are those of the Rust crate's
// errors/server_error.rs and errors/redis_error.rs. What is done about an error is left to others.
#![tactic(auto)]

mod ending;
mod names;
mod redirects;
mod redis_error;
mod server_error;
#[cfg(test)]
mod tests;
mod words;

pub use ending::{Answer, DEPTH, Ending};
pub use redirects::{Redirect, Target, redirect_examples, redirect_node};
pub use redis_error::{ErrorKind, NetworkFault, Refusal, RetryMethod};
pub use server_error::{ServerError, ServerErrorKind};
