// A box (the authenticator) and a peer talk to each other in one program: what passes between them
// is printed, each packet as a line and a sentence that says what it means.
#![tactic(auto)]

mod ends;
mod lines;

pub use ends::{
    IssuedList, Loopback, Password, account, another_challenge, challenge, old_hash, or_invalid,
    settings, settings_for_one, usual_settings,
};
pub use lines::{Shown, lm_of, next_challenge, place};
