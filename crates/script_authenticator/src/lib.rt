// The commands of the box (the authenticator): the name in a Response, the record, the limit, the
// change and the list that are passed, an opening, a step, and the schedules of the record handed
// out.
#![tactic(auto)]

mod conversations;
mod lists;
mod names;
mod records;

pub use conversations::ScriptState;
pub use lists::List;
