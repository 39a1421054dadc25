// The numbers by which C passes and gets what are enums, flags and values here. Every public
// function is total.
#![tactic(auto)]

mod flags;
mod results;
mod terms;

pub use flags::{are_record_arguments, flags_of, record_from};
pub use results::{call_in, failure_reason, has_record, result_of};
pub use terms::{change_in, is_terms, limit_in, lm_in, retries_in};
