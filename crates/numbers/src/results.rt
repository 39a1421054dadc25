// What a step and a reply say, as C gets it.
ghost use Rattle.std.specs.Prelude.{◌≡◌};
ghost use Rattle.refusals.specs.Refusal.{told};
ghost use Rattle.authenticator.specs.Step.{reason_in, is_repeated, kind_of, taken_as};
ghost use Rattle.numbers.specs.Results.{result_of, no_record_refusal, call_number, call_in};
ghost use Rattle.numbers.specs.Results.{failure_reason};

use accounts::EntryLookup;
use authenticator::{Drawn, EntryStep};
use layouts::StepResult;
use message::{Call, Verdict};
use refusals::Refusal;

// ---- a step

fn reason_of(drawn: Drawn) -> u16
    ensures { result ≡ reason_in (kind_of drawn) }
{
    match drawn {
        Drawn::Repeated(e) | Drawn::Judged(e) => e,
    }
}

fn is_repeated(drawn: Drawn) -> bool
    ensures { result ≡ is_repeated (kind_of drawn) }
{
    match drawn {
        Drawn::Repeated(_) => true,
        Drawn::Judged(_) => false,
    }
}

// What C keeps of a step, but for the round keys of its record.
pub fn result_of(step: EntryStep) -> StepResult
    ensures { result ≡ result_of (taken_as step) }
{
    StepResult {
        repeated: is_repeated(step.drawn),
        reason: reason_of(step.drawn),
        fault: step.fault,
        updated: step.updated,
    }
}

// Whether there is a record to be stored. Refusal 102: there is none.
pub fn has_record(lookup: EntryLookup) -> Result<(), Refusal>
    ensures { told result ≡ no_record_refusal lookup }
{
    if lookup.found {
        return Ok(());
    }
    Err(Refusal::Record)
}

// ---- a reply

fn call_number(call: Call) -> u32
    ensures { result ≡ call_number call }
{
    match call {
        Call::Retry => 1,
        Call::ChangeTwo => 2,
        Call::ChangeOne => 3,
        Call::End => 4,
    }
}

pub fn call_in(verdict: Verdict) -> u32
    ensures { result ≡ call_in verdict }
{
    match verdict {
        Verdict::Success => 0,
        Verdict::Failure(failed) => call_number(failed.call),
    }
}

pub fn failure_reason(verdict: Verdict) -> u64
    ensures { result ≡ failure_reason verdict }
{
    match verdict {
        Verdict::Success => 0,
        Verdict::Failure(failed) => failed.e,
    }
}
