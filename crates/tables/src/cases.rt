// All cases of a table.
ghost use Rattle.std.specs.Prelude.{◌≡◌, ◌++◌, codes, decimal, string_bytes, IfOk};
ghost use Rattle.fault.specs.Causes.{number};

use anyhow::{Context, bail};
use fault::Fault;
use std::alloc::{AllocError, Global};

// A refusal, as tables write it: its number and its place.
pub fn fault_words(heap: Global, fault: Fault) -> Result<String, AllocError>
    ensures { IfOk result (λ s. string_bytes s ≡ decimal (number fault.cause) ++ (codes " " ++ decimal fault.place)) }
{
    let (number, place) = (fault.number(), fault.place);
    format!(in heap; "{number} {place}")
}

// What a trial does with a case. A trait, since a function that is passed a closure has to ask that it may be called.
pub trait Performs {
    // Performs the case of a line.
    fn perform(&mut self, line: &str) -> anyhow::Result<()>;
}

// Prints each line, and performs each case.
pub fn perform_cases<R: Input + Print + AllocGlobal, P: Performs>(
    rt: &R,
    trial: &mut P,
) -> anyhow::Result<()> {
    for line in rt.lines(rt.alloc()) {
        let line = line?;
        println!(rt; "{line}")?;
        if !line.as_str().starts_with("#") {
            trial.perform(line.as_str())?;
        }
    }
    Ok(())
}

// What the cases of a trial come to.
pub trait Outcomes {
    // Whether a line is a remark, which is passed over.
    fn is_remark(&self, line: &str) -> bool {
        line.starts_with("#")
    }

    // The outcome of a case, given by its words, as the table writes it.
    fn outcome(&mut self, words: &str) -> anyhow::Result<String>;
}

// Compares each case, EXPECTED=WORDS, with the outcome of its words; prints those that differ, and how many did not.
pub fn compare_cases<R: Input + Print + AllocGlobal, O: Outcomes>(
    rt: &R,
    cases: &str,
    trial: &mut O,
) -> anyhow::Result<()> {
    let mut good: u64 = 0;
    let mut all: u64 = 0;
    for line in rt.lines(rt.alloc()) {
        let line = line?;
        if trial.is_remark(line.as_str()) {
            continue;
        }
        all = all.saturating_add(1);
        let (expected, words) = line.as_str().split_once("=").context("a line without =")?;
        let found = trial.outcome(words)?;
        if found.as_str() == expected.trim() {
            good = good.saturating_add(1);
        } else {
            println!(rt; "DIFFERENT: {line}\n  found {found}")?;
        }
    }
    println!(rt; "{good} of {all} {cases} came out as expected")?;
    if good != all {
        bail!("some {cases} came out otherwise");
    }
    Ok(())
}
