// The answers of a list of calls.
ghost use Rattle.std.specs.Prelude.{◌≡◌, length, IfOk};

use alphabet::Alphabet;
use fault::Fault;
use pattern::Pattern;
use run::{Answer, Call, Finished, perform};
use sink::{STOCK_BYTES, Sink};
use std::alloc::{AllocError, Global};
use std::io;

// The most calls of a line whose answers are printed.
pub const SHOWN_CALLS: usize = 16;

// Room for the answers of so many calls.
pub fn log_for(heap: Global, calls: usize) -> Result<Vec<Answer>, AllocError>
    ensures { IfOk result (λ log. length log.items ≡ calls) }
{
    vec![in heap; Answer::Fed(Ok(0)); calls]
}

fn print_answer(rt: &impl Print, answer: Answer) -> io::Result<()> {
    match answer {
        Answer::Fed(Ok(items)) => println!(rt; "  fed: {items} items"),
        Answer::Poured(Ok(bytes)) => println!(rt; "  poured: {bytes} bytes"),
        Answer::Fed(Err(fault)) | Answer::Poured(Err(fault)) => println!(rt; "  {fault}"),
    }
}

// Prints the answers of an opening, of the calls and of the finish, if there was one.
pub fn print_answers(
    rt: &impl Print,
    opened: u64,
    answers: &[Answer],
    finished: Option<Result<Finished, Fault>>,
) -> io::Result<()> {
    println!(rt; "  opened: {opened} items")?;
    for answer in answers {
        print_answer(rt, *answer)?;
    }
    match finished {
        Some(Ok(all)) => {
            let (items, symbols) = (all.items, all.symbols);
            println!(rt; "  finished: {items} items, {symbols} symbols")
        }
        Some(Err(fault)) => println!(rt; "  {fault}"),
        None => Ok(()),
    }
}

// Performs the calls into a sink, with the finish if asked, and prints the answers.
pub fn print_run<R: Print + AllocGlobal, A: Alphabet, K: Sink>(
    rt: &R,
    pattern: &Pattern,
    alphabet: &A,
    sink: &mut K,
    calls: &[Call<'_, A::Symbol>],
    finish: bool,
) -> io::Result<()> {
    let heap = rt.alloc();
    let mut log = log_for(heap, calls.len().min(SHOWN_CALLS))?;
    let mut buffer = vec![in heap; 0; STOCK_BYTES]?;
    let (opened, finished) = perform(
        pattern,
        alphabet,
        sink,
        calls,
        &mut log,
        &mut buffer,
        finish,
    );
    print_answers(rt, opened, &log, finished)
}
