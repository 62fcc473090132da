// An input, and what it is read by.
use crate::symbols::Readable;
use crate::words::{Letters, load};
use alphabet::{Bytes, Tokens};
use anyhow::anyhow;
use console::Failure;
use pattern::Pattern;
use std::fmt::Display;
use std::io;
use std::rt::Files;
use text::Manner;

// Where a command tells what it did: on standard output, or beside it where standard output has the rows.
#[derive(Clone, Copy)]
pub(crate) enum Voice {
    Output,
    Beside,
}

impl Voice {
    // The voice of a command whose rows go to the place of this name.
    fn beside(rows: &str) -> Voice {
        if rows == "-" {
            Voice::Beside
        } else {
            Voice::Output
        }
    }
}

// An input, the pattern, the alphabet and the manner that it is read by, and where is told what was done.
#[derive(Drop)]
pub(crate) struct List<'p, R, A> {
    pub(crate) rt: &'p R,
    pub(crate) pattern: &'p Pattern,
    pub(crate) alphabet: &'p A,
    pub(crate) manner: Manner,
    pub(crate) input: &'p str,
    pub(crate) voice: Voice,
}

impl<R: Print + Eprint, A> List<'_, R, A> {
    // Tells one line.
    pub(crate) fn tell<D: Display + Drop>(&self, line: D) -> io::Result<()> {
        match self.voice {
            Voice::Output => self.rt.println(line),
            Voice::Beside => self.rt.eprintln(line),
        }
    }
}

// What is done with an input.
#[derive(Clone, Copy)]
enum Task<'w> {
    Read { rows: &'w str, choices: &'w str },
    Replay { choices: &'w str, rows: &'w str },
    // The rows and the choices that were filed, if they are to be compared too.
    Check { filed: &'w [String] },
    Explain,
}

impl<'w> Task<'w> {
    // The task of the command of this name, given by the words behind its input.
    fn of(command: &str, words: &'w [String]) -> Option<Task<'w>> {
        match (command, words) {
            ("read", [rows, choices]) => Some(Task::Read {
                rows: rows.as_str(),
                choices: choices.as_str(),
            }),
            ("replay", [choices, rows]) => Some(Task::Replay {
                choices: choices.as_str(),
                rows: rows.as_str(),
            }),
            ("check", filed) => Some(Task::Check { filed }),
            ("explain", []) => Some(Task::Explain),
            _ => None,
        }
    }

    fn voice(self) -> Voice {
        match self {
            Task::Read { rows, .. } | Task::Replay { rows, .. } => Voice::beside(rows),
            Task::Check { .. } | Task::Explain => Voice::Output,
        }
    }

    // Performs the task on a list.
    fn perform<R: Files + Input + Print + Eprint + AllocGlobal, A: Readable>(
        self,
        list: &List<'_, R, A>,
    ) -> Result<(), Failure>
    where
        A::Symbol: Drop,
    {
        match self {
            Task::Read { rows, choices } => list.read(rows, choices),
            Task::Replay { choices, rows } => list.replay(choices, rows),
            Task::Check { filed } => list.check(filed),
            Task::Explain => list.explain(),
        }
    }
}

// How the command of this name is called.
pub(crate) fn usage(command: &str) -> anyhow::Error {
    let words = match command {
        "read" => "INPUT ROWS CHOICES",
        "replay" => "INPUT CHOICES ROWS",
        "check" => "INPUT [ROWS CHOICES]",
        _ => "INPUT",
    };
    anyhow!("usage: relay_lists {command} PATTERN bytes|tokens plain|numbered {words}")
}

// The commands over an input: a pattern file, an alphabet, a manner, the input (- is standard input), and words of the command's own.
pub(crate) fn run<R: Files + Input + Print + Eprint + AllocGlobal>(
    rt: &R,
    command: &str,
    words: &[String],
) -> Result<(), Failure> {
    let [name, letters, manner, input, rest @ ..] = words else {
        return Err(usage(command).into());
    };
    let Some(task) = Task::of(command, rest) else {
        return Err(usage(command).into());
    };
    let letters = letters.as_str().parse::<Letters>()?;
    let manner = manner.as_str().parse::<Manner>();
    let pattern = match (task, manner) {
        // Of a refused pattern and a wrong manner `explain` tells the first, the others the second.
        (Task::Explain, _) | (_, Ok(_)) => load(rt, name.as_str())?,
        (_, Err(error)) => return Err(error.into()),
    };
    let manner = manner?;
    let (pattern, input, voice) = (&pattern, input.as_str(), task.voice());
    match letters {
        Letters::Bytes => task.perform(&List {
            rt,
            pattern,
            alphabet: &Bytes,
            manner,
            input,
            voice,
        }),
        Letters::Tokens => task.perform(&List {
            rt,
            pattern,
            alphabet: &Tokens,
            manner,
            input,
            voice,
        }),
    }
}
