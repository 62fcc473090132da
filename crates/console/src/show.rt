// Pattern files in readable form.
use crate::failure::{Failure, told};
use crate::loading::pattern_of;
use crate::quoting::Quoted;
use pattern::{Pattern, Point, limits};
use std::rt::Files;
use std::{fs, io};

// One point: its number, its kind, and where it leads.
fn print_point(rt: &impl Print, pattern: &Pattern, at: u8, point: Point) -> io::Result<()> {
    print!(rt; "  {at}: ")?;
    match point {
        Point::Read {
            keep: true,
            class,
            next,
        } => println!(rt; "read class {class} and keep it, then {next}"),
        Point::Read {
            keep: false,
            class,
            next,
        } => println!(rt; "read class {class} and drop it, then {next}"),
        Point::Text { next, .. } => println!(rt; "text {}, then {next}", Quoted(pattern.text(at))),
        Point::Choice { first, second } => println!(rt; "choice: first {first}, second {second}"),
        Point::Star { first, second } => println!(rt; "star: round {first}, on {second}"),
    }
}

// A pattern: its points from the first to the end, and how much of each limit it uses.
fn print_pattern(rt: &impl Print, pattern: &Pattern, file_bytes: usize) -> io::Result<()> {
    let count = pattern.count();
    let entry = pattern.entry();
    println!(rt; "  entered at {entry}")?;
    for at in 0..count {
        if let Some(point) = pattern.point(at) {
            print_point(rt, pattern, at, point)?;
        }
    }
    println!(rt; "  {count}: end")?;
    let text = pattern.text_count();
    let (points, texts, files) = (limits::POINTS, limits::TEXT_BYTES, limits::FILE_BYTES);
    println!(rt;
        "  uses {count} of {points} points, {text} of {texts} text bytes, {file_bytes} of {files} file bytes"
    )
}

// Loads one file and prints what came of it.
fn show_file<R: Files + Print + AllocGlobal>(rt: &R, name: &str) -> Result<(), Failure> {
    let file = fs::read(rt, name)?;
    println!(rt; "{name}:")?;
    let pattern = told(rt, pattern_of(&file))?;
    Ok(print_pattern(rt, &pattern, file.len())?)
}

// Prints each file, and how many were shown and refused. A refused file is shown too: its refusal is what was asked for.
pub fn show_files<R: Files + Print + AllocGlobal>(rt: &R, names: &[String]) -> Result<(), Failure> {
    let mut shown: u64 = 0;
    let mut refused: u64 = 0;
    for name in names {
        match show_file(rt, name.as_str()) {
            Ok(()) => shown = shown.saturating_add(1),
            Err(Failure::Refused) => refused = refused.saturating_add(1),
            Err(error) => return Err(error),
        }
    }
    println!(rt; "{shown} shown, {refused} refused")?;
    Ok(())
}
