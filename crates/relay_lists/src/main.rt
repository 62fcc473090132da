// The reading kit's program.
//
//     relay_lists read PATTERN bytes|tokens plain|numbered INPUT ROWS CHOICES
//                              reads the input as it arrives; writes the rows and the choices
//     relay_lists replay PATTERN bytes|tokens plain|numbered INPUT CHOICES ROWS
//                              reads the input again by its filed choices, and writes the rows
//     relay_lists check PATTERN bytes|tokens plain|numbered INPUT [ROWS CHOICES]
//                              reads the input, replays the choices and compares the rows, and those that were filed
//     relay_lists explain PATTERN bytes|tokens plain|numbered INPUT
//                              prints each choice of the reading, where it was taken, and what was written
//     relay_lists show FILE..     prints each pattern file's points, or why it is refused
//     relay_lists items PATTERN plain|numbered ITEM..
//                              hands the items to a pair of sinks, bits and text, and prints what each received
//     relay_lists batch FILE      runs each line of the file as a command
//
// An input - is standard input, rows - are standard output; what was done is then told on standard error.
#![tactic(auto)]

mod again;
mod check;
mod command;
mod explain;
mod list;
mod out;
mod reading;
mod source;
mod stop;
mod symbols;
mod words;

fn main(rt: HostRuntime) -> anyhow::Result<()> {
    console::run(&rt, &command::Program { rt: &rt })
}
