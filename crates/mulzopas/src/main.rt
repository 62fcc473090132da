// The reading kit's program.
//
//     mulzopas show FILE..     prints each pattern file's points, or why it is refused
//     mulzopas items PATTERN plain|numbered ITEM..
//                              hands the items to a pair of sinks, bits and text, and prints what each received
//     mulzopas replay PATTERN plain|numbered BITS INPUT ROWS
//                              reads the input again by its filed bits; writes the rows, - prints them
//     mulzopas read PATTERN plain|numbered INPUT ROWS BITS
//                              reads the input, - for standard input, as it arrives; writes rows and bits, - prints them
//     mulzopas batch FILE      runs each line of the file as a command
#![tactic(auto)]

mod again;
mod command;
mod delivering;
mod reading;

fn main(rt: HostRuntime) -> anyhow::Result<()> {
    console::run(&rt, &command::Program { rt: &rt })
}
