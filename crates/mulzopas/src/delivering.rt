// Where bits and rows go.
use console::{Digits, Quoted};
use std::rt::Files;
use std::{fs, io};

// Prints bits as hexadecimal digits.
pub(crate) fn print_bits(rt: &impl Print, bits: &[u8]) -> io::Result<()> {
    println!(rt; "bits:{}", Digits(bits))
}

// Writes bits to the file of this name; - prints them.
pub(crate) fn deliver_bits<R: Files + Print>(rt: &R, name: &str, bits: &[u8]) -> io::Result<()> {
    if name == "-" {
        return print_bits(rt, bits);
    }
    fs::write(rt, name, bits)
}

// Writes rows to the file of this name; - prints them in quotes.
pub(crate) fn deliver_rows<R: Files + Print>(rt: &R, name: &str, rows: &[u8]) -> io::Result<()> {
    if name == "-" {
        return println!(rt; "text: {}", Quoted(rows));
    }
    fs::write(rt, name, rows)
}
