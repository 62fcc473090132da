// What a command writes: rows and choices.
use crate::words::about;
use console::Poured;
use either::{Either, Left, Right};
use sink::Sink;
use std::alloc::{AllocError, Global};
use std::io::{Printer, Write};
use std::rt::Files;
use std::{fs, io};

// A file or standard output.
pub(crate) type Writer<'p, R> = Either<<R as Files>::File, Printer<'p, R>>;

// Where bytes go: to a writer, into memory, or nowhere.
#[derive(Drop)]
pub(crate) enum Place<W> {
    Writer(W),
    Memory,
    Nowhere,
}

impl<'p, R: Files + Print> Place<Writer<'p, R>> {
    // The file of this name, which is made anew; - is standard output.
    pub(crate) fn open(rt: &'p R, name: &str) -> anyhow::Result<Place<Writer<'p, R>>> {
        if name == "-" {
            return Ok(Place::Writer(Right(io::writer(rt))));
        }
        let file = fs::create(rt, name).map_err(|error| about(name, error))?;
        Ok(Place::Writer(Left(file)))
    }
}

// How many bytes went to a place.
#[derive(Drop)]
struct Outlet<W> {
    place: Place<W>,
    written: u64,
}

impl<W: Write + Drop> Outlet<W> {
    fn new(place: Place<W>) -> Outlet<W> {
        Outlet { place, written: 0 }
    }

    // Writes the bytes that wait; in memory they stay.
    fn flush(&mut self, waiting: &mut Vec<u8>) -> io::Result<()> {
        match &mut self.place {
            Place::Writer(writer) => writer.write_all(waiting.as_slice())?,
            Place::Memory => return Ok(()),
            Place::Nowhere => {}
        }
        self.written = self.written.saturating_add(waiting.len() as u64);
        waiting.clear();
        Ok(())
    }
}

// Rows and choices on their way.
#[derive(Drop)]
pub(crate) struct Outlets<W> {
    rows: Outlet<W>,
    choices: Outlet<W>,
    waiting: Poured,
}

impl<W: Write + Drop> Outlets<W> {
    pub(crate) fn new(
        heap: Global,
        rows: Place<W>,
        choices: Place<W>,
    ) -> Result<Outlets<W>, AllocError> {
        Ok(Outlets {
            rows: Outlet::new(rows),
            choices: Outlet::new(choices),
            waiting: Poured::new(heap)?,
        })
    }

    // Pours both channels of a pair of bits and text; how many bytes came.
    pub(crate) fn pour<S: Sink>(&mut self, sink: &mut S) -> anyhow::Result<usize> {
        self.waiting.pour(sink)
    }

    // Writes what waits.
    pub(crate) fn flush(&mut self) -> io::Result<()> {
        self.rows.flush(&mut self.waiting.text)?;
        self.choices.flush(&mut self.waiting.bits)
    }

    // The rows that wait, or are kept in memory.
    pub(crate) fn rows(&self) -> &[u8] {
        self.waiting.text.as_slice()
    }

    // The choices that wait, or are kept in memory.
    pub(crate) fn choices(&self) -> &[u8] {
        self.waiting.bits.as_slice()
    }

    // How many bytes of rows came.
    pub(crate) fn row_count(&self) -> u64 {
        self.rows
            .written
            .saturating_add(self.waiting.text.len() as u64)
    }

    // How many bytes of choices came.
    pub(crate) fn choice_count(&self) -> u64 {
        self.choices
            .written
            .saturating_add(self.waiting.bits.len() as u64)
    }
}
