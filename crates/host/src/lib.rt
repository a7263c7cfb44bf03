// What the programs take of the system: their arguments, standard input, files by name, and what they print.
#![tactic(auto)]

ghost use Rattle.std.specs.Prelude.{◌≤◌, length, IfOk};

use std::cell::Cell;
use std::env::{Env, FillError};
use std::fmt::{Display, Write};
use std::io::{Eprint, ErrorKind, Print, Read};
use std::process::ExitCode;
use std::rt::Files;
use std::{fmt, fs, io};

// Why a text is not written whole: a write failed, or nobody reads standard output any more.
#[derive(Clone, Copy, Debug, PartialEq, Eq)]
pub enum Lost {
    Cut,
    Gone,
}

// The system, as a program sees it.
pub trait Host {
    type Reader: Read + Drop;

    type File: Read + Drop;

    // How many arguments there are, the program's own name among them.
    fn argument_count(&self) -> usize;

    // Argument i, put at the front of `word`: empty for one that is missing or longer than the word.
    fn argument<'a>(&self, i: usize, word: &'a mut [u8]) -> &'a [u8]
        ensures { length result.now ≤ length word.old };

    // Standard input.
    fn reader(&self) -> Self::Reader;

    // The file of that name, if it can be opened for reading. A name that is not UTF-8 opens none: std's names are text.
    fn open(&self, name: &[u8]) -> Option<Self::File>;

    // Writes a text on standard output. Once one is not written whole, no text is written any more, so that nothing follows the gap, and it
    // is said on standard error, once, unless nobody reads standard output any more.
    fn write(&self, text: &[u8]) -> Result<(), Lost>;

    // Writes what a value displays, in one write if that has no more than `LINE` bytes; `print!(host; "..")` calls it.
    final fn print<D: Display + Drop>(&self, value: D)
    where
        Self: Sized,
    {
        let mut output = Output::new(self);
        let _ = write!(output, "{value}");
        let _ = output.flush();
    }

    // The same of a value and a line feed; `println!(host; "..")` calls it.
    final fn println<D: Display + Drop>(&self, value: D)
    where
        Self: Sized,
    {
        let mut output = Output::new(self);
        let _ = write!(output, "{value}\n");
        let _ = output.flush();
    }
}

// A runtime, and why output is lost, if it is.
#[derive(Drop)]
pub struct System<R> {
    rt: R,
    lost: Cell<Option<Lost>>,
}

// Standard input, or nothing.
#[derive(Drop)]
pub struct Source<S> {
    from: Option<S>,
}

impl<S: Read> Read for Source<S> {
    fn read(&mut self, buf: &mut [u8]) -> io::Result<usize> {
        match &mut self.from {
            Some(from) => from.read(buf),
            None => Ok(0),
        }
    }
}

impl<R> System<R> {
    pub fn new(rt: R) -> System<R> {
        System {
            rt,
            lost: Cell::new(None),
        }
    }

    fn is_gone(&self) -> bool {
        self.lost.get() == Some(Lost::Gone)
    }

    // The exit status: 0, but 141 if the reader of standard output has gone, which is what a shell tells of a program that the system ends
    // for that.
    pub fn status(&self) -> ExitCode {
        if self.is_gone() {
            ExitCode::from(141)
        } else {
            ExitCode::SUCCESS
        }
    }
}

// Once the reader of standard output has gone, there is nothing more to read or to open either: the program has only to end.
impl<R: Env + Files + Input + Print + Eprint> Host for System<R> {
    type Reader = Source<R::Reader>;

    type File = R::File;

    fn argument_count(&self) -> usize {
        count_arguments(&self.rt)
    }

    fn argument<'a>(&self, i: usize, word: &'a mut [u8]) -> &'a [u8] {
        let n = self.rt.arg(i, word).unwrap_or(0);
        &word[..n]
    }

    fn reader(&self) -> Source<R::Reader> {
        if self.is_gone() {
            return Source { from: None };
        }
        Source {
            from: Some(self.rt.reader()),
        }
    }

    fn open(&self, name: &[u8]) -> Option<R::File> {
        if self.is_gone() {
            return None;
        }
        let path = str::from_utf8(name).ok()?;
        fs::open(&self.rt, path).ok()
    }

    fn write(&self, text: &[u8]) -> Result<(), Lost> {
        if text.is_empty() {
            return Ok(());
        }
        if let Some(lost) = self.lost.get() {
            return Err(lost);
        }
        let written = write_out(&self.rt, text);
        if let Err(lost) = written {
            self.lost.set(Some(lost));
            if lost == Lost::Cut {
                let _ = self.rt.eprint("error=cannot write\n");
            }
        }
        written
    }
}

// How many bytes of what is displayed are gathered before they are written.
const LINE: usize = 256;

// What is displayed, on its way to standard output: its pieces are gathered, so that a line is one write.
#[derive(Drop)]
struct Output<'a, H> {
    host: &'a H,
    text: [u8; LINE],
    length: usize,
    ghost few: { length ≤ 256 },
}

impl<H: Host> Output<'_, H> {
    fn new(host: &H) -> Output<'_, H> {
        Output {
            host,
            text: [0; LINE],
            length: 0,
        }
    }

    // Writes what is gathered.
    fn flush(&mut self) -> Result<(), Lost> {
        let written = self.host.write(&self.text[..self.length]);
        self.length = 0;
        written
    }

    // Gathers a piece. Where there is no room for it, what is gathered is written first; a piece that is longer still is written by itself.
    fn gather(&mut self, piece: &[u8]) -> Result<(), Lost> {
        if piece.len() > LINE - self.length {
            self.flush()?;
        }
        if piece.len() > LINE - self.length {
            return self.host.write(piece);
        }
        let end = self.length + piece.len();
        self.text[self.length..end].copy_from_slice(piece);
        self.length = end;
        Ok(())
    }
}

impl<H: Host> Write for Output<'_, H> {
    fn write_str(&mut self, text: &str) -> fmt::Result {
        self.gather(text.as_bytes()).map_err(|_| fmt::Error)
    }
}

fn is_missing(rt: &impl Env, i: usize) -> bool {
    let mut front = [0u8; 1];
    matches!(rt.arg(i, &mut front), Err(FillError::NotPresent))
}

// The place of the first argument that is missing.
fn count_arguments(rt: &impl Env) -> usize {
    for i in 0..usize::MAX {
        if is_missing(rt, i) {
            return i;
        }
    }
    usize::MAX
}

// Writes once, and answers how many bytes are taken: none by a write that fails while there is a reader.
fn write_some(rt: &impl Print, text: &[u8]) -> Result<usize, Lost>
    ensures { IfOk result (λ count. count ≤ length text.now) }
{
    match rt.write_some(text) {
        Ok(count) => Ok(count),
        Err(error) if error.kind() == ErrorKind::BrokenPipe => Err(Lost::Gone),
        Err(_) => Ok(0),
    }
}

// Writes until all of a text is written or a write takes nothing.
fn write_all(rt: &impl Print, text: &[u8]) -> Result<(), Lost> {
    let mut rest = text;
    while !rest.is_empty() {
        let count = write_some(rt, rest)?;
        if count == 0 {
            return Err(Lost::Cut);
        }
        rest = &rest[count..];
    }
    Ok(())
}

// Whether standard output is a regular file, where the system tells.
fn writes_to_file(rt: &impl Files) -> bool {
    match fs::metadata(rt, "/proc/self/fd/1") {
        Ok(output) => output.is_file(),
        Err(_) => false,
    }
}

// Writes a text. A file that took a part only has no room for the rest: it is not tried again, since a write past a limit of its size would
// end the program.
fn write_out<R: Files + Print>(rt: &R, text: &[u8]) -> Result<(), Lost> {
    let count = write_some(rt, text)?;
    if count == text.len() {
        return Ok(());
    }
    if writes_to_file(rt) {
        return Err(Lost::Cut);
    }
    write_all(rt, &text[count..])
}
