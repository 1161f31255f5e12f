//! Files, and standard input under the name `-`.

use crate::device::Device;
use crate::host::{Host, InputError, Tally};
use crate::progress::{Progress, Visibility, is_shown};
use std::fs::File;
use std::io;
use std::io::{ErrorKind, Read, Stdin};

/// An opened file, standard input, or a text in its place.
#[derive(Drop)]
pub enum Opened<'a> {
    /// A file.
    File(File),
    /// Standard input.
    Standard(Stdin),
    /// A text.
    Text(&'a [u8]),
}

impl Read for Opened<'_> {
    fn read(&mut self, buf: &mut [u8]) -> io::Result<usize> {
        match self {
            Opened::File(file) => file.read(buf),
            Opened::Standard(input) => input.read(buf),
            Opened::Text(text) => text.read(buf),
        }
    }
}

/// Files and standard input, or a text in its place. Progress is shown on standard error, where that is a terminal and
/// standard input is the program's own.
#[derive(Drop)]
pub struct Disk<'a> {
    rt: &'a HostRuntime,
    text: Option<&'a [u8]>,
    tally: Tally,
    line: Option<String>,
    asked: Option<String>,
    reason: Option<ErrorKind>,
}

impl<'a> Disk<'a> {
    ghost use Rattle.std.specs.Prelude.{◌≡◌, false};

    /// The files of a runtime, of which none is opened, and its standard input, or this text.
    pub fn new(rt: &'a HostRuntime, text: Option<&'a [u8]>) -> Disk<'a>
        ensures { result.tally ≡ record { is_lent = false; has_failed = false; is_unended = false } }
    {
        Disk {
            rt,
            text,
            tally: Tally {
                is_lent: false,
                has_failed: false,
                is_unended: false,
            },
            line: None,
            asked: None,
            reason: None,
        }
    }

    /// The line of an input that was refused, where there was one.
    pub fn refused_line(&self) -> Option<&str> {
        match &self.line {
            Some(line) => Some(line.as_str()),
            None => None,
        }
    }

    /// The name of the input that was asked for last, where there was one and memory for its name.
    pub fn last_name(&self) -> Option<&str> {
        match &self.asked {
            Some(name) => Some(name.as_str()),
            None => None,
        }
    }

    /// Why the input that was asked for last was not opened, where it was not.
    pub fn reason(&self) -> Option<ErrorKind> {
        self.reason
    }

    /// Whether standard error is a terminal.
    pub fn is_shown(&self) -> bool {
        is_shown(self.rt)
    }

    /// The input of this name, opened: `-` is standard input, and any other name that of a file.
    fn open_input(&mut self, name: &str) -> Result<Opened<'a>, InputError>
        ensures { self.new.tally ≡ self.old.tally }
    {
        self.asked = String::from_str(self.rt.alloc(), name).ok();
        self.reason = None;
        if name == "-" {
            return Ok(match self.text {
                Some(text) => Opened::Text(text),
                None => Opened::Standard(self.rt.stdin()),
            });
        }
        match File::open(self.rt, name) {
            Ok(file) => Ok(Opened::File(file)),
            Err(error) if error.kind() == ErrorKind::OutOfMemory => Err(InputError::OutOfMemory),
            Err(error) => {
                self.reason = Some(error.kind());
                Err(InputError::CannotOpen)
            }
        }
    }
}

impl<'a> Host for Disk<'a> {
    type Input = Device<Opened<'a>>;

    type Progress = Progress<'a>;

    ghost use Rattle.std.specs.Prelude.{None};

    ghost log = { λ d. record { asked = None; tally = d.tally } };

    fn input(&mut self, name: &str) -> Result<Device<Opened<'a>>, InputError> {
        let opened = self.open_input(name)?;
        self.tally.lend();
        Ok(Device::new(opened))
    }

    fn take_back(&mut self, input: Device<Opened<'a>>) {
        self.tally.take_back(input.is_ended(), input.has_failed());
    }

    fn progress(&self, trials: Option<usize>, visibility: Visibility) -> Progress<'a> {
        let visibility = if self.text.is_some() {
            Visibility::Hidden
        } else {
            visibility
        };
        Progress::new(self.rt, trials, visibility)
    }

    fn refuse(&mut self, line: String) {
        self.line = Some(line);
    }
}
