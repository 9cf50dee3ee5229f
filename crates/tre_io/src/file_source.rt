// A file or standard input as a source.
ghost use Rattle.std.specs.Prelude.{◌≡◌, ◌<◌, IsTrue, IfOk, OnOk, OnErr, None, false, codes, length};
ghost use Rattle.std.specs.Io.{ReadsAtMost};
ghost use Rattle.std.specs.Io.KnownBytes.{ReadConsumes};
ghost use Rattle.std.specs.Str.{bytes_eq};
ghost use Rattle.tre_io.specs.Faults.{HasCause};
ghost use Rattle.tre_io.specs.Opened.{is_open, is_standard, left_in};

use crate::faults::{Failed, count_fault};
use crate::source::Source;
use std::io::{Input, Read};
use std::marker::Model;
use std::rt::Files;
use std::{fs, io};

/// Opens a file of the system, or standard input by the name `-`.
///
/// It doesn't tell its file and is never sound. The real system tells no bytes; over a runtime
/// whose readers tell what they have left, it tells the same. A file that was read to its end is
/// closed there, so that what is opened after it finds the descriptors as they were.
#[derive(Drop)]
pub struct FileSource<'a, R: Files + Input> {
    rt: &'a R,
    input: Opened<R::File, R::Reader>,
    faults: u64,
}

#[derive(Drop)]
enum Opened<F, I> {
    Nothing,
    File(F),
    // A file that was read to its end, and is closed.
    Ended,
    Standard(I),
}

impl<'a, R: Files + Input> Model for FileSource<'a, R> {
    ghost use Rattle.tre_io.specs.Opened.{is_open, is_standard, left_in};
    ghost use Rattle.tre_io.specs.SystemInput.{SystemInput};

    ghost Value = { SystemInput };

    ghost view = { λ source. record {
      opened = is_open source.input;
      standard = is_standard source.input;
      left = left_in R.File.remaining R.Reader.remaining source.input;
      faults = source.faults;
    } };
}

impl<F: Read + Drop, I: Read + Drop> Opened<F, I> {
    fn read(&mut self, buffer: &mut [u8]) -> io::Result<usize>
        requires opened { IsTrue (is_open self.old) }
        requires room { 0 < length buffer.old }
        ensures within { ReadsAtMost result buffer.new }
        ensures same { is_open self.new ≡ is_open self.old }
        ensures same_standard { is_standard self.new ≡ is_standard self.old }
        ensures bytes { let left = left_in F.remaining I.remaining in
            ReadConsumes (left self.old) (left self.new) result buffer.new }
    {
        match self {
            Opened::Nothing => unreachable!(),
            Opened::Ended => Ok(0),
            Opened::Standard(input) => input.read(buffer),
            Opened::File(file) => {
                let result = file.read(buffer);
                if let Ok(0) = result {
                    *self = Opened::Ended;
                }
                result
            }
        }
    }
}

// What a name stands for.
fn opened_by_name<R: Files + Input>(rt: &R, name: &str) -> io::Result<Opened<R::File, R::Reader>>
    ensures opened { IfOk result (λ input. IsTrue (is_open input)) }
    ensures by_name { IfOk result (λ input. is_standard input ≡ bytes_eq name.now (codes "-")) }
{
    if name == "-" {
        return Ok(Opened::Standard(rt.reader()));
    }
    Ok(Opened::File(fs::open(rt, name)?))
}

impl<'a, R: Files + Input> FileSource<'a, R> {
    /// Nothing is opened.
    pub fn new(rt: &'a R) -> FileSource<'a, R>
        ensures { result ≡ record { opened = false; standard = false; left = None; faults = 0 } }
    {
        FileSource {
            rt,
            input: Opened::Nothing,
            faults: 0,
        }
    }
}

impl<'a, R: Files + Input> Source for FileSource<'a, R> {
    ghost told = { λ source. record {
      name = None;
      file = None;
      left = source.left;
      found = None;
      opened = source.opened;
      sound = false;
      faults = source.faults;
    } };

    ghost found_told = { λ _ told. told };

    ghost told_together = { λ _. (λ told. told, λ told. told) };

    ghost sound_tells = { λ _ sound. sound };

    /// Opens standard input by the name `-`, and a file of the system by any other. After a failure
    /// it stands where it stood.
    fn open(&mut self, name: &str) -> Result<(), Failed>
        requires closed { self.old.opened ≡ false }
        ensures opens { OnOk result (IsTrue self.new.opened) }
        ensures by_name { OnOk result (self.new.standard ≡ bytes_eq name.now (codes "-")) }
        ensures unchanged { OnErr result (self.new ≡ record self.old { faults = self.new.faults }) }
        ensures cause { HasCause self.old.faults self.new.faults result }
    {
        match opened_by_name(self.rt, name) {
            Ok(input) => {
                self.input = input;
                Ok(())
            }
            Err(_) => Err(count_fault(&mut self.faults)),
        }
    }

    fn read(&mut self, buffer: &mut [u8]) -> Result<usize, Failed> {
        match self.input.read(buffer) {
            Ok(count) => Ok(count),
            Err(_) => Err(count_fault(&mut self.faults)),
        }
    }
}
