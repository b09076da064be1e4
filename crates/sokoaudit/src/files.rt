//! The system's files, by their names, and standard input.
ghost use Rattle.std.specs.Prelude.{None};
ghost use Rattle.sokoaudit.specs.Files.{left_in};

use devices::Device;
use program::Opener;
use std::io::Read;
use std::{fs, io, rt};

/// The name of standard input.
const STANDARD_INPUT: &str = "-";

/// Opens the files of the system, and standard input once.
#[derive(Drop)]
pub struct Files<'a, R, I> {
    rt: &'a R,
    input: Option<I>,
}

impl<'a, R: rt::Files, I: Read + Drop> Files<'a, R, I> {
    pub fn new(rt: &'a R, input: I) -> Files<'a, R, I> {
        let input = Some(input);
        Files { rt, input }
    }
}

impl<'a, R: rt::Files, I: Read + Drop> Opener for Files<'a, R, I> {
    type File = Device<Opened<R::File, I>>;

    ghost known = { λ _ _. None };

    fn open(&mut self, name: &str) -> Option<Device<Opened<R::File, I>>> {
        if name == STANDARD_INPUT {
            let input = self.input.take()?;
            return Some(Device::new(Opened::Input(input)));
        }
        match fs::open(self.rt, name) {
            Ok(file) => Some(Device::new(Opened::File(file))),
            Err(_) => None,
        }
    }
}

/// A file, or standard input.
#[derive(Drop)]
pub enum Opened<F, I> {
    File(F),
    Input(I),
}

impl<F: Read, I: Read> Read for Opened<F, I> {
    ghost remaining = { λ o. left_in F.remaining I.remaining o };

    fn read(&mut self, buffer: &mut [u8]) -> io::Result<usize> {
        match self {
            Opened::File(file) => file.read(buffer),
            Opened::Input(input) => input.read(buffer),
        }
    }
}
