// The machine's files and streams, which tell contracts none of their bytes.
ghost use Rattle.std.specs.Prelude.{◌≡◌, ◌≤◌, ◌^◌, length, IfOk, None, ℕ};

use crate::{Failed, Files, ReadFault, Sink};
use std::alloc::Global;
use std::io::{Read, Seek, SeekFrom, Write};
use std::{fs, io, rt};

/// A file that is open, and the place of the byte that a read begins with.
#[derive(Drop)]
struct OpenFile<F: Drop> {
    name: String,
    file: F,
    place: u64,
}

impl<F: Read + Seek + Drop> OpenFile<F> {
    // A read that goes on where the one before it ended doesn't seek, so that a pipe is read as well.
    fn read_at(&mut self, at: u64, into: &mut [u8]) -> io::Result<usize>
        requires near { at ≤ 2 ^ 30 }
        ensures bound { IfOk result (λ n. n ≤ length into.new) }
    {
        if self.place != at {
            self.file.seek(SeekFrom::Start(at))?;
        }
        let count = self.file.read(into)?;
        self.place = at + count as u64;
        Ok(count)
    }
}

/// The machine's files. The one that was read last stays open, so that reading a file piece by piece
/// opens it once.
#[derive(Drop)]
pub struct RealFiles<'a, R: rt::Files> {
    machine: &'a R,
    alloc: Global,
    last: Option<OpenFile<R::File>>,
    faults: u64,
}

impl<'a, R: rt::Files> RealFiles<'a, R> {
    /// The files of this machine, by their paths.
    pub fn new(alloc: Global, machine: &'a R) -> RealFiles<'a, R> {
        RealFiles {
            machine,
            alloc,
            last: None,
            faults: 0,
        }
    }

    // Opens a file, unless it is the one that was read last.
    fn open(&mut self, name: &str) -> Result<(), ReadFault>
        ensures { self.new.faults ≡ self.old.faults }
    {
        if let Some(last) = &self.last {
            if last.name.as_str() == name {
                return Ok(());
            }
        }
        let Ok(kept) = String::from_str(self.alloc, name) else {
            return Err(ReadFault::Memory);
        };
        match fs::open(self.machine, name) {
            Ok(file) => {
                self.last = Some(OpenFile {
                    name: kept,
                    file,
                    place: 0,
                });
                Ok(())
            }
            Err(_) => Err(ReadFault::Failed),
        }
    }

    // Where a read fails, the file's place isn't known, so it is opened again by the next call.
    fn read_at(&mut self, name: &str, at: u64, into: &mut [u8]) -> Result<usize, ReadFault>
        requires near { at ≤ 2 ^ 30 }
        ensures bound { IfOk result (λ n. n ≤ length into.new) }
        ensures faults { self.new.faults ≡ self.old.faults }
    {
        self.open(name)?;
        if let Some(last) = &mut self.last {
            if let Ok(count) = last.read_at(at, into) {
                return Ok(count);
            }
        }
        self.last = None;
        Err(ReadFault::Failed)
    }
}

impl<'a, R: rt::Files> Files for RealFiles<'a, R> {
    ghost content = { λ _ _. None };

    ghost faults = { λ files _. files.faults };

    fn read(&mut self, name: &str, at: u64, into: &mut [u8]) -> Result<usize, ReadFault> {
        let result = self.read_at(name, at, into);
        if let Err(ReadFault::Failed) = result {
            self.faults = self.faults.saturating_add(1);
        }
        result
    }
}

/// A stream of the machine, as standard output and standard error.
#[derive(Drop)]
pub struct RealSink<W: Write + Drop> {
    stream: W,
    faults: u64,
}

impl<W: Write + Drop> RealSink<W> {
    /// A sink whose bytes go to this stream.
    pub fn new(stream: W) -> RealSink<W> {
        RealSink { stream, faults: 0 }
    }
}

impl<W: Write + Drop> Sink for RealSink<W> {
    ghost written = { λ _. None };

    ghost faults = { λ sink. sink.faults };

    fn write(&mut self, piece: &[u8]) -> Result<usize, Failed> {
        match self.stream.write(piece) {
            // A stream that takes nothing of a piece would be asked for ever.
            Ok(count) if count > 0 || piece.is_empty() => Ok(count),
            _ => {
                self.faults = self.faults.saturating_add(1);
                Err(Failed)
            }
        }
    }
}

#[cfg(test)]
mod tests {
    use super::*;
    use crate::write_all;
    use std::test::Fail;

    #[test]
    fn files_of_the_machine_are_read_by_place(rt: HostRuntime) -> Result<(), Fail> {
        fs::write(&rt, "one", "abcdef")?;
        fs::write(&rt, "two", "xyz")?;
        let mut files = RealFiles::new(rt.alloc(), &rt);
        let mut piece = [0u8; 4];
        for (name, at, count, bytes) in [
            ("one", 0, 4, b"abcd"),
            ("one", 4, 2, b"efcd"),
            ("two", 1, 2, b"yzcd"),
            ("one", 6, 0, b"yzcd"),
            ("one", 1, 4, b"bcde"),
        ] {
            assert_eq!(rt;
                files.read(name, at, &mut piece),
                Ok(count),
                "{name} at {at}"
            );
            assert_eq!(rt; &piece, bytes, "{name} at {at}");
        }
        assert_eq!(rt; files.faults, 0);
        assert_eq!(rt; files.read("three", 0, &mut piece), Err(ReadFault::Failed));
        assert_eq!(rt; files.read("one", 0, &mut piece), Ok(4));
        assert_eq!(rt; files.faults, 1);
        fs::remove_file(&rt, "one")?;
        fs::remove_file(&rt, "two")?;
        Ok(())
    }

    // A stream that is full.
    #[derive(Drop)]
    struct Full;

    impl Write for Full {
        fn write(&mut self, _piece: &[u8]) -> io::Result<usize> {
            Ok(0)
        }

        fn flush(&mut self) -> io::Result<()> {
            Ok(())
        }
    }

    #[test]
    fn streams_of_the_machine_count_their_faults(rt: HostRuntime) -> Result<(), Fail> {
        let mut sink = RealSink::new(fs::create(&rt, "stream")?);
        assert_eq!(rt; sink.write(b"abc"), Ok(3));
        assert_eq!(rt; sink.write(b""), Ok(0));
        assert_eq!(rt; sink.write(b"de"), Ok(2));
        assert_eq!(rt; sink.faults, 0);
        assert_eq!(rt; fs::read(&rt, "stream")?.as_slice(), b"abcde".as_slice());
        fs::remove_file(&rt, "stream")?;
        let mut full = RealSink::new(Full);
        assert_eq!(rt; full.write(b"abc"), Err(Failed));
        assert_eq!(rt; full.write(b""), Ok(0));
        assert_eq!(rt; full.faults, 1);
        full.faults = u64::MAX;
        assert_eq!(rt; full.write(b"abc"), Err(Failed));
        assert_eq!(rt; full.faults, u64::MAX);
        Ok(())
    }

    // A stream that takes one byte a call.
    #[derive(Drop)]
    struct Narrow {
        taken: Vec<u8>,
    }

    impl Write for Narrow {
        fn write(&mut self, piece: &[u8]) -> io::Result<usize> {
            let Some(byte) = piece.first() else {
                return Ok(0);
            };
            self.taken.push(*byte)?;
            Ok(1)
        }

        fn flush(&mut self) -> io::Result<()> {
            Ok(())
        }
    }

    // A sink that answers that all was written, whatever its stream took, would lose the rest here.
    #[test]
    fn sinks_tell_what_a_narrow_stream_took(rt: HostRuntime) -> Result<(), Fail> {
        let mut sink = RealSink::new(Narrow {
            taken: Vec::new(rt.alloc()),
        });
        assert_eq!(rt; sink.write(b"abc"), Ok(1));
        assert_eq!(rt; write_all(&mut sink, b"bcde"), Ok(()));
        assert_eq!(rt; sink.write(b""), Ok(0));
        assert_eq!(rt; sink.stream.taken.as_slice(), b"abcde".as_slice());
        assert_eq!(rt; sink.faults, 0);
        Ok(())
    }
}
