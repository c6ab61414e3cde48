//! The adapters of the system, over readers, writers and files that fail.
use smithy_outside::{
    Failed, Files, LoadFault, OsFiles, OsSink, OsSource, Sink, read_to_end, write_all,
};
use std::alloc::Global;
use std::io::{Error, ErrorKind, Read, Write};
use std::{fs, io, rt};

/// A reader that counts its calls, of which the one of this number, from 1, is interrupted.
#[derive(Drop)]
struct CountingReader {
    left: &'static [u8],
    fail: u64,
    calls: u64,
}

impl Read for CountingReader {
    fn read(&mut self, buf: &mut [u8]) -> io::Result<usize> {
        self.calls = self.calls.saturating_add(1);
        if self.calls == self.fail {
            return Err(Error::from(ErrorKind::Interrupted));
        }
        self.left.read(buf)
    }
}

// Reads `abc`, which is one call, and its end, which is one more, where the call of this number fails.
fn is_asked_no_more(alloc: Global, fail: u64) -> bool {
    let mut source = OsSource::new(CountingReader {
        left: b"abc",
        fail,
        calls: 0,
    });
    let is_read = match read_to_end(alloc, &mut source, 3) {
        Ok(bytes) => fail == 3 && bytes.as_slice() == b"abc".as_slice(),
        Err(fault) => fail < 3 && fault == LoadFault::Failed,
    };
    is_read && source.input.calls == fail.min(2) && source.faults == u64::from(fail < 3)
}

pub fn a_reader_is_asked_no_more_once_it_failed(alloc: Global) -> bool {
    for fail in 1..=3 {
        if !is_asked_no_more(alloc, fail) {
            return false;
        }
    }
    true
}

/// A writer that takes two bytes a call and counts its calls, of which the one of the number `fail` is
/// interrupted and the one of the number `idle` takes nothing.
#[derive(Drop)]
struct CountingWriter {
    taken: Vec<u8>,
    /// How many bytes were taken when it was last flushed.
    flushed: usize,
    fail: u64,
    idle: u64,
    calls: u64,
}

impl Write for CountingWriter {
    fn write(&mut self, buf: &[u8]) -> io::Result<usize> {
        self.calls = self.calls.saturating_add(1);
        if self.calls == self.fail {
            return Err(Error::from(ErrorKind::Interrupted));
        }
        if self.calls == self.idle {
            return Ok(0);
        }
        let count = buf.len().min(2);
        self.taken.extend_from_slice(&buf[..count])?;
        Ok(count)
    }

    fn flush(&mut self) -> io::Result<()> {
        self.calls = self.calls.saturating_add(1);
        if self.calls == self.fail {
            return Err(Error::from(ErrorKind::Interrupted));
        }
        self.flushed = self.taken.len();
        Ok(())
    }
}

/// The writing of `abc`, which is two writes and a flush.
#[derive(Clone, Copy)]
struct Written {
    name: &'static str,
    fail: u64,
    idle: u64,
    result: Result<(), Failed>,
    calls: u64,
    taken: &'static [u8],
    flushed: usize,
}

const WRITTEN: [Written; 5] = [
    Written {
        name: "all is taken, and then flushed",
        fail: 0,
        idle: 0,
        result: Ok(()),
        calls: 3,
        taken: b"abc",
        flushed: 3,
    },
    Written {
        name: "the first write fails",
        fail: 1,
        idle: 0,
        result: Err(Failed),
        calls: 1,
        taken: b"",
        flushed: 0,
    },
    Written {
        name: "the second write fails",
        fail: 2,
        idle: 0,
        result: Err(Failed),
        calls: 2,
        taken: b"ab",
        flushed: 0,
    },
    Written {
        name: "the second write takes nothing",
        fail: 0,
        idle: 2,
        result: Err(Failed),
        calls: 2,
        taken: b"ab",
        flushed: 0,
    },
    Written {
        name: "the flush fails",
        fail: 3,
        idle: 0,
        result: Err(Failed),
        calls: 3,
        taken: b"abc",
        flushed: 0,
    },
];

// Whether the output took and counted what the row says.
fn is_written(row: &Written, sink: &OsSink<CountingWriter>) -> bool {
    sink.output.calls == row.calls
        && sink.output.taken.as_slice() == row.taken
        && sink.output.flushed == row.flushed
        && sink.is_unfinished == row.result.is_err()
        && sink.faults == u64::from(row.result.is_err())
}

// Whether the writing comes out as the row says, and the sink may be finished once more.
fn is_as_told(alloc: Global, row: &Written) -> bool {
    let mut sink = OsSink::new(CountingWriter {
        taken: Vec::new(alloc),
        flushed: 0,
        fail: row.fail,
        idle: row.idle,
        calls: 0,
    });
    write_all(&mut sink, b"abc") == row.result
        && is_written(row, &sink)
        && sink.finish().is_ok()
        && sink.output.flushed == row.taken.len()
        && !sink.is_unfinished
}

pub fn a_writer_is_asked_no_more_once_it_failed(alloc: Global) -> bool {
    for row in &WRITTEN {
        if !is_as_told(alloc, row) {
            return false;
        }
    }
    true
}

/// A load of at most so many bytes.
#[derive(Clone, Copy)]
struct Load {
    path: &'static str,
    limit: usize,
    loaded: Result<&'static [u8], LoadFault>,
}

const LOADS: [Load; 8] = [
    // A file is loaded at its very length, and the blank at the end of a name belongs to it.
    Load {
        path: "table",
        limit: 5,
        loaded: Ok(b"first"),
    },
    Load {
        path: "table",
        limit: 4,
        loaded: Err(LoadFault::TooLong),
    },
    Load {
        path: "table ",
        limit: 6,
        loaded: Ok(b"second"),
    },
    Load {
        path: " table",
        limit: 6,
        loaded: Err(LoadFault::Failed),
    },
    // Of a file without end no more than the limit is kept, and a folder can be opened and not read.
    Load {
        path: "/dev/null",
        limit: 0,
        loaded: Ok(b""),
    },
    Load {
        path: "/dev/zero",
        limit: 9,
        loaded: Err(LoadFault::TooLong),
    },
    Load {
        path: ".",
        limit: 9,
        loaded: Err(LoadFault::Failed),
    },
    Load {
        path: "table",
        limit: 6,
        loaded: Ok(b"first"),
    },
];

// Whether a load answers what the row says.
fn is_loaded<R: rt::Files>(alloc: Global, files: &mut OsFiles<R>, row: &Load) -> bool {
    match files.load(alloc, row.path, row.limit) {
        Ok(bytes) => Ok(bytes.as_slice()) == row.loaded,
        Err(fault) => Err(fault) == row.loaded,
    }
}

pub fn real_files_are_loaded<R: rt::Files>(alloc: Global, rt: &R) -> io::Result<bool> {
    fs::write(rt, "table", "first")?;
    fs::write(rt, "table ", "second")?;
    let mut files = OsFiles::new(rt);
    let mut all = true;
    for row in &LOADS {
        all = is_loaded(alloc, &mut files, row) && all;
    }
    fs::remove_file(rt, "table")?;
    fs::remove_file(rt, "table ")?;
    Ok(all && files.faults == 2)
}
