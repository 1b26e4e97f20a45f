use super::*;
use dj_io::{Failed, Files, Sink};
use std::fs;
use std::io::{self, Write};
use std::test::Fail;

/// A writer that takes at most a number of bytes in all.
#[derive(Drop)]
struct Narrow {
    left: usize,
}

impl Write for Narrow {
    fn write(&mut self, bytes: &[u8]) -> io::Result<usize> {
        let count = bytes.len().min(self.left).min(2);
        self.left -= count;
        Ok(count)
    }

    fn flush(&mut self) -> io::Result<()> {
        Ok(())
    }
}

#[test]
fn files_are_read_on(rt: HostRuntime) -> Result<(), Fail> {
    fs::write(&rt, "adapters.txt", "abcde")?;
    let mut files = SystemFiles::new(&rt);
    let mut buffer = [0; 4];
    assert_eq!(rt; files.read("adapters.txt", &mut buffer), Ok(4));
    assert_eq!(rt; buffer.as_slice(), b"abcd".as_slice());
    assert_eq!(rt; files.read("adapters.txt", &mut buffer), Ok(1));
    assert_eq!(rt; files.read("adapters.txt", &mut buffer), Ok(0));
    assert_eq!(rt; files.read("absent.txt", &mut buffer), Err(Failed));
    fs::remove_file(&rt, "adapters.txt")?;
    Ok(())
}

#[test]
fn a_narrow_output_fails(rt: HostRuntime) -> Result<(), Fail> {
    let mut output = Output::new(Narrow { left: 5 });
    assert_eq!(rt; output.put(b"abcde"), Ok(()));
    assert_eq!(rt; output.put(b""), Ok(()));
    assert_eq!(rt; output.put(b"f"), Err(Failed));
    Ok(())
}
