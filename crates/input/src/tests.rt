use super::*;
use std::test::Fail;

// A reader that gives eight bytes once, and fails from then on.
#[derive(Drop)]
struct Broken {
    was_read: bool,
}

impl Read for Broken {
    fn read(&mut self, buf: &mut [u8]) -> io::Result<usize> {
        if self.was_read {
            return Err(io::Error::from(ErrorKind::ConnectionReset));
        }
        self.was_read = true;
        Ok(buf.len().min(8))
    }
}

#[test]
fn sources(rt: HostRuntime) -> Result<(), Fail> {
    let heap = rt.alloc();
    let short = b"a 0 4\n";
    let read = read_source(heap, short.as_slice())?;
    assert!(rt; read.as_slice() == short.as_slice());
    let long = vec![in heap; 7u8; 70_000]?;
    let read = read_source(heap, long.as_slice())?;
    assert!(rt; read.len() == 65_537 && long.starts_with(&read));
    assert!(rt; read_source(heap, Broken { was_read: false }).is_err());
    Ok(())
}

#[test]
fn opened_files(rt: HostRuntime) -> Result<(), Fail> {
    let heap = rt.alloc();
    let file = b"\x0a\0";
    let read = read_opened(heap, Ok(file.as_slice()))?;
    assert!(rt; read.as_slice() == file.as_slice());
    let missing: io::Result<&[u8]> = Err(io::Error::from(ErrorKind::NotFound));
    assert!(rt; read_opened(heap, missing)?.is_empty());
    let kept: io::Result<&[u8]> = Err(io::Error::from(ErrorKind::PermissionDenied));
    assert!(rt; read_opened(heap, kept).is_err());
    Ok(())
}
