use cbc_outside::{Calls, Failed, FileSource, MemSource, NamedFiles, OutSink, Source, write_all};
use eb_names::{Bytes, Name};
use std::fs;
use std::test::Fail;

#[test]
fn a_read_without_an_open_file_is_not_counted(rt: HostRuntime) -> Result<(), Fail> {
    let alloc = rt.alloc();
    let mut files = NamedFiles::new(alloc);
    files.push((Name::new(alloc, "m")?, Bytes::from_slice(alloc, b"abc")?))?;
    let mut src = MemSource::new(files, Calls::from_slice(alloc, &[2])?);
    let mut into = [0u8; 4];
    assert_eq!(rt; src.read(&mut into), Ok(0));
    assert_eq!(rt; src.open(Name::new(alloc, "m")?), Ok(()));
    assert_eq!(rt; src.read(&mut into), Err(Failed));
    assert_eq!(rt; src.read(&mut into), Ok(0), "the file was closed");
    Ok(())
}

#[test]
fn files_of_the_system_are_read(rt: HostRuntime) -> Result<(), Fail> {
    let alloc = rt.alloc();
    let name = "library_tests_read_this.txt";
    fs::write(&rt, name, "abc")?;
    let mut src = FileSource::new(&rt);
    let mut into = [0u8; 4];
    assert_eq!(rt; src.open(Name::new(alloc, name)?), Ok(()));
    assert_eq!(rt; src.read(&mut into), Ok(3));
    assert_eq!(rt; into, *b"abc\0");
    assert_eq!(rt; src.read(&mut into), Ok(0));
    fs::remove_file(&rt, name)?;
    assert_eq!(rt; src.open(Name::new(alloc, name)?), Err(Failed));
    let is_read = src.open(Name::new(alloc, ".")?).is_ok() && src.read(&mut into).is_ok();
    assert!(rt; !is_read, "a folder is no file");
    Ok(())
}

#[test]
fn a_writer_takes_what_it_can(rt: HostRuntime) -> Result<(), Fail> {
    let mut bytes = Vec::new(rt.alloc());
    let mut out = OutSink::new(&mut bytes);
    assert!(rt; write_all(&mut out, b"abc").is_ok());
    assert!(rt; write_all(&mut out, b"de").is_ok());
    assert_eq!(rt; bytes.as_slice(), b"abcde".as_slice());

    let mut room = [0u8; 2];
    let mut out = OutSink::new(room.as_mut_slice());
    assert!(rt; write_all(&mut out, b"abc").is_err());
    assert_eq!(rt; room.as_slice(), b"ab".as_slice());
    Ok(())
}
