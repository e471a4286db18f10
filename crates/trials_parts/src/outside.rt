use sig_io::{Failed, FromReader, ReadError, ToWriter, read_all, write_all};
use std::test::Fail;

#[test]
fn adapters_carry_all_bytes(rt: HostRuntime) -> Result<(), Fail> {
    let text = "the bytes of a reader go to a writer".as_bytes();
    let mut source = FromReader::new(text);
    let bytes = read_all(rt.alloc(), &mut source, 100)?;
    let mut written = Vec::new(rt.alloc());
    let mut sink = ToWriter::new(&mut written);
    write_all(&mut sink, bytes.as_slice())?;
    assert_eq!(rt; written.as_slice(), text);
    Ok(())
}

#[test]
fn a_writer_that_takes_nothing_fails(rt: HostRuntime) {
    let mut room = [0; 3];
    let mut sink = ToWriter::new(room.as_mut_slice());
    assert_eq!(rt; write_all(&mut sink, "four".as_bytes()), Err(Failed));
    assert_eq!(rt; room.as_slice(), "fou".as_bytes());
}

#[test]
fn errors_say_what_failed(rt: HostRuntime) -> Result<(), Fail> {
    for (error, wanted) in [
        (ReadError::ReadFault, "the input can't be read"),
        (ReadError::TooLarge, "the input is too large"),
        (ReadError::NoMemory, "out of memory"),
    ] {
        let text = format!(in rt.alloc(); "{error}")?;
        assert_eq!(rt; text.as_str(), wanted);
    }
    let text = format!(in rt.alloc(); "{Failed}")?;
    assert_eq!(rt; text.as_str(), "the read or the write failed");
    Ok(())
}
