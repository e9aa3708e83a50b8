//! Real files, and the real output.
use dp_edge::{Shelf, ShelfFail, Sink};
use dp_system::{FileShelf, OutSink};
use std::alloc::{AllocError, Global};
use std::test::Fail;
use std::{env, fs};

/// How much of a file is read at once.
const BLOCK: usize = 65_536;

/// A text of so many bytes whose blocks differ.
fn text(alloc: Global, len: usize) -> Result<Vec<u8>, AllocError> {
    let mut bytes = Vec::new(alloc);
    for at in 0..len {
        bytes.push((at % 251) as u8)?;
    }
    Ok(bytes)
}

#[test]
fn a_real_file_is_read_back(rt: HostRuntime) -> Result<(), Fail> {
    let path = env::temp_dir(&rt)?.join(rt.alloc(), "dp_edge_a_real_file_is_read_back")?;
    let name = path.as_str();
    for len in [0, 1, BLOCK - 1, BLOCK, BLOCK + 1, 3 * BLOCK + 17] {
        let wanted = text(rt.alloc(), len)?;
        fs::write(&rt, name, wanted.as_slice())?;
        for room in [len, len + 1, 10 * BLOCK] {
            let bytes = FileShelf::new(&rt).read(rt.alloc(), name, room as u32)?;
            assert!(&rt; bytes == wanted, "length {len} room {room}");
        }
        if len > 0 {
            let fail = FileShelf::new(&rt)
                .read(rt.alloc(), name, len as u32 - 1)
                .err();
            assert!(&rt; fail == Some(ShelfFail::TooLong), "length {len}");
        }
    }
    fs::remove_file(&rt, name)?;
    let fail = FileShelf::new(&rt).read(rt.alloc(), name, 10).err();
    assert!(&rt; fail == Some(ShelfFail::Failed));
    Ok(())
}

#[test]
fn real_bytes_are_written(rt: HostRuntime) -> Result<(), Fail> {
    let mut sink = OutSink::new(&rt);
    sink.put(b"")?;
    sink.put(b"real bytes\n")?;
    Ok(())
}
