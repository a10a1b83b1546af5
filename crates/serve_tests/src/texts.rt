//! The lines of a version that nothing has changed.
use aug_monoid::NoMemory;
use serve_answers::MapAnswers;
use serve_script::ServeQuery;
use serve_text::{reply_line, write_rest};
use served_map::Served;
use std::alloc::Global;
use std::test::Fail;
use versions::Version;

/// The line of a read of the size by record 4, and the rest of the text.
fn lines(alloc: Global) -> Result<[Vec<u8>; 2], NoMemory> {
    let version = Version::first(Served::new());
    let line = reply_line::<MapAnswers, Served>(alloc, 4, &version, &ServeQuery::Size)?;
    let mut rest = Vec::new(alloc);
    write_rest::<MapAnswers, Served>(alloc, &version, &mut rest)?;
    Ok([line, rest])
}

#[test]
fn the_first_version_has_no_entries(rt: HostRuntime) -> Result<(), Fail> {
    let [line, rest] = lines(rt.alloc())?;
    assert_eq!(rt; line.as_slice(), b"r,4,0,size,0\n".as_slice());
    assert_eq!(rt; rest.as_slice(), b"final,0,0,0\n".as_slice());
    Ok(())
}
