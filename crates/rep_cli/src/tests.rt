use crate::access::Access;
use crate::apart::{Clash, Place, clash_in};
use crate::file_disk::FileDisk;
use crate::file_source::FileSource;
use crate::output_sink::OutputSink;
use crate::rigging::rig_for;
use rep_disk::Disk;
use rep_io::{Failed, Sink, put_all, read_whole};
use std::alloc::{AllocError, Global};
use std::fs;
use std::os::unix::fs::{MetadataExt, PermissionsExt, symlink};
use std::test::Fail;

// The tests share a folder: each has names of files of its own.

#[test]
fn a_source_gives_the_bytes_of_its_file(rt: HostRuntime) -> Result<(), Fail> {
    let alloc = rt.alloc();
    fs::write(&rt, "source.lane", "L|1|01\n")?;
    let mut source = FileSource::new(&rt, "source.lane");
    let read = read_whole(alloc, &mut source).map_err(|_| "it can be read")?;
    assert_eq!(rt; read.as_slice(), b"L|1|01\n".as_slice());
    let mut missing = FileSource::new(&rt, "source.nothing");
    assert!(rt; read_whole(alloc, &mut missing).is_err());
    assert_eq!(rt; missing.faults, 1);
    Ok(())
}

#[test]
fn an_output_is_emptied_at_its_first_call_and_never_while_it_is_locked(
    rt: HostRuntime,
) -> Result<(), Fail> {
    let alloc = rt.alloc();
    fs::write(&rt, "older.afd", "an older and longer text")?;
    let mut sink = OutputSink::file(&rt, String::from_str(alloc, "older.afd")?);
    assert_eq!(rt; fs::metadata(&rt, "older.afd")?.len(), 24, "no call yet");
    assert!(rt; put_all(&mut sink, b"first ").is_ok());
    let mut second = OutputSink::file(&rt, String::from_str(alloc, "older.afd")?);
    assert_eq!(rt; second.write(b"other"), Err(Failed), "the first has it");
    assert_eq!(rt; second.faults, 1);
    assert!(rt; put_all(&mut sink, b"and last").is_ok());
    assert_eq!(rt;
        fs::read(&rt, "older.afd")?.as_slice(),
        b"first and last".as_slice()
    );
    let mut made = OutputSink::file(&rt, String::from_str(alloc, "made.afd")?);
    assert!(rt; put_all(&mut made, b"line").is_ok());
    assert_eq!(rt; fs::metadata(&rt, "made.afd")?.mode() & 0o777, 0o600);
    Ok(())
}

#[test]
fn a_disk_is_made_by_its_first_write_and_keeps_it(rt: HostRuntime) -> Result<(), Fail> {
    let mut disk = FileDisk::new(&rt, "made.journal", Access::Make);
    assert_eq!(rt;
        (disk.sync(), disk.length()),
        (Ok(()), Ok(0)),
        "nothing is there"
    );
    assert_eq!(rt; disk.cut(0), Ok(()));
    assert!(rt; !fs::exists(&rt, "made.journal")?, "no write, no file");
    assert_eq!(rt; disk.write_at(0, b"a frame and a gate"), Ok(()));
    assert_eq!(rt;
        disk.write_at(2, b"FRAME"),
        Ok(()),
        "over what stands there"
    );
    assert_eq!(rt; disk.write_at(18, b", and more"), Ok(()), "behind it");
    assert_eq!(rt; disk.sync(), Ok(()));
    assert_eq!(rt; fs::metadata(&rt, "made.journal")?.mode() & 0o777, 0o600);
    assert_eq!(rt;
        fs::read(&rt, "made.journal")?.as_slice(),
        b"a FRAME and a gate, and more".as_slice()
    );
    let mut into = [0; 16];
    assert_eq!(rt; disk.read_at(24, &mut into), Ok(4), "past the end");
    assert_eq!(rt; &into[..4], b"more".as_slice());
    assert_eq!(rt;
        disk.read_at(1 << 63, &mut into),
        Ok(0),
        "where no file has a place"
    );
    assert_eq!(rt;
        (disk.cut(18), disk.cut(20), disk.length()),
        (Ok(()), Ok(()), Ok(18))
    );
    assert_eq!(rt; disk.faults, 0);
    Ok(())
}

#[test]
fn a_disk_asks_for_no_more_than_its_access(rt: HostRuntime) -> Result<(), Fail> {
    for access in [Access::Read, Access::Write] {
        let mut missing = FileDisk::new(&rt, "missing.journal", access);
        assert_eq!(rt; (missing.sync(), missing.length()), (Ok(()), Ok(0)));
        assert_eq!(rt; missing.write_at(0, b"a frame"), Err(Failed));
        assert_eq!(rt; missing.faults, 1);
        assert!(rt; !fs::exists(&rt, "missing.journal")?, "nothing is made");
    }
    fs::write(&rt, "read.journal", "bytes")?;
    fs::set_permissions(&rt, "read.journal", fs::Permissions::from_mode(0o440))?;
    let mut first = FileDisk::new(&rt, "read.journal", Access::Read);
    let mut second = FileDisk::new(&rt, "read.journal", Access::Read);
    assert_eq!(rt; (first.sync(), first.length()), (Ok(()), Ok(5)));
    assert_eq!(rt; second.length(), Ok(5), "both may read");
    assert_eq!(rt; first.write_at(0, b"B"), Err(Failed));
    assert_eq!(rt; first.cut(1), Err(Failed));
    assert_eq!(rt; first.faults, 2);
    let mut writer = FileDisk::new(&rt, "read.journal", Access::Write);
    assert_eq!(rt; writer.length(), Err(Failed), "they have the lock");
    assert_eq!(rt;
        fs::read(&rt, "read.journal")?.as_slice(),
        b"bytes".as_slice()
    );
    assert_eq!(rt; fs::metadata(&rt, "read.journal")?.mode() & 0o777, 0o440);
    Ok(())
}

#[test]
fn a_folder_fails_each_call_of_a_disk(rt: HostRuntime) -> Result<(), Fail> {
    fs::create_dir(&rt, "folder")?;
    let mut disk = FileDisk::new(&rt, "folder", Access::Make);
    assert_eq!(rt; disk.length(), Err(Failed));
    assert_eq!(rt; disk.read_at(0, &mut [0; 4]), Err(Failed));
    assert_eq!(rt; disk.write_at(0, b"a frame"), Err(Failed));
    assert_eq!(rt; disk.cut(0), Err(Failed));
    assert_eq!(rt; disk.sync(), Err(Failed));
    assert_eq!(rt; disk.faults, 5);
    Ok(())
}

#[test]
fn a_file_is_the_same_by_whatever_path(rt: HostRuntime) -> Result<(), Fail> {
    fs::write(&rt, "path.journal", "bytes")?;
    fs::write(&rt, "path.other", "bytes")?;
    symlink(&rt, "path.journal", "path.linked")?;
    fs::hard_link(&rt, "path.journal", "path.twin")?;
    let rows: &[(&str, &str, bool)] = &[
        ("path.journal", "path.journal", true),
        ("path.journal", "./path.journal", true),
        ("path.journal", "path.linked", true),
        ("path.linked", "path.twin", true),
        ("path.journal", "path.other", false),
        ("path.journal", "path.nothing", false),
        ("path.nothing", "path.nothing", true),
        ("path.nothing", "path.nowhere", false),
        ("/dev/null", "/dev/null", false),
    ];
    for (path, other, is_same) in rows {
        let met = Place::at(&rt, *path).is_same(&Place::at(&rt, *other));
        assert_eq!(rt; met, *is_same, "{path} and {other}");
    }
    Ok(())
}

fn words_of(alloc: Global, words: &[&str]) -> Result<Vec<String>, AllocError> {
    let mut all = Vec::new(alloc);
    for word in words {
        all.push(String::from_str(alloc, *word)?)?;
    }
    Ok(all)
}

#[test]
fn an_output_that_the_command_reads_or_keeps_is_seen(rt: HostRuntime) -> Result<(), Fail> {
    let alloc = rt.alloc();
    for path in ["site", "journal", "lane", "lane.out"] {
        fs::write(&rt, path, path)?;
    }
    symlink(&rt, "journal", "linked")?;
    let rows: &[(&[&str], Option<Clash>)] = &[
        (
            &[
                "extract",
                "site",
                "journal",
                "2024-01-01",
                "2024-12-31",
                "journal",
            ],
            Some(Clash::File),
        ),
        (
            &[
                "extract",
                "site",
                "journal",
                "2024-01-01",
                "2024-12-31",
                "linked",
            ],
            Some(Clash::File),
        ),
        (
            &[
                "extract",
                "site",
                "linked",
                "2024-01-01",
                "2024-12-31",
                "./site",
            ],
            Some(Clash::File),
        ),
        (
            &[
                "extract",
                "site",
                "journal",
                "2024-01-01",
                "2024-12-31",
                "afd",
            ],
            None,
        ),
        (&["run", "site", "lane.out", "lane"], Some(Clash::File)),
        (&["run", "site", "journal", "lane"], None),
        (&["print", "lane", "lane", "-0300"], Some(Clash::File)),
        (&["print", "lane", "/dev/null", "-0300"], None),
        (&["receipt", "site", "journal", "4"], None),
        (&["receipt", "journal"], None),
    ];
    for (words, clash) in rows {
        let words = words_of(alloc, words)?;
        let rig = rig_for(alloc, &rt, &words).map_err(|_| "there is memory")?;
        let met = clash_in(alloc, &rt, &rig).map_err(|_| "there is memory")?;
        assert_eq!(rt; met, *clash, "{words:?}");
    }
    Ok(())
}
