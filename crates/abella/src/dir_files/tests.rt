//! What each load from a folder that the test makes answers, and what is counted.
use super::DirFiles;
use ab_io::{Files, LoadFault, MAX_FILE_BYTES};
use std::fs::{self, Permissions};
use std::os::unix::fs::PermissionsExt;
use std::test::Fail;

/// Where the test's files lie, in the current folder.
const FOLDER: &str = "folder-of-loads";

#[test]
fn loads_from_a_folder(rt: HostRuntime) -> Result<(), Fail> {
    let alloc = rt.alloc();
    let _ = fs::remove_dir_all(&rt, FOLDER);
    fs::create_dir_all(&rt, "folder-of-loads/inner")?;
    fs::write(&rt, "folder-of-loads/a.sig", "sig a.")?;
    fs::write(&rt, "folder-of-loads/closed.sig", "sig closed.")?;
    fs::set_permissions(&rt, "folder-of-loads/closed.sig", Permissions::from_mode(0))?;
    fs::write(
        &rt,
        "folder-of-loads/full",
        vec![in alloc; b' '; MAX_FILE_BYTES]?.as_slice(),
    )?;
    fs::write(
        &rt,
        "folder-of-loads/over",
        vec![in alloc; b' '; MAX_FILE_BYTES + 1]?.as_slice(),
    )?;
    // One who may read everything reads this one too.
    let reads_all = fs::read(&rt, "folder-of-loads/closed.sig").is_ok();
    let closed = if reads_all {
        Ok(11)
    } else {
        Err(LoadFault::Failed)
    };
    let mut files = DirFiles::new(&rt);
    let mut into = Vec::new(alloc);
    let table = [
        ("folder-of-loads/a.sig", Ok(6)),
        ("folder-of-loads/b.sig", Err(LoadFault::Missing)),
        ("folder-of-loads/none/a.sig", Err(LoadFault::Missing)),
        ("folder-of-loads/a.sig/a.sig", Err(LoadFault::Failed)),
        ("folder-of-loads/inner", Err(LoadFault::Failed)),
        ("folder-of-loads/closed.sig", closed),
        ("folder-of-loads/full", Ok(MAX_FILE_BYTES)),
        ("folder-of-loads/over", Err(LoadFault::TooLong)),
    ];
    for (name, answer) in table {
        let loaded = files.load(name, &mut into);
        assert_eq!(rt; loaded, answer.map(|_| ()), "{name}");
        assert_eq!(rt; into.len(), answer.unwrap_or(0), "{name}");
    }
    let failed = if reads_all { 2 } else { 3 };
    assert_eq!(rt;
        (files.faults, files.misses, files.long_files),
        (failed, 2, 1)
    );
    fs::remove_dir_all(&rt, FOLDER)?;
    Ok(())
}
