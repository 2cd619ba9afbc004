//! A folder that is missing, then written, then opened again by another host, once the first one has let it go.

use mr_base::Disk;
use mr_edge::FolderHost;
use std::fs;
use std::fs::Files;
use std::test::Fail;

const FOLDER: &str = "edge test folder";

const LOG: u64 = 1;

#[test]
fn a_folder_is_made_and_kept(rt: HostRuntime) -> Result<(), Fail> {
    let _ = fs::remove_dir_all(&rt, FOLDER);
    let mut out = [0u8; 8];

    let mut host = FolderHost::new(&rt, rt.alloc(), FOLDER)?;
    assert_eq!(rt; host.length(LOG)?, 0);
    assert_eq!(rt; host.read(LOG, 0, &mut out)?, 0);
    host.cut(LOG, 0)?;
    host.sync(LOG)?;
    assert!(rt; !fs::exists(&rt, FOLDER)?);

    host.write_at(LOG, 0, b"abcdef")?;
    host.write_at(LOG, 2, b"XY")?;
    host.cut(LOG, 5)?;
    host.sync(LOG)?;
    assert_eq!(rt; host.read(LOG, 1, &mut out)?, 4);
    assert!(rt; out.starts_with(b"bXYe"));

    // The folder is locked until the host is dropped.
    let mut again = FolderHost::new(&rt, rt.alloc(), FOLDER)?;
    assert!(rt; again.length(LOG).is_err());
    assert!(rt; again.write_at(LOG, 0, b"a").is_err());
    drop(host);
    assert_eq!(rt; again.length(LOG)?, 5);
    assert_eq!(rt; again.read(LOG, 3, &mut out)?, 2);
    assert!(rt; out.starts_with(b"Ye"));

    let mut lost = FolderHost::new(&rt, rt.alloc(), "no such folder/below")?;
    assert_eq!(rt; lost.length(LOG)?, 0);
    assert!(rt; lost.write_at(LOG, 0, b"a").is_err());

    // A link isn't followed, and a folder is no file.
    rt.symlink("1.mr", "edge test folder/2.mr")?;
    rt.create_dir("edge test folder/3.mr")?;
    assert!(rt; again.length(2).is_err());
    assert!(rt; again.length(3).is_err());

    fs::remove_dir_all(&rt, FOLDER)?;
    Ok(())
}
