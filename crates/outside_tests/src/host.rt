//! Files of the system that another process cuts while they are open.

ghost use Rattle.mkv_io.specs.Sources.{IsLive};

use mkv_disk::{Disk, MEDIA};
use mkv_host::{RealDisk, RealFiles};
use mkv_io::{Failed, FileId, Files, OpenFault, Reads};
use std::fs;
use std::test::Fail;

/// Reads five bytes of `file` from byte 12 on, if it was long enough when it was opened, for the test
/// `a_file_that_another_cuts_fails`. Used by `fails_where_cut` and `fails_where_film_is_cut`.
fn read_end<R: Reads>(src: &mut R, file: FileId) -> Result<(), Failed>
    requires { IsLive R.Reads src.old file }
    ensures { IsLive R.Reads src.new file }
{
    if src.size(file) < 17 {
        return Ok(());
    }
    src.read_at(file, 12, &mut [0; 5])
}

/// Opens the file `name` in `files`, cuts it to three bytes by `rt`, and returns true if reading what it had fails
/// then, for the test `a_file_that_another_cuts_fails`.
fn fails_where_cut<F: Files>(
    rt: &HostRuntime,
    files: &mut F,
    name: &str,
) -> Result<bool, OpenFault> {
    let file = files.open_file(name)?;
    let is_cut = fs::write(rt, name, b"cut".as_slice()).is_ok();
    let reads = read_end(files, file).is_ok();
    files.close(file);
    Ok(is_cut && !reads)
}

/// Opens the film `name` on `disk` for an edit, cuts it to three bytes by `rt`, and returns true if reading what it had
/// fails then, for the test `a_file_that_another_cuts_fails`.
fn fails_where_film_is_cut<D: Disk>(
    rt: &HostRuntime,
    disk: &mut D,
    name: &str,
) -> Result<bool, OpenFault> {
    disk.open_pair(name)?;
    let is_cut = fs::write(rt, name, b"cut".as_slice()).is_ok();
    Ok(is_cut && read_end(disk, MEDIA).is_err())
}

#[test]
fn a_file_that_another_cuts_fails(rt: HostRuntime) -> Result<(), Fail> {
    let _ = fs::remove_dir_all(&rt, "mkv_host_cut");
    fs::create_dir(&rt, "mkv_host_cut")?;
    let name = "mkv_host_cut/a.mkv";
    fs::write(&rt, name, b"Matroska and WebM".as_slice())?;
    let mut files = RealFiles::new(rt.alloc(), &rt);
    assert_eq!(rt; fails_where_cut(&rt, &mut files, name), Ok(true));
    fs::write(&rt, name, b"Matroska and WebM".as_slice())?;
    let mut disk = RealDisk::new(rt.alloc(), &rt);
    assert_eq!(rt; fails_where_film_is_cut(&rt, &mut disk, name), Ok(true));
    fs::remove_dir_all(&rt, "mkv_host_cut")?;
    Ok(())
}
