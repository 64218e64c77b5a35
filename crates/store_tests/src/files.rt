//! Keepers over files.
use crate::rows::{change_one, loaded};
use std::alloc::Global;
use std::fs;
use std::test::Fail;
use wm_keeper::{KeepFault, Keeper};
use wm_sqlite::FileKeeper;

const FOLDER: &str = "store_tests_files";

const PATH: &str = "store_tests_files/work.db";

const OTHER_PATH: &str = "store_tests_files/other.db";

/// Puts a row into the store of this name, and tells whether there was none.
fn put_first<K: Keeper>(alloc: Global, keeper: &mut K, name: &str) -> Result<bool, KeepFault> {
    let none = loaded(alloc, keeper, name)?.is_empty();
    change_one(alloc, keeper, 6, Some(0))?;
    Ok(none)
}

#[test]
fn what_was_committed_is_loaded_by_the_next_keeper(rt: HostRuntime) -> Result<(), Fail> {
    let alloc = rt.alloc();
    let _ = fs::remove_dir_all(&rt, FOLDER);
    fs::create_dir(&rt, FOLDER)?;
    let mut first = FileKeeper::new(&rt);
    assert_eq!(rt; first.commit(&[]), Err(KeepFault::Failed));
    assert_eq!(rt;
        loaded(alloc, &mut first, FOLDER).err(),
        Some(KeepFault::Failed)
    );
    assert!(rt; loaded(alloc, &mut first, PATH)?.is_empty());
    change_one(alloc, &mut first, 5, Some(1))?;
    change_one(alloc, &mut first, 4, Some(0))?;
    drop(first);
    let mut other = FileKeeper::new(&rt);
    assert!(rt; put_first(alloc, &mut other, OTHER_PATH)?);
    drop(other);
    let mut second = FileKeeper::new(&rt);
    let rows = loaded(alloc, &mut second, PATH)?;
    assert_eq!(rt; rows.as_slice(), [(4, 0), (5, 1)].as_slice());
    drop(second);
    fs::remove_dir_all(&rt, FOLDER)?;
    Ok(())
}
