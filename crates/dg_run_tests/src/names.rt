//! Names of vertices.

use dg_tokens::{Names, is_name};
use std::alloc::Global;
use std::process::Abort;
use std::test::Fail;

#[test]
fn names_are_kept_once(rt: HostRuntime) -> Result<(), Fail> {
    let mut names = Names::new(rt.alloc());
    keeps_one(&rt, rt.alloc(), &mut names)?;
    finds_one(&rt, &names);
    Ok(())
}

fn keeps_one(rt: &impl Abort, alloc: Global, names: &mut Names) -> Result<(), Fail> {
    let name = "a";
    assert!(rt; names.is_empty() && names.place(name.as_bytes()).is_none());
    assert!(rt; is_name(name.as_bytes()));
    assert!(rt; names.insert(alloc, name)?);
    assert!(rt; !names.insert(alloc, name)? && !names.is_empty());
    Ok(())
}

fn finds_one(rt: &impl Abort, names: &Names) {
    assert!(rt; names.place(b"a") == Some(0) && names.place(b"A").is_none());
    assert!(rt; names.place(b"\xff").is_none());
    assert!(rt; names.len() == 1);
    let mut line = [b'.'; 20];
    let start = names.write_label(0, &mut line, 19);
    assert!(rt; &line[start..] == b" a=.".as_slice());
}
