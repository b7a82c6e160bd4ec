//! The places at which a key stands in a tree.
use dml_resolve::{first, next};
use dml_tree::read;
use std::test::Fail;

#[test]
fn places_of_a_key(rt: HostRuntime) -> Result<(), Fail> {
    let tree = read(rt.alloc(), 0, b"a 1 b [ a 2 ] a [ ] c \"\"")?;
    assert_eq!(rt; first(&tree, b"a"), Some(0));
    assert_eq!(rt; next(&tree, b"a", 0), Some(2));
    assert_eq!(rt; next(&tree, b"a", 2), None);
    assert_eq!(rt; first(&tree, b"c"), Some(3));
    assert_eq!(rt; first(&tree, b"d"), None);
    assert_eq!(rt; next(&tree, b"c", 9), None);
    Ok(())
}
