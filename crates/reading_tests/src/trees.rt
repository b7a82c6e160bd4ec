//! Trees that are equal, and trees that differ.
use dml_tree::{read, write};
use std::test::Fail;

#[test]
fn trees_differ_by_keys_and_values(rt: HostRuntime) -> Result<(), Fail> {
    let tree = read(rt.alloc(), 0, b"a 1 b [ c 2 ]")?;
    let same = read(rt.alloc(), 1, b"# x\na\"1\"b[c 2]")?;
    assert!(rt; tree == same);
    let others: [&[u8]; 7] = [
        b"",
        b"a 1",
        b"a 1 b [ c 2 ] d 3",
        b"a 1 b [ c 2 c 2 ]",
        b"a 1 b [ c 3 ]",
        b"a 1 d [ c 2 ]",
        b"a 1 b c",
    ];
    for bytes in others {
        let other = read(rt.alloc(), 0, bytes)?;
        assert!(rt; tree != other, "{bytes:?}");
        assert!(rt; other != tree, "{bytes:?}");
    }
    Ok(())
}

#[test]
fn a_printing_is_read_as_an_equal_tree(rt: HostRuntime) -> Result<(), Fail> {
    let texts: [&[u8]; 3] = [
        b"",
        b"a b\r#c\nc\"\"d\"\x7f #\"e[f[ g \x80 ]h\"]\"]",
        b"k [ a b a b ] k \" \"",
    ];
    for bytes in texts {
        let tree = read(rt.alloc(), 3, bytes)?;
        let mut lines = Vec::new(rt.alloc());
        write(&tree, &mut lines)?;
        let again = read(rt.alloc(), 0, lines.as_slice())?;
        assert!(rt; again == tree, "{bytes:?}");
    }
    Ok(())
}
