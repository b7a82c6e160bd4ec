//! The Nets of the nodes of a ring.
ghost use Rattle.std.specs.Prelude.{◌≡◌, length, IsTrue, ◌↔◌};
ghost use Rattle.dml_tree.specs.TreeView.{attributes};
ghost use Rattle.net_graph.specs.Keys.{values_of};
ghost use Rattle.net_build.specs.RingModel.{HasFewTokens};

use dml_tree::{Tree, read};
use net_build::ring_plan;
use net_graph::{first_list, has_key, is_net};
use std::test::Fail;

/// The most tokens of a ring.
const MOST_TOKENS: usize = 4_194_304;

/// Whether the ring of a tree has at most `MOST_TOKENS` tokens, as `ring_plan` wants it; so has a
/// tree without a ring.
fn has_few_tokens(tree: &Tree) -> bool
    ensures { IsTrue result ↔ HasFewTokens (attributes tree.now) }
{
    match first_list(tree, b"ring") {
        Some(ring) => count_values(ring, b"token") <= MOST_TOKENS,
        None => true,
    }
}

/// How many attributes have this key.
fn count_values(tree: &Tree, key: &[u8]) -> usize
    ensures { result ≡ length (values_of key.now (attributes tree.now)) }
{
    let mut count = 0;
    for attribute in tree.attributes() {
        if has_key(attribute, key) {
            count += 1;
        }
    }
    count
}

#[test]
fn all_nodes_are_of_one_net(rt: HostRuntime) -> Result<(), Fail> {
    let text = b"ring [ nodes 2 token 1 hop [ from 0 to 1 delay 5 ] ]";
    let tree = read(rt.alloc(), 0, text)?;
    assert!(rt; !is_net(&tree));
    assert!(rt; has_few_tokens(&tree));
    let Ok(built) = ring_plan(rt.alloc(), &tree) else {
        return Err(Fail::from("refused"));
    };
    assert_eq!(rt; built.nets.as_slice(), [0, 0].as_slice());
    Ok(())
}
