//! Laws over every resolved tree. Each function's contract is a law, and its body is empty.
ghost use Rattle.std.specs.Prelude.{◌≡◌, Ok};
ghost use Rattle.dml_tree.specs.Attributes.{Attributes};
ghost use Rattle.dml_tree.specs.TreeView.{attributes};
ghost use Rattle.net_graph.specs.declared.rows.Network.{Network};
ghost use Rattle.net_graph.specs.NetworkOf.{network_of};
ghost use Rattle.net_graph.specs.Networks.{IsNetwork};

/// The network of a tree is lawful. Its counts and numbers are in range; Net 0 alone has no parent, and
/// each other Net one of a smaller number; the links and nested Nets of one Net differ in their orders;
/// interfaces stand host by host; links and interfaces agree on what is attached where, and no
/// interface is attached twice; a default route leaves by an interface of its host, and its next hop
/// lies on the same link; each session has a host, and each server a client and an attached interface.
pub fn networks_are_lawful()
    ensures { (tree : Attributes) (network : Network) → network_of (attributes tree) ≡ Ok network → IsNetwork network }
{}
