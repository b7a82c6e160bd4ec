//! The files of a command: read, parsed and joined to one tree.
ghost use Rattle.std.specs.Prelude.{◌≡◌, ◌≤◌, ◌<◌, ◌^◌, ◌⊎◌, ◌∷◌, [], ℕ, List, length, map, string_bytes, IfOk, IfErr, IfSome, IsErrAnd};
ghost use Rattle.sim_base.specs.Outside.{Rose};
ghost use Rattle.ssfnet_top.specs.Refusals.{status_of};
ghost use Rattle.ssfnet_top.specs.Outcome.{IsFileRead, AreRead};
ghost use Rattle.ssfnet_top.specs.Answering.{IsOfFiles};
ghost use Rattle.ssfnet_top.specs.Ending.{IsReached};
ghost use Rattle.ssfnet_top.specs.FilePlaces.{AllPlaces, ArePlaced};

use crate::Refusal;
use dml_tree::{Tree, TreeFault, join, read};
use sim_base::{Library, ReadEnd, Text, read_file};
use std::alloc::Global;

/// The most bytes of a file.
const MOST_BYTES: usize = 16_777_216;

/// Reads the file of this name, which is file `number` of the model, as a tree.
fn read_tree<L: Library>(
    alloc: Global,
    library: &mut L,
    number: u32,
    name: &str,
) -> Result<Tree, Refusal>
    ensures file { IsErrAnd result (λ r. (r ≡ Refusal.Memory) ⊎ (status_of r ≡ 3)) ⊎ IfSome (L.files library.old) (λ told. IsFileRead told number name.now result) }
    ensures placed { IfOk result (λ tree. AllPlaces (λ place. place.file ≡ number) tree) }
    ensures cause { IfErr result (λ r. IsOfFiles (name.now ∷ []) r) }
    ensures read { IfErr result (λ r. status_of r ≡ 3 → Rose (L.faults library.old) (L.faults library.new)) }
    ensures never_falls { L.faults library.old ≤ L.faults library.new }
    ensures same_files { L.files library.new ≡ L.files library.old }
{
    match read_file(alloc, library, name, MOST_BYTES) {
        Ok(bytes) => match read(alloc, number, bytes.as_slice()) {
            Ok(tree) => Ok(tree),
            Err(TreeFault::Memory) => Err(Refusal::Memory),
            Err(fault) => Err(no_dml(alloc, name, fault)),
        },
        Err(ReadEnd::TooLong) => Err(no_dml(alloc, name, TreeFault::TooLong)),
        Err(ReadEnd::Memory) => Err(Refusal::Memory),
        Err(ReadEnd::Failed) => match Text::of(alloc, name.as_bytes()) {
            Ok(file) => Err(Refusal::Read(file)),
            Err(_memory) => Err(Refusal::Memory),
        },
    }
}

/// The refusal of a file with this fault.
fn no_dml(alloc: Global, name: &str, fault: TreeFault) -> Refusal
    ensures { (result ≡ Refusal.Memory) ⊎ (result ≡ Refusal.Dml name.now fault) }
{
    match Text::of(alloc, name.as_bytes()) {
        Ok(file) => Refusal::Dml { file, fault },
        Err(_memory) => Refusal::Memory,
    }
}

/// Reads files by their names, in order, and joins their trees.
///
/// # Errors
/// `Read` only where the library's `faults` rose in this call; `Dml` for a file that is too long or
/// has no tree; `Memory`. The first file that is refused decides.
pub fn read_files<L: Library>(
    alloc: Global,
    library: &mut L,
    names: &[String],
) -> Result<Tree, Refusal>
    requires { length names.now < 2 ^ 32 }
    ensures files { IsErrAnd result (λ r. (r ≡ Refusal.Memory) ⊎ (status_of r ≡ 3)) ⊎ IfSome (L.files library.old) (λ told. AreRead told 0 (map string_bytes names.now) result) }
    ensures placed { IfOk result (λ tree. ArePlaced (map string_bytes names.now) tree) }
    ensures cause { IfErr result (λ r. IsOfFiles (map string_bytes names.now) r) }
    ensures reached { IfErr result (λ r. (name : List ℕ) → r ≡ Refusal.Read name → IfSome (L.files library.old) (λ told. IsReached told 0 (map string_bytes names.now) name)) }
    ensures read { IfErr result (λ r. status_of r ≡ 3 → Rose (L.faults library.old) (L.faults library.new)) }
    ensures never_falls { L.faults library.old ≤ L.faults library.new }
    ensures same_files { L.files library.new ≡ L.files library.old }
{
    let mut root = Tree::of(Vec::new(alloc));
    for (number, name) in names.iter().enumerate() {
        let tree = match read_tree(alloc, library, number as u32, name.as_str()) {
            Ok(tree) => tree,
            Err(refusal) => return Err(refusal),
        };
        if let Err(_refused) = join(&mut root, tree) {
            return Err(Refusal::Memory);
        }
    }
    Ok(root)
}
