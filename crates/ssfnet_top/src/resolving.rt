//! The resolved tree of the files of a command, or the refusal of a substitution.
ghost use Rattle.std.specs.Prelude.{◌≡◌, ◌<◌, ◌≤◌, ◌⊎◌, Ok, Err, length, map, string_bytes, IfOk, IfErr};
ghost use Rattle.dml_resolve.specs.Resolving.{counted_weight, most_weight};
ghost use Rattle.ssfnet_top.specs.Outcome.{file_name, file_of_fault, resolved_of};
ghost use Rattle.ssfnet_top.specs.FilePlaces.{ArePlaced, IsPlaced};
ghost use Rattle.ssfnet_top.specs.Answering.{IsOfModel};
ghost use Rattle.ssfnet_top.specs.Ending.{IsFaultOf};

use crate::Refusal;
use dml_resolve::{PathFault, resolve};
use dml_tree::Tree;
use sim_base::Text;
use std::alloc::Global;

/// Resolves the joined tree of files with these names.
///
/// # Errors
/// `Path` with the first fault of a substitution, and `Memory`.
pub fn resolve_files(alloc: Global, names: &[String], tree: &Tree) -> Result<Tree, Refusal>
    requires { ArePlaced (map string_bytes names.now) tree.now }
    ensures resolved { IfOk result (λ resolved. resolved_of (map string_bytes names.now) tree.now ≡ Ok resolved) }
    ensures cause { IfErr result (λ r. (r ≡ Refusal.Memory) ⊎ (resolved_of (map string_bytes names.now) tree.now ≡ Err r)) }
    ensures refusal { IfErr result (λ r. IsOfModel (map string_bytes names.now) r) }
    ensures small { IfOk result (λ resolved. counted_weight resolved ≤ most_weight) }
{
    match resolve(alloc, tree) {
        Ok(resolved) => Ok(resolved),
        Err(PathFault::Memory) => Err(Refusal::Memory),
        Err(fault) => Err(path_refusal(alloc, names, fault)),
    }
}

/// The refusal with this fault.
fn path_refusal(alloc: Global, names: &[String], fault: PathFault) -> Refusal
    requires { IsPlaced (map string_bytes names.now) fault }
    ensures { (result ≡ Refusal.Memory) ⊎ (result ≡ Refusal.Path (file_of_fault (map string_bytes names.now) fault) fault) }
{
    match Text::of(alloc, fault_file(names, &fault).as_bytes()) {
        Ok(file) => Refusal::Path { file, fault },
        Err(_memory) => Refusal::Memory,
    }
}

/// The name of the file in which the place of a fault stands.
fn fault_file<'a>(names: &'a [String], fault: &PathFault) -> &'a str
    requires { IsPlaced (map string_bytes names.now) fault.now }
    ensures { result.now ≡ file_of_fault (map string_bytes names.now) fault.now }
{
    match fault {
        PathFault::BadPath(place)
        | PathFault::UnknownPath(place)
        | PathFault::NotAList(place)
        | PathFault::TooDeep(place) => file_name(names, place.file),
        PathFault::TooLarge | PathFault::Memory => "",
    }
}

/// The name of the file of this number.
fn file_name(names: &[String], number: u32) -> &str
    requires { number < length names.now }
    ensures { result.now ≡ file_name (map string_bytes names.now) number }
{
    names[number as usize].as_str()
}
