//! What the program answers where it does not end well: the status, and the line on `err`.
ghost use Rattle.std.specs.Prelude.{◌≡◌, ◌++◌, ◌∷◌, [], ℕ, length, map, codes, decimal, OnOk};
ghost use Rattle.ssfnet_top.specs.Refusals.{printable, printable_byte, status_of, line_of, placed_text, path_fault_text, tree_fault_text, shape_fault_text};
ghost use Rattle.nhi_address.specs.NhiText.{nhi_text};

use dml_resolve::PathFault;
use dml_tree::{Place, TreeFault};
use net_graph::ShapeFault;
use nhi_address::{Nhi, print_nhi};
use sim_base::{Memory, Text, push_number};

/// Why the program did not end well, with its cause.
#[derive(Drop)]
pub enum Refusal {
    /// There was no memory.
    Memory,
    /// The words are not those of a command.
    Words,
    /// The file of this name could not be read.
    Read(Text),
    /// The file of this name is no DML.
    Dml {
        file: Text,
        fault: TreeFault,
    },
    /// A substitution has this fault, which stands in the file of this name; a fault without a place
    /// names none.
    Path {
        file: Text,
        fault: PathFault,
    },
    /// The model has this fault.
    Shape(ShapeFault),
    /// The output could not be written.
    Write,
    /// The run has more events than this budget.
    Budget(u64),
    /// This timeline has more events than the budget, and no timeline has event number `budget`, counted from 0,
    /// before the time `below`, in ticks.
    TimelineBudget {
        timeline: u32,
        budget: u64,
        below: u64,
    },
    /// There was no memory to go on with a run on timelines. The records with times below this one, in
    /// ticks, were written.
    MemoryBelow(u64),
    /// The gate of this worker was closed. The records with times below this one, in ticks, were written.
    Stopped {
        worker: u32,
        below: u64,
    },
}

impl From<Memory> for Refusal {
    ghost use Rattle.std.specs.Prelude.{◌≡◌};
    ghost use Rattle.ssfnet_top.specs.declared.refusal.Refusal.TheVariants as refusal;

    ghost from_gives = { λ _ r. r ≡ refusal.Memory };

    fn from(_memory: Memory) -> Refusal {
        Refusal::Memory
    }
}

/// The refusal of a model with this fault; want of memory is no fault of the model.
impl From<ShapeFault> for Refusal {
    ghost use Rattle.std.specs.Prelude.{◌≡◌, ◌⊎◌};
    ghost use Rattle.net_graph.specs.declared.fault.ShapeFault.TheVariants as shape_fault;
    ghost use Rattle.ssfnet_top.specs.declared.refusal.Refusal.TheVariants as refusal;

    ghost from_gives = { λ fault r. ((fault ≡ shape_fault.Memory) × (r ≡ refusal.Memory)) ⊎ (¬ (fault ≡ shape_fault.Memory) × (r ≡ refusal.Shape fault)) };

    fn from(fault: ShapeFault) -> Refusal {
        match fault {
            ShapeFault::Memory => Refusal::Memory,
            fault => Refusal::Shape(fault),
        }
    }
}

impl Refusal {
    /// The status with which the program ends.
    pub fn status(&self) -> u8
        ensures { result ≡ status_of self.now }
    {
        match self {
            Refusal::Memory => 1,
            Refusal::Words => 2,
            Refusal::Read(_) => 3,
            Refusal::Dml { .. } => 4,
            Refusal::Path { .. } => 5,
            Refusal::Shape(_) => 6,
            Refusal::Write => 7,
            Refusal::Budget(_) => 8,
            Refusal::TimelineBudget { .. } => 8,
            Refusal::MemoryBelow(_) => 1,
            Refusal::Stopped { .. } => 9,
        }
    }

    /// Appends the line that is written on `err`.
    ///
    /// # Errors
    /// `Memory` where there was none. A part of the line may then stand in `out`.
    #[tactic(auto, unfolding(crate::specs::Refusals::line_of))]
    pub fn push_line(&self, out: &mut Vec<u8>) -> Result<(), Memory>
        ensures { OnOk result (out.new.items ≡ out.old.items ++ (line_of self.now ++ 10 ∷ [])) }
    {
        match self {
            Refusal::Memory => push(out, b"memory")?,
            Refusal::Words => push(out, b"words")?,
            Refusal::Read(file) => push_after(out, b"read ", file)?,
            Refusal::Dml { file, fault } => push_dml(out, file, fault)?,
            Refusal::Path { file, fault } => push_path(out, file, fault)?,
            Refusal::Shape(fault) => push_shape(out, fault)?,
            Refusal::Write => push(out, b"write")?,
            Refusal::Budget(budget) => push_count(out, b"budget list ", *budget)?,
            Refusal::TimelineBudget {
                timeline,
                budget,
                below,
            } => push_timeline(out, *timeline, *budget, *below)?,
            Refusal::MemoryBelow(below) => push_count(out, b"memory below ", *below)?,
            Refusal::Stopped { worker, below } => push_stopped(out, *worker, *below)?,
        }
        push(out, b"\n")
    }
}

/// Appends bytes as they are.
fn push(out: &mut Vec<u8>, bytes: &[u8]) -> Result<(), Memory>
    ensures { OnOk result (out.new.items ≡ out.old.items ++ bytes.now) }
{
    out.extend_from_slice(bytes)?;
    Ok(())
}

/// The byte as it is printed in a name or a detail.
fn printed(byte: u8) -> u8
    ensures { result ≡ printable_byte byte }
{
    if byte < 0x20 { b'?' } else { byte }
}

/// Appends some bytes and a name or a detail.
fn push_after(out: &mut Vec<u8>, front: &[u8], text: &Text) -> Result<(), Memory>
    ensures { OnOk result (out.new.items ≡ out.old.items ++ (front.now ++ printable text.now)) }
{
    push(out, front)?;
    for byte in text.as_bytes() {
        out.push(printed(*byte))?;
    }
    Ok(())
}

/// Appends some bytes and a number.
fn push_count(out: &mut Vec<u8>, front: &[u8], count: u64) -> Result<(), Memory>
    ensures { OnOk result (out.new.items ≡ out.old.items ++ (front.now ++ decimal count)) }
{
    push(out, front)?;
    push_number(out, count)
}

/// Appends the words of a timeline that has more events than a budget.
fn push_timeline(out: &mut Vec<u8>, timeline: u32, budget: u64, below: u64) -> Result<(), Memory>
    ensures { OnOk result (out.new.items ≡ out.old.items ++ (codes "budget timeline " ++ (decimal timeline ++ (32 ∷ decimal budget ++ (codes " below " ++ decimal below))))) }
{
    push_count(out, b"budget timeline ", u64::from(timeline))?;
    push_count(out, b" ", budget)?;
    push_count(out, b" below ", below)
}

/// Appends the words of a worker that was stopped.
fn push_stopped(out: &mut Vec<u8>, worker: u32, below: u64) -> Result<(), Memory>
    ensures { OnOk result (out.new.items ≡ out.old.items ++ (codes "stopped worker " ++ (decimal worker ++ (codes " below " ++ decimal below)))) }
{
    push_count(out, b"stopped worker ", u64::from(worker))?;
    push_count(out, b" below ", below)
}

/// Appends some bytes and an NHI.
fn push_nhi(out: &mut Vec<u8>, front: &[u8], nhi: &Nhi) -> Result<(), Memory>
    ensures { OnOk result (out.new.items ≡ out.old.items ++ (front.now ++ nhi_text nhi.now)) }
{
    push(out, front)?;
    print_nhi(nhi, out)
}

/// Appends a file, the name of a fault and its place in the file.
fn push_placed(out: &mut Vec<u8>, file: &Text, name: &[u8], place: &Place) -> Result<(), Memory>
    ensures { OnOk result (out.new.items ≡ out.old.items ++ placed_text file.now name.now place.now) }
{
    push_after(out, b"", file)?;
    push_count(out, name, u64::from(place.at))
}

/// Appends the line of a substitution with a fault.
#[tactic(auto, unfolding(crate::specs::Refusals::path_fault_text))]
fn push_path(out: &mut Vec<u8>, file: &Text, fault: &PathFault) -> Result<(), Memory>
    ensures { OnOk result (out.new.items ≡ out.old.items ++ (codes "path " ++ path_fault_text file.now fault.now)) }
{
    push(out, b"path ")?;
    match fault {
        PathFault::BadPath(place) => push_placed(out, file, b" BadPath ", place),
        PathFault::UnknownPath(place) => push_placed(out, file, b" UnknownPath ", place),
        PathFault::NotAList(place) => push_placed(out, file, b" NotAList ", place),
        PathFault::TooDeep(place) => push_placed(out, file, b" TooDeep ", place),
        PathFault::TooLarge => push(out, b"TooLarge"),
        PathFault::Memory => push(out, b"Memory"),
    }
}

/// Appends the line of a file that is no DML.
fn push_dml(out: &mut Vec<u8>, file: &Text, fault: &TreeFault) -> Result<(), Memory>
    ensures { OnOk result (out.new.items ≡ out.old.items ++ (codes "dml " ++ printable file.now ++ 32 ∷ tree_fault_text fault.now)) }
{
    push_after(out, b"dml ", file)?;
    push(out, b" ")?;
    push_tree_fault(out, fault)
}

/// Appends the name and the place of a fault in a DML text.
#[tactic(auto, unfolding(crate::specs::Refusals::tree_fault_text))]
fn push_tree_fault(out: &mut Vec<u8>, fault: &TreeFault) -> Result<(), Memory>
    ensures { OnOk result (out.new.items ≡ out.old.items ++ tree_fault_text fault.now) }
{
    match fault {
        TreeFault::BadByte(at) => push_count(out, b"BadByte ", u64::from(*at)),
        TreeFault::OpenQuote(at) => push_count(out, b"OpenQuote ", u64::from(*at)),
        TreeFault::KeyWanted(at) => push_count(out, b"KeyWanted ", u64::from(*at)),
        TreeFault::ValueWanted(at) => push_count(out, b"ValueWanted ", u64::from(*at)),
        TreeFault::OpenList(at) => push_count(out, b"OpenList ", u64::from(*at)),
        TreeFault::StrayClose(at) => push_count(out, b"StrayClose ", u64::from(*at)),
        TreeFault::NestedTooDeep(at) => push_count(out, b"NestedTooDeep ", u64::from(*at)),
        TreeFault::TooLong => push(out, b"TooLong 16777216"),
        TreeFault::Memory => push(out, b"Memory"),
    }
}

/// Appends the line of a model with a fault.
#[tactic(auto, unfolding(crate::specs::Refusals::shape_fault_text))]
fn push_shape(out: &mut Vec<u8>, fault: &ShapeFault) -> Result<(), Memory>
    ensures { OnOk result (out.new.items ≡ out.old.items ++ (codes "shape " ++ shape_fault_text fault.now)) }
{
    push(out, b"shape ")?;
    match fault {
        ShapeFault::BadNhi(text) => push_after(out, b"BadNhi ", text),
        ShapeFault::NoModel => push(out, b"NoModel"),
        ShapeFault::BadNumber(key) => push_after(out, b"BadNumber ", key),
        ShapeFault::Missing(key) => push_after(out, b"Missing ", key),
        ShapeFault::DoubleId(nhi) => push_nhi(out, b"DoubleId ", nhi),
        ShapeFault::UnknownNhi(nhi) => push_nhi(out, b"UnknownNhi ", nhi),
        ShapeFault::AttachedTwice(nhi) => push_nhi(out, b"AttachedTwice ", nhi),
        ShapeFault::UnknownSession(name) => push_after(out, b"UnknownSession ", name),
        ShapeFault::TooMany(kind) => push_after(out, b"TooMany ", kind),
        ShapeFault::NoSpace => push(out, b"NoSpace"),
        ShapeFault::DelayTooLong => push(out, b"DelayTooLong"),
        ShapeFault::TooManyChannels => push(out, b"TooManyChannels"),
        ShapeFault::TooManyTimelines(count) => push_count(
            out,
            b"TooManyTimelines ",
            u64::from(*count),
        ),
        ShapeFault::Memory => push(out, b"Memory"),
    }
}
