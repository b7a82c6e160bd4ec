//! How many addresses the Nets need.
ghost use Rattle.std.specs.Prelude.{◌≡◌, ℕ, ◌+◌, ◌^◌, ◌<◌, ◌≤◌, length, vec_len, slice_index, slice_set, map, All, OnOk, OnErr, IfErr, IfOk};
ghost use Rattle.ip_blocks.specs.Blocks.{exponent_of, link_part, parts_of, IsLayout};
ghost use Rattle.ip_blocks.specs.Sums.{AreSums, AreTooMany, AllFit, AreExponents};

use crate::layout::{BlockFault, LinkSize, NetParent};
use std::alloc::Global;

/// The most addresses that the top Net may have.
const MOST: u32 = 1 << 24;

/// The exponent of the least power of two that is at least `addresses`.
pub(crate) fn exponent(addresses: u64) -> u8
    requires { addresses ≤ 2 ^ 33 }
    ensures { result ≡ exponent_of addresses }
{
    let mut exponent = 0u8;
    while (1u64 << exponent) < addresses {
        exponent += 1;
    }
    exponent
}

/// The exponent of a link's size: it has an address for each attachment, and two more.
pub(crate) fn link_exponent(link: LinkSize) -> u8
    ensures { result ≡ exponent_of (link.attachments + 2) }
{
    exponent(u64::from(link.attachments) + 2)
}

/// Adds 2^`exponent` addresses to what a Net needs.
///
/// # Errors
/// `NoSpace` where the Net then needs more than 2^24.
fn add(sums: &mut [u32], net: u32, exponent: u8) -> Result<(), BlockFault>
    requires net { net < length sums.old }
    requires most { slice_index sums.old net ≤ 2 ^ 24 }
    ensures ok { OnOk result (sums.new ≡ slice_set sums.old net (slice_index sums.old net + 2 ^ exponent)) }
    ensures fits { OnOk result (slice_index sums.old net + 2 ^ exponent ≤ 2 ^ 24) }
    ensures no_space { OnErr result (2 ^ 24 < slice_index sums.old net + 2 ^ exponent) }
    ensures fault { IfErr result (λ fault. fault ≡ BlockFault.NoSpace) }
{
    let net = net as usize;
    if exponent > 24 {
        return Err(BlockFault::NoSpace);
    }
    let sum = sums[net] + (1 << exponent);
    if sum > MOST {
        return Err(BlockFault::NoSpace);
    }
    sums[net] = sum;
    Ok(())
}

/// Adds what the links need to the Nets in which they lie.
///
/// # Errors
/// `NoSpace` where a Net then needs more than 2^24 addresses.
fn add_links(sums: &mut [u32], links: &[LinkSize]) -> Result<(), BlockFault>
    requires nets { All (λ (link : LinkSize). link.net < length sums.old) links.now }
    requires zero { All (λ sum. sum ≡ 0) sums.old }
    ensures ok { OnOk result (AreSums sums.new (map link_part links.now)) }
    ensures no_space { OnErr result (AreTooMany (length sums.old) (map link_part links.now)) }
    ensures fault { IfErr result (λ fault. fault ≡ BlockFault.NoSpace) }
{
    for link in links {
        add(sums, link.net, link_exponent(*link))?;
    }
    Ok(())
}

/// The exponents of what the Nets need, by number.
///
/// # Errors
/// `NoSpace` where the top Net needs more than 2^24 addresses, and `Memory`.
pub(crate) fn net_exponents(
    alloc: Global,
    links: &[LinkSize],
    nets: &[NetParent],
) -> Result<Vec<u8>, BlockFault>
    requires { IsLayout links.now nets.now }
    ensures exponents { IfOk result (λ exponents. AreExponents exponents.items (length nets.now) (parts_of links.now nets.now)) }
    ensures fits { OnOk result (AllFit (length nets.now) (parts_of links.now nets.now)) }
    ensures no_space { IfErr result (λ fault. fault ≡ BlockFault.NoSpace → AreTooMany (length nets.now) (parts_of links.now nets.now)) }
{
    let mut needs = vec![in alloc; 0u32; nets.len()]?;
    let mut exponents = vec![in alloc; 0u8; nets.len()]?;
    let sums = needs.as_mut_slice();
    add_links(sums, links)?;
    for number in (0..nets.len()).rev() {
        let exponent = exponent(u64::from(sums[number]));
        exponents[number] = exponent;
        if let Some(parent) = nets[number].parent {
            add(sums, parent, exponent)?;
        }
    }
    Ok(exponents)
}
