//! A law of interfaces: the contract of a function with an empty body.
ghost use Rattle.std.specs.Prelude.{ℕ, ◌≤◌, ◌^◌};
ghost use Rattle.net_iface.specs.InterfaceFields.{InterfaceFields, IsInterface};
ghost use Rattle.net_iface.specs.DropTail.{after_offer};

/// An offer at a tick of at most 10^18 keeps an interface's fields in their ranges.
pub fn offers_keep_interfaces()
    ensures { (i : InterfaceFields) (bytes now : ℕ) → now ≤ 10 ^ 18 → IsInterface i → IsInterface (after_offer i bytes now) }
{}
