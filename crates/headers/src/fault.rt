//! Names of faults.

ghost use Rattle.std.specs.Prelude.{◌≡◌};
ghost use Rattle.headers.specs.Faults.{fault_name, fault_named};

use program::Fault;

/// The name of a fault, as `--fault` has it.
pub fn fault_name(fault: Fault) -> &'static [u8]
    ensures { result.now ≡ fault_name fault }
{
    match fault {
        Fault::None => b"none",
        Fault::NoBypass => b"no-bypass",
        Fault::YoungestFirst => b"youngest-first",
        Fault::OpenFence => b"open-fence",
        Fault::StaleShare => b"stale-share",
        Fault::EarlyRmw => b"early-rmw",
    }
}

/// The fault of a name, where it is one of the six.
pub fn fault_named(name: &[u8]) -> Option<Fault>
    ensures { result ≡ fault_named name.now }
{
    if name == fault_name(Fault::None) {
        return Some(Fault::None);
    }
    if name == fault_name(Fault::NoBypass) {
        return Some(Fault::NoBypass);
    }
    if name == fault_name(Fault::YoungestFirst) {
        return Some(Fault::YoungestFirst);
    }
    if name == fault_name(Fault::OpenFence) {
        return Some(Fault::OpenFence);
    }
    if name == fault_name(Fault::StaleShare) {
        return Some(Fault::StaleShare);
    }
    if name == fault_name(Fault::EarlyRmw) {
        return Some(Fault::EarlyRmw);
    }
    None
}
