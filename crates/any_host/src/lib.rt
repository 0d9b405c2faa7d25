// A host record for a sheet of which no host is told.
#![tactic(auto)]

ghost use Rattle.std.specs.Prelude.{◌≡◌};
ghost use Rattle.any_host.specs.AnyHost.{any_host};

// With this root bus: buses to FFh, and the widest pools that check 26 lets through.
pub fn any_host(first: u8) -> [u8; 30]
    ensures { result ≡ any_host first }
{
    [
        first, 255, 0, 0, 0, 0, 255, 255, 255, 255, 0, 0, 0, 1, 0, 0, 0, 0, 0, 15, 255, 255, 255,
        255, 255, 255, 0, 0, 255, 255,
    ]
}
