// Which calls are to fail.
ghost use Rattle.std.specs.Prelude.{◌↔◌, IsTrue};
ghost use Rattle.std.specs.List.{Contains};

/// Whether the call of this number is to fail.
pub fn is_planned(fail_at: &[u64], number: u64) -> bool
    ensures { IsTrue result ↔ Contains fail_at.now number }
{
    fail_at.contains(&number)
}
