// A report of many calls, for C.
ghost use Rattle.std.specs.Prelude.{◌≡◌};
ghost use Rattle.nxdn.specs.Interface.{on_report};

#[unsafe(no_mangle)]
pub extern "C" fn nxdn_report(counts: &[u32], sums: &mut [u64]) -> u8
    ensures { (result, sums.new) ≡ on_report counts.now sums.old }
{
    nxdn::reports::nxdn_report(counts, sums)
}
