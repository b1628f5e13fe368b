// A report of many calls, for C.
ghost use Rattle.std.specs.Prelude.{◌≡◌};
ghost use Rattle.report.specs.Report.{figures};
ghost use Rattle.nxdn.specs.Interface.{on_report};

use crate::WRONG_LENGTH;
use report::Sums;

const FIGURES: usize = 6;

fn figures_of(sums: Sums) -> [u64; FIGURES]
    ensures { result ≡ figures sums }
{
    [
        sums.opened,
        sums.held,
        sums.replaced,
        sums.lost,
        sums.part,
        sums.whole,
    ]
}

pub fn nxdn_report(counts: &[u32], sums: &mut [u64]) -> u8
    ensures { (result, sums.new) ≡ on_report counts.now sums.old }
{
    if sums.len() != FIGURES {
        return WRONG_LENGTH;
    }
    match report::report(counts) {
        Ok(reported) => {
            sums.copy_from_slice(&figures_of(reported));
            0
        }
        Err(refusal) => refusal.number(),
    }
}
