ghost use Rattle.std.specs.Prelude.{◌≡◌, ◌<◌, ◌^◌, true, length, All, None, IfOk};
ghost use Rattle.sig_report.specs.Playing.{play};
ghost use Rattle.sig_script.specs.Built.{unbuilt};
ghost use Rattle.sig_script.specs.Leaving.{has_no_leaves};
ghost use Rattle.sig_script.specs.SelfContained.{IsSelfContained};
ghost use Rattle.sig_script.specs.Sizes.{size_fault};
ghost use Rattle.sig_script.specs.Starts.{StartsInOrder};

use crate::stage::Stage;
use sig_diff::NoMemory;
use sig_report::Report;
use sig_script::Script;
use std::alloc::Global;

/// Plays a script on one thread: the events of the schedule, then what each writer has left, then each view
/// to its end.
#[tactic(auto, using(crate::proofs::Reported::play_over, crate::proofs::Reported::reported_play))]
pub fn play(alloc: Global, script: &Script) -> Result<Report, NoMemory>
    requires built { unbuilt script.now ≡ None }
    requires in_order { StartsInOrder script.now }
    requires no_leaves { has_no_leaves script.now ≡ true }
    requires self_contained { IsSelfContained script.now }
    requires sized { size_fault script.now ≡ None }
    ensures play { IfOk result (λ report. report ≡ play script.now) }
    ensures few { IfOk result (λ report. All (λ source. length source.history < 2 ^ 32) report.sources) }
{
    let mut stage = Stage::new(alloc, script)?;
    stage.play_schedule(alloc, script)?;
    stage.write_out(script)?;
    stage.poll_out(alloc, script)?;
    stage.report(alloc, script)
}
