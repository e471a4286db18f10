ghost use Rattle.std.specs.Prelude.{◌≡◌, true, None};
ghost use Rattle.sig_report.specs.Lawful.{Lawful};
ghost use Rattle.sig_script.specs.Leaving.{has_no_leaves};
ghost use Rattle.sig_report.specs.Playing.{play};
ghost use Rattle.sig_script.specs.Built.{unbuilt};
ghost use Rattle.sig_script.specs.Starts.{StartsInOrder};

use sig_script::Script;

/// The play of a script is lawful: where all of it is built, each map starts with rising keys, and none of its edits is itself a leave.
pub fn play_is_lawful(script: &Script)
    ensures { unbuilt script.now ≡ None → StartsInOrder script.now → has_no_leaves script.now ≡ true → Lawful script.now (play script.now) }
{}
